ghost use Rattle.std.specs.Prelude.{◌≡◌, ◌++◌, OnOk};
ghost use Rattle.lowering.specs.Pieces as pieces;

use isa::{Instr, Slot};
use lowering::{Mark, Marked, append};
use std::alloc::AllocError;

/// The parameters of a procedure go from the operands into its first locals.
pub fn parameters(count: u32, code: &mut Vec<Marked>) -> Result<(), AllocError>
    ensures { OnOk result (code.new.items ≡ code.old.items ++ pieces.parameters_code count) }
{
    let mut left = count;
    while left > 0 {
        left -= 1;
        append(code, Mark::Plain, Instr::SetLocal(Slot::Local(left)))?;
    }
    Ok(())
}
