ghost use Rattle.std.specs.Prelude.{◌≡◌, [], ◌∷◌, ◌++◌, OnOk};
ghost use Rattle.lowering.specs.Marks.{with_mark, plainly};

use crate::mark::{Mark, Marked};
use isa::Instr;
use std::alloc::AllocError;

/// One more instruction, with its mark.
#[inline]
pub fn append(code: &mut Vec<Marked>, mark: Mark, instruction: Instr) -> Result<(), AllocError>
    ensures { OnOk result (code.new.items ≡ code.old.items ++ with_mark mark instruction ∷ []) }
{
    code.push(Marked { instruction, mark })?;
    Ok(())
}

/// Some more instructions, at which no action stands.
pub fn append_plain(code: &mut Vec<Marked>, instructions: &[Instr]) -> Result<(), AllocError>
    ensures { OnOk result (code.new.items ≡ code.old.items ++ plainly instructions.now) }
{
    // Room is asked for once, and not for each of them.
    code.reserve(instructions.len())?;
    for instruction in instructions {
        code.push_reserved(Marked {
            instruction: *instruction,
            mark: Mark::Plain,
        });
    }
    Ok(())
}
