ghost use Rattle.std.specs.Prelude.{◌≡◌, ◌<◌, ◌++◌, IfOk, OnOk};
ghost use Rattle.std.specs.String.{string_bytes};
ghost use Rattle.isa.specs.Lines.{place_text, line, lines};

use crate::image::Image;
use crate::instr::Instr;
use std::alloc::{AllocError, Global};
use std::fmt::Write;

// A place in five digits.
fn append_place(text: &mut String, place: u32) -> Result<(), AllocError>
    ensures { OnOk result (string_bytes text.new ≡ string_bytes text.old ++ place_text place) }
{
    write!(text, "{}", place / 10000)?;
    write!(text, "{}", place / 1000 % 10)?;
    write!(text, "{}", place / 100 % 10)?;
    write!(text, "{}", place / 10 % 10)?;
    write!(text, "{}", place % 10)
}

// The line of one instruction.
fn append_line(text: &mut String, place: u32, instr: Instr) -> Result<(), AllocError>
    ensures { OnOk result (string_bytes text.new ≡ string_bytes text.old ++ line place instr) }
{
    append_place(text, place)?;
    writeln!(text, " {instr}")
}

/// The lines of an image's instructions: the place in five digits, and the instruction.
pub fn list_lines(alloc: Global, image: &Image) -> Result<String, AllocError>
    ensures { IfOk result (λ text. string_bytes text ≡ lines 0 image.now.code) }
{
    let mut text = String::new(alloc);
    let mut place = 0;
    let code = image.code();
    for instr in code {
        append_line(&mut text, place, *instr)?;
        place += 1;
    }
    Ok(text)
}
