ghost use Rattle.std.specs.Prelude.{◌≡◌, ◌++◌, IfOk, OnOk};
ghost use Rattle.std.specs.String.{string_bytes};
ghost use Rattle.emit_image.specs.Texts.{c_text, ending};

use crate::comments::{LineStart, lines_in};
use crate::functions::{append_declarations, beginnings};
use crate::head::append_head;
use crate::lines::append_lines;
use isa::Image;
use std::alloc::{AllocError, Global};
use std::fmt::Write;

// The last line.
fn append_ending(text: &mut String, start: u32) -> Result<(), AllocError>
    ensures { OnOk result (string_bytes text.new ≡ string_bytes text.old ++ ending start) }
{
    writeln!(text, "MESA_END({start})")
}

/// An image as one file of C over `include/mesa_image.h`: each instruction is a line, a macro of the header with its place,
/// its numbers and the operands that it names. A function begins at the start and wherever a CALL or a FORK leads.
///
/// Before the instruction at the place of a `LineStart` stands that line of the source text, as a comment with its number.
/// The starts are taken in their order; one whose place is no higher than that of the one before stands directly behind it.
///
/// Of the code of programs the operands are those of the machine's frame. The C of other images may name others; a
/// compiler refuses it where a jump leads out of a function.
///
/// # Errors
///
/// Where memory runs out, and for nothing else.
pub fn emit_image(
    alloc: Global,
    image: &Image,
    source: &[u8],
    starts: &[LineStart],
) -> Result<Vec<u8>, AllocError>
    ensures { IfOk result (λ file. file.items ≡ c_text image.now source.now starts.now) }
{
    let source = lines_in(alloc, source)?;
    let marks = beginnings(alloc, image)?;
    let mut text = String::new(alloc);
    append_head(&mut text, image)?;
    append_declarations(&mut text, marks.as_slice(), image.code())?;
    text.push_str("MESA_OPEN\n")?;
    append_lines(
        &mut text,
        source.as_slice(),
        starts,
        marks.as_slice(),
        image.code(),
    )?;
    append_ending(&mut text, image.start())?;
    Ok(text.into_bytes())
}
