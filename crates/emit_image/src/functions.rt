ghost use Rattle.std.specs.Prelude.{◌≡◌, ◌++◌, true, IfOk, OnOk, slice_set};
ghost use Rattle.std.specs.String.{string_bytes};
ghost use Rattle.emit_image.specs.Functions.{beginnings, begins, mark};
ghost use Rattle.emit_image.specs.Operands.{first_depth};
ghost use Rattle.emit_image.specs.Texts.{declarations, function_line};

use crate::operands::{depth_behind, first_depth};
use isa::{Image, Instr};
use std::alloc::{AllocError, Global};
use std::fmt::Write;

// Marks a place, where it is one.
fn set_mark(marks: &mut Vec<bool>, place: u32)
    ensures { marks.new.items ≡ slice_set marks.old.items place true }
{
    if let Some(mark) = marks.get_mut(place as usize) {
        *mark = true;
    }
}

// Marks where an instruction leads into a function.
fn mark(marks: &mut Vec<bool>, instr: Instr)
    ensures { marks.new.items ≡ mark instr marks.old.items }
{
    if let Instr::Call(place) | Instr::Fork(place, _) = instr {
        set_mark(marks, place);
    }
}

/// Of each place of an image whether a function begins there.
pub(crate) fn beginnings(alloc: Global, image: &Image) -> Result<Vec<bool>, AllocError>
    ensures { IfOk result (λ marks. marks.items ≡ beginnings image.now) }
{
    let code = image.code();
    let mut marks = vec![in alloc; false; code.len()]?;
    set_mark(&mut marks, image.start());
    for instr in code {
        mark(&mut marks, *instr);
    }
    Ok(marks)
}

// Whether a function begins at a place.
fn begins(marks: &[bool], place: usize) -> bool
    ensures { result ≡ begins marks.now place }
{
    marks.get(place).copied().unwrap_or(false)
}

/// The line of a function with so many parameters, where one begins at a place.
pub(crate) fn append_function(
    text: &mut String,
    name: &str,
    marks: &[bool],
    depth: usize,
    place: usize,
) -> Result<(), AllocError>
    ensures { OnOk result (string_bytes text.new
        ≡ string_bytes text.old ++ function_line name.now (begins marks.now place) depth place) }
{
    if begins(marks, place) {
        writeln!(text, "{name}{depth}({place})")?;
    }
    Ok(())
}

/// The functions are declared.
pub(crate) fn append_declarations(
    text: &mut String,
    marks: &[bool],
    code: &[Instr],
) -> Result<(), AllocError>
    ensures { OnOk result (string_bytes text.new
        ≡ string_bytes text.old ++ declarations marks.now 0 (first_depth code.now) code.now) }
{
    let mut place = 0;
    let mut depth = first_depth(code);
    let mut left = code;
    'declarations: while let [instr, rest @ ..] = left {
        append_function(text, "MESA_CODE_", marks, depth, place)?;
        depth = depth_behind(depth, *instr, rest);
        place += 1;
        left = rest;
    }
    Ok(())
}
