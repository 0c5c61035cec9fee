ghost use Rattle.std.specs.Prelude.{◌≡◌, ◌≤◌, ◌+◌, ◌++◌, length, OnOk};
ghost use Rattle.std.specs.String.{string_bytes};
ghost use Rattle.isa.specs.Limits.{most_monitors};
ghost use Rattle.emit_image.specs.Texts.{declared, head, monitors_text, needed, opening};

use crate::operands::{depth_behind, first_depth};
use isa::{Image, Instr};
use std::alloc::AllocError;
use std::fmt::Write;

// The links of monitors from an address on, and the address behind all.
fn append_monitors(text: &mut String, first: u32, monitors: &[u32]) -> Result<(), AllocError>
    requires { length monitors.now ≤ most_monitors }
    ensures { OnOk result (string_bytes text.new
        ≡ string_bytes text.old ++ monitors_text first monitors.now) }
{
    let mut address = first as usize;
    for members in monitors {
        write!(text, " M({address})")?;
        address += 2 + *members as usize;
    }
    write!(text, "\n#define MESA_PAST {address}")?;
    Ok(())
}

// So many operands, declared.
fn append_declared(text: &mut String, count: usize) -> Result<(), AllocError>
    ensures { OnOk result (string_bytes text.new ≡ string_bytes text.old ++ declared count) }
{
    for number in 0..count {
        write!(text, " M(d{number})")?;
    }
    Ok(())
}

// The operands that a function of an image needs.
fn needed(code: &[Instr]) -> usize
    ensures { result ≡ needed code.now }
{
    let mut depth = first_depth(code);
    let mut most = depth;
    let mut left = code;
    'walk: while let [instr, rest @ ..] = left {
        depth = depth_behind(depth, *instr, rest);
        most = most.max(depth);
        left = rest;
    }
    most + 1
}

// The first lines.
fn append_opening(text: &mut String, first: u32) -> Result<(), AllocError>
    ensures { OnOk result (string_bytes text.new ≡ string_bytes text.old ++ opening first) }
{
    write!(
        text,
        "/* Written by `mesamon emit`. */\n#define MESA_FIRST {first}\n#define MESA_MONITORS(M)"
    )
}

/// What the header has to be told.
pub(crate) fn append_head(text: &mut String, image: &Image) -> Result<(), AllocError>
    ensures { OnOk result (string_bytes text.new ≡ string_bytes text.old ++ head image.now) }
{
    let first = image.version().monitors_base();
    append_opening(text, first)?;
    append_monitors(text, first, image.monitors())?;
    text.push_str("\n#define MESA_OPERANDS(M)")?;
    append_declared(text, needed(image.code()))?;
    text.push_str("\n#include \"mesa_image.h\"\n\n")?;
    Ok(())
}
