ghost use Rattle.std.specs.Prelude.{◌≡◌, ◌++◌, IfOk, OnOk, OnErr, string_bytes};
ghost use Rattle.devices.specs.Writing.{HasAll};
ghost use Rattle.answers.specs.Answers.{HasMetFailure};
ghost use Rattle.answers.specs.ImageLine.{image_line};

use devices::{Counted, write_bytes};
use std::alloc::{AllocError, Global};
use std::fmt::Write as _;
use std::io;
use std::io::Write;

/// Writes a text.
pub fn write_text<W: Write>(writer: &mut Counted<W>, text: &str) -> io::Result<()>
    ensures ok { OnOk result (HasAll W.contents writer.old writer.new text.now) }
    ensures failed { OnErr result (HasMetFailure writer.new) }
{
    write_bytes(writer, text.as_bytes())
}

/// The line that tells of an image of so many instructions.
pub fn line_of_image(alloc: Global, count: usize) -> Result<String, AllocError>
    ensures { IfOk result (λ line. string_bytes line ≡ image_line count) }
{
    let mut line = String::new(alloc);
    append_image_line(&mut line, count)?;
    Ok(line)
}

fn append_image_line(text: &mut String, count: usize) -> Result<(), AllocError>
    ensures { OnOk result (string_bytes text.new ≡ string_bytes text.old ++ image_line count) }
{
    writeln!(text, "ok {count} instructions")
}
