ghost use Rattle.std.specs.Prelude.{◌≡◌, ◌<◌, ◌^◌, ◌++◌, ℕ, IfOk, List, OnOk, [], map, nat_eq};
ghost use Rattle.std.specs.String.{string_bytes};
ghost use Rattle.emit_image.specs.Comments.{behind_comment, comment, comments, later, line_of, lines_in, shown};

use std::alloc::{AllocError, Global};
use std::fmt::Write;

/// Where the code of a line of a source text begins.
#[derive(Clone, Copy)]
pub struct LineStart {
    /// The place of its first instruction.
    pub place: usize,
    /// The number of the line, from 1 on.
    pub line: u32,
}

/// A law of the comments of emitted C: whatever a line of the source has, and whatever stands behind its comment, the
/// comment ends where it was written to end. Nothing is done when it runs.
pub fn comments_end()
    ensures { (number : ℕ) (line rest : List ℕ) → number < 2 ^ 64
        → behind_comment [] (comment number line ++ rest) ≡ rest }
{}

fn is_line_feed(byte: u8) -> bool
    ensures { result ≡ nat_eq byte 10 }
{
    byte == b'\n'
}

/// The lines of a text.
pub(crate) fn lines_in<'t>(alloc: Global, text: &'t [u8]) -> Result<Vec<&'t [u8]>, AllocError>
    ensures { IfOk result (λ lines. map (λ line. line.now) lines.items ≡ lines_in text.now) }
{
    text.split(|byte| is_line_feed(*byte)).collect(alloc)
}

// The line of this number, where there is one, or else no bytes.
fn line_of<'t>(source: &[&'t [u8]], number: u32) -> &'t [u8]
    ensures { result.now ≡ line_of (map (λ line. line.now) source.now) number }
{
    let index = (number as usize).saturating_sub(1);
    source.get(index).copied().unwrap_or(&[])
}

// How a byte of a line is shown.
fn shown_byte(byte: u8) -> u8
    ensures { result ≡ shown byte }
{
    match byte {
        9..=13 => b' ',
        32..=62 | 64..=91 | 93..=126 => byte,
        _ => b'.',
    }
}

// Bytes of a line, as they are shown.
fn append_shown(text: &mut String, bytes: &[u8]) -> Result<(), AllocError>
    ensures { OnOk result (string_bytes text.new ≡ string_bytes text.old ++ map shown bytes.now) }
{
    for byte in bytes {
        text.push(char::from(shown_byte(*byte)))?;
    }
    Ok(())
}

// The comment of a line.
fn append_comment(text: &mut String, number: u32, line: &[u8]) -> Result<(), AllocError>
    ensures { OnOk result (string_bytes text.new ≡ string_bytes text.old ++ comment number line.now) }
{
    write!(text, "// {number}: ")?;
    append_shown(text, line)?;
    text.push_str("\n")
}

/// The comments before the instruction at a place, where the code of these lines is still to come; of which it is then
/// still to come.
pub(crate) fn append_comments<'s>(
    text: &mut String,
    source: &[&[u8]],
    starts: &'s [LineStart],
    place: usize,
) -> Result<&'s [LineStart], AllocError>
    ensures written { OnOk result (string_bytes text.new ≡ string_bytes text.old
        ++ comments (map (λ line. line.now) source.now) place starts.now) }
    ensures later { IfOk result (λ left. left.now ≡ later place starts.now) }
{
    let mut left = starts;
    'comments: while let [start, rest @ ..] = left {
        if start.place > place {
            return Ok(left);
        }
        append_comment(text, start.line, line_of(source, start.line))?;
        left = rest;
    }
    Ok(left)
}
