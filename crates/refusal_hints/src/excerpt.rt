// The source line of a refusal, and a caret under its place.

use text_writer::TextWriter;

// How many bytes of a long line are shown, and how many of them stand before the place.
const WIDTH: usize = 72;

const BEFORE: usize = 40;

// A tab is shown as blanks, and in the caret's line too: so the caret stands right whatever a terminal makes of tabs.
const TAB: &str = "    ";

/// The bytes of a line before a column, and from that column on. Both count from 1.
pub(crate) fn split_line(text: &[u8], line: u32, column: u32) -> (&[u8], &[u8]) {
    let line = text
        .split(|byte| *byte == b'\n')
        .nth((line as usize).saturating_sub(1))
        .unwrap_or(&[]);
    let line = match line {
        [line @ .., b'\r'] => line,
        line => line,
    };
    let before = (column as usize).saturating_sub(1).min(line.len());
    line.split_at(before)
}

// Whether a token, or a character of UTF-8, that begins with one byte goes on with another.
fn goes_on(first: u8, byte: u8) -> bool {
    if first.is_ascii_alphabetic() {
        return byte.is_ascii_alphanumeric();
    }
    if first.is_ascii_digit() {
        return byte.is_ascii_digit();
    }
    !first.is_ascii() && matches!(byte, 128..192)
}

/// How many bytes the token has that stands first: where none does, one, or those of a character of UTF-8.
pub(crate) fn token_length(bytes: &[u8]) -> usize {
    if let [b':' | b'<' | b'>', b'=', ..] = bytes {
        return 2;
    }
    let mut length: usize = 1;
    if let [first, rest @ ..] = bytes {
        for byte in rest {
            if !goes_on(*first, *byte) {
                break;
            }
            length = length.saturating_add(1);
        }
    }
    length
}

// Appends a source byte.
fn append_byte(out: &mut TextWriter, byte: u8) {
    if byte == b'\t' {
        return out.text(TAB);
    }
    out.shown(&[byte])
}

// Appends source bytes.
fn append_source(out: &mut TextWriter, bytes: &[u8]) {
    for byte in bytes {
        append_byte(out, *byte);
    }
}

// Appends what stands under source bytes: blanks, or a caret's tail.
fn append_under(out: &mut TextWriter, bytes: &[u8], under: char) {
    for byte in bytes {
        if *byte == b'\t' {
            out.text(TAB);
        } else {
            out.sign(under);
        }
    }
}

// What is shown of the bytes before a place: of a long line, the last of them.
fn end_of<'t>(before: &'t [u8], rest: &[u8]) -> &'t [u8] {
    if before.len().saturating_add(rest.len()) <= WIDTH {
        return before;
    }
    let hidden = before.len().saturating_sub(BEFORE);
    before.get(hidden..).unwrap_or(before)
}

// What is shown of the bytes from a place on: of a long line, the first of them.
fn start_of<'t>(shown_before: &[u8], rest: &'t [u8]) -> &'t [u8] {
    let room = WIDTH.saturating_sub(shown_before.len());
    rest.get(..room).unwrap_or(rest)
}

// Appends the caret, with the tail that its token's length gives it.
fn append_caret(out: &mut TextWriter, shown: &[u8]) {
    out.text("^");
    let length = token_length(shown).min(shown.len());
    append_under(out, shown.get(1..length).unwrap_or(&[]), '~')
}

// Appends a line of source bytes, those before a place and those from there on, where more may stand before and behind
// them.
fn append_line(
    out: &mut TextWriter,
    left: &[u8],
    right: &[u8],
    more_before: bool,
    more_behind: bool,
) {
    out.text(if more_before { "  .." } else { "  " });
    append_source(out, left);
    append_source(out, right);
    out.text(if more_behind { "..\n" } else { "\n" })
}

// Appends a line with the caret under the first of the bytes on the right.
fn append_pointer(out: &mut TextWriter, left: &[u8], right: &[u8], more_before: bool) {
    out.text(if more_before { "    " } else { "  " });
    append_under(out, left, ' ');
    append_caret(out, right);
    out.text("\n")
}

/// Appends a line, given as its bytes before a place and those from there on, and a line with a caret under the place.
pub(crate) fn append_excerpt(out: &mut TextWriter, before: &[u8], rest: &[u8]) {
    let left = end_of(before, rest);
    let right = start_of(left, rest);
    let more_before = left.len() < before.len();
    append_line(out, left, right, more_before, right.len() < rest.len());
    append_pointer(out, left, right, more_before)
}
