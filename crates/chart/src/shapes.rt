ghost use Rattle.std.specs.List.{flat_map};
ghost use Rattle.text_writer.specs.Writing.{IsWritten};
ghost use Rattle.chart.specs.Texts.{escape};

use text_writer::TextWriter;

// How many letters of a name are shown.
const MOST_LETTERS: usize = 40;

/// Appends a form with numbers, a text, and the end of a text's element.
pub(crate) fn append_text(out: &mut TextWriter, form: &str, numbers: &[u64], text: &[u8]) {
    out.form(form, numbers);
    append_clipped(out, text);
    out.text("</text>\n")
}

// Appends a byte, or what XML has for it where it begins or ends a tag or an entity.
fn append_byte(out: &mut TextWriter, byte: u8)
    ensures { IsWritten out.old out.new (escape byte) }
{
    match byte {
        b'<' => out.text("&lt;"),
        b'>' => out.text("&gt;"),
        b'&' => out.text("&amp;"),
        other => out.sign(char::from(other)),
    }
}

/// Appends a text, with what XML has for the bytes that begin or end a tag or an entity.
pub(crate) fn append_escaped(out: &mut TextWriter, text: &[u8])
    ensures { IsWritten out.old out.new (flat_map escape text.now) }
{
    for byte in text {
        append_byte(out, *byte);
    }
}

/// Appends a text of ASCII, with what XML has for some of its bytes; of a long one the first letters, and `..`.
pub(crate) fn append_clipped(out: &mut TextWriter, text: &[u8]) {
    match text.get(..MOST_LETTERS) {
        None => append_escaped(out, text),
        Some(front) => {
            append_escaped(out, front);
            out.text("..")
        }
    }
}

/// How many letters `append_clipped` shows of a text of that length.
pub(crate) fn letters_of(text: &[u8]) -> u64 {
    if text.len() < MOST_LETTERS {
        text.len() as u64
    } else {
        MOST_LETTERS as u64 + 2
    }
}

/// How wide letters are, each of so many tenths. All of them are as wide in the fonts that the style sheet names.
pub(crate) fn wide(letters: u64, tenths: u64) -> u64 {
    letters.saturating_mul(tenths) / 10
}
