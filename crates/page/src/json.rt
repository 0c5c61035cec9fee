ghost use Rattle.page.specs.Json.{json_sign, json_string};
ghost use Rattle.text_writer.specs.Writing.{IsWritten};

use text_writer::TextWriter;

// Writes a sign of a JSON string. Without `<` nothing in it ends the script that it stands in. Of other control signs it is
// told that there is one.
fn write_sign(out: &mut TextWriter, sign: char)
    ensures { IsWritten out.old out.new (json_sign sign) }
{
    match sign {
        '"' => out.text("\\\""),
        '\\' => out.text("\\\\"),
        '\n' => out.text("\\n"),
        '\r' => out.text("\\r"),
        '\t' => out.text("\\t"),
        '<' => out.text("\\u003c"),
        '\u{0}'..='\u{1F}' => out.text("\\ufffd"),
        other => out.sign(other),
    }
}

/// Writes a text as a JSON string.
pub(crate) fn write_text(out: &mut TextWriter, text: &str) {
    out.text("\"");
    for sign in text.chars() {
        write_sign(out, sign);
    }
    out.text("\"");
}

/// Writes bytes of ASCII as a JSON string.
pub(crate) fn write_bytes(out: &mut TextWriter, bytes: &[u8])
    ensures { IsWritten out.old out.new (json_string bytes.now) }
{
    out.text("\"");
    for byte in bytes {
        write_sign(out, char::from(*byte));
    }
    out.text("\"");
}

/// Writes a comma before each item of a list but the first.
pub(crate) fn write_comma(out: &mut TextWriter, index: usize) {
    if index > 0 {
        out.text(",");
    }
}
