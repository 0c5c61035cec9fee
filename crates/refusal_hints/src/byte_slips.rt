// What helps where a text has no tokens.

use crate::slip_texts::{BRACES, COMMENT, UNEQUAL};
use text_writer::TextWriter;

// Whether a comment of another language begins in these bytes.
fn has_foreign_comment(before: &[u8]) -> bool {
    before
        .windows(2)
        .any(|pair| matches!(pair, [b'/', b'/' | b'*'] | [b'(', b'*']))
}

const TEXTS: &str = "there are no texts and no characters: PRINT takes an INTEGER";

const NOT: &str = "not is written NOT, and unequal #";

// What is said of bytes that begin no token, by the first of them. The first of these with which they begin counts.
const SLIPS: &[(&[u8], &str)] = &[
    (
        b"_",
        "a name is a letter followed by letters and digits, without _",
    ),
    (b"\"", TEXTS),
    (b"'", TEXTS),
    (b"`", TEXTS),
    (b"{", BRACES),
    (b"}", BRACES),
    (b"!=", UNEQUAL),
    (b"!", NOT),
    (b"~", NOT),
    (b"&", "and is written AND"),
    (b"|", "or is written OR"),
    (b"%", "the remainder is written MOD"),
    (b"^", "there is no power: multiply with *"),
    (b"?", "there is no ?: choose with IF"),
];

const DASH: &str = "this is a dash: minus is -, and a comment begins with two of them";

const QUOTATION: &str = "this is a quotation mark";

// What is said of characters past ASCII that an editor or a keyboard puts for one of ASCII, by their bytes.
const CHARACTERS: &[(&[u8], &str)] = &[
    (
        b"\xEF\xBB\xBF",
        "this is a byte order mark: save the file without it",
    ),
    (
        b"\xC2\xA0",
        "this is a blank that keeps words together: put a plain one",
    ),
    (b"\xE2\x80\x93", DASH),
    (b"\xE2\x80\x94", DASH),
    (b"\xE2\x88\x92", DASH),
    (b"\xE2\x80\x98", QUOTATION),
    (b"\xE2\x80\x99", QUOTATION),
    (b"\xE2\x80\x9A", QUOTATION),
    (b"\xE2\x80\x9B", QUOTATION),
    (b"\xE2\x80\x9C", QUOTATION),
    (b"\xE2\x80\x9D", QUOTATION),
    (b"\xE2\x80\x9E", QUOTATION),
    (b"\xE2\x80\x9F", QUOTATION),
    (b"\xE2\x89\xA0", UNEQUAL),
    (b"\xE2\x89\xA4", "less or equal is written <="),
    (b"\xE2\x89\xA5", "greater or equal is written >="),
];

// What a table says of bytes that begin as one of its rows does.
fn said_of(rows: &[(&[u8], &'static str)], bytes: &[u8]) -> Option<&'static str> {
    for (front, said) in rows {
        if bytes.starts_with(front) {
            return Some(said);
        }
    }
    None
}

/// What is said of the bytes that begin no token, where these stand before them in their line.
pub(crate) fn bad_token_slip(before: &[u8], rest: &[u8]) -> &'static str {
    if has_foreign_comment(before) {
        return COMMENT;
    }
    if rest.first().is_some_and(u8::is_ascii_digit) {
        return "a number is at most 2147483647";
    }
    match said_of(SLIPS, rest) {
        Some(slip) => slip,
        None => "no token begins so",
    }
}

// The digit of a number below 16.
fn digit_of(number: u8) -> char {
    match number {
        0..=9 => char::from(b'0'.saturating_add(number)),
        _ => char::from(b'A'.saturating_sub(10).saturating_add(number)),
    }
}

// Appends a byte as two digits.
fn append_hexadecimal(out: &mut TextWriter, byte: u8) {
    out.sign(digit_of(byte / 16));
    out.sign(digit_of(byte % 16))
}

/// Appends what is said of a byte past ASCII.
pub(crate) fn append_not_ascii(out: &mut TextWriter, rest: &[u8]) {
    if let Some(first) = rest.first() {
        out.text("byte ");
        append_hexadecimal(out, *first);
        out.line(" is no ASCII, which alone may stand in a text, in comments too");
    }
    if let Some(slip) = said_of(CHARACTERS, rest) {
        out.line(slip)
    }
}
