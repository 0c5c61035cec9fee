use scanner::{Keyword, Kind, Sign};
use std::alloc::Global;
use text_writer::TextWriter;

/// A token as the grammar has it: without its bytes and its place.
#[derive(Clone, Copy, PartialEq, Eq)]
pub(crate) enum Lexeme {
    Word(Keyword),
    Mark(Sign),
    Name,
    Number,
    /// The end of the text.
    Finish,
}

impl Lexeme {
    /// What a token is to the grammar.
    pub(crate) fn of(kind: Kind) -> Lexeme {
        match kind {
            Kind::Keyword(word) => Lexeme::Word(word),
            Kind::Sign(sign) => Lexeme::Mark(sign),
            Kind::Name => Lexeme::Name,
            Kind::Number(_) => Lexeme::Number,
            Kind::End => Lexeme::Finish,
        }
    }
}

// How each sign is written.
const SIGNS: &[(Sign, &str)] = &[
    (Sign::Assign, ":="),
    (Sign::Colon, ":"),
    (Sign::Semicolon, ";"),
    (Sign::Comma, ","),
    (Sign::Dot, "."),
    (Sign::OpenParen, "("),
    (Sign::CloseParen, ")"),
    (Sign::OpenBracket, "["),
    (Sign::CloseBracket, "]"),
    (Sign::Equal, "="),
    (Sign::NotEqual, "#"),
    (Sign::Less, "<"),
    (Sign::LessEqual, "<="),
    (Sign::Greater, ">"),
    (Sign::GreaterEqual, ">="),
    (Sign::Plus, "+"),
    (Sign::Minus, "-"),
    (Sign::Times, "*"),
    (Sign::Divide, "/"),
];

// How a sign is written.
fn sign_text(sign: Sign) -> &'static str {
    for (listed, text) in SIGNS {
        if *listed == sign {
            return text;
        }
    }
    ""
}

// Appends a word in capitals.
fn append_capitals(out: &mut TextWriter, word: &str) {
    for byte in word.as_bytes() {
        out.shown(&[byte.to_ascii_uppercase()]);
    }
}

/// Appends how a keyword is written: as its variant is, in capitals.
pub(crate) fn append_keyword(alloc: Global, out: &mut TextWriter, word: Keyword) {
    match format!(in alloc; "{word:?}") {
        Ok(name) => append_capitals(out, name.as_str()),
        Err(_) => out.fail(),
    }
}

/// Appends how a lexeme is written. What has no one spelling is in small letters, which no keyword is.
pub(crate) fn append_lexeme(alloc: Global, out: &mut TextWriter, lexeme: Lexeme) {
    match lexeme {
        Lexeme::Word(word) => append_keyword(alloc, out, word),
        Lexeme::Mark(sign) => out.text(sign_text(sign)),
        Lexeme::Name => out.text("name"),
        Lexeme::Number => out.text("number"),
        Lexeme::Finish => out.text("end-of-text"),
    }
}
