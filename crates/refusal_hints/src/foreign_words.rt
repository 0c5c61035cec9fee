// Words of other languages, and keywords in small letters.

use crate::lexeme::{Lexeme, append_keyword};
use crate::spot::{Spot, tokens_of};
use scanner::{Keyword, Kind, Sign, Token};
use std::alloc::{AllocError, Global};
use text_writer::TextWriter;

// The keyword that tokens begin with.
fn first_keyword(tokens: &[Token<'_>]) -> Option<Keyword> {
    match tokens.first() {
        Some(token) => match token.kind {
            Kind::Keyword(word) => Some(word),
            _ => None,
        },
        None => None,
    }
}

// The keyword that a text begins with.
fn keyword_of(alloc: Global, text: &[u8]) -> Result<Option<Keyword>, AllocError> {
    let tokens = tokens_of(alloc, text)?;
    Ok(first_keyword(tokens.as_slice()))
}

// The keyword that a token would be in capitals, if it is a name.
fn keyword_in_capitals(alloc: Global, token: Token<'_>) -> Result<Option<Keyword>, AllocError> {
    if token.kind != Kind::Name {
        return Ok(None);
    }
    let capitals = token.text.to_ascii_uppercase(alloc)?;
    keyword_of(alloc, capitals.as_slice())
}

/// The keyword that a name in small letters is meant to be: what stands at the place, or else just before it.
pub(crate) fn small_keyword(
    alloc: Global,
    spot: &Spot<'_, '_>,
) -> Result<Option<Keyword>, AllocError> {
    match keyword_in_capitals(alloc, spot.token(0))? {
        Some(word) => Ok(Some(word)),
        None => keyword_in_capitals(alloc, spot.token_back(1)),
    }
}

/// Appends that a keyword is written in capitals.
pub(crate) fn append_in_capitals(alloc: Global, out: &mut TextWriter, word: Keyword) {
    out.text("a keyword is written in capitals: ");
    append_keyword(alloc, out, word);
    out.text("\n")
}

// Words of other languages, and what is said of them.
const WORDS: &[(&[&str], &str)] = &[
    (
        &["begin"],
        "there is no BEGIN: statements follow the declarations",
    ),
    (
        &[
            "for", "repeat", "until", "loop", "exit", "break", "continue",
        ],
        "the one loop is WHILE .. DO .. ENDLOOP;",
    ),
    (
        &["elsif", "elseif", "elif"],
        "there is no ELSIF: ELSE IF .. THEN .. ENDIF; ENDIF;",
    ),
    (&["case", "switch"], "there is no CASE: choose with IF"),
    (
        &["fi", "od", "endwhile", "wend", "esac"],
        "an IF ends with ENDIF; and a WHILE with ENDLOOP;",
    ),
    (
        &["assert"],
        "there is no ASSERT: IF NOT (x = 1) THEN ABORT; ENDIF;",
    ),
    (
        &["timeout"],
        "a WAIT has no time limit: it ends where the condition is notified",
    ),
    (
        &["const", "type", "record", "import", "export"],
        "variables, procedures and monitors are all that is declared",
    ),
    (
        &["function", "func", "fn", "def", "proc", "method"],
        "a function is a procedure with a result: PROCEDURE f(): INTEGER;",
    ),
    (
        &["int", "bool", "char", "string", "real", "void", "let"],
        "a variable is declared so: VAR x: INTEGER;",
    ),
    (
        &["signal", "notifyall"],
        "NOTIFY wakes one that waits, and BROADCAST all",
    ),
];

// Whether a name is one of these words, in small letters or in capitals.
fn is_one_of(name: &[u8], words: &[&str]) -> bool {
    for word in words {
        if name.eq_ignore_ascii_case(word.as_bytes()) {
            return true;
        }
    }
    false
}

// What stands for a word of another language.
fn foreign_word(name: &[u8]) -> Option<&'static str> {
    for (words, said) in WORDS {
        if is_one_of(name, words) {
            return Some(said);
        }
    }
    None
}

// Whether a lexeme is a word or a number, and no sign.
fn is_word(lexeme: Lexeme) -> bool {
    matches!(lexeme, Lexeme::Word(_) | Lexeme::Name | Lexeme::Number)
}

/// What stands for a word of another language: one at the place, or one before it with no sign between, or a statement of
/// that word alone.
pub(crate) fn foreign_slip(spot: &Spot<'_, '_>) -> Option<&'static str> {
    match spot.here() {
        Lexeme::Name if spot.ahead(1) != Lexeme::Mark(Sign::Assign) => {
            foreign_word(spot.token(0).text).or(foreign_word(spot.token_back(1).text))
        }
        here if is_word(here) => foreign_word(spot.token_back(1).text),
        Lexeme::Mark(Sign::Semicolon | Sign::OpenParen) if spot.takes_sign(Sign::Assign) => {
            foreign_word(spot.token_back(1).text)
        }
        _ => None,
    }
}
