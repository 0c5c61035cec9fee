// What helps where a token can't follow what stands before it.

use crate::foreign_words::{append_in_capitals, foreign_slip, small_keyword};
use crate::lexeme::{Lexeme, append_lexeme};
use crate::semicolon_slips::{append_lacking, lacks_semicolon, semicolon_slip};
use crate::sign_slips::sign_slip;
use crate::spot::Spot;
use crate::walk::accepted_behind;
use crate::word_slips::{finish_slip, name_slip, word_slip};
use scanner::{Sign, Token};
use std::alloc::Global;
use text_writer::TextWriter;

// How many lexemes are listed.
const MOST_LISTED: usize = 8;

// Appends a lexeme of a list.
fn append_listed(alloc: Global, out: &mut TextWriter, lexeme: Lexeme) {
    out.text(" ");
    append_lexeme(alloc, out, lexeme)
}

// Appends the first lexemes of a list.
fn append_list(alloc: Global, out: &mut TextWriter, lexemes: &[Lexeme]) {
    for lexeme in lexemes.get(..MOST_LISTED).unwrap_or(lexemes) {
        append_listed(alloc, out, *lexeme);
    }
}

// Appends what may stand at a place.
fn append_accepted(alloc: Global, out: &mut TextWriter, accepted: &[Lexeme]) {
    out.text("here may stand:");
    append_list(alloc, out, accepted);
    out.text(if accepted.len() > MOST_LISTED {
        " ..\n"
    } else {
        "\n"
    })
}

// What is said of the lexeme that can't stand at a place.
fn slip_at(spot: &Spot<'_, '_>) -> Option<&'static str> {
    match spot.here() {
        Lexeme::Word(word) => word_slip(word, spot),
        Lexeme::Mark(Sign::Semicolon) => semicolon_slip(spot),
        Lexeme::Mark(sign) => sign_slip(sign, spot),
        Lexeme::Name => name_slip(spot),
        Lexeme::Number => None,
        Lexeme::Finish => finish_slip(spot),
    }
}

// Appends what is said of a word of another language, or of the lexeme at a place.
fn append_other_slip(out: &mut TextWriter, spot: &Spot<'_, '_>) {
    if let Some(slip) = foreign_slip(spot).or(slip_at(spot)) {
        out.line(slip)
    }
}

// Appends what is said of the slip that is likely, if one is.
fn append_slip(alloc: Global, out: &mut TextWriter, spot: &Spot<'_, '_>) {
    match small_keyword(alloc, spot) {
        Ok(Some(word)) => append_in_capitals(alloc, out, word),
        Ok(None) if lacks_semicolon(spot) => append_lacking(out, spot),
        Ok(None) => append_other_slip(out, spot),
        Err(_) => out.fail(),
    }
}

// Appends what may stand at a place, and what the slip may be of what stands there.
fn append_at(alloc: Global, out: &mut TextWriter, spot: &Spot<'_, '_>) {
    append_accepted(alloc, out, spot.accepted);
    append_slip(alloc, out, spot)
}

/// Appends what may stand behind the tokens before a place, and what the slip may be of those from there on.
pub(crate) fn append_expected<'t, 'a>(
    alloc: Global,
    out: &mut TextWriter,
    before: &'t [Token<'a>],
    from: &'t [Token<'a>],
) {
    match accepted_behind(alloc, before) {
        Ok(accepted) => {
            let spot = Spot {
                before,
                from,
                accepted: accepted.as_slice(),
            };
            append_at(alloc, out, &spot)
        }
        Err(_) => out.fail(),
    }
}
