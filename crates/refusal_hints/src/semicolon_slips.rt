// What helps where a `;` stands that can't, and where one is missing.

use crate::lexeme::Lexeme;
use crate::slip_texts::LAST_END;
use crate::spot::Spot;
use scanner::{Keyword, Sign};
use text_writer::TextWriter;

// What is said of it where one of these may stand.
const ACCEPTED: &[(Lexeme, &str)] = &[
    (
        Lexeme::Mark(Sign::Comma),
        "parameters and arguments are separated by commas",
    ),
    (
        Lexeme::Word(Keyword::Into),
        "FORK tells where the process is kept: FORK p(..) INTO h;",
    ),
    (
        Lexeme::Word(Keyword::If),
        "a ; ends a statement or a declaration, and no other stands anywhere",
    ),
    (Lexeme::Number, "an expression is missing"),
];

/// What is said of a `;`.
pub(crate) fn semicolon_slip(spot: &Spot<'_, '_>) -> Option<&'static str> {
    if spot.takes_sign(Sign::Dot) && spot.back(1) == Lexeme::Word(Keyword::End) {
        return Some(LAST_END);
    }
    if spot.takes_sign(Sign::OpenParen) && spot.back(1) == Lexeme::Name {
        return Some("the parentheses are needed, also without parameters: p()");
    }
    spot.by_accepted(ACCEPTED)
}

// Whether a token begins or ends something that a `;` has to stand before.
fn wants_semicolon_before(here: Lexeme, behind: Lexeme) -> bool {
    match here {
        Lexeme::Name => matches!(behind, Lexeme::Mark(Sign::Assign | Sign::OpenBracket)),
        Lexeme::Word(word) => matches!(
            word,
            Keyword::End
                | Keyword::Endif
                | Keyword::Endloop
                | Keyword::Else
                | Keyword::Var
                | Keyword::If
                | Keyword::While
                | Keyword::Call
                | Keyword::Fork
                | Keyword::Join
                | Keyword::Return
                | Keyword::Wait
                | Keyword::Notify
                | Keyword::Broadcast
                | Keyword::Print
                | Keyword::Abort
                | Keyword::Entry
                | Keyword::Internal
                | Keyword::Procedure
                | Keyword::Recover
                | Keyword::Monitor
                | Keyword::Main
        ),
        _ => false,
    }
}

/// Whether a `;` is missing behind the token before.
pub(crate) fn lacks_semicolon(spot: &Spot<'_, '_>) -> bool {
    if !spot.takes_sign(Sign::Semicolon) {
        return false;
    }
    let last = spot.token_back(1);
    let here = spot.token(0);
    let next_line = last.place.line < here.place.line;
    match spot.here() {
        Lexeme::Name | Lexeme::Finish if next_line => true,
        here => wants_semicolon_before(here, spot.ahead(1)),
    }
}

/// Appends where a `;` is missing: just behind the token before.
pub(crate) fn append_lacking(out: &mut TextWriter, spot: &Spot<'_, '_>) {
    let last = spot.token_back(1);
    let column = u64::from(last.place.column).saturating_add(last.text.len() as u64);
    let place = [u64::from(last.place.line), column];
    out.form("a ; is missing at $:$\n", &place)
}
