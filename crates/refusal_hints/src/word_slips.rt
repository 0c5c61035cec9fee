// What helps where a keyword, a name or the end of the text stands that can't.

use crate::lexeme::Lexeme;
use crate::slip_texts::{LAST_END, NO_OPEN_IF, PLAIN_ARRAY, THEN_AND_DO, TYPES, UNENDED};
use crate::spot::Spot;
use scanner::{Keyword, Sign};

// Keywords that stand where another one may, and what is said of them there.
const MISPLACED: &[(Keyword, Keyword, &str)] = &[
    (Keyword::Do, Keyword::Then, THEN_AND_DO),
    (Keyword::Then, Keyword::Do, THEN_AND_DO),
    (
        Keyword::Procedure,
        Keyword::Entry,
        "a procedure of a monitor is an ENTRY PROCEDURE or an INTERNAL PROCEDURE",
    ),
    (Keyword::Entry, Keyword::Main, MONITORS_ALONE),
    (Keyword::Internal, Keyword::Main, MONITORS_ALONE),
    (
        Keyword::Monitor,
        Keyword::Main,
        "monitors stand before the procedures outside them",
    ),
    (
        Keyword::Recover,
        Keyword::Main,
        "RECOVER is the last part of a monitor, behind its procedures",
    ),
];

const MONITORS_ALONE: &str = "ENTRY and INTERNAL stand in monitors alone";

/// What is said of a keyword.
pub(crate) fn word_slip(word: Keyword, spot: &Spot<'_, '_>) -> Option<&'static str> {
    for (misplaced, accepted, said) in MISPLACED {
        if *misplaced == word && spot.takes_word(*accepted) {
            return Some(said);
        }
    }
    other_slip(word, spot)
}

// What is said of a keyword for which no other stands.
fn other_slip(word: Keyword, spot: &Spot<'_, '_>) -> Option<&'static str> {
    match word {
        Keyword::End | Keyword::Endif | Keyword::Endloop | Keyword::Else => end_slip(spot),
        Keyword::Integer
        | Keyword::Boolean
        | Keyword::Process
        | Keyword::Condition
        | Keyword::Array => type_slip(spot),
        Keyword::Var => variable_slip(spot),
        Keyword::Procedure
        | Keyword::Entry
        | Keyword::Internal
        | Keyword::Recover
        | Keyword::Monitor
        | Keyword::Main => unended_slip(spot),
        _ => keyword_slip(spot),
    }
}

// A keyword where a name alone may stand.
fn keyword_slip(spot: &Spot<'_, '_>) -> Option<&'static str> {
    match spot.accepted {
        [Lexeme::Name] => Some("a keyword is no name"),
        _ => None,
    }
}

// What is said of a word that ends something, where one of these may stand.
const ENDS: &[(Lexeme, &str)] = &[
    (
        Lexeme::Word(Keyword::Endif),
        "an IF ends with ENDIF; and has one ELSE at most",
    ),
    (Lexeme::Word(Keyword::Endloop), "a WHILE ends with ENDLOOP;"),
    (Lexeme::Word(Keyword::End), NO_OPEN_IF),
    (
        Lexeme::Word(Keyword::Main),
        "there is an END too many, or MAIN is missing",
    ),
];

fn end_slip(spot: &Spot<'_, '_>) -> Option<&'static str> {
    match spot.by_accepted(ENDS) {
        Some(said) => Some(said),
        None => keyword_slip(spot),
    }
}

fn type_slip(spot: &Spot<'_, '_>) -> Option<&'static str> {
    if spot.back(1) == Lexeme::Word(Keyword::Of) {
        return Some("the elements of an array are INTEGER: 0 and 1 may stand for FALSE and TRUE");
    }
    if !spot.takes_word(Keyword::Integer) {
        return keyword_slip(spot);
    }
    if spot.takes_word(Keyword::Process) {
        return Some("arrays and conditions are variables of monitors, and nothing else");
    }
    Some("a result is INTEGER or BOOLEAN")
}

// What is said of VAR, where one of these may stand.
const DECLARED: &[(Lexeme, &str)] = &[
    (
        Lexeme::Word(Keyword::If),
        "variables are declared before the first statement",
    ),
    (
        Lexeme::Word(Keyword::Entry),
        "the variables of a monitor are declared before its procedures",
    ),
    (
        Lexeme::Word(Keyword::Main),
        "variables are declared in monitors and in procedures alone",
    ),
];

fn variable_slip(spot: &Spot<'_, '_>) -> Option<&'static str> {
    if spot.takes_sign(Sign::CloseParen) || spot.back(1) == Lexeme::Mark(Sign::Comma) {
        return Some("parameters are passed by value, without VAR");
    }
    spot.by_accepted(DECLARED)
}

// What is said of a word that begins something outer, where one of these may stand.
const OPEN: &[(Lexeme, &str)] = &[
    (Lexeme::Word(Keyword::End), UNENDED),
    (Lexeme::Word(Keyword::Endif), UNENDED),
    (Lexeme::Word(Keyword::Endloop), UNENDED),
];

fn unended_slip(spot: &Spot<'_, '_>) -> Option<&'static str> {
    match spot.by_accepted(OPEN) {
        Some(said) => Some(said),
        None => keyword_slip(spot),
    }
}

/// What is said of a name.
pub(crate) fn name_slip(spot: &Spot<'_, '_>) -> Option<&'static str> {
    match spot.back(1) {
        Lexeme::Word(Keyword::End) => Some("no name stands behind END"),
        Lexeme::Word(Keyword::Array) => Some(PLAIN_ARRAY),
        Lexeme::Word(Keyword::Entry | Keyword::Internal) => {
            Some("ENTRY and INTERNAL stand before the word PROCEDURE")
        }
        Lexeme::Number => Some("a number has decimal digits alone"),
        _ if spot.takes_word(Keyword::Integer) => Some(TYPES),
        _ => None,
    }
}

/// What is said where the text ends too early.
pub(crate) fn finish_slip(spot: &Spot<'_, '_>) -> Option<&'static str> {
    if spot.back(1) == Lexeme::Word(Keyword::End) && spot.takes_sign(Sign::Dot) {
        return Some(LAST_END);
    }
    Some("the text ends before the program does: END. is its end")
}
