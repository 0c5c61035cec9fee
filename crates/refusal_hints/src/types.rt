// What helps with a type, or a number of arguments, that isn't the one wanted.

use crate::declarations::Declaration;
use crate::expression_types::{judge, type_of_factor};
use crate::headers::Header;
use crate::lexeme::{Lexeme, append_keyword};
use crate::names::append_found;
use crate::operators::{LOOSEST, operator_before};
use crate::sought::sought_at;
use crate::spot::Spot;
use crate::wanted_types::{header_here, wanted_at};
use scanner::{Keyword, Sign, Token};
use std::alloc::Global;
use text_writer::TextWriter;

const TRUTHS: &str = "AND, OR and NOT take BOOLEAN";

const NUMBERS: &str = "+ - * / and MOD take INTEGER";

const ORDERS: &str = "< <= > and >= take INTEGER";

const EQUALS: &str = "= and # take two INTEGER or two BOOLEAN, and no PROCESS";

// What the operators take.
const OPERATORS: &[(Lexeme, &str)] = &[
    (Lexeme::Word(Keyword::And), TRUTHS),
    (Lexeme::Word(Keyword::Or), TRUTHS),
    (Lexeme::Word(Keyword::Not), TRUTHS),
    (Lexeme::Word(Keyword::Mod), NUMBERS),
    (Lexeme::Mark(Sign::Plus), NUMBERS),
    (Lexeme::Mark(Sign::Minus), NUMBERS),
    (Lexeme::Mark(Sign::Times), NUMBERS),
    (Lexeme::Mark(Sign::Divide), NUMBERS),
    (Lexeme::Mark(Sign::Less), ORDERS),
    (Lexeme::Mark(Sign::LessEqual), ORDERS),
    (Lexeme::Mark(Sign::Greater), ORDERS),
    (Lexeme::Mark(Sign::GreaterEqual), ORDERS),
    (Lexeme::Mark(Sign::Equal), EQUALS),
    (Lexeme::Mark(Sign::NotEqual), EQUALS),
];

const TEST: &str = "IF and WHILE take BOOLEAN";

const CONDITION: &str = "WAIT, NOTIFY and BROADCAST take a CONDITION of the monitor";

const COUNT: &str =
    "there are as many arguments as parameters, and INTO behind CALL only where there is a result";

const ARGUMENT: &str = "an argument has the type of its parameter";

// What is wanted behind tokens that are no operators.
const WANTED: &[(Lexeme, &str)] = &[
    (Lexeme::Word(Keyword::If), TEST),
    (Lexeme::Word(Keyword::While), TEST),
    (Lexeme::Word(Keyword::Print), "PRINT takes INTEGER"),
    (Lexeme::Word(Keyword::Join), "JOIN takes PROCESS"),
    (
        Lexeme::Word(Keyword::Return),
        "the value has the type of the procedure's result",
    ),
    (Lexeme::Word(Keyword::Wait), CONDITION),
    (Lexeme::Word(Keyword::Notify), CONDITION),
    (Lexeme::Word(Keyword::Broadcast), CONDITION),
    (
        Lexeme::Word(Keyword::Into),
        "INTO takes a variable of the result's type behind CALL, a PROCESS behind FORK, an INTEGER behind JOIN",
    ),
    (Lexeme::Word(Keyword::Call), COUNT),
    (Lexeme::Word(Keyword::Fork), COUNT),
    (Lexeme::Mark(Sign::Dot), COUNT),
    (Lexeme::Mark(Sign::Assign), "both sides of := have one type"),
    (Lexeme::Mark(Sign::OpenBracket), "an index is INTEGER"),
    (Lexeme::Mark(Sign::OpenParen), ARGUMENT),
    (Lexeme::Mark(Sign::Comma), ARGUMENT),
];

// What a table says of a token.
fn said_of(rows: &[(Lexeme, &'static str)], token: Lexeme) -> Option<&'static str> {
    for (lexeme, said) in rows {
        if *lexeme == token {
            return Some(said);
        }
    }
    None
}

// What is wanted behind a token.
fn wanted_behind(token: Lexeme) -> Option<&'static str> {
    match said_of(WANTED, token) {
        Some(said) => Some(said),
        None => said_of(OPERATORS, token),
    }
}

// What is wanted of the token at a place by what stands at it and behind it.
fn wanted_before(here: Lexeme, behind: Lexeme) -> Option<&'static str> {
    match (here, behind) {
        (Lexeme::Word(Keyword::Return), _) => {
            Some("RETURN has a value exactly where the procedure has a result")
        }
        (Lexeme::Name, Lexeme::Mark(Sign::OpenBracket)) => {
            Some("an array is used by its elements alone, and nothing else has an index")
        }
        (_, operator) => said_of(OPERATORS, operator),
    }
}

// Appends a sentence, if there is one.
fn append_sentence(out: &mut TextWriter, sentence: Option<&'static str>) {
    match sentence {
        Some(sentence) => out.line(sentence),
        None => {}
    }
}

// The type that is wanted beside one in = or #.
fn other_type(held: Keyword) -> Option<Keyword> {
    match held {
        Keyword::Integer => Some(Keyword::Boolean),
        Keyword::Boolean => Some(Keyword::Integer),
        _ => None,
    }
}

// The type of what begins at a place, and the one that is wanted there, where both are known.
fn misfit_at(
    declarations: &[Declaration<'_>],
    tokens: &[Token<'_>],
    spot: &Spot<'_, '_>,
) -> Option<(Keyword, Keyword)> {
    let sought = sought_at(declarations, spot);
    let before = operator_before(spot.back(1), spot.back(2));
    let bound = before.map_or(LOOSEST, |operator| operator.looseness);
    let first = type_of_factor(declarations, sought, spot.from);
    let judged = judge(spot.from, first, bound);
    let Some(held) = judged.held else {
        return None;
    };
    let wanted = match (judged.refusing, before) {
        (Some(operator), _) => operator.takes,
        (None, Some(operator)) => operator.takes.or(other_type(held)),
        (None, None) => wanted_at(declarations, tokens, sought, spot),
    };
    match wanted {
        Some(wanted) => Some((held, wanted)),
        None => None,
    }
}

// Appends a type with what stands before and behind it.
fn append_between(alloc: Global, out: &mut TextWriter, before: &str, word: Keyword, behind: &str) {
    out.text(before);
    append_keyword(alloc, out, word);
    out.text(behind)
}

// Appends the type of what begins at a place, and the one that is wanted there.
fn append_misfit(alloc: Global, out: &mut TextWriter, misfit: Option<(Keyword, Keyword)>) {
    match misfit {
        Some((held, wanted)) if held != wanted => {
            append_between(alloc, out, "what begins here is ", held, ", and ");
            append_between(alloc, out, "", wanted, " is wanted\n")
        }
        _ => {}
    }
}

// Appends how many parameters a procedure has, and what it gives.
fn append_header(alloc: Global, out: &mut TextWriter, header: Header<'_, '_>) {
    let count = header.count();
    out.form("it has $ parameter", &[count as u64]);
    out.text(if count == 1 {
        ", and gives "
    } else {
        "s, and gives "
    });
    match header.result {
        Some(result) => append_between(alloc, out, "", result, "\n"),
        None => out.text("nothing\n"),
    }
}

// Appends what the procedure takes and gives whose name stands at a place, or else both types, where they are known.
fn append_types(
    alloc: Global,
    out: &mut TextWriter,
    declarations: &[Declaration<'_>],
    tokens: &[Token<'_>],
    spot: &Spot<'_, '_>,
) {
    match header_here(declarations, tokens, spot) {
        Some(header) => append_header(alloc, out, header),
        None => append_misfit(alloc, out, misfit_at(declarations, tokens, spot)),
    }
}

/// Appends what helps with a type.
pub(crate) fn append_type(
    alloc: Global,
    out: &mut TextWriter,
    declarations: &[Declaration<'_>],
    tokens: &[Token<'_>],
    spot: &Spot<'_, '_>,
) {
    append_found(alloc, out, declarations, spot);
    append_types(alloc, out, declarations, tokens, spot);
    append_sentence(out, wanted_behind(spot.back(1)));
    append_sentence(out, wanted_before(spot.here(), spot.ahead(1)))
}
