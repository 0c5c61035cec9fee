// The operators of expressions: how loosely they bind, what they take and what they give.

use crate::lexeme::Lexeme;
use scanner::{Keyword, Sign};

/// An operator.
#[derive(Clone, Copy)]
pub(crate) struct Operator {
    /// The higher, the looser it binds its operands.
    pub(crate) looseness: u8,
    /// The type of its operands. Those of = and # have one type, whichever.
    pub(crate) takes: Option<Keyword>,
    /// The type of what it gives.
    pub(crate) gives: Keyword,
}

/// More than the looseness of any operator.
pub(crate) const LOOSEST: u8 = 6;

// One that takes what it gives.
fn of_one_type(looseness: u8, word: Keyword) -> Operator {
    Operator {
        looseness,
        takes: Some(word),
        gives: word,
    }
}

// One that compares two of a type.
fn comparison(takes: Option<Keyword>) -> Operator {
    Operator {
        looseness: 3,
        takes,
        gives: Keyword::Boolean,
    }
}

/// The operator that stands behind an operand as this lexeme.
pub(crate) fn operator_of(lexeme: Lexeme) -> Option<Operator> {
    match lexeme {
        Lexeme::Word(Keyword::Or) => Some(of_one_type(5, Keyword::Boolean)),
        Lexeme::Word(Keyword::And) => Some(of_one_type(4, Keyword::Boolean)),
        Lexeme::Mark(Sign::Equal | Sign::NotEqual) => Some(comparison(None)),
        Lexeme::Mark(Sign::Less | Sign::LessEqual | Sign::Greater | Sign::GreaterEqual) => {
            Some(comparison(Some(Keyword::Integer)))
        }
        Lexeme::Mark(Sign::Plus | Sign::Minus) => Some(of_one_type(2, Keyword::Integer)),
        Lexeme::Mark(Sign::Times | Sign::Divide) | Lexeme::Word(Keyword::Mod) => {
            Some(of_one_type(1, Keyword::Integer))
        }
        _ => None,
    }
}

/// Whether an operand ends with a lexeme.
pub(crate) fn ends_operand(lexeme: Lexeme) -> bool {
    matches!(
        lexeme,
        Lexeme::Name
            | Lexeme::Number
            | Lexeme::Word(Keyword::True | Keyword::False)
            | Lexeme::Mark(Sign::CloseParen | Sign::CloseBracket)
    )
}

/// The operator before an operand, where one stands there: as this lexeme, behind that one.
pub(crate) fn operator_before(before: Lexeme, last: Lexeme) -> Option<Operator> {
    match before {
        Lexeme::Word(Keyword::Not) => Some(of_one_type(0, Keyword::Boolean)),
        Lexeme::Mark(Sign::Minus) if !ends_operand(last) => Some(of_one_type(0, Keyword::Integer)),
        other => operator_of(other),
    }
}
