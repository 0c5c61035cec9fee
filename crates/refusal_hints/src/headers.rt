// The parameters and results of procedures, by their tokens.

use crate::declarations::{Declaration, Sort};
use crate::spot::tokens_around;
use scanner::{Keyword, Kind, Sign, Token};

/// The head of a procedure.
#[derive(Clone, Copy)]
pub(crate) struct Header<'t, 'a> {
    parameters: &'t [Token<'a>],
    /// The type of its result, where it has one.
    pub(crate) result: Option<Keyword>,
}

// The type that a token is.
fn type_of(kind: Kind) -> Option<Keyword> {
    match kind {
        Kind::Keyword(word @ (Keyword::Integer | Keyword::Boolean | Keyword::Process)) => {
            Some(word)
        }
        _ => None,
    }
}

// The type behind the parenthesis and the colon that these tokens begin with.
fn result_of(tokens: &[Token<'_>]) -> Option<Keyword> {
    match tokens {
        [_, colon, word, ..] if colon.kind == Kind::Sign(Sign::Colon) => type_of(word.kind),
        _ => None,
    }
}

/// That of a declared procedure.
pub(crate) fn header_of<'t, 'a>(
    tokens: &'t [Token<'a>],
    declaration: &Declaration<'_>,
) -> Option<Header<'t, 'a>> {
    let Sort::Procedure(_) = declaration.sort else {
        return None;
    };
    let (_, from) = tokens_around(tokens, declaration.name.place);
    let end = from
        .iter()
        .position(|token| token.kind == Kind::Sign(Sign::CloseParen))?;
    let (parameters, behind) = from.split_at(end);
    let result = result_of(behind);
    Some(Header { parameters, result })
}

impl Header<'_, '_> {
    /// How many parameters it has.
    pub(crate) fn count(&self) -> usize {
        let mut count: usize = 0;
        for token in self.parameters {
            if token.kind == Kind::Sign(Sign::Colon) {
                count = count.saturating_add(1);
            }
        }
        count
    }

    /// The type of its parameter of this number, from 0.
    pub(crate) fn parameter(&self, number: usize) -> Option<Keyword> {
        let mut left = number;
        for token in self.parameters {
            if let Some(word) = type_of(token.kind) {
                if left == 0 {
                    return Some(word);
                }
                left = left.saturating_sub(1);
            }
        }
        None
    }
}
