// The tokens before and behind a place, and what may stand there.

use crate::lexeme::Lexeme;
use scanner::{Keyword, Kind, Place, RefusalKind, Sign, Token, scan};
use std::alloc::{AllocError, Global};

/// The tokens before a place, those from there on, and what the grammar accepts there.
#[derive(Clone, Copy)]
pub(crate) struct Spot<'t, 'a> {
    pub(crate) before: &'t [Token<'a>],
    pub(crate) from: &'t [Token<'a>],
    pub(crate) accepted: &'t [Lexeme],
}

/// The tokens of a text, or none where it has a fault.
pub(crate) fn tokens_of<'a>(alloc: Global, text: &'a [u8]) -> Result<Vec<Token<'a>>, AllocError> {
    match scan(alloc, text) {
        Ok(tokens) => Ok(tokens),
        Err(refusal) if refusal.kind == RefusalKind::Memory => Err(AllocError),
        Err(_) => Ok(Vec::new(alloc)),
    }
}

/// The tokens before a place, and those from there on. Where none stands there, none do behind it.
pub(crate) fn tokens_around<'t, 'a>(
    tokens: &'t [Token<'a>],
    place: Place,
) -> (&'t [Token<'a>], &'t [Token<'a>]) {
    match tokens.iter().position(|token| token.place == place) {
        Some(index) => tokens.split_at(index),
        None => tokens.split_at(tokens.len()),
    }
}

impl<'a> Spot<'_, 'a> {
    /// The token so many behind the one at the place, which is 0. Behind the last there is an end.
    pub(crate) fn token(&self, ahead: usize) -> Token<'a> {
        match self.from.get(ahead) {
            Some(token) => *token,
            None => end_of_text(),
        }
    }

    /// The token so many before the place, the nearest of which is 1. Before the first there is an end.
    pub(crate) fn token_back(&self, back: usize) -> Token<'a> {
        let Some(index) = self.before.len().checked_sub(back) else {
            return end_of_text();
        };
        match self.before.get(index) {
            Some(token) => *token,
            None => end_of_text(),
        }
    }

    /// What stands at the place.
    pub(crate) fn here(&self) -> Lexeme {
        self.ahead(0)
    }

    /// What stands so many tokens behind that.
    pub(crate) fn ahead(&self, count: usize) -> Lexeme {
        Lexeme::of(self.token(count).kind)
    }

    /// What stands so many tokens before the place.
    pub(crate) fn back(&self, count: usize) -> Lexeme {
        Lexeme::of(self.token_back(count).kind)
    }

    /// Whether a keyword may stand at the place.
    pub(crate) fn takes_word(&self, word: Keyword) -> bool {
        self.accepts(Lexeme::Word(word))
    }

    /// Whether a sign may stand at the place.
    pub(crate) fn takes_sign(&self, sign: Sign) -> bool {
        self.accepts(Lexeme::Mark(sign))
    }

    /// Whether the place is behind an operand of an expression.
    pub(crate) fn is_behind_operand(&self) -> bool {
        self.takes_sign(Sign::Times)
    }

    /// What stands beside the first of these that may stand at the place.
    pub(crate) fn by_accepted(&self, rows: &[(Lexeme, &'static str)]) -> Option<&'static str> {
        for (lexeme, said) in rows {
            if self.accepts(*lexeme) {
                return Some(said);
            }
        }
        None
    }

    /// Whether a lexeme may stand at the place.
    pub(crate) fn accepts(&self, lexeme: Lexeme) -> bool {
        self.accepted.contains(&lexeme)
    }
}

// The end of a text, for where no token stands.
fn end_of_text<'a>() -> Token<'a> {
    Token {
        kind: Kind::End,
        text: &[],
        place: Place::START,
    }
}
