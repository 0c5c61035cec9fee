// A walk over the tokens of a program. A statement begins where one may begin, which is behind a semicolon and behind
// the keywords that open a list of statements; an expression has no token that begins or ends one.

use crate::opening::{Opening, Owner};
use crate::piece::{Piece, PieceKind, Spot};
use scanner::{Keyword, Kind, Sign, Token};
use std::alloc::{AllocError, Global};

/// How far a walk has come, and what it found.
#[derive(Drop)]
pub(crate) struct Walk<'t> {
    pub pieces: Vec<Piece<'t>>,
    pub spots: Vec<Spot>,
    pub locals: Vec<&'t [u8]>,
    // The lists of statements that it is in, the innermost last. Outside of bodies there are none.
    openings: Vec<Opening>,
    monitor: Option<&'t [u8]>,
    // Whether a statement may begin at the next token.
    fresh: bool,
}

impl<'t> Walk<'t> {
    /// A walk before the first token.
    pub fn new(alloc: Global) -> Walk<'t> {
        Walk {
            pieces: Vec::new(alloc),
            spots: Vec::new(alloc),
            locals: Vec::new(alloc),
            openings: Vec::new(alloc),
            monitor: None,
            fresh: false,
        }
    }

    // Begins a piece, whose name is this token.
    fn open_piece(
        &mut self,
        kind: PieceKind,
        number: usize,
        name: &'t [u8],
    ) -> Result<(), AllocError> {
        self.pieces.push(Piece {
            kind,
            monitor: self.monitor,
            name,
            token: number,
            end: number,
            first: None,
            locals: self.locals.len(),
            count: 0,
        })?;
        self.openings.clear();
        self.openings.push(Opening::new(Owner::Body))?;
        self.fresh = kind != PieceKind::Procedure;
        Ok(())
    }

    // Adds a local of the last piece.
    fn add_local(&mut self, name: &'t [u8]) -> Result<(), AllocError> {
        if let Some(piece) = self.pieces.last_mut() {
            piece.count = piece.count.saturating_add(1);
            self.locals.push(name)?;
        }
        Ok(())
    }

    // A statement is the first of a list.
    fn begin_list(&mut self, owner: Owner, number: usize) {
        match owner {
            Owner::Body => {
                if let Some(piece) = self.pieces.last_mut() {
                    piece.first = Some(number);
                }
            }
            Owner::Part(spot) => {
                if let Some(spot) = self.spots.get_mut(spot) {
                    spot.part = Some(number);
                }
            }
            Owner::Other(spot) => {
                if let Some(spot) = self.spots.get_mut(spot) {
                    spot.other = Some(number);
                }
            }
        }
    }

    // A statement comes behind another one of its list.
    fn link(&mut self, last: usize, number: usize) {
        if let Some(spot) = self.spots.get_mut(last) {
            spot.next = Some(number);
        }
    }

    // A statement begins at this token.
    fn add_spot(&mut self, token: usize) -> Result<(), AllocError> {
        self.fresh = false;
        let number = self.spots.len();
        let Some(opening) = self.openings.last_mut() else {
            return Ok(());
        };
        let before = *opening;
        opening.last = Some(number);
        self.spots.push(Spot {
            token,
            part: None,
            other: None,
            next: None,
        })?;
        match before.last {
            Some(last) => self.link(last, number),
            None => self.begin_list(before.owner, number),
        }
        Ok(())
    }

    // A list of statements begins within the last statement.
    fn open_part(&mut self) -> Result<(), AllocError> {
        self.fresh = true;
        let owner = self.spots.len().saturating_sub(1);
        self.openings.push(Opening::new(Owner::Part(owner)))?;
        Ok(())
    }

    // The list behind ELSE begins, and that behind THEN ends.
    fn open_other(&mut self) -> Result<(), AllocError> {
        self.fresh = true;
        if let Some(opening) = self.openings.pop() {
            let owner = match opening.owner {
                Owner::Part(spot) => Owner::Other(spot),
                other => other,
            };
            self.openings.push(Opening::new(owner))?;
        }
        Ok(())
    }

    // An END ends an ABORTED part, a piece or a monitor.
    fn close(&mut self, number: usize) {
        self.fresh = false;
        let within = self.openings.len();
        let _closed = self.openings.pop();
        match within {
            0 => self.monitor = None,
            1 => {
                if let Some(piece) = self.pieces.last_mut() {
                    piece.end = number;
                }
            }
            _ => {}
        }
    }

    // Passes a keyword, where `next` stands behind it.
    fn pass_keyword(
        &mut self,
        number: usize,
        word: Keyword,
        token: Token<'t>,
        next: Token<'t>,
    ) -> Result<(), AllocError> {
        match word {
            Keyword::Monitor => {
                self.monitor = Some(next.text);
                Ok(())
            }
            Keyword::Procedure => {
                self.open_piece(PieceKind::Procedure, number.saturating_add(1), next.text)
            }
            Keyword::Recover => self.open_piece(PieceKind::Recover, number, token.text),
            Keyword::Main => self.open_piece(PieceKind::Main, number, token.text),
            Keyword::Then | Keyword::Do | Keyword::Aborted => self.open_part(),
            Keyword::Else => self.open_other(),
            Keyword::Endif | Keyword::Endloop => {
                self.fresh = false;
                let _closed = self.openings.pop();
                Ok(())
            }
            Keyword::End => {
                self.close(number);
                Ok(())
            }
            Keyword::Var => {
                self.fresh = false;
                Ok(())
            }
            _ if self.fresh => self.add_spot(number),
            _ => Ok(()),
        }
    }

    // Passes a token, where `next` stands behind it.
    fn pass(&mut self, number: usize, token: Token<'t>, next: Token<'t>) -> Result<(), AllocError> {
        match token.kind {
            Kind::Keyword(word) => self.pass_keyword(number, word, token, next),
            Kind::Name if self.fresh => self.add_spot(number),
            Kind::Name if next.kind == Kind::Sign(Sign::Colon) && !self.openings.is_empty() => {
                self.add_local(token.text)
            }
            Kind::Sign(Sign::Semicolon) => {
                self.fresh = !self.openings.is_empty();
                Ok(())
            }
            _ => Ok(()),
        }
    }

    /// Passes the tokens of a text.
    pub fn pass_all(&mut self, tokens: &[Token<'t>]) -> Result<(), AllocError> {
        for (number, two) in tokens.windows(2).enumerate() {
            let [token, next] = two else {
                continue;
            };
            self.pass(number, *token, *next)?;
        }
        Ok(())
    }
}
