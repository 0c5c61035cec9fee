use crate::piece::{Piece, Spot};
use crate::walk::Walk;
use scanner::{Place, RefusalKind, Token, scan};
use std::alloc::{AllocError, Global};

/// The pieces and statements of a program, with where they stand in its text. The pieces are in the order of the
/// checked program's.
#[derive(Drop)]
pub struct Places<'t> {
    /// The tokens of the text.
    pub tokens: Vec<Token<'t>>,
    /// The pieces, by their numbers.
    pub pieces: Vec<Piece<'t>>,
    /// The statements, by their numbers.
    pub spots: Vec<Spot>,
    /// The names of all locals.
    pub locals: Vec<&'t [u8]>,
}

impl<'t> Places<'t> {
    /// A piece, where there is one of this number.
    pub fn piece(&self, number: u32) -> Option<Piece<'t>> {
        self.pieces.get(number as usize).copied()
    }

    /// A statement, where there is one of this number.
    pub fn spot(&self, number: usize) -> Option<Spot> {
        self.spots.get(number).copied()
    }

    /// The place of a token, by its number.
    pub fn place(&self, token: usize) -> Place {
        match self.tokens.get(token) {
            Some(token) => token.place,
            None => Place::START,
        }
    }

    /// The name of a local of a piece; no bytes where there is none.
    pub fn local(&self, piece: u32, slot: u32) -> &'t [u8] {
        let Some(piece) = self.piece(piece) else {
            return &[];
        };
        if slot as usize >= piece.count {
            return &[];
        }
        let number = piece.locals.saturating_add(slot as usize);
        self.locals.get(number).copied().unwrap_or(&[])
    }
}

/// The places of a program, whose text this is. Of a text that the scanner refuses there are none, and of one that is
/// no program some may be missing.
///
/// # Errors
///
/// Where memory runs out, and for nothing else.
pub fn places_of<'t>(alloc: Global, text: &'t [u8]) -> Result<Places<'t>, AllocError> {
    let tokens = match scan(alloc, text) {
        Ok(tokens) => tokens,
        Err(refusal) if refusal.kind == RefusalKind::Memory => return Err(AllocError),
        Err(_) => Vec::new(alloc),
    };
    let mut walk = Walk::new(alloc);
    walk.pass_all(tokens.as_slice())?;
    let Walk {
        pieces,
        spots,
        locals,
        ..
    } = walk;
    Ok(Places {
        tokens,
        pieces,
        spots,
        locals,
    })
}
