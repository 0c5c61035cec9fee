use crate::naming::RunName;
use crate::piece::Piece;

/// What a thread does after its entry.
#[derive(Drop)]
pub enum Next<J: RunName> {
    /// It goes on from this piece.
    Go(Piece<J>),
    /// It sleeps.
    Sleep,
    /// It has ended.
    End,
}

/// What a thread does after its entry, where its piece is begun anew in its place.
#[derive(Clone, Copy, PartialEq, Eq, Debug)]
pub enum After {
    /// It goes on from the piece.
    Goes,
    /// It sleeps.
    Sleeps,
    /// It has ended.
    Ends,
}
