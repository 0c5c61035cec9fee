//! Where the statements of a program stand in its text, found by its tokens alone.
#![tactic(auto)]

mod opening;
mod piece;
mod places;
mod walk;
mod words;

pub use piece::{Piece, PieceKind, Spot};
pub use places::{Places, places_of};
