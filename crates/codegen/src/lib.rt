//! The code of a program's pieces, each for itself.
#![tactic(auto)]

mod code_piece;
mod expression;
mod flat;
mod piece;
mod pieces;
mod room;
mod simple;
mod site;
mod statement;

pub use code_piece::CodePiece;
pub use piece::procedure_code;
pub use pieces::generate;
pub use room::with_piece;
