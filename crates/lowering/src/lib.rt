//! What code a program has: where the words of its monitors lie, the templates of its operations, the code of its
//! expressions, statements and pieces, and the source action that stands at each instruction.
#![tactic(auto)]

mod appending;
mod laws;
mod mark;

pub use appending::{append, append_plain};
pub use laws::{cell_laws, link_laws, piece_laws};
pub use mark::{Mark, Marked};
