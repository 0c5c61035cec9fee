//! The image of a program, from the pieces of its code.
#![tactic(auto)]

mod collector;
mod instruction;
mod laws;
mod limits;
mod linking;
mod order;
mod pieces;

pub use collector::Collector;
pub use laws::program_laws;
pub use linking::link;
