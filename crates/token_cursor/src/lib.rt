//! The small steps of a parser: what stands first among the tokens that are still to come, and what passes it.
#![tactic(auto)]

mod eat;
mod exit;
mod expect;
mod operators;
mod parser;

pub use exit::refused;
pub use operators::{FactorStart, start_of};
pub use parser::Parser;
