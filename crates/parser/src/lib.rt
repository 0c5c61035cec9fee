//! From the tokens of a source text to its tree.
#![tactic(auto)]

mod condition;
mod declaration;
mod kinds;
mod monitor;
mod procedure;
mod simple;
mod start;
mod statement;
mod unit;

pub use unit::parse;
