//! The least fault of a whole unit: of its declarations, of the calls of its procedures, and of its bodies with all
//! statements that they hold.
#![tactic(auto)]

mod arguments;
mod bodies;
mod call;
mod calls;
mod context;
mod cycles;
mod declared;
mod least;
mod limits;
mod names;
mod redeclared;
mod statement;
mod unit;

pub use unit::first_fault;
