//! What all processes of a source program share but variables and output, decided by code: which actions the
//! monitors, the conditions and the process table allow, and what these are after them.
#![tactic(auto)]

mod monitors;
mod processes;
mod table;
mod waiting;

pub use table::{Hold, Table};
