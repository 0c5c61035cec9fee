//! The templates of processes, behind other code: fork, call, join, returns, faults; and parameters.
#![tactic(auto)]

mod beginning;
mod process;

pub use beginning::parameters;
pub use process::{call, fault, fork, join, ret};
