//! What compiled code does by itself: expressions come to their values or to their faults, statements, calls and
//! returns, forks and joins go as those of the source, and the templates of monitors and conditions are reached where
//! the source enters, leaves, waits and notifies.
#![tactic(auto)]

mod law;

pub use law::{code_goes_as_its_process, expressions_evaluate};
