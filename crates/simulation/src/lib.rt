//! The source run that a log of a program's image is.
#![tactic(auto)]

mod explaining;
mod fault;

pub use explaining::{explain, explain_log_lowered, explain_lowered};
pub use fault::{ExplainFault, LogFault};
pub use log_simulation::ExplainedLog;
