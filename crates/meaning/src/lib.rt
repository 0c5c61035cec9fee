//! The meaning of source programs (Lampson and Redell, "Experience with Processes and Monitors in Mesa", 1980): states,
//! actions and runs, as definitions, with their laws.
#![tactic(auto)]

mod abandoning;
mod laws;
mod monitors;
mod testing;

pub use abandoning::abandon_next;
pub use laws::{end_laws, run_laws, step_laws, wait_laws};
pub use monitors::monitor_laws;
pub use testing::tested;
