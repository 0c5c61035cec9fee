//! The source run that a log of the machine is, found as the log is walked: what the source has come to behind each
//! entry, the run that follows by visible actions, and the actions that are deferred until then.
#![tactic(auto)]

mod choosing;
mod deferral;
mod deferred;
mod explained_log;
mod follower;
mod log_law;
mod recorder;
mod requests;
mod same_event;
mod walking;

pub use explained_log::{ExplainedLog, LogExplanation, explain_log};
pub use log_law::{progress_follows_logs, verdicts_are_the_sources};
