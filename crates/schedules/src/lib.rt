//! What is made of schedules: the schedule of a log, and of a schedule that fails a shorter one that fails alike.
#![tactic(auto)]

mod attempt;
mod blocks;
mod failing;
mod minimal;
mod of_log;
mod shortening;
mod shrinking;
mod switching;

pub use failing::{RunFailure, failure_of};
pub use of_log::schedule_of_log;
pub use shrinking::{ShrinkFault, ShrunkSchedule, fails_on, shrink};
pub use switching::switches;
