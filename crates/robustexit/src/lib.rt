//! The end of a thread, step by step: the walk of its robust list, the entry that it was acquiring or releasing, and
//! the clearing of its id word.
#![tactic(auto)]

mod abandon;
mod exit;
mod phase;
mod rule;
mod waking;

pub use exit::{exit_step, first_phase};
pub use phase::{ExitPhase, MOST_ENTRIES, phase_at};
pub use rule::ExitRule;
pub use waking::wakes_on;
