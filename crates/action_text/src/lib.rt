//! The text of a run's actions: a line for each, written, read, and followed by the meaning of the source.
#![tactic(auto)]

mod conditions;
mod counting;
mod ends;
mod following;
mod kinds;
mod laws;
mod monitors;
mod reading;
mod writing;

pub use ends::RunEnd;
pub use following::{FollowFault, ToldRun, follow_text};
pub use laws::action_text_laws;
pub use reading::{ReadActionsFault, read_actions};
pub use writing::{append_action, run_text};
