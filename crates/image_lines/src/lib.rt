//! The lines of a run of an image for people: what its threads did that others can see, and who sleeps at the end.
#![tactic(auto)]

mod ending;
mod events;
mod lines;
mod origin;
mod run;

pub use lines::{Doing, Mark, RunLines};
pub use origin::Origin;
pub use run::run_lines;
