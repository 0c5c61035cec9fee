//! Who waited for whose monitor in a run, as the log of the machine tells it.
#![tactic(auto)]

mod events;
mod reading;

pub use reading::{Attempt, attempts};
