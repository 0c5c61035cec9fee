//! Where the words of a program's monitors lie in memory.
#![tactic(auto)]

mod monitor_place;
mod placing;

pub use placing::{Layout, place, place_as};
