//! The checker: names, types, places and limits of a whole unit.
#![tactic(auto)]

mod checking;

pub use checking::check;
