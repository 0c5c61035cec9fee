//! The run of the source that explains a run whose futex calls are taken in pieces, as a function of that run and of its
//! events.
#![tactic(auto)]

mod law;

pub use law::{events_explain, pieces_explain};
