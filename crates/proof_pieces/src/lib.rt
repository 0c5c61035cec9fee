//! Futex calls in pieces beside the whole calls: what holds of a run in which a call is one action holds of each run in
//! which it takes its buckets, compares and acts in steps of its own.
#![tactic(auto)]

mod law;

pub use law::{pieces_are_whole_calls, pieces_come_to_rest};
