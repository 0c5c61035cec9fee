//! What the tests that run images by schedules share: the numbers that follow from a seed, and the threads drawn by
//! them.
#![tactic(auto)]

mod movers;
mod sequence;

pub use movers::{draw_mover, draw_sleeper};
pub use sequence::{SORTS, Sequence};
