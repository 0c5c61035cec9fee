//! A search over all runs of a source program: whether one gets stuck, whether a process aborts in one, whether one is
//! blocked for good, and whether each run can end.
#![tactic(auto)]

mod asked;
mod blocking;
mod bounds;
mod choices;
mod covering;
mod digest;
mod ending;
mod ends;
mod growth;
mod held_up;
mod holding;
mod kept;
mod killing;
mod learning;
mod living;
mod lost;
mod making;
mod memo;
mod merging;
mod outside;
mod packed;
mod parts;
mod progress;
mod remembering;
mod replay;
mod runs;
mod search;
mod spot;
mod waking;
mod walking;

pub use asked::Asked;
pub use blocking::Blocked;
pub use bounds::Bound;
pub use ending::Ending;
pub use growth::{Growth, Taken};
pub use outside::Outside;
pub use progress::{Progress, Untold};
pub use runs::{Exploration, explore};
