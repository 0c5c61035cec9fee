//! The three futex calls, over a memory and its sleepers: wait, wake and compare-requeue; each whole, and in pieces.
#![tactic(auto)]

mod acting;
mod calls;
mod lists;
mod locking;
mod pieces;
mod progress;
mod stepping;
mod taking;

pub use calls::{Again, WaitAnswer, cmp_requeue, wait, wake};
pub use lists::FutexLists;
pub use pieces::{FutexCall, FutexPhase};
pub use progress::{FutexAnswer, FutexProgress};
pub use stepping::futex_step;
pub use taking::next_bucket;
