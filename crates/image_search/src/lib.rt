//! A search over all schedules of an image: whether one gets stuck, whether a thread fails in one, whether one comes to a
//! step that may not be, and whether a thread sleeps for good.
#![tactic(auto)]

mod apart;
mod at_once;
mod closing;
mod crowds;
mod ending;
mod ends;
mod explore;
mod flagged;
mod graph;
mod kept;
mod lasting;
mod living;
mod matching;
mod nexts;
mod progress;
mod reaching;
mod reasons;
mod search;
mod shown;
mod sleeping;
mod spelling;
mod turns;

pub use ending::{Bound, Doubt, Ending, ImageExploration, Sleeping};
pub use explore::explore_image;
pub use image_states::{Bound as NextsBound, Outside};
pub use progress::{Progress, Untold};
