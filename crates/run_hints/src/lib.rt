//! What helps a person with a run: where each process stands in the text, and what each action did there.
#![tactic(auto)]

mod asides;
mod asserted;
mod causes;
mod circles;
mod ends;
mod entries;
mod follower;
mod level;
mod moment;
mod names;
mod stands;
mod values;
mod ways;

pub use asides::asides_of;
pub use ends::end_hints;
pub use entries::{Refused, entry_hints};
pub use ways::{Way, append_drawing, append_limit, append_way};
