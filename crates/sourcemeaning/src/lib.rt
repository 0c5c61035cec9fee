//! Which processes of a source program can move in a state, and how long a run a list of actions begins with.
#![tactic(auto)]

mod moving;
mod running;

pub use moving::{can_move, movers};
pub use running::run_length;
pub use source_states::{Action, ActionKind, SourceState, accepts};
