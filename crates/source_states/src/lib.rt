//! States and actions of a source program in code, each with the state and the action of the meaning that it is.
#![tactic(auto)]

mod action;
mod copying;
mod done;
mod dying;
mod entering;
mod forking;
mod internal;
mod kill;
mod laws;
mod naming;
mod notifying;
mod offering;
mod own;
mod placing;
mod state;
mod step;

pub use action::{Action, ActionKind};
pub use done::permit;
pub use laws::{internal_laws, offer_laws};
pub use naming::{is_named, named};
pub use state::SourceState;
pub use step::{accepts, accepts_as};
