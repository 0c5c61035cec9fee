//! The machine with futex calls in pieces: each piece of a call is a step of its own, and steps of other threads come
//! between.
#![tactic(auto)]

mod calls;
mod laws;
mod local_steps;
mod movers;
mod outside;
mod phases;
mod piece_machine;
mod sleeping;
mod told;

pub use laws::functions_are_steps;
pub use piece_machine::PieceMachine;
pub use told::Told;
