//! Lines that go on, each with a text of its own.
#![tactic(auto)]

mod beside;

pub use beside::put_beside;
