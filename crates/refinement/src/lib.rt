//! What the code of a program owes to the program, over every schedule of the machine; and that the code of each
//! checked program goes as the program goes.
#![tactic(auto)]

mod law;

pub use law::{code_of_processes_follows, ends_are_the_sources};
