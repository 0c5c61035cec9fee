//! The lines of source actions, as the command `explain` prints them.
#![tactic(auto)]

mod details;
mod lines;
mod texts;

pub use lines::{action_lines, append_line};
