//! The text of logs: a line for each entry, written and read.
#![tactic(auto)]

mod fields;
mod laws;
mod numbers;
mod parts;
mod reading;
mod sets;
mod writing;

pub use laws::log_text_laws;
pub use numbers::{number, spaced_number, value_of};
pub use parts::{Halves, are_same, cut, past_byte, past_first, past_word};
pub use reading::{ReadLogFault, read_log};
pub use writing::append_log;
