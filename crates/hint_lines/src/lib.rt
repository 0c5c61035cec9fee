//! Lines that help a person: two blanks, and what each says, in printable ASCII.
#![tactic(auto)]

mod laws;
mod lines;

pub use laws::shown_laws;
pub use lines::{append_shown, hint_lines};
