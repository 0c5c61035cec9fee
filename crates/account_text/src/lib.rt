//! What a run tells, as text: its output, and its account.
#![tactic(auto)]

mod account;

pub use account::{append_account, append_output};
