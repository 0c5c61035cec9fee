//! The templates of conditions, behind other code: wait, notify, broadcast.
#![tactic(auto)]

mod condition;

pub use condition::{broadcast, notify, wait};
