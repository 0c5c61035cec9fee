//! The templates of a monitor's lock, behind other code: enter, exit, leave, take, got.
#![tactic(auto)]

mod lock;

pub use lock::{
    enter, exit, got, got_from, leave, leave_from, leave_length, recovery, take, take_from,
};
