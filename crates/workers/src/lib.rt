//! A run with a worker for each thread of its machine: local steps are taken side by side, and shared steps under one
//! lock.
#![tactic(auto)]

mod ahead;
mod bucket_waiters;
mod ended;
mod hiring;
mod image_ref;
mod lookout;
mod moments;
mod no_words;
mod owed;
mod parker;
mod patience;
mod pool;
mod precedence;
mod put_off;
mod running;
mod shared_run;
mod turns;

pub use put_off::Calls;
pub use running::run;
