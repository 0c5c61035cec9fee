//! The words of the machine: its memory, the words of a lock, the words of a process, and signed numbers.
#![tactic(auto)]

mod gate;
mod integer;
mod limits;
mod lock;
mod mem;
mod outcome;
mod process;
mod version;

pub use gate::{Gate, OpenGate};
pub use integer::{signed, signed_laws, word};
pub use limits::{BUCKETS, MOST_LOCAL_STEPS, MOST_THREADS, limit_laws};
pub use lock::{
    OWNER_DIED, TID_MASK, WAITERS, has_died, has_waiters, lock_word_laws, locked_word, tid,
};
pub use mem::{Addr, Mem};
pub use outcome::{Cause, ENDED, Fault, Outcome, outcome_laws};
pub use process::{MOST_BLOCKS, ProcessWord, block, block_laws};
pub use version::{ImageVersion, version_laws};
