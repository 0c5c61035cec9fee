//! Memories that keep only the words that aren't 0.
#![tactic(auto)]

mod memory;

pub use memory::SparseMemory;
