//! Who sleeps on which address: a list of sleepers for each address, in the order in which they came to it.
#![tactic(auto)]

mod buckets;
mod chain;
mod node;
mod sleeper;
mod thread_list;

pub use buckets::Buckets;
pub use thread_list::ThreadList;
