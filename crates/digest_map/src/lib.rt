//! Numbers by digests: which of the things that are numbered may be the same as one of this digest.
#![tactic(auto)]

mod map;

pub use map::{DigestMap, Found};
