//! The templates of monitors and conditions, and the protocol: a thread inside a template asks what its point of the
//! protocol asks, and goes on as it goes on.
#![tactic(auto)]

mod law;

pub use law::templates_follow;
