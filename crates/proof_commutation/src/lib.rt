//! Internal actions of a process, which no other process sees, may be deferred, so that the actions of others come
//! before them: what makes one run of the source of all the orders in which a machine takes local steps.
#![tactic(auto)]

mod law;
mod placing;

pub use law::deferral_laws;
pub use placing::ordering_laws;
