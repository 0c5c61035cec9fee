//! The state of one thread of the machine, and its local steps.
#![tactic(auto)]

mod access;
mod activation;
mod answering;
mod arithmetic;
mod asking;
mod copying;
mod frame;
mod holding;
mod local;
mod local_run;
mod progress;
mod request;
mod sequence;
mod sequence_run;
mod sequences;
mod stack;
mod stepping;
mod taking;
mod walking;

pub use access::{Access, AccessKind};
pub use local::{Local, opening_local};
pub use local_run::run_local;
pub use request::{NextStep, Request};
pub use sequences::Sequences;
