//! The machine: any number of threads over one memory, and its steps.
#![tactic(auto)]

mod able;
mod accesses;
mod call_pieces;
mod call_step;
mod common;
mod ends;
mod event;
mod exits;
mod futexes;
mod laws;
mod machine;
mod parts;
mod refusals;
mod serving;
mod speculation;
mod thread_bits;
mod thread_set;
mod thread_step;

pub use accesses::access_name;
pub use call_step::CallStep;
pub use event::{Entry, Event, EventName, StepFault};
pub use laws::steps_are_machine_steps;
pub use machine::Machine;
pub use speculation::SpeculativeAccess;
pub use thread_set::{ThreadSet, thread_set_laws};
pub use words::MOST_THREADS;
