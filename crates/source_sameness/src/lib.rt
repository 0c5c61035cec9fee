//! Whether two processes of a source program stand at one place, with the same locals.
#![tactic(auto)]

mod expressions;
mod processes;
mod statements;

pub use processes::same_process;
