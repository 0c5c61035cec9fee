//! The command line: which job its words ask for.
#![tactic(auto)]

mod arguments;
mod builder;
mod fault;
mod job;
mod options;
mod refusing;
mod sources;
mod tables;
mod values;

pub use fault::WordsFault;
pub use job::{Job, line};
pub use options::{
    ChartOptions, Exits, ExplainedBy, ImageForm, Order, ReplayedBy, RunOptions, SearchFiles,
};
