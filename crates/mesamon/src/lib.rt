//! The commands of the program, from their words to the bytes that are written; and the calls that they stand on.
#![tactic(auto)]

mod commands;
mod files;
mod jobs;
mod overwriting;
mod progress;

pub use answers::{
    ExplainSourceFault, ExplainedRun, ExploredText, ReplayFault, RunSourceFault, SourceLogFault,
    Status, explain_by_seed, explain_log_text, explain_schedule, explain_source, explore_source,
    replay, replay_log_text, run_by_seed, run_in_order, run_source,
};
pub use commandline::{
    ChartOptions, Exits, ExplainedBy, ImageForm, Job, Order, ReplayedBy, RunOptions, SearchFiles,
    WordsFault, line,
};
pub use commands::perform_with_hints;
pub use compiler::{
    check_text, compile, compile_as, compile_checked, compile_checked_as, compile_with,
    compile_with_as,
};
pub use devices::{Counted, FileFailures};
pub use jobs::answer_job;
pub use progress::ProgressLines;
pub use source_search::{Asked, Progress, Untold};
pub use workers::Calls;
