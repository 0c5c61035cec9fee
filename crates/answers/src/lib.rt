//! What comes of each job: the answer of the bytes of its files. Nothing here reads or writes a file.
#![tactic(auto)]

mod answer;
mod compiled;
mod compiling;
mod drawing;
mod explained_run;
mod explaining;
mod exploring;
mod failure;
mod following;
mod formatting;
mod found_schedule;
mod growing;
mod hinting;
mod images;
mod lines;
mod listing;
mod log_limits;
mod paging;
mod replaying;
mod retelling;
mod run_ends;
mod run_entries;
mod running;
mod schedule;
mod scheduling;
mod searching;
mod showing;
mod shrinking;
mod source_log;
mod source_run;
mod status;
mod telling;
mod titles;

pub use answer::{Answer, OutFile, OutFiles};
pub use compiling::{answer_assemble, answer_check, answer_compile, answer_emit};
pub use drawing::Drawings;
pub use explained_run::{
    ExplainSourceFault, ExplainedRun, explain_by_seed, explain_schedule, explain_source,
};
pub use explaining::answer_explain;
pub use exploring::{ExploredText, FoundFiles, Searched, answer_explore, explore_source};
pub use failure::{Failure, NoAnswer};
pub use following::answer_follow;
pub use formatting::answer_fmt;
pub use hinting::{SourceText, tell_refused};
pub use lines::write_text;
pub use listing::answer_list;
pub use log_limits::log_bytes;
pub use replaying::{ReplayFault, replay};
pub use retelling::answer_retell;
pub use running::{answer_exec, answer_replay, answer_run};
pub use scheduling::answer_schedule;
pub use searching::answer_search;
pub use shrinking::answer_shrink;
pub use source_log::{SourceLogFault, explain_log_text, replay_log_text};
pub use source_run::{RunSourceFault, run_by_seed, run_in_order, run_source};
pub use status::Status;
pub use telling::tell_more;
