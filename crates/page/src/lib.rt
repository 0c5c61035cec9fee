//! A run of a program as a page for a browser: the source beside the run, step by step. The page is one text, with its
//! styles, its script and the run as JSON within it.
#![tactic(auto)]

mod changes;
mod control_script;
mod data;
mod json;
mod lane_script;
mod list_script;
mod markup;
mod model_script;
mod panel_script;
mod steps;
mod styles;

pub use data::{PagedRun, page};
