//! A schedule of a program's image that goes the way of a run of the program, as a search over all its runs finds one.
#![tactic(auto)]

mod following;
mod guide;
mod handing;

pub use following::{GuidedSchedule, schedule_of_run};
