//! Threads that make entries in one log, on one machine.
#![tactic(auto)]

mod attempt;
mod caller;
mod calling;
mod calm_places;
mod drawing;
mod entering;
mod fault;
mod in_place;
mod laws;
mod log_schedule;
mod naming;
mod next;
mod passing_over;
mod piece;
mod report;
mod rounds;
mod running;
mod schedule;
mod seeded;
mod share;
mod shared;
mod speculation;
mod stepping;
mod thread_bits;

pub use fault::RunFault;
pub use laws::{logs_are_machine_runs, orders_give_one_log, seeds_give_one_log};
pub use log_schedule::{FollowLogFault, follow_log};
pub use naming::RunName;
pub use next::{After, Next};
pub use piece::Piece;
pub use report::{Report, Verdict, report_of};
pub use rounds::run_alone;
pub use running::{finish, run_in_order};
pub use schedule::{ScheduleFault, Turn, follow};
pub use seeded::run_by_seed;
pub use share::{PARTS, Share};
pub use shared::Shared;
pub use speculation::{MOST_ACCESSES, Speculation};
