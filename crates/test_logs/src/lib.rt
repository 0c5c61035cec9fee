//! Logs of a program's image by schedules that follow from seeds, forged and changed ones too, and how many of them are
//! explained.
#![tactic(auto)]

mod changed;
mod changing;
mod forging;
mod kills;
mod logging;
mod outside;
mod strays;
mod trial;

pub use changed::{ChangeTrial, try_changes};
pub use changing::{CHANGES, Change};
pub use forging::Forgery;
pub use kills::{KillTrial, try_kills};
pub use logging::{log_of, log_with_kill, log_with_strays};
pub use strays::{StrayTrial, try_strays};
pub use trial::{Subject, Trial, try_logs};
