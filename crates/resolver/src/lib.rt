//! From a unit's tree to the program: names by their numbers, chains of operators folded to the left, and beside each
//! expression and statement whether nothing of it is faulty.
#![tactic(auto)]

mod called;
mod calls;
mod expressions;
mod flags;
mod folds;
mod known;
mod monitors;
mod name_lists;
mod names;
mod operands;
mod procedures;
mod simple;
mod site;
mod statements;
mod unit;

pub use unit::{Resolved, resolve};
