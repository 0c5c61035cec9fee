//! The least fault of an expression, and of each statement that calls nothing, without those of the statements that it
//! holds.
#![tactic(auto)]

mod callee;
mod expressions;
mod names;
mod operands;
mod simple;
mod values;

pub use callee::{callee_place, is_empty, is_hidden, is_internal, is_miscounted, is_reentry};
pub use expressions::expression;
pub use names::{condition, has_monitor, into, is_recover, note_where, outside, recover, taker};
pub use operands::operand;
pub use simple::{join, notify, print, returned, wait};
pub use values::{assignment, typed};
