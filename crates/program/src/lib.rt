//! A checked program: resolved trees, in which no name is left to look up, and what holds of each program that the
//! checker accepts. All meaning, code and proof speak of it.
#![tactic(auto)]

mod checked;
mod expression;
mod kinds;
mod statement;
mod unit;

pub use checked::{Checked, MonitorNames, Names};
pub use expression::{Both, Element, Expression};
pub use kinds::{Member, MemberType, Operator, Role, UnaryOperator, ValueType};
pub use statement::{Statement, Target};
pub use unit::{Monitor, Procedure, Program};
