//! Calls among procedures: how long the chains are that they form, and which procedures are on a cycle.
#![tactic(auto)]

mod chain;
mod components;
mod endless;
mod graph;
mod levels;
mod reach;
mod settle;
mod walking;

pub use chain::chains;
pub use graph::{Graph, Row};

/// A call of a procedure by another. Procedures are numbered from 0.
#[derive(Clone, Copy)]
pub struct Call {
    /// The procedure that calls.
    pub caller: u32,
    /// The procedure that is called.
    pub callee: u32,
}
