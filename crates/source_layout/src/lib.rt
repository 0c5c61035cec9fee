//! A source text in one layout: a statement a line, indented by how deep it is nested. No token and no comment is lost.
#![tactic(auto)]

mod bare;
mod keeping;
mod laying;
mod layout;
mod lines;
mod spaces;
mod tidy;

pub use laying::lay_out;
