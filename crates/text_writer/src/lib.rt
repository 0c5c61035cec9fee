//! A text that is written for people, and keeps want of memory until its end.
#![tactic(auto)]

mod writer;

pub use writer::TextWriter;
