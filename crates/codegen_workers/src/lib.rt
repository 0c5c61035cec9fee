//! The code of a program's pieces, made by several workers.
#![tactic(auto)]

mod collecting;
mod generating;
mod share;
mod starting;

pub use generating::{MOST_WORKERS, generate_with};
