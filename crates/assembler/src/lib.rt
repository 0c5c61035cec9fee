//! From an assembly text to an image: the inverse of a listing, with labels, and words, locks, locals and constants by
//! name.
#![tactic(auto)]

mod assembling;
mod cuts;
mod declaring;
mod draft;
mod instructions;
mod line_words;
mod listing;
mod names;
mod numbers;
mod parts;
mod refusal;
mod resolving;
mod steps;
mod table;
mod text_lines;

pub use assembling::{Assembled, assemble};
pub use names::{Meaning, Name};
pub use refusal::{AssemblyFault, AssemblyRefusal};
