//! From a checked program to its image, with where its words lie and the source action at each of its instructions.
#![tactic(auto)]

mod lowered;
mod marking;

pub use lowered::{Lowered, lower, lower_image, lower_image_with};
