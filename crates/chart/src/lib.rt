//! A run of a program as a picture: a row for each process, and the actions from left to right.
#![tactic(auto)]

mod arrows;
mod bar;
mod circles;
mod drawing;
mod frames;
mod hang;
mod labels;
mod layer;
mod legend;
mod marks;
mod palette;
mod picture;
mod row;
mod shapes;
mod sheet;
mod span;
mod strip;

pub use picture::{Picture, chart};
