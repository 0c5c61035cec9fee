//! What it says of a program's image, that no run of the program gets stuck, or that no process aborts in any.
#![tactic(auto)]

mod law;

pub use law::image_laws;
