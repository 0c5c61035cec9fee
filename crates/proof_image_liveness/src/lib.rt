//! Laws: which threads sleep for good in a state of an image, by what a complete search keeps.
#![tactic(auto)]

mod law;

pub use law::image_liveness_laws;
