//! The image of each checked program is within the limits of an image, but for the length of its code; and how long
//! its templates are.
#![tactic(auto)]

mod laws;
mod lengths;

pub use laws::image_laws;
pub use lengths::template_laws;
