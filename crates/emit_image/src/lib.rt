//! An image as one file of C, over the macros of the header `include/mesa_image.h`: a line for each instruction, so that
//! the text is a function of the image, with lines of its source text as comments between them.
#![tactic(auto)]

mod comments;
mod emitting;
mod functions;
mod head;
mod lines;
mod names;
mod operands;

pub use comments::{LineStart, comments_end};
pub use emitting::emit_image;
