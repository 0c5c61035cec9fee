//! From a source text to its image, or to its refusal.
#![tactic(auto)]

mod compiling;
mod compiling_with;
mod laws;

pub use compiling::{check_text, compile, compile_as, compile_checked, compile_checked_as};
pub use compiling_with::{compile_with, compile_with_as};
pub use laws::text_laws;
