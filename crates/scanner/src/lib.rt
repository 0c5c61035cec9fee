//! From the bytes of a source text to its tokens, and the refusals of all phases.
#![tactic(auto)]

mod front;
mod gaps;
mod keywords;
mod laws;
mod lexemes;
mod number;
mod refusal;
mod signs;
mod source;
mod text;
mod token;

pub use laws::{fault_laws, token_laws};
pub use refusal::{Refusal, RefusalKind};
pub use text::{MOST_BYTES, scan};
pub use token::{Keyword, Kind, Place, Sign, Token};
