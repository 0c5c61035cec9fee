//! From tokens to the trees of expressions, of targets and of what is called.
//!
//! Each function reads its tree from the front of a parser's tokens and passes it. Where it refuses, the parser is
//! of no further use: the tokens before the refused one may be passed already.
#![tactic(auto)]

mod alone;
mod calls;
mod levels;

pub use calls::{callee, value};
pub use levels::{expression, expression_before, variable};
