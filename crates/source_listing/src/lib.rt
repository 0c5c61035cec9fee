//! Which source lines the instructions of an image come from, and what stands beside them in its listing: these lines, and
//! the names of words.
#![tactic(auto)]

mod asides;
mod lengths;
mod monitor_words;
mod plan;
mod starts;

pub use asides::{Listing, listing_of};
pub use starts::line_starts;
