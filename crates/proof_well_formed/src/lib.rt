//! What follows of a unit without a fault: the program that it is resolved to is well formed. A crate of laws only.
#![tactic(auto)]

mod laws;

pub use laws::{faultless_units_are_well_formed, units_of_texts_have_numbers};
