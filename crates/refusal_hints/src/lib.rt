//! What helps a person with a refusal: lines that come behind the line of the refusal itself.
#![tactic(auto)]

mod behind;
mod byte_slips;
mod chains;
mod checked;
mod declarations;
mod excerpt;
mod expected;
mod expression_types;
mod firsts;
mod foreign_words;
mod headers;
mod hinting;
mod lexeme;
mod limits;
mod names;
mod operators;
mod places;
mod scopes;
mod semicolon_slips;
mod sign_slips;
mod slip_texts;
mod sought;
mod spot;
mod symbol;
mod types;
mod walk;
mod wanted_types;
mod word_slips;

pub use hinting::hints_of;
