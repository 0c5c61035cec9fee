//! From a tree to a checked program: what its names mean, which types its expressions have, and what may stand where.
//! `specs` says which program a tree is resolved to, and which faults it has; here stand the first steps of a checker.
#![tactic(auto)]

mod checks;
mod kinds;
mod least;
mod places;
mod standing;
mod table;
mod typing;

pub use checks::{
    Sides, comparison_faults, condition_fault, differ, index_fault, note, operand_fault, read_fault,
};
pub use kinds::{
    comparison_operator, local_kind, member_kind, product_operator, result_kind, sum_operator,
};
pub use least::{comes_no_later, lesser};
pub use places::{
    conjunction_place, expression_place, factor_place, relation_place, sum_place, term_place,
};
pub use standing::{Meaning, Members, NameScope, Own};
pub use table::Table;
pub use typing::{element_type, variable_type};
