// Where statements stand.

use callees::Callees;
use program::{Role, ValueType};
use types::NameScope;

/// What the statements of a piece are judged by.
#[derive(Clone, Copy)]
pub struct Context<'c, 'u, 'a> {
    /// The names in scope of the piece.
    pub standing: &'c NameScope<'c, 'a>,
    /// What the unit declares.
    pub callees: &'c Callees<'u, 'a>,
    /// The role of the piece.
    pub role: Role,
    /// The type of its result, where it has one.
    pub returns: Option<ValueType>,
}
