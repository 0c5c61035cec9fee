use callees::Callees;
use program::{Role, ValueType};
use types::NameScope;

/// Where statements stand: what is needed to resolve them.
#[derive(Clone, Copy)]
pub struct Site<'s, 'm, 'u, 'a> {
    /// What the unit declares.
    pub callees: &'s Callees<'u, 'a>,
    /// The names in scope.
    pub standing: &'s NameScope<'m, 'a>,
    /// Which part of the unit they are in.
    pub role: Role,
    /// The type of the result that is due there, if any.
    pub returns: Option<ValueType>,
}
