use layout::Layout;
use program::{Program, Role, ValueType};

/// Where code is made: the program with its layout, and of the procedure its role and its result's type.
#[derive(Clone, Copy)]
pub(crate) struct Site<'a> {
    pub(crate) program: &'a Program,
    pub(crate) layout: &'a Layout,
    pub(crate) role: Role,
    pub(crate) outcome: Option<ValueType>,
}
