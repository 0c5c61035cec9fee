/// What a list of statements is that a walk is in.
#[derive(Clone, Copy)]
pub(crate) enum Owner {
    /// The body of the last piece.
    Body,
    /// What stands behind THEN, DO or ABORTED of this statement.
    Part(usize),
    /// What stands behind ELSE of this statement.
    Other(usize),
}

/// A list of statements that a walk is in.
#[derive(Clone, Copy)]
pub(crate) struct Opening {
    /// What it is.
    pub owner: Owner,
    /// Its last statement so far.
    pub last: Option<usize>,
}

impl Opening {
    /// A list without statements.
    pub fn new(owner: Owner) -> Opening {
        Opening { owner, last: None }
    }
}
