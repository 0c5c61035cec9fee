/// A statement: where it begins, and what stands within it and behind it. Statements are named by their numbers, from 0
/// in the order in which they begin.
#[derive(Clone, Copy, Debug)]
pub struct Spot {
    /// The number of its first token.
    pub token: usize,
    /// The first statement behind its THEN, DO or ABORTED.
    pub part: Option<usize>,
    /// The first statement behind its ELSE.
    pub other: Option<usize>,
    /// The next statement of the same part or body.
    pub next: Option<usize>,
}

/// What a piece of a program is.
#[derive(Clone, Copy, PartialEq, Eq, Debug)]
pub enum PieceKind {
    /// A procedure.
    Procedure,
    /// The RECOVER part of a monitor.
    Recover,
    /// The main part.
    Main,
}

/// A piece of a program: a procedure, a RECOVER part or the main part.
#[derive(Clone, Copy, Debug)]
pub struct Piece<'t> {
    /// What it is.
    pub kind: PieceKind,
    /// The name of the monitor that it stands in.
    pub monitor: Option<&'t [u8]>,
    /// Its name: of a procedure its own, else the keyword.
    pub name: &'t [u8],
    /// The number of the token that is its name.
    pub token: usize,
    /// The number of the END that ends it.
    pub end: usize,
    /// The first statement of its body.
    pub first: Option<usize>,
    /// The number of its first local's name among all locals of the text.
    pub locals: usize,
    /// How many locals it has, its parameters first.
    pub count: usize,
}
