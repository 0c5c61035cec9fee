use lowering::Marked;

/// The code of one procedure, RECOVER part or main part, before it is linked.
#[derive(Drop)]
pub struct CodePiece {
    /// The number of the procedure's piece.
    pub number: usize,
    /// Its instructions. Places count from the first one, and calls name pieces by their numbers.
    pub code: Vec<Marked>,
}
