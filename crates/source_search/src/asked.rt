/// What a search is asked for besides what it always tells.
#[derive(Clone, Copy, PartialEq, Eq, Debug)]
pub struct Asked {
    /// Whether each run can end.
    pub ends: bool,
}
