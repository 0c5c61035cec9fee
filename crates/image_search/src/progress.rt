/// Who is told how far a search has come. It gives nothing back, so what the search answers doesn't depend on it.
pub trait Progress {
    /// Called behind each state that the search has looked at: how many it keeps, and how many of them it has looked at.
    fn looked_at(&mut self, kept: usize, looked: usize);
}

/// Who wants to be told nothing.
#[derive(Clone, Copy, Debug)]
pub struct Untold;

impl Progress for Untold {
    fn looked_at(&mut self, _kept: usize, _looked: usize) {}
}
