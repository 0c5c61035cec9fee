use thiserror::Error;

/// Why an entry or a run is refused.
#[derive(Clone, Copy, PartialEq, Eq, Debug, Error)]
pub enum RunFault {
    /// The piece is another thread's, or began where the thread is no more.
    #[error("fault 1")]
    Stray = 1,
    /// The entry would pass the limit of steps.
    #[error("fault 2")]
    Limit = 2,
    /// The thread can't move: it sleeps or has ended, or a held bucket is in its way.
    #[error("fault 3")]
    CannotMove = 3,
    /// The thread's next step may not be.
    #[error("fault 4")]
    Broken = 4,
    /// There is no memory for the entry.
    #[error("fault 5")]
    Memory = 5,
}
