use futexcalls::FutexPhase;

/// What came of a piece of a futex call, before its thread has gone on.
#[derive(Clone, Copy, PartialEq, Eq, Debug)]
pub enum CallProgress {
    /// The call stands before another piece.
    Next(FutexPhase),
    /// A thread holds the bucket that the call takes next. Nothing has changed.
    Blocked,
    /// The call is over, with this answer to its thread.
    Done(u32),
}

/// What came of a piece of the futex call that a thread makes.
#[derive(Clone, Copy, PartialEq, Eq, Debug)]
pub enum CallStep {
    /// The call stands before another piece.
    Next(FutexPhase),
    /// A thread holds the bucket that the call takes next. Nothing has changed.
    Blocked,
    /// The call is over, and the thread has gone on with its answer.
    Done,
}
