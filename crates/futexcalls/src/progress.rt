ghost use Rattle.std.specs.Prelude.{◌≡◌};
ghost use Rattle.futexcalls.specs.Progress.{answered};
ghost use Rattle.futexcalls.specs.PieceResults.{answer_of};

use crate::lists::FutexLists;
use crate::pieces::{FutexCall, FutexPhase};

// What a requeue, or a wake, answers whose word differs.
const AGAIN: u32 = u32::MAX;

/// The answer of a futex call that was taken in pieces.
#[derive(Clone, Copy, PartialEq, Eq, Debug)]
pub enum FutexAnswer {
    /// The word differs from what was expected, and nothing has changed (futex(2), EAGAIN).
    Again,
    /// The call has acted, and has written into the lists that were lent to it whom it woke and whom it moved. Of a wait
    /// both are empty, and its thread sleeps; of a wake nobody was moved.
    Acted,
}

impl FutexAnswer {
    /// What the thread of the call is answered, to which these lists were lent: how many threads woke or were moved, of a wait 0; where the word
    /// differs, of a wait 1, else 4294967295.
    pub fn value(self, call: FutexCall, lists: &FutexLists) -> u32
        ensures { result ≡ answer_of call (answered self lists.now) }
    {
        match self {
            FutexAnswer::Again => match call {
                FutexCall::Wait { .. } => 1,
                FutexCall::Wake { .. } | FutexCall::Requeue { .. } => AGAIN,
            },
            FutexAnswer::Acted => lists.count(),
        }
    }
}

/// What came of a piece of a futex call.
#[derive(Clone, Copy, PartialEq, Eq, Debug)]
pub enum FutexProgress {
    /// The call stands before another piece.
    Next(FutexPhase),
    /// A thread holds the bucket that the call takes next. Nothing has changed.
    Blocked,
    /// The call is over, and has given up its buckets.
    Done(FutexAnswer),
}
