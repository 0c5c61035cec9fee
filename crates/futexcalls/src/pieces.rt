use words::Addr;

/// A futex call that a thread makes.
#[derive(Clone, Copy, PartialEq, Eq, Debug)]
pub enum FutexCall {
    /// The thread sleeps, where a word is as expected (futex(2), FUTEX_WAIT).
    Wait {
        /// The address of the word.
        address: Addr,
        /// What is expected of it.
        expected: u32,
    },
    /// Sleepers on a word wake (futex(2), FUTEX_WAKE).
    Wake {
        /// The address of the word.
        address: Addr,
        /// How many at most.
        wakes: u32,
    },
    /// Where a word is as expected, sleepers on it wake, and others of them go to another word (futex(2),
    /// FUTEX_CMP_REQUEUE).
    Requeue {
        /// The address of the word.
        address: Addr,
        /// The address of the other word.
        target: Addr,
        /// How many wake at most.
        wakes: u32,
        /// How many go to the other word at most.
        moves: u32,
        /// What is expected of the word.
        expected: u32,
    },
}

/// How far a thread has come in a futex call: before which of its pieces it stands. A call takes its buckets, compares
/// where it is one that does, and acts.
#[derive(Clone, Copy, PartialEq, Eq, Debug)]
pub enum FutexPhase {
    /// The call's bucket is taken, of two the lesser.
    First,
    /// The greater bucket is taken.
    Second,
    /// The word is compared.
    Compare,
    /// The sleepers change, and the buckets are given up.
    Act,
}
