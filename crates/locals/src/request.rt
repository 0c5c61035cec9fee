use robustexit::ExitPhase;
use words::{Addr, Cause};

/// What a thread asks the shared part of the machine for. Each is one step.
#[derive(Clone, Copy, PartialEq, Eq, Debug)]
pub enum Request {
    /// The word at an address.
    Load(Addr),
    /// A word put at an address.
    Store(Addr, u32),
    /// A word put at an address; the answer is the word before.
    Swap(Addr, u32),
    /// `new` put at an address where the word is `expected`; the answer is the word before.
    CompareSwap {
        /// The address.
        address: Addr,
        /// The word that has to be there.
        expected: u32,
        /// The word that is put.
        new: u32,
    },
    /// Bits set in the word at an address; the answer is the word before.
    FetchOr(Addr, u32),
    /// A number added to the word at an address, modulo 2^32; the answer is the word before.
    FetchAdd(Addr, u32),
    /// To print a number, given as its word.
    Print(u32),
    /// To sleep on an address where the word is `expected` (futex(2), FUTEX_WAIT); the answer is 0, or 1 where the word
    /// is another.
    Wait {
        /// The address.
        address: Addr,
        /// The word that has to be there.
        expected: u32,
    },
    /// To wake at most `count` sleepers on an address (futex(2), FUTEX_WAKE); the answer is how many.
    Wake {
        /// The address.
        address: Addr,
        /// How many are woken at most.
        count: u32,
    },
    /// To wake and move sleepers where the word is `expected` (futex(2), FUTEX_CMP_REQUEUE); the answer is how many of
    /// both, or 4294967295 where the word is another.
    Requeue {
        /// The address whose sleepers are woken and moved.
        from: Addr,
        /// The address that they are moved to.
        to: Addr,
        /// How many are woken at most.
        wake: u32,
        /// How many of the rest are moved at most.
        moves: u32,
        /// The word that has to be at `from`.
        expected: u32,
    },
    /// Its end, by the return of its last frame; the answer is the first entry of its robust list.
    Return,
    /// The same with a value, given as its word.
    ReturnValue(u32),
    /// To write the fault that it met as its outcome; the answer is the first entry of its robust list.
    Fault(Cause),
}

/// What the next step of a thread is.
#[derive(Clone, Copy, PartialEq, Eq, Debug)]
pub enum NextStep {
    /// A local step.
    Local,
    /// A shared step, which serves this request.
    Shared(Request),
    /// A shared step that makes a thread at a place with the `count` uppermost operands; the answer is its number, or 0
    /// where none can be made. `has_room` says whether a number then has room among the operands.
    Fork {
        /// Where the new thread begins.
        entry: u32,
        /// How many operands it takes.
        count: u32,
        /// Whether the answer has room.
        has_room: bool,
    },
    /// A step of its exit.
    Exit(ExitPhase),
    /// A step that may not be: a missing operand, a 513th operand, a 17th frame, a place outside the code, or a process
    /// number that no thread can have.
    Broken,
    /// None, since the thread has ended.
    Ended,
}
