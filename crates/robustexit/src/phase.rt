ghost use Rattle.std.specs.Prelude.{◌≡◌};
ghost use Rattle.robustexit.specs.Phases.{next_entry};

use words::Addr;

/// The most entries of a robust list that are walked (robust-futex ABI, ROBUST_LIST_LIMIT), so that a list that is a
/// ring ends.
pub const MOST_ENTRIES: u32 = 2048;

/// How far the end of a thread has come: what its next step is at.
#[derive(Clone, Copy, PartialEq, Eq, Debug)]
pub enum ExitPhase {
    /// An entry of its robust list.
    Entry {
        /// The address of the entry's link.
        entry: Addr,
        /// How many entries stood before it.
        seen: u32,
    },
    /// The entry that its pending word names.
    Pending,
    /// The clearing of its id word (clone(2), CLONE_CHILD_CLEARTID).
    ClearId,
    /// The wake of one sleeper on its id word.
    LastWake,
    /// Nothing is left to do.
    Ended,
}

/// The phase at an entry after `seen` others, or past the list: where the entry is 0, or too many were seen.
pub fn phase_at(entry: u32, seen: u32) -> ExitPhase
    ensures { result ≡ next_entry entry seen }
{
    if entry == 0 || seen >= MOST_ENTRIES {
        ExitPhase::Pending
    } else {
        ExitPhase::Entry {
            entry: Addr(entry),
            seen,
        }
    }
}
