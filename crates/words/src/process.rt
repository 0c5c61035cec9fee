ghost use Rattle.std.specs.Prelude.{◌≡◌, ◌+◌, ◌-◌, ◌*◌, ◌<◌, ◌≤◌, ℕ};
ghost use Rattle.words.specs.Process.{process_word, number_of};

use crate::mem::Addr;

/// The most processes whose words have addresses.
pub const MOST_BLOCKS: u32 = 1 << 24;

/// One of the words that each process has.
#[derive(Clone, Copy, PartialEq, Eq, PartialOrd, Ord, Debug, Hash)]
pub enum ProcessWord {
    /// The first entry of its robust list, 0 for none (robust-futex ABI).
    Head = 0,
    /// The entry that it is just acquiring or releasing, 0 for none (robust-futex ABI).
    Pending = 1,
    /// Its own number, cleared at its end (clone(2), the cleared thread id).
    Id = 2,
    /// 1 once a JOIN has claimed it.
    Claim = 3,
    /// What it returned.
    Result = 4,
    /// How it ended: 0 not yet, 16 by its return, else a fault.
    Outcome = 5,
}

/// The address of a word of process `t`, from 1. Process t has the six words from 1 + 6 * (t - 1).
pub fn block(t: u32, word: ProcessWord) -> Addr
    requires { (0 < t) × (t ≤ MOST_BLOCKS) }
    ensures { result.0 ≡ process_word t (number_of word) }
{
    Addr(1 + 6 * (t - 1) + word as u32)
}

/// No two words of processes have one address, and none has the address 0.
pub fn block_laws()
    ensures apart { (t u k j : ℕ) → 0 < t → 0 < u → k < 6 → j < 6
        → process_word t k ≡ process_word u j → (t ≡ u) × (k ≡ j) }
    ensures null { (t k : ℕ) → 0 < process_word t k }
{}
