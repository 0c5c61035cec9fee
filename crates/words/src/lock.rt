ghost use Rattle.std.specs.Prelude.{◌≡◌, ℕ, Bool, true, ◌^◌, ◌<◌, if◌then◌else◌, false};
ghost use Rattle.std.specs.Int.Bits.{bit_and, bit_or};
ghost use Rattle.words.specs.LockWord.{lock_word, owner_of, died_of, waiters_of};

/// The bit of a lock word that says that threads may wait for it (robust-futex ABI, FUTEX_WAITERS).
pub const WAITERS: u32 = 0x8000_0000;

/// The bit of a lock word that says that its owner died with it (robust-futex ABI, FUTEX_OWNER_DIED).
pub const OWNER_DIED: u32 = 0x4000_0000;

/// The bits of a lock word with its owner's number, 0 for none (robust-futex ABI, FUTEX_TID_MASK).
pub const TID_MASK: u32 = 0x3fff_ffff;

/// The number of a lock word's owner, 0 for none.
pub fn tid(w: u32) -> u32
    ensures { result ≡ owner_of w }
{
    w & TID_MASK
}

/// Whether threads may wait for the lock.
pub fn has_waiters(w: u32) -> bool
    ensures { result ≡ waiters_of w }
{
    w & WAITERS != 0
}

/// Whether the lock's owner died with it.
pub fn has_died(w: u32) -> bool
    ensures { result ≡ died_of w }
{
    w & OWNER_DIED != 0
}

/// The word of a lock that thread `t` owns, with the waiters bit or without it.
pub fn locked_word(t: u32, waiters: bool) -> u32
    requires { t < 2 ^ 30 }
    ensures { result ≡ lock_word t false waiters }
{
    if waiters { t | WAITERS } else { t }
}

/// What masks, setting a flag and comparison do to the word of a lock whose owner's number is below 2^30.
pub fn lock_word_laws()
    ensures owner { (o : ℕ) (d w : Bool) → o < 2 ^ 30 → owner_of (lock_word o d w) ≡ o }
    ensures died { (o : ℕ) (d w : Bool) → o < 2 ^ 30 → died_of (lock_word o d w) ≡ d }
    ensures waiters { (o : ℕ) (d w : Bool) → o < 2 ^ 30 → waiters_of (lock_word o d w) ≡ w }

    // Setting the waiters bit, or the bit of a dead owner.
    ensures set_waiters { (o : ℕ) (d w : Bool) → o < 2 ^ 30
        → bit_or (lock_word o d w) 2147483648 ≡ lock_word o d true }
    ensures set_died { (o : ℕ) (d w : Bool) → o < 2 ^ 30
        → bit_or (lock_word o d w) 1073741824 ≡ lock_word o true w }

    // The masks alone.
    ensures mask_waiters { (o : ℕ) (d w : Bool) → o < 2 ^ 30
        → bit_and (lock_word o d w) 2147483648 ≡ (if w then 2147483648 else 0) }
    ensures mask_died { (o : ℕ) (d w : Bool) → o < 2 ^ 30
        → bit_and (lock_word o d w) 1073741824 ≡ (if d then 1073741824 else 0) }

    // Every word is a lock word, of its own parts, and of no others.
    ensures parts { (v : ℕ) → v < 2 ^ 32 → v ≡ lock_word (owner_of v) (died_of v) (waiters_of v) }
    ensures small { (v : ℕ) → owner_of v < 2 ^ 30 }
    ensures fits { (o : ℕ) (d w : Bool) → o < 2 ^ 30 → lock_word o d w < 2 ^ 32 }
{}
