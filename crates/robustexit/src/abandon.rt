ghost use Rattle.std.specs.Prelude.{◌≡◌, ◌+◌, ◌<◌, ℕ, true, length, take, drop, if◌then◌else◌, IfNone, IfSome};
ghost use Rattle.std.specs.Prelude.{slice_set, ◌≢◌};
ghost use Rattle.words.specs.LockWord.{lock_word, waiters_of};
ghost use Rattle.buckets.specs.Sleepers.{queue, place_of, thread_count, IsSound};
ghost use Rattle.futexcalls.specs.FutexCalls.{Wakes};
ghost use Rattle.futexcalls.specs.Answers.{word_of};
ghost use Rattle.robustexit.specs.RobustExit.{IsEntry};

use buckets::{Buckets, ThreadList};
use futexcalls::wake;
use words::{Addr, Mem, OWNER_DIED, WAITERS, has_waiters};

const DIED_WITH_WAITERS: u32 = OWNER_DIED | WAITERS;

/// The lock word of an entry, where the entry isn't 0 and its two words lie in the memory.
pub fn lock_of(mem: &Mem, entry: u32) -> Option<Addr>
    ensures found { IfSome result (λ l. (l.0 ≡ entry + 1) × IsEntry (length mem.now) entry) }
    ensures none { IfNone result (IsEntry (length mem.now) entry → ⊥) }
{
    let lock = entry.checked_add(1)?;
    if entry != 0 && (lock as usize) < mem.len() {
        Some(Addr(lock))
    } else {
        None
    }
}

/// The word of a lock whose owner died.
fn died_word(waiters: bool) -> u32
    ensures { result ≡ lock_word 0 true waiters }
{
    if waiters {
        DIED_WITH_WAITERS
    } else {
        OWNER_DIED
    }
}

/// Marks a lock as one whose owner died, and wakes one sleeper on it where it says that there may be some. Who was woken
/// is written into `woken`.
pub fn abandon(mem: &mut Mem, buckets: &mut Buckets, lock: Addr, woken: &mut ThreadList)
    requires { lock.0 < length mem.old }
    ensures marks { mem.new ≡ slice_set mem.old lock.0
        (lock_word 0 true (waiters_of (word_of mem.old lock.0))) }
    ensures wakes { Wakes (place_of buckets.old) lock.0
        (if waiters_of (word_of mem.old lock.0) then 1 else 0)
        woken.new (place_of buckets.new) }
    ensures woken { woken.new
        ≡ take (if waiters_of (word_of mem.old lock.0) then 1 else 0) (queue buckets.old lock.0) }
    ensures rest { queue buckets.new lock.0
        ≡ drop (if waiters_of (word_of mem.old lock.0) then 1 else 0) (queue buckets.old lock.0) }
    ensures others { (b : ℕ) → b ≢ lock.0 → queue buckets.new b ≡ queue buckets.old b }
    ensures holders { buckets.new.holders ≡ buckets.old.holders }
    ensures threads { thread_count buckets.new ≡ thread_count buckets.old }
    ensures sound { IsSound buckets.old × IsSound buckets.new }
{
    let waiters = has_waiters(mem.load(lock));
    mem.store(lock, died_word(waiters));
    wake(buckets, lock, u32::from(waiters), woken);
}
