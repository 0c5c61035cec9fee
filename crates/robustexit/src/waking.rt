ghost use Rattle.std.specs.Prelude.{◌≡◌, ◌<◌, ◌≤◌, ℕ, Some, length, IfSome};
ghost use Rattle.std.specs.Option.{option_map};
ghost use Rattle.words.specs.Process.{process_word};
ghost use Rattle.futexcalls.specs.Answers.{word_of};
ghost use Rattle.robustexit.specs.Waking.{WakesOn};

use crate::abandon::lock_of;
use crate::phase::ExitPhase;
use crate::rule::ExitRule;
use words::{Addr, MOST_BLOCKS, Mem, ProcessWord, block, has_waiters, tid};

/// The word on which the step of thread `t`'s exit in this phase wakes, should anybody sleep there; None where it wakes
/// on none.
pub fn wakes_on(rule: ExitRule, mem: &Mem, t: u32, phase: ExitPhase) -> Option<Addr>
    requires thread { (0 < t) × (t ≤ MOST_BLOCKS) }
    requires block { process_word t 5 < length mem.now }
    ensures wakes { IfSome result (λ a. WakesOn rule (length mem.now) t phase (word_of mem.now) a.0) }
    ensures only { (a : ℕ) → WakesOn rule (length mem.now) t phase (word_of mem.now) a
        → option_map (λ b. b.0) result ≡ Some a }
{
    match phase {
        ExitPhase::Entry { entry, seen: _ } => entry_word(rule, mem, t, entry),
        ExitPhase::Pending => pending_word(rule, mem, t),
        ExitPhase::LastWake => Some(block(t, ProcessWord::Id)),
        ExitPhase::ClearId | ExitPhase::Ended => None,
    }
}

// A lock that the dying thread owns, and for which threads may wait.
fn entry_word(rule: ExitRule, mem: &Mem, t: u32, entry: Addr) -> Option<Addr>
    requires thread { (0 < t) × (t ≤ MOST_BLOCKS) }
    requires block { process_word t 5 < length mem.now }
    ensures wakes { IfSome result (λ a. WakesOn rule (length mem.now) t (ExitPhase.Entry entry 0)
        (word_of mem.now) a.0) }
    ensures only { (a : ℕ) → WakesOn rule (length mem.now) t (ExitPhase.Entry entry 0) (word_of mem.now) a
        → option_map (λ b. b.0) result ≡ Some a }
{
    let lock = lock_of(mem, entry.0)?;
    let is_pending = mem.load(block(t, ProcessWord::Pending)) == entry.0;
    let word = mem.load(lock);
    if !is_pending && tid(word) == t && has_waiters(word) {
        Some(lock)
    } else {
        None
    }
}

// A lock that another thread owns, or none; or for which threads may wait.
fn pending_word(rule: ExitRule, mem: &Mem, t: u32) -> Option<Addr>
    requires thread { (0 < t) × (t ≤ MOST_BLOCKS) }
    requires block { process_word t 5 < length mem.now }
    ensures wakes { IfSome result (λ a. WakesOn rule (length mem.now) t ExitPhase.Pending (word_of mem.now) a.0) }
    ensures only { (a : ℕ) → WakesOn rule (length mem.now) t ExitPhase.Pending (word_of mem.now) a
        → option_map (λ b. b.0) result ≡ Some a }
{
    let lock = lock_of(mem, mem.load(block(t, ProcessWord::Pending)))?;
    let word = mem.load(lock);
    if tid(word) == t {
        if has_waiters(word) { Some(lock) } else { None }
    } else if rule.wakes(word) {
        Some(lock)
    } else {
        None
    }
}
