ghost use Rattle.std.specs.Prelude.{◌≡◌, ◌<◌, ◌≤◌, ◌+◌, IfSome, IfNone, length, true, Some, None, if◌then◌else◌};
ghost use Rattle.words.specs.LockWord.{lock_word, waiters_of};
ghost use Rattle.words.specs.Process.{process_word};
ghost use Rattle.futexcalls.specs.Answers.{word_of};
ghost use Rattle.robustexit.specs.RobustExit.{IsEntry};
ghost use Rattle.robustexit.specs.declared.rule.ExitRule.{ExitRule as ExitRuleOf};
ghost use Rattle.image_states.specs.Exits.{IsPlanIn, IsPlanOf};

use robustexit::{ExitPhase, ExitRule, phase_at};
use sparse_memory::SparseMemory;
use words::{Addr, MOST_BLOCKS, OWNER_DIED, ProcessWord, WAITERS, block, has_waiters, tid};

// The word of a lock whose owner died, and for which threads may wait.
const DIED_WITH_WAITERS: u32 = OWNER_DIED | WAITERS;

/// What a step of an exit does: the word that it changes, if it does, the word on which it wakes one, if it does, and the
/// phase behind it.
#[derive(Clone, Copy)]
pub(crate) struct ExitPlan {
    /// The address of the word that is changed, and the word there from then on.
    pub marks: Option<(Addr, u32)>,
    /// The address on which one sleeper is woken.
    pub wakes: Option<Addr>,
    /// The next phase.
    pub next: ExitPhase,
}

// The lock word of an entry, where the entry isn't 0 and its two words lie in the memory.
fn lock_of(mem: &SparseMemory, entry: u32) -> Option<Addr>
    ensures found { IfSome result (λ l. (l.0 ≡ entry + 1) × IsEntry (length mem.now) entry) }
    ensures none { IfNone result (IsEntry (length mem.now) entry → ⊥) }
{
    let lock = entry.checked_add(1)?;
    if entry != 0 && (lock as usize) < mem.len() {
        Some(Addr(lock))
    } else {
        None
    }
}

// The word of a lock whose owner died.
fn died_word(waiters: bool) -> u32
    ensures { result ≡ lock_word 0 true waiters }
{
    if waiters {
        DIED_WITH_WAITERS
    } else {
        OWNER_DIED
    }
}

// Nothing but that the exit goes on.
fn idle(next: ExitPhase) -> ExitPlan
    ensures { result ≡ record { marks = None; wakes = None; next = next } }
{
    ExitPlan {
        marks: None,
        wakes: None,
        next,
    }
}

// A lock that the dying thread owns, with this word, is marked, and one is woken where some may wait.
fn abandon(lock: Addr, word: u32, next: ExitPhase) -> ExitPlan
    ensures { result ≡ record {
      marks = Some (lock, lock_word 0 true (waiters_of word));
      wakes = if waiters_of word then Some lock else None;
      next = next;
    } }
{
    let waiters = has_waiters(word);
    ExitPlan {
        marks: Some((lock, died_word(waiters))),
        wakes: if waiters { Some(lock) } else { None },
        next,
    }
}

fn entry_plan(mem: &SparseMemory, t: u32, entry: Addr, seen: u32) -> ExitPlan
    requires thread { (0 < t) × (t ≤ MOST_BLOCKS) }
    requires block { process_word t 5 < length mem.now }
    ensures plan { (rule : ExitRuleOf)
        → IsPlanOf rule (length mem.now) t (ExitPhase.Entry entry seen) (word_of mem.now) result }
    ensures lies { IsPlanIn (length mem.now) result }
{
    let Some(lock) = lock_of(mem, entry.0) else {
        return idle(ExitPhase::Pending);
    };
    let next = phase_at(mem.load(entry), seen.saturating_add(1));
    let pending = mem.load(block(t, ProcessWord::Pending));
    let word = mem.load(lock);
    if pending == entry.0 || tid(word) != t {
        return idle(next);
    }
    abandon(lock, word, next)
}

fn pending_plan(rule: ExitRule, mem: &SparseMemory, t: u32) -> ExitPlan
    requires thread { (0 < t) × (t ≤ MOST_BLOCKS) }
    requires block { process_word t 5 < length mem.now }
    ensures plan { IsPlanOf rule (length mem.now) t ExitPhase.Pending (word_of mem.now) result }
    ensures lies { IsPlanIn (length mem.now) result }
{
    let Some(lock) = lock_of(mem, mem.load(block(t, ProcessWord::Pending))) else {
        return idle(ExitPhase::ClearId);
    };
    let word = mem.load(lock);
    if tid(word) == t {
        return abandon(lock, word, ExitPhase::ClearId);
    }
    if !rule.wakes(word) {
        return idle(ExitPhase::ClearId);
    }
    ExitPlan {
        marks: None,
        wakes: Some(lock),
        next: ExitPhase::ClearId,
    }
}

/// What the step of thread `t`'s exit by this rule in this phase does.
pub(crate) fn exit_plan(rule: ExitRule, mem: &SparseMemory, t: u32, phase: ExitPhase) -> ExitPlan
    requires thread { (0 < t) × (t ≤ MOST_BLOCKS) }
    requires block { process_word t 5 < length mem.now }
    ensures plan { IsPlanOf rule (length mem.now) t phase (word_of mem.now) result }
    ensures lies { IsPlanIn (length mem.now) result }
{
    match phase {
        ExitPhase::Entry { entry, seen } => entry_plan(mem, t, entry, seen),
        ExitPhase::Pending => pending_plan(rule, mem, t),
        ExitPhase::ClearId => ExitPlan {
            marks: Some((block(t, ProcessWord::Id), 0)),
            wakes: None,
            next: ExitPhase::LastWake,
        },
        ExitPhase::LastWake => ExitPlan {
            marks: None,
            wakes: Some(block(t, ProcessWord::Id)),
            next: ExitPhase::Ended,
        },
        ExitPhase::Ended => idle(ExitPhase::Ended),
    }
}
