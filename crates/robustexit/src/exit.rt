ghost use Rattle.std.specs.Prelude.{◌≡◌, ◌≢◌, ◌+◌, ◌<◌, ◌≤◌, ◌⊎◌, length};
ghost use Rattle.words.specs.Process.{process_word};
ghost use Rattle.buckets.specs.Sleepers.{thread_count, IsSound};
ghost use Rattle.futexcalls.specs.Answers.{word_of};
ghost use Rattle.robustexit.specs.Phases.{next_entry};
ghost use Rattle.robustexit.specs.RobustExit.{IsEntry, IsIdle, EntryStep, PendingStep, ExitStep};
ghost use Rattle.robustexit.specs.Fronts.{shared_view, wake_word, TakesFront};

use crate::abandon::{abandon, lock_of};
use crate::phase::{ExitPhase, phase_at};
use crate::rule::ExitRule;
use buckets::{Buckets, ThreadList};
use futexcalls::wake;
use words::{Addr, MOST_BLOCKS, Mem, ProcessWord, block, tid};

/// The phase in which the exit of thread `t` begins: at the first entry of its robust list, if it has one.
pub fn first_phase(mem: &Mem, t: u32) -> ExitPhase
    requires thread { (0 < t) × (t ≤ MOST_BLOCKS) }
    requires block { process_word t 5 < length mem.now }
    ensures { result ≡ next_entry (word_of mem.now (process_word t 0)) 0 }
{
    phase_at(mem.load(block(t, ProcessWord::Head)), 0)
}

/// Takes the next step of the exit of thread `t`, which isn't over, and answers the phase after it. Who was woken is
/// written into `woken`: the front of the list of the address on which the step wakes.
pub fn exit_step(
    rule: ExitRule,
    mem: &mut Mem,
    buckets: &mut Buckets,
    t: u32,
    phase: ExitPhase,
    woken: &mut ThreadList,
) -> ExitPhase
    requires thread { (0 < t) × (t ≤ MOST_BLOCKS) }
    requires block { process_word t 5 < length mem.old }
    requires running { phase ≢ ExitPhase.Ended }
    ensures step { ExitStep rule (length mem.old) t phase (shared_view mem.old buckets.old)
        woken.new
        (shared_view mem.new buckets.new) result }
    ensures front { TakesFront buckets.old buckets.new (wake_word t phase (word_of mem.old))
        woken.new }
    ensures words { length mem.new ≡ length mem.old }
    ensures holders { buckets.new.holders ≡ buckets.old.holders }
    ensures threads { thread_count buckets.new ≡ thread_count buckets.old }
    ensures sound { IsSound buckets.new }
{
    match phase {
        ExitPhase::Entry { entry, seen } => entry_step(mem, buckets, t, entry, seen, woken),
        ExitPhase::Pending => {
            pending_step(rule, mem, buckets, t, woken);
            ExitPhase::ClearId
        }
        ExitPhase::ClearId => {
            mem.store(block(t, ProcessWord::Id), 0);
            buckets.nobody(woken);
            ExitPhase::LastWake
        }
        ExitPhase::LastWake => {
            wake(buckets, block(t, ProcessWord::Id), 1, woken);
            ExitPhase::Ended
        }
        ExitPhase::Ended => unreachable!(),
    }
}

// The link is read in the same step, before the lock goes to another owner, who may put the entry into its own list.
fn entry_step(
    mem: &mut Mem,
    buckets: &mut Buckets,
    t: u32,
    entry: Addr,
    seen: u32,
    woken: &mut ThreadList,
) -> ExitPhase
    requires thread { (0 < t) × (t ≤ MOST_BLOCKS) }
    requires block { process_word t 5 < length mem.old }
    ensures step { (IsEntry (length mem.old) entry.0
        × EntryStep (length mem.old) t entry.0
        (shared_view mem.old buckets.old) woken.new (shared_view mem.new buckets.new)
        × (result ≡ next_entry (word_of mem.old entry.0) (seen + 1)))
        ⊎ ((IsEntry (length mem.old) entry.0 → ⊥)
        × IsIdle (shared_view mem.old buckets.old) woken.new
        (shared_view mem.new buckets.new)
        × (result ≡ ExitPhase.Pending)) }
    ensures front { TakesFront buckets.old buckets.new (entry.0 + 1) woken.new }
    ensures words { length mem.new ≡ length mem.old }
    ensures holders { buckets.new.holders ≡ buckets.old.holders }
    ensures threads { thread_count buckets.new ≡ thread_count buckets.old }
    ensures sound { IsSound buckets.new }
{
    let Some(lock) = lock_of(mem, entry.0) else {
        buckets.nobody(woken);
        return ExitPhase::Pending;
    };
    let next = phase_at(mem.load(entry), seen.saturating_add(1));
    let is_pending = mem.load(block(t, ProcessWord::Pending)) == entry.0;
    if is_pending || tid(mem.load(lock)) != t {
        buckets.nobody(woken);
        return next;
    }
    abandon(mem, buckets, lock, woken);
    next
}

// A lock that another thread owns, or none, gets a wake where the rule says so: the one that `t` was given, or that it
// owed when it gave up.
fn pending_step(
    rule: ExitRule,
    mem: &mut Mem,
    buckets: &mut Buckets,
    t: u32,
    woken: &mut ThreadList,
)
    requires thread { (0 < t) × (t ≤ MOST_BLOCKS) }
    requires block { process_word t 5 < length mem.old }
    ensures step { PendingStep rule (length mem.old) t (word_of mem.old (process_word t 1))
        (shared_view mem.old buckets.old) woken.new (shared_view mem.new buckets.new) }
    ensures front { TakesFront buckets.old buckets.new (word_of mem.old (process_word t 1)
        + 1) woken.new }
    ensures words { length mem.new ≡ length mem.old }
    ensures holders { buckets.new.holders ≡ buckets.old.holders }
    ensures threads { thread_count buckets.new ≡ thread_count buckets.old }
    ensures sound { IsSound buckets.new }
{
    let Some(lock) = lock_of(mem, mem.load(block(t, ProcessWord::Pending))) else {
        buckets.nobody(woken);
        return;
    };
    let word = mem.load(lock);
    if tid(word) == t {
        abandon(mem, buckets, lock, woken);
        return;
    }
    if rule.wakes(word) {
        wake(buckets, lock, 1, woken);
    } else {
        buckets.nobody(woken);
    }
}
