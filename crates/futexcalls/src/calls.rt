ghost use Rattle.std.specs.Prelude.{◌≡◌, ◌≢◌, ℕ, ◌<◌, ◌≤◌, ◌==◌, [], ◌∷◌, ◌++◌, None, if◌then◌else◌, length, take};
ghost use Rattle.std.specs.Prelude.{drop, IsOk, OnOk, OnErr};
ghost use Rattle.buckets.specs.Sleepers.{queue, place_of, thread_count, IsSound};
ghost use Rattle.futexcalls.specs.FutexCalls.{Wakes, Requeues};
ghost use Rattle.futexcalls.specs.Answers.{word_of, Waits};

use crate::lists::FutexLists;
use buckets::{Buckets, ThreadList};
use words::{Addr, Mem};

/// What a wait answers.
#[derive(Clone, Copy, PartialEq, Eq, Debug)]
pub enum WaitAnswer {
    /// The word was as expected, and the thread sleeps.
    Sleeps,
    /// The word differs, and the thread goes on (futex(2), EAGAIN).
    Again,
}

/// The first word of a compare-requeue differs from what was expected (futex(2), EAGAIN). Nothing has changed.
#[derive(Clone, Copy, PartialEq, Eq, Debug)]
pub struct Again;

/// Thread `t`, which is awake, waits on a word of the memory (futex(2), FUTEX_WAIT): where the word is as expected it
/// sleeps, last in the list of the address, else it goes on.
pub fn wait(mem: &Mem, buckets: &mut Buckets, t: u32, a: Addr, expected: u32) -> WaitAnswer
    requires address { a.0 < length mem.now }
    requires thread { (1 ≤ t) × (t ≤ thread_count buckets.old) }
    requires awake { place_of buckets.old t ≡ None }
    ensures call { Waits (word_of mem.now) (place_of buckets.old) t a.0 expected result
        (place_of buckets.new) }
    ensures last { result ≡ WaitAnswer.Sleeps
        → queue buckets.new a.0 ≡ queue buckets.old a.0 ++ t ∷ [] }
    ensures others { (b : ℕ) → b ≢ a.0 → queue buckets.new b ≡ queue buckets.old b }
    ensures unchanged { result ≡ WaitAnswer.Again → buckets.new ≡ buckets.old }
    ensures holders { buckets.new.holders ≡ buckets.old.holders }
    ensures threads { thread_count buckets.new ≡ thread_count buckets.old }
    ensures sound { result ≡ WaitAnswer.Sleeps → IsSound buckets.old × IsSound buckets.new }
{
    if mem.load(a) == expected {
        buckets.enqueue(t, a);
        WaitAnswer::Sleeps
    } else {
        WaitAnswer::Again
    }
}

/// Wakes the first `n` sleepers on an address, all where there are no more, and writes them into `woken` (futex(2),
/// FUTEX_WAKE).
pub fn wake(buckets: &mut Buckets, a: Addr, n: u32, woken: &mut ThreadList)
    ensures call { Wakes (place_of buckets.old) a.0 n woken.new (place_of buckets.new) }
    ensures woken { woken.new ≡ take n (queue buckets.old a.0) }
    ensures rest { queue buckets.new a.0 ≡ drop n (queue buckets.old a.0) }
    ensures others { (b : ℕ) → b ≢ a.0 → queue buckets.new b ≡ queue buckets.old b }
    ensures holders { buckets.new.holders ≡ buckets.old.holders }
    ensures threads { thread_count buckets.new ≡ thread_count buckets.old }
    ensures sound { IsSound buckets.old × IsSound buckets.new }
{
    buckets.take(a, n, woken);
}

/// Where the word at `a` is as expected, wakes the first `wake` sleepers on `a`, and moves the first `moves` of the
/// rest to the end of the list of `b`, and writes both into `lists` (futex(2), FUTEX_CMP_REQUEUE). Where `a` and `b` are
/// the same nobody moves.
pub fn cmp_requeue(
    mem: &Mem,
    buckets: &mut Buckets,
    a: Addr,
    b: Addr,
    wake: u32,
    moves: u32,
    expected: u32,
    lists: &mut FutexLists,
) -> Result<(), Again>
    requires { a.0 < length mem.now }
    ensures equal { word_of mem.now a.0 ≡ expected → IsOk result }
    ensures differs { OnErr result (word_of mem.now a.0 ≢ expected) }
    ensures unchanged { OnErr result (buckets.new ≡ buckets.old) }
    ensures call { OnOk result
        (Requeues (word_of mem.now) (place_of buckets.old) a.0 b.0 wake moves expected
        lists.new.woken lists.new.moved (place_of buckets.new)) }

    // Those woken are the front of the first list, and those moved the front of what is left of it.
    ensures woken { OnOk result (lists.new.woken ≡ take wake (queue buckets.old a.0)) }
    ensures moved { OnOk result (lists.new.moved
        ≡ (if a.0 == b.0 then [] else take moves (drop wake (queue buckets.old a.0)))) }
    ensures rest { OnOk result (queue buckets.new a.0
        ≡ drop (length lists.new.moved) (drop wake (queue buckets.old a.0))) }
    ensures last { OnOk result (a.0 ≢ b.0
        → queue buckets.new b.0 ≡ queue buckets.old b.0 ++ lists.new.moved) }
    ensures others { (d : ℕ) → d ≢ a.0 → d ≢ b.0 → queue buckets.new d ≡ queue buckets.old d }
    ensures holders { buckets.new.holders ≡ buckets.old.holders }
    ensures threads { thread_count buckets.new ≡ thread_count buckets.old }
    ensures sound { OnOk result (IsSound buckets.old × IsSound buckets.new) }
{
    if mem.load(a) != expected {
        return Err(Again);
    }
    buckets.take(a, wake, &mut lists.woken);
    buckets.shift(a, b, moves, &mut lists.moved);
    Ok(())
}
