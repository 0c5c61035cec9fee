ghost use Rattle.std.specs.Prelude.{◌≡◌, ℕ, ◌<◌, ◌≤◌, Some, None, true, length};
ghost use Rattle.buckets.specs.Places.{names};
ghost use Rattle.buckets.specs.Sleepers.{queue, place_of, thread_count, bucket_count, holder_of, IsSound};
ghost use Rattle.futexcalls.specs.Answers.{word_of};
ghost use Rattle.futexcalls.specs.Pieces.{buckets_of, IsPhase, LiesIn, Acts};
ghost use Rattle.futexcalls.specs.declared.lists.FutexLists.{FutexLists};
ghost use Rattle.futexcalls.specs.Progress.{progressed};
ghost use Rattle.futexcalls.specs.PieceResults.{ComparesSo, CompareSo, ActSo, woken_by, moved_by, queue_by};

use crate::lists::FutexLists;
use crate::locking::give_up;
use crate::pieces::{FutexCall, FutexPhase};
use crate::progress::{FutexAnswer, FutexProgress};
use buckets::Buckets;
use words::{Addr, Mem};

// The word of thread `t`'s call is compared: where it differs the call is over.
#[inline(always)]
fn compare_word(
    mem: &Mem,
    buckets: &mut Buckets,
    t: u32,
    call: FutexCall,
    address: Addr,
    expected: u32,
) -> FutexProgress
    requires lies { address.0 < length mem.now }
    requires held { (k : ℕ) → names (buckets_of (bucket_count buckets.old) call) k ≡ true
        → holder_of buckets.old k ≡ Some t }
    requires sound { IsSound buckets.old }
    ensures piece { (lists : FutexLists) → ComparesSo (word_of mem.now) call address.0 expected
        buckets.old (progressed result lists) buckets.new }
    ensures count { bucket_count buckets.new ≡ bucket_count buckets.old }
    ensures threads { thread_count buckets.new ≡ thread_count buckets.old }
    ensures sound { IsSound buckets.new }
{
    if mem.load(address) == expected {
        return FutexProgress::Next(FutexPhase::Act);
    }
    give_up(buckets, t, call);
    FutexProgress::Done(FutexAnswer::Again)
}

/// The word of thread `t`'s call, which is one that compares, is compared.
#[inline(always)]
pub(crate) fn compare(mem: &Mem, buckets: &mut Buckets, t: u32, call: FutexCall) -> FutexProgress
    requires lies { LiesIn (length mem.now) call }
    requires stands { IsPhase (bucket_count buckets.old) FutexPhase.Compare call }
    requires held { (k : ℕ) → names (buckets_of (bucket_count buckets.old) call) k ≡ true
        → holder_of buckets.old k ≡ Some t }
    requires sound { IsSound buckets.old }
    ensures piece { (lists : FutexLists) → CompareSo (word_of mem.now) call
        buckets.old (progressed result lists) buckets.new }
    ensures count { bucket_count buckets.new ≡ bucket_count buckets.old }
    ensures threads { thread_count buckets.new ≡ thread_count buckets.old }
    ensures sound { IsSound buckets.new }
{
    match call {
        FutexCall::Wait { address, expected }
        | FutexCall::Requeue {
            address,
            expected,
            ..
        } => compare_word(mem, buckets, t, call, address, expected),
        FutexCall::Wake { .. } => unreachable!(),
    }
}

// What the act of thread `t`'s call does to the sleepers. Whom it wakes and moves is written into `lists`.
#[inline(always)]
fn act_on_sleepers(buckets: &mut Buckets, t: u32, call: FutexCall, lists: &mut FutexLists)
    requires thread { (1 ≤ t) × (t ≤ thread_count buckets.old) }
    requires awake { place_of buckets.old t ≡ None }
    ensures acts { Acts t call (place_of buckets.old) lists.new.woken lists.new.moved
        (place_of buckets.new) }
    ensures woken { lists.new.woken ≡ woken_by call (queue buckets.old) }
    ensures moved { lists.new.moved ≡ moved_by call (queue buckets.old) }
    ensures queues { queue buckets.new ≡ queue_by t call (queue buckets.old) }
    ensures holders { buckets.new.holders ≡ buckets.old.holders }
    ensures threads { thread_count buckets.new ≡ thread_count buckets.old }
    ensures sound { IsSound buckets.new }
{
    match call {
        FutexCall::Wait { address, .. } => {
            buckets.enqueue(t, address);
            lists.woken.clear();
            lists.moved.clear();
        }
        FutexCall::Wake { address, wakes } => {
            buckets.take(address, wakes, &mut lists.woken);
            lists.moved.clear();
        }
        FutexCall::Requeue {
            address,
            target,
            wakes,
            moves,
            ..
        } => {
            buckets.take(address, wakes, &mut lists.woken);
            buckets.shift(address, target, moves, &mut lists.moved);
        }
    }
}

/// Thread `t`'s call acts, and gives up its buckets. Whom it wakes and moves is written into `lists`.
#[inline(always)]
pub(crate) fn act(
    buckets: &mut Buckets,
    t: u32,
    call: FutexCall,
    lists: &mut FutexLists,
) -> FutexProgress
    requires thread { (1 ≤ t) × (t ≤ thread_count buckets.old) }
    requires awake { place_of buckets.old t ≡ None }
    requires held { (k : ℕ) → names (buckets_of (bucket_count buckets.old) call) k ≡ true
        → holder_of buckets.old k ≡ Some t }
    ensures piece { ActSo t call buckets.old (progressed result lists.new) buckets.new }
    ensures count { bucket_count buckets.new ≡ bucket_count buckets.old }
    ensures threads { thread_count buckets.new ≡ thread_count buckets.old }
    ensures sound { IsSound buckets.new }
{
    act_on_sleepers(buckets, t, call, lists);
    give_up(buckets, t, call);
    FutexProgress::Done(FutexAnswer::Acted)
}
