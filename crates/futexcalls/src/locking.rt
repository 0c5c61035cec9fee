ghost use Rattle.std.specs.Prelude.{◌≡◌, ℕ, ◌<◌, ◌==◌, Some, true, if◌then◌else◌};
ghost use Rattle.buckets.specs.Places.{names};
ghost use Rattle.buckets.specs.Sleepers.{thread_count, bucket_count, holder_of, IsSound};
ghost use Rattle.futexcalls.specs.Pieces.{buckets_of, takes_at, after_lock, IsPhase};
ghost use Rattle.futexcalls.specs.declared.lists.FutexLists.{FutexLists};
ghost use Rattle.futexcalls.specs.Progress.{progressed};
ghost use Rattle.futexcalls.specs.PieceResults.{OnlyHolders, TakesSo, given_up};

use crate::pieces::{FutexCall, FutexPhase};
use crate::progress::FutexProgress;
use crate::taking::{greater_of, lesser_of};
use buckets::Buckets;

// Thread `t` takes bucket `k`, unless a thread holds it.
#[inline(always)]
fn lock(buckets: &mut Buckets, t: u32, k: u32, next: FutexPhase) -> FutexProgress
    requires { k < bucket_count buckets.old }
    ensures piece { (lists : FutexLists)
        → TakesSo t (Some k) next buckets.old (progressed result lists) buckets.new }
    ensures count { bucket_count buckets.new ≡ bucket_count buckets.old }
    ensures threads { thread_count buckets.new ≡ thread_count buckets.old }
    ensures sound { IsSound buckets.old × IsSound buckets.new }
{
    if buckets.holder(k).is_some() {
        return FutexProgress::Blocked;
    }
    buckets.grab(t, k);
    FutexProgress::Next(next)
}

// The phase behind the lesser of two buckets.
fn behind_lesser(a: u32, b: u32) -> FutexPhase
    ensures { result ≡ (if a == b then FutexPhase.Compare else FutexPhase.Second) }
{
    if a == b {
        FutexPhase::Compare
    } else {
        FutexPhase::Second
    }
}

/// Thread `t` takes the bucket of its call, of two the lesser.
#[inline(always)]
pub(crate) fn lock_first(buckets: &mut Buckets, t: u32, call: FutexCall) -> FutexProgress
    ensures piece { (lists : FutexLists)
        → TakesSo t (takes_at (bucket_count buckets.old) FutexPhase.First call)
        (after_lock (bucket_count buckets.old) FutexPhase.First call)
        buckets.old (progressed result lists) buckets.new }
    ensures count { bucket_count buckets.new ≡ bucket_count buckets.old }
    ensures threads { thread_count buckets.new ≡ thread_count buckets.old }
    ensures sound { IsSound buckets.old × IsSound buckets.new }
{
    match call {
        FutexCall::Wait { address, .. } => {
            let k = buckets.number(address);
            lock(buckets, t, k, FutexPhase::Compare)
        }
        FutexCall::Wake { address, .. } => {
            let k = buckets.number(address);
            lock(buckets, t, k, FutexPhase::Act)
        }
        FutexCall::Requeue {
            address,
            target,
            ..
        } => {
            let a = buckets.number(address);
            let b = buckets.number(target);
            lock(buckets, t, lesser_of(a, b), behind_lesser(a, b))
        }
    }
}

/// Thread `t` takes the greater bucket of its call, which has two.
#[inline(always)]
pub(crate) fn lock_second(buckets: &mut Buckets, t: u32, call: FutexCall) -> FutexProgress
    requires stands { IsPhase (bucket_count buckets.old) FutexPhase.Second call }
    ensures piece { (lists : FutexLists)
        → TakesSo t (takes_at (bucket_count buckets.old) FutexPhase.Second call)
        (after_lock (bucket_count buckets.old) FutexPhase.Second call)
        buckets.old (progressed result lists) buckets.new }
    ensures count { bucket_count buckets.new ≡ bucket_count buckets.old }
    ensures threads { thread_count buckets.new ≡ thread_count buckets.old }
    ensures sound { IsSound buckets.old × IsSound buckets.new }
{
    match call {
        FutexCall::Requeue {
            address,
            target,
            ..
        } => {
            let a = buckets.number(address);
            let b = buckets.number(target);
            lock(buckets, t, greater_of(a, b), FutexPhase::Compare)
        }
        FutexCall::Wait { .. } | FutexCall::Wake { .. } => unreachable!(),
    }
}

/// Thread `t` gives up the buckets of its call, which it holds.
#[inline(always)]
pub(crate) fn give_up(buckets: &mut Buckets, t: u32, call: FutexCall)
    requires held { (k : ℕ) → names (buckets_of (bucket_count buckets.old) call) k ≡ true
        → holder_of buckets.old k ≡ Some t }
    ensures holders { OnlyHolders buckets.old buckets.new (given_up call buckets.old) }
    ensures count { bucket_count buckets.new ≡ bucket_count buckets.old }
    ensures threads { thread_count buckets.new ≡ thread_count buckets.old }
    ensures sound { IsSound buckets.old × IsSound buckets.new }
{
    match call {
        FutexCall::Wait { address, .. } | FutexCall::Wake { address, .. } => {
            let k = buckets.number(address);
            buckets.release(t, k);
        }
        FutexCall::Requeue {
            address,
            target,
            ..
        } => {
            let a = buckets.number(address);
            let b = buckets.number(target);
            buckets.release(t, a);
            if a != b {
                buckets.release(t, b);
            }
        }
    }
}
