ghost use Rattle.std.specs.Prelude.{◌≡◌, ℕ, ◌≤◌, ◌⊎◌, None, Some, true, length};
ghost use Rattle.buckets.specs.Places.{names};
ghost use Rattle.buckets.specs.Sleepers.{place_of, thread_count, bucket_count, holder_of, IsSound};
ghost use Rattle.futexcalls.specs.Answers.{word_of};
ghost use Rattle.futexcalls.specs.Pieces.{held_at, IsPhase, LiesIn};
ghost use Rattle.futexcalls.specs.Progress.{progressed};
ghost use Rattle.futexcalls.specs.PieceResults.{PieceSo};

use crate::acting::{act, compare};
use crate::lists::FutexLists;
use crate::locking::{lock_first, lock_second};
use crate::pieces::{FutexCall, FutexPhase};
use crate::progress::FutexProgress;
use buckets::Buckets;
use words::Mem;

/// Takes the next piece of a futex call of thread `t`, which is awake and holds the buckets that its phase says. Either
/// the call goes on to another piece, or a held bucket is in its way and nothing has changed, or it is over and has
/// given up its buckets. Whom a call that has acted woke and moved is written into `lists`.
#[inline(always)]
pub fn futex_step(
    mem: &Mem,
    buckets: &mut Buckets,
    t: u32,
    call: FutexCall,
    phase: FutexPhase,
    lists: &mut FutexLists,
) -> FutexProgress
    requires lies { LiesIn (length mem.now) call }
    requires thread { (1 ≤ t) × (t ≤ thread_count buckets.old) }
    requires awake { place_of buckets.old t ≡ None }
    requires stands { (phase ≡ FutexPhase.First) ⊎ IsPhase (bucket_count buckets.old) phase call }
    requires held { (k : ℕ)
        → names (held_at (bucket_count buckets.old) phase (Some call)) k ≡ true
        → holder_of buckets.old k ≡ Some t }
    requires sound { IsSound buckets.old }
    ensures piece { PieceSo (word_of mem.now) t call phase buckets.old (progressed result lists.new) buckets.new }
    ensures count { bucket_count buckets.new ≡ bucket_count buckets.old }
    ensures threads { thread_count buckets.new ≡ thread_count buckets.old }
    ensures sound { IsSound buckets.new }
{
    match phase {
        FutexPhase::First => lock_first(buckets, t, call),
        FutexPhase::Second => lock_second(buckets, t, call),
        FutexPhase::Compare => compare(mem, buckets, t, call),
        FutexPhase::Act => act(buckets, t, call, lists),
    }
}
