ghost use Rattle.std.specs.Prelude.{◌≡◌, Some};
ghost use Rattle.buckets.specs.Sleepers.{bucket_count};
ghost use Rattle.futexcalls.specs.Pieces.{lesser, greater, takes_at};

use crate::pieces::{FutexCall, FutexPhase};
use buckets::Buckets;

/// The lesser of two buckets.
pub(crate) fn lesser_of(a: u32, b: u32) -> u32
    ensures { result ≡ lesser a b }
{
    if a <= b { a } else { b }
}

/// The greater of two buckets.
pub(crate) fn greater_of(a: u32, b: u32) -> u32
    ensures { result ≡ greater a b }
{
    if a <= b { b } else { a }
}

// The first bucket that a call takes.
fn first_bucket(buckets: &Buckets, call: FutexCall) -> u32
    ensures value { takes_at (bucket_count buckets.now) FutexPhase.First call ≡ Some result }
{
    match call {
        FutexCall::Wait { address, .. } | FutexCall::Wake { address, .. } => buckets.number(
            address,
        ),
        FutexCall::Requeue {
            address,
            target,
            ..
        } => lesser_of(buckets.number(address), buckets.number(target)),
    }
}

// The second bucket that a call takes, if it has two.
fn second_bucket(buckets: &Buckets, call: FutexCall) -> Option<u32>
    ensures value { result ≡ takes_at (bucket_count buckets.now) FutexPhase.Second call }
{
    match call {
        FutexCall::Wait { .. } | FutexCall::Wake { .. } => None,
        FutexCall::Requeue {
            address,
            target,
            ..
        } => Some(greater_of(buckets.number(address), buckets.number(target))),
    }
}

/// The bucket that a call takes next, in the phase before which it stands, if it takes one.
#[inline(always)]
pub fn next_bucket(buckets: &Buckets, call: FutexCall, phase: FutexPhase) -> Option<u32>
    ensures value { result ≡ takes_at (bucket_count buckets.now) phase call }
{
    match phase {
        FutexPhase::First => Some(first_bucket(buckets, call)),
        FutexPhase::Second => second_bucket(buckets, call),
        FutexPhase::Compare | FutexPhase::Act => None,
    }
}
