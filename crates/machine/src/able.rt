//! How the bits of those who can move follow the machine.
ghost use Rattle.std.specs.Prelude.{◌≡◌, ◌≤◌, ◌<◌, ℕ, true, length};
ghost use Rattle.words.specs.Limits.{most_threads};
ghost use Rattle.buckets.specs.Sleepers.{thread_count};
ghost use Rattle.machine.specs.ConcreteSteps.{can_move};
ghost use Rattle.machine.specs.ThreadSets.{IsThread, has};
ghost use Rattle.machine.specs.Views.{parts_of, IsBitSo, KeepsBits, MendsBits};

use crate::common::Common;
use crate::thread_bits::ThreadBits;
use crate::thread_set::ThreadSet;
use locals::Local;
use words::MOST_THREADS;

/// Whether thread `t` was made and can move: it neither sleeps nor has ended.
pub(crate) fn is_able(common: &Common, threads: &[Local], t: u32) -> bool
    requires { length threads.now ≤ thread_count common.now.sleepers }
    ensures { result ≡ can_move (parts_of common.now threads.now) t }
{
    if t == 0 || t as usize > threads.len() {
        return false;
    }
    common.asleep(t).is_none() && !threads[t as usize - 1].has_ended()
}

impl ThreadBits {
    /// Makes the bit of thread `t` right.
    pub(crate) fn refresh(&mut self, common: &Common, threads: &[Local], t: u32)
        requires thread { IsThread t }
        requires few { length threads.now ≤ thread_count common.now.sleepers }
        ensures kept { KeepsBits self.old.words self.new.words (parts_of common.now threads.now) }
        ensures right { IsBitSo self.new.words (parts_of common.now threads.now) t }
    {
        self.put(t, is_able(common, threads, t));
    }

    // Makes the bits right of all threads of a set.
    #[inline(always)]
    fn refresh_all(&mut self, common: &Common, threads: &[Local], set: &ThreadSet)
        requires few { length threads.now ≤ thread_count common.now.sleepers }
        ensures kept { KeepsBits self.old.words self.new.words (parts_of common.now threads.now) }
        ensures right { (u : ℕ) → IsThread u → has set.now u ≡ true
            → IsBitSo self.new.words (parts_of common.now threads.now) u }
    {
        if !set.is_empty() {
            self.refresh_some(common, threads, set);
        }
    }

    // The same of a set that has a thread. Apart, since most steps wake nobody, and needn't pay for its loop.
    #[inline(never)]
    fn refresh_some(&mut self, common: &Common, threads: &[Local], set: &ThreadSet)
        requires few { length threads.now ≤ thread_count common.now.sleepers }
        ensures kept { KeepsBits self.old.words self.new.words (parts_of common.now threads.now) }
        ensures right { (u : ℕ) → IsThread u → has set.now u ≡ true
            → IsBitSo self.new.words (parts_of common.now threads.now) u }
    {
        if let ThreadSet::Single(t) = set {
            if *t > 0 && *t <= MOST_THREADS {
                self.refresh(common, threads, *t);
            }
            return;
        }
        let mut from = 1;
        while from <= MOST_THREADS {
            let Some(t) = set.next_from(from) else {
                return;
            };
            if t > MOST_THREADS {
                return;
            }
            self.refresh(common, threads, t);
            from = t + 1;
        }
    }

    // Makes the bit right of the last thread, should it be new since so many were made.
    fn refresh_made(&mut self, common: &Common, threads: &[Local], made: usize)
        requires few { length threads.now ≤ thread_count common.now.sleepers }
        requires fits { length threads.now ≤ most_threads }
        ensures kept { KeepsBits self.old.words self.new.words (parts_of common.now threads.now) }
        ensures right { made < length threads.now
            → IsBitSo self.new.words (parts_of common.now threads.now) (length threads.now) }
    {
        if made < threads.len() {
            self.refresh(common, threads, threads.len() as u32);
        }
    }

    /// Makes the bits right behind a step of thread `t`, which woke these, where `made` threads were made before it: a
    /// step changes whether others can move no more than that.
    #[inline(always)]
    pub(crate) fn refresh_after(
        &mut self,
        common: &Common,
        threads: &[Local],
        made: usize,
        t: u32,
        woken: &ThreadSet,
    )
        requires thread { IsThread t }
        requires few { length threads.now ≤ thread_count common.now.sleepers }
        requires fits { length threads.now ≤ most_threads }
        ensures kept { KeepsBits self.old.words self.new.words (parts_of common.now threads.now) }
        ensures right { MendsBits self.new.words (parts_of common.now threads.now) made t woken.now }
    {
        self.refresh(common, threads, t);
        self.refresh_made(common, threads, made);
        self.refresh_all(common, threads, woken);
    }
}
