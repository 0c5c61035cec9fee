//! Which threads a held bucket is in the way of.
ghost use Rattle.std.specs.Prelude.{◌≡◌, ◌≢◌, ◌≤◌, ◌<◌, ◌+◌, ℕ, suc, false, slice_get, slice_set, Some, None, IfSome};
ghost use Rattle.std.specs.Int.{bit_at};
ghost use Rattle.words.specs.Limits.{most_threads, run_buckets};
ghost use Rattle.isa.specs.Programs.{Program};
ghost use Rattle.piece_machine.specs.PieceConcrete.{PieceConcrete};
ghost use Rattle.piece_machine.specs.PieceDetermined.{IsFit};
ghost use Rattle.piece_machine.specs.PieceViews.{parts};
ghost use Rattle.runner.specs.Attempts.{TriedSo, WantsBucket, is_made};
ghost use Rattle.runner.specs.declared.attempt.Attempt;
ghost use Rattle.runner.specs.Waits.{AllHeld, AllWait, AllWant, IsHeldIf, IsNextAround, IsNextFree, IsSound};

use crate::attempt::Attempt;
use crate::thread_bits::{ThreadBits, lowest_from};
use piece_machine::PieceMachine;
use words::{BUCKETS, MOST_THREADS};

const PLACES: usize = MOST_THREADS as usize + 1;

/// Which threads are known to want which bucket. Such a thread is passed over as long as another one holds it: its next
/// entry wants the bucket until it is made, whatever others do. What an entry costs doesn't grow with how many are passed
/// over.
#[derive(Drop)]
pub struct Waiting {
    // For each thread from 0 the bucket that it wants, where that is known.
    wants: [Option<u32>; PLACES],
    // For each bucket the threads that are known to want it.
    wanting: [ThreadBits; BUCKETS as usize],
    // How many threads these are, so that where there are none nothing is looked at. Nothing else rests on it.
    counts: [u32; BUCKETS as usize],
    // A bit for each bucket that is held and whose threads are passed over.
    shut: u64,
    // The threads that aren't passed over.
    ready: ThreadBits,
}

impl Waiting {
    /// Of no thread it is known.
    pub fn new() -> Waiting
        ensures { (p : Program) (k : PieceConcrete) → AllWait p k result }
    {
        Waiting {
            wants: [None; PLACES],
            wanting: [ThreadBits::none(); BUCKETS as usize],
            counts: [0; BUCKETS as usize],
            shut: 0,
            ready: ThreadBits::all(),
        }
    }

    /// The first thread behind this number that can move and isn't passed over, if there is one: those before it are held
    /// up.
    #[inline(always)]
    #[tactic(auto, using(crate::proofs::Noting::none_passed, crate::proofs::Noting::some_passed))]
    pub fn next_behind(&self, machine: &PieceMachine, last: u32) -> Option<u32>
        requires waits { AllWait machine.now.view.program (parts machine.now) self.now }
        requires last { last ≤ most_threads }
        ensures free { IsNextFree machine.now.view.program (parts machine.now) (last + 1) result }
        ensures number { IfSome result (λ t. (0 < t) × (t ≤ most_threads)) }
    {
        let Some(t) = machine.machine().next_able_behind(last) else {
            return None;
        };
        // As mostly nobody is passed over.
        if self.shut == 0 {
            return Some(t);
        }
        self.next_free(machine, t)
    }

    /// The same, and from the first thread on where there is none behind this one.
    #[inline(always)]
    pub fn next_around(&self, machine: &PieceMachine, last: u32) -> Option<u32>
        requires waits { AllWait machine.now.view.program (parts machine.now) self.now }
        requires last { last ≤ most_threads }
        ensures free { IsNextAround machine.now.view.program (parts machine.now) last result }
        ensures number { IfSome result (λ t. (0 < t) × (t ≤ most_threads)) }
    {
        match self.next_behind(machine, last) {
            Some(t) => Some(t),
            None => self.next_behind(machine, 0),
        }
    }

    // The first thread from this number on that can move and isn't passed over.
    #[cold]
    #[inline(never)]
    fn next_free(&self, machine: &PieceMachine, from: u32) -> Option<u32>
        requires waits { AllWait machine.now.view.program (parts machine.now) self.now }
        requires from { from ≤ suc most_threads }
        ensures free { IsNextFree machine.now.view.program (parts machine.now) from result }
        ensures number { IfSome result (λ t. (0 < t) × (t ≤ most_threads)) }
    {
        let mut at = from;
        while let Some(t) = machine.machine().next_able(at) {
            if self.ready.contains(t) {
                return Some(t);
            }
            let Some(next) = self.ready.next_from(t) else {
                return None;
            };
            at = next;
        }
        None
    }

    /// Keeps what came of a try to make the next entry of thread `t`, behind which the machine is this one.
    #[inline(always)]
    pub fn follow(&mut self, machine: &PieceMachine, t: u32, attempt: Attempt)
        requires thread { (0 < t) × (t ≤ most_threads) }
        requires buckets { (parts machine.now).buckets ≡ run_buckets }
        requires sound { IsSound self.old }
        ensures { (p : Program) (k : PieceConcrete) → IsFit p k → AllWant p k self.old
            → (is_made attempt ≡ false → parts machine.now ≡ k) → TriedSo p k t attempt (parts machine.now)
            → AllWait p (parts machine.now) self.new }
    {
        self.check(machine);
        // As most are: it is told by a comparison, and not by a jump through a table.
        if attempt.takes_none() {
            self.leave(t);
            return;
        }
        match attempt {
            Attempt::Accessed | Attempt::Made => self.leave(t),
            Attempt::Took(bucket) => {
                self.leave(t);
                self.shut_taken(machine, bucket);
            }
            Attempt::Wants(bucket) => self.note(machine, t, bucket),
            Attempt::HeldUp | Attempt::Refused => {}
        }
    }

    /// The same of an entry that ended with an access, as most do.
    #[inline(always)]
    pub fn follow_access(&mut self, machine: &PieceMachine, t: u32)
        requires thread { (0 < t) × (t ≤ most_threads) }
        requires buckets { (parts machine.now).buckets ≡ run_buckets }
        requires sound { IsSound self.old }
        ensures { (p : Program) (k : PieceConcrete) → IsFit p k → AllWant p k self.old
            → TriedSo p k t Attempt.Accessed (parts machine.now) → AllWait p (parts machine.now) self.new }
    {
        self.check(machine);
        self.leave(t);
    }

    // Opens each bucket that is held no more.
    #[inline(always)]
    #[tactic(auto, using(crate::proofs::Noting::none_shut))]
    fn check(&mut self, machine: &PieceMachine)
        requires buckets { (parts machine.now).buckets ≡ run_buckets }
        requires sound { IsSound self.old }
        ensures sound { IsSound self.new }
        ensures wants { self.new.wants ≡ self.old.wants }
        ensures held { AllHeld (parts machine.now) self.new }
    {
        if self.shut != 0 {
            self.check_all(machine);
        }
    }

    // The same where one may be.
    #[cold]
    #[inline(never)]
    fn check_all(&mut self, machine: &PieceMachine)
        requires buckets { (parts machine.now).buckets ≡ run_buckets }
        requires sound { IsSound self.old }
        ensures sound { IsSound self.new }
        ensures wants { self.new.wants ≡ self.old.wants }
        ensures held { AllHeld (parts machine.now) self.new }
    {
        let mut at = 0;
        while at < BUCKETS {
            let Some(bucket) = lowest_from(self.shut, at) else {
                return;
            };
            self.check_bucket(machine, bucket);
            at = bucket + 1;
        }
    }

    // Opens a bucket that is held no more.
    #[cold]
    #[inline(never)]
    fn check_bucket(&mut self, machine: &PieceMachine, bucket: u32)
        requires bucket { bucket < run_buckets }
        requires buckets { (parts machine.now).buckets ≡ run_buckets }
        requires sound { IsSound self.old }
        ensures sound { IsSound self.new }
        ensures wants { self.new.wants ≡ self.old.wants }
        ensures held { IsHeldIf (parts machine.now) self.new.shut bucket }
        ensures others { (b : ℕ) → b < run_buckets → b ≢ bucket → bit_at self.new.shut b ≡ bit_at self.old.shut b }
    {
        if machine.machine().holder(bucket).is_none() {
            self.open_bucket(bucket);
        }
    }

    // Passes the threads over no more that want a bucket.
    fn open_bucket(&mut self, bucket: u32)
        requires bucket { bucket < run_buckets }
        requires sound { IsSound self.old }
        ensures sound { IsSound self.new }
        ensures wants { self.new.wants ≡ self.old.wants }
        ensures opened { bit_at self.new.shut bucket ≡ 0 }
        ensures others { (b : ℕ) → b < run_buckets → b ≢ bucket → bit_at self.new.shut b ≡ bit_at self.old.shut b }
    {
        let set = self.wanting[bucket as usize];
        self.shut &= !(1 << bucket);
        self.ready.put_all(&set);
    }

    // Passes the threads over that want a bucket, where it's held.
    #[cold]
    #[inline(never)]
    fn shut_bucket(&mut self, machine: &PieceMachine, bucket: u32)
        requires bucket { bucket < run_buckets }
        requires buckets { (parts machine.now).buckets ≡ run_buckets }
        requires sound { IsSound self.old }
        requires held { AllHeld (parts machine.now) self.old }
        ensures sound { IsSound self.new }
        ensures wants { self.new.wants ≡ self.old.wants }
        ensures held { AllHeld (parts machine.now) self.new }
    {
        if machine.machine().holder(bucket).is_none() {
            return;
        }
        let set = self.wanting[bucket as usize];
        self.shut |= 1 << bucket;
        self.ready.take_all(&set);
    }

    // The same of a bucket that an entry took.
    fn shut_taken(&mut self, machine: &PieceMachine, bucket: u32)
        requires buckets { (parts machine.now).buckets ≡ run_buckets }
        requires sound { IsSound self.old }
        requires held { AllHeld (parts machine.now) self.old }
        ensures sound { IsSound self.new }
        ensures wants { self.new.wants ≡ self.old.wants }
        ensures held { AllHeld (parts machine.now) self.new }
    {
        if bucket < BUCKETS && self.counts[bucket as usize] != 0 {
            self.shut_bucket(machine, bucket);
        }
    }

    // Forgets which bucket thread `t` wants.
    fn leave(&mut self, t: u32)
        requires thread { (0 < t) × (t ≤ most_threads) }
        requires sound { IsSound self.old }
        ensures sound { IsSound self.new }
        ensures wants { self.new.wants ≡ slice_set self.old.wants t None }
        ensures shut { self.new.shut ≡ self.old.shut }
    {
        if let Some(bucket) = self.wants[t as usize] {
            self.leave_set(t, bucket);
        }
    }

    // The same of a thread of which it is known that it wants this one.
    #[cold]
    #[inline(never)]
    fn leave_set(&mut self, t: u32, bucket: u32)
        requires thread { (0 < t) × (t ≤ most_threads) }
        requires noted { slice_get self.old.wants t ≡ Some (Some bucket) }
        requires sound { IsSound self.old }
        ensures sound { IsSound self.new }
        ensures wants { self.new.wants ≡ slice_set self.old.wants t None }
        ensures shut { self.new.shut ≡ self.old.shut }
    {
        let mut set = self.wanting[bucket as usize];
        set.put(t, false);
        self.wants[t as usize] = None;
        self.wanting[bucket as usize] = set;
        let count = self.counts[bucket as usize];
        self.counts[bucket as usize] = count.saturating_sub(1);
        self.ready.put(t, true);
    }

    // Keeps which bucket thread `t` wants, of which nothing is known.
    fn enter(&mut self, t: u32, bucket: u32)
        requires thread { (0 < t) × (t ≤ most_threads) }
        requires bucket { bucket < run_buckets }
        requires none { slice_get self.old.wants t ≡ Some None }
        requires sound { IsSound self.old }
        ensures sound { IsSound self.new }
        ensures wants { self.new.wants ≡ slice_set self.old.wants t (Some bucket) }
        ensures shut { self.new.shut ≡ self.old.shut }
    {
        let mut set = self.wanting[bucket as usize];
        set.put(t, true);
        self.wants[t as usize] = Some(bucket);
        self.wanting[bucket as usize] = set;
        let count = self.counts[bucket as usize];
        self.counts[bucket as usize] = count.saturating_add(1);
    }

    // Notes that thread `t` wants this bucket.
    #[cold]
    #[inline(never)]
    fn note(&mut self, machine: &PieceMachine, t: u32, bucket: u32)
        requires thread { (0 < t) × (t ≤ most_threads) }
        requires buckets { (parts machine.now).buckets ≡ run_buckets }
        requires sound { IsSound self.old }
        requires held { AllHeld (parts machine.now) self.old }
        ensures sound { IsSound self.new }
        ensures held { AllHeld (parts machine.now) self.new }
        ensures wants { (p : Program) → AllWant p (parts machine.now) self.old
            → WantsBucket p (parts machine.now) t bucket → AllWant p (parts machine.now) self.new }
    {
        if bucket < BUCKETS {
            self.leave(t);
            self.enter(t, bucket);
            self.shut_bucket(machine, bucket);
        }
    }
}
