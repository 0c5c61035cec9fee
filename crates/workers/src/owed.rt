ghost use Rattle.std.specs.Prelude.{◌≡◌, [], true, false};
ghost use Rattle.machine.specs.ThreadSets.{set_of};
ghost use Rattle.workers.specs.BucketWaiters.{nobody};
ghost use Rattle.workers.specs.Calls.{AreAllCalled, AreTold};
ghost use Rattle.workers.specs.PutOffs.{AreNone, for_entry};

use crate::bucket_waiters::BucketWaiters;
use crate::parker::Called;
use crate::put_off::PutOff;
use crate::shared_run::WakeReason;
use machine::ThreadSet;
use std::snapshot::Snapshot;

/// What whoever makes entries owes by the last of them: that those whom it concerns are called, or that their calls are put
/// off; and where the run is over behind it, that everybody is called. Nobody can let it go: it is used up where that was done.
pub struct Owed {
    // Whom the entry concerns: the threads that it woke, and the calling thread where it made one.
    reason: Snapshot<WakeReason>,
    // Who waited for a bucket until one was given up.
    freed: Snapshot<BucketWaiters>,
    over: bool,
}

impl Owed {
    /// By an entry that concerns these, behind which the run is over or not.
    pub fn new(reason: &WakeReason, freed: &BucketWaiters, over: bool) -> Owed
        ensures { (result.reason.value ≡ reason.now) × (result.freed.value ≡ freed.now) × (result.over ≡ over) }
    {
        Owed {
            reason: Snapshot::of(reason),
            freed: Snapshot::of(freed),
            over,
        }
    }

    /// Whether everybody is to be called.
    pub fn is_of_all(&self) -> bool
        ensures { result ≡ self.now.over }
    {
        self.over
    }

    /// Where the entry concerns nobody.
    pub fn end(self)
        requires none { (self.reason.value.woken ≡ set_of []) × (self.reason.value.forked ≡ false) × (self.freed.value ≡ nobody) }
        requires goes_on { self.over ≡ false }
    {
        let Owed {
            reason: _,
            freed: _,
            over: _,
        } = self;
    }

    /// Where each was called.
    pub fn meet(self, called: &Called)
        requires told { AreTold self.reason.value.woken self.freed.value self.reason.value.forked called.now }
        requires goes_on { self.over ≡ false }
    {
        let Owed {
            reason: _,
            freed: _,
            over: _,
        } = self;
        let _called = called;
    }

    /// Where everybody was.
    pub fn meet_all(self, called: &Called)
        requires { AreAllCalled called.now }
    {
        let Owed {
            reason: _,
            freed: _,
            over: _,
        } = self;
        let _called = called;
    }

    /// Where the calls of the workers whose threads it woke are put off, and it concerns nobody else.
    pub fn put_off(self, woken: &ThreadSet, put_off: &mut PutOff)
        requires none { AreNone put_off.old }
        requires woken { self.reason.value.woken ≡ woken.now }
        requires only { (self.reason.value.forked ≡ false) × (self.freed.value ≡ nobody) }
        requires goes_on { self.over ≡ false }
        ensures { put_off.new ≡ for_entry woken.now }
    {
        let Owed {
            reason: _,
            freed: _,
            over: _,
        } = self;
        put_off.put(woken);
    }
}
