ghost use Rattle.std.specs.Prelude.{◌≡◌, ◌≢◌, ◌<◌, ◌≤◌, [], MatchBool};
ghost use Rattle.machine.specs.ThreadSets.{set_of};
ghost use Rattle.workers.specs.Calls.{AreCalled};
ghost use Rattle.workers.specs.PutOffs.{AreNone, counted, for_entry};

use crate::parker::Called;
use crate::patience::Patience;
use machine::ThreadSet;
use std::thread;
use std::thread::Threads;

// A call is put off for so many further entries at most: as many as a call of a monitor's procedure takes.
const MOST_ENTRIES: u32 = 16;

/// When a worker calls the workers of the threads that an entry of its thread woke.
#[derive(Clone, Copy, PartialEq, Eq, Debug)]
pub enum Calls {
    /// As soon as the entry is in the log.
    AtOnce,
    /// When its thread gives a lock up, sleeps or ends, or takes many local steps, and behind 16 further entries in any case. On
    /// one processor it takes fewer switches between threads. The gate must not hold a worker up until another one has made an
    /// entry: that one may not have been called.
    PutOff,
    /// As soon as the entry is in the log while the worker's looks for a call succeed, and put off while they are in vain: then
    /// other work has the processors. The gate must not hold a worker up, as where calls are put off.
    ByLoad,
}

impl Calls {
    /// What takes less time: they are put off where the program may use one processor alone, on which who is called takes the
    /// place of who calls. Where there are several, it is as other work allows.
    pub fn by_processors(rt: &impl Threads) -> Calls {
        match thread::available_parallelism(rt) {
            Ok(processors) if processors.get() > 1 => Calls::ByLoad,
            _ => Calls::PutOff,
        }
    }

    /// Whether a worker with this patience puts its calls off.
    pub fn are_put_off(self, patience: &Patience) -> bool {
        match self {
            Calls::AtOnce => false,
            Calls::PutOff => true,
            Calls::ByLoad => patience.rests(),
        }
    }
}

/// Threads that an entry woke and whose workers weren't called yet. A thread that is woken inside a monitor mostly waits for
/// its lock next: so its worker is called when the one that wakes it gives a lock up, and not before. Nobody can let it go: it
/// is used up where none is put off.
pub struct PutOff {
    woken: ThreadSet,
    // For how many entries.
    entries: u32,
}

impl PutOff {
    /// No call is put off.
    pub fn new() -> PutOff
        ensures { result ≡ for_entry (set_of []) }
    {
        PutOff {
            woken: ThreadSet::new(),
            entries: 0,
        }
    }

    /// Whether none is.
    pub fn is_empty(&self) -> bool
        ensures { MatchBool result (self.now.woken ≡ set_of []) (self.now.woken ≢ set_of []) }
    {
        self.woken.is_empty()
    }

    /// Puts the calls of these threads' workers off. Those that were put off before have been made.
    pub fn put(&mut self, woken: &ThreadSet)
        requires { AreNone self.old }
        ensures { self.new ≡ for_entry woken.now }
    {
        self.woken = *woken;
        self.entries = 0;
    }

    /// Counts an entry more, for which they stay put off. Answers whether they were put off for as many as may be: then it
    /// counts none.
    pub fn count(&mut self) -> bool
        ensures { MatchBool result ((16 ≤ self.old.entries) × (self.new ≡ self.old))
            ((self.old.entries < 16) × (self.new ≡ counted self.old)) }
    {
        if self.entries >= MOST_ENTRIES {
            return true;
        }
        self.entries += 1;
        false
    }

    /// The threads whose workers are to be called.
    pub fn woken(&self) -> &ThreadSet
        ensures { result.now ≡ self.now.woken }
    {
        &self.woken
    }

    /// Where each of them was called: none is put off any more.
    pub fn meet(&mut self, called: &Called)
        requires { AreCalled self.old.woken called.now }
        ensures { AreNone self.new }
    {
        let _called = called;
        self.woken.clear();
    }

    /// Where none is put off.
    pub fn end(self)
        requires { AreNone self }
    {
        let PutOff {
            woken: _,
            entries: _,
        } = self;
    }
}
