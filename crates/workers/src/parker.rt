ghost use Rattle.std.specs.Prelude.{◌≡◌};
ghost use Rattle.machine.specs.ThreadSets.{IsThread};
ghost use Rattle.workers.specs.Calls.{nobody_called, with_called, with_starter};
ghost use Rattle.workers.specs.PutOffs.{AreNone};

use crate::bucket_waiters::BucketWaiters;
use crate::lookout::Lookout;
use crate::moments::Moments;
use crate::patience::Patience;
use crate::put_off::PutOff;
use std::sync::atomic::{AtomicU64, Ordering};
use std::sync::{Condvar, Wait};
use std::thread;

// For how many moments a worker looks for a call before it sleeps: a few times as long as being woken takes.
const LOOKS: u32 = 2000;

/// Which workers were called, by the numbers of their threads, and whether the calling thread was, which starts workers. Nothing
/// adds to it but a call.
#[derive(Drop)]
pub struct Called {
    workers: BucketWaiters,
    starter: bool,
}

impl Called {
    /// Nobody yet.
    pub fn new() -> Called
        ensures { result ≡ nobody_called }
    {
        Called {
            workers: BucketWaiters::new(),
            starter: false,
        }
    }

    /// Calls the calling thread, which sleeps here, and notes it.
    pub fn call_starter(&mut self, made: &Condvar)
        ensures { self.new ≡ with_starter self.old }
    {
        made.notify_all();
        self.starter = true;
    }
}

/// Where the worker of a thread parks.
#[derive(Drop)]
pub struct Parker {
    thread: u32,
    called: thread::Parker,
    calls: AtomicU64,
}

impl Parker {
    /// That of the worker of thread `t`.
    pub fn new(t: u32) -> Parker
        ensures { result.thread ≡ t }
    {
        Parker {
            thread: t,
            called: thread::Parker::new(),
            calls: AtomicU64::new(0),
        }
    }

    /// Parks until the worker is called. A call that came since it was parked last counts. It has put no call off, since
    /// whom it has to call may be the one who calls it.
    pub fn park<R: Wait>(&self, rt: &R, put_off: &PutOff)
        requires { AreNone put_off.now }
    {
        let _nobody = put_off;
        self.called.park(rt);
    }

    /// Calls the worker, and notes it.
    pub fn call(&self, called: &mut Called)
        requires { IsThread self.now.thread }
        ensures { called.new ≡ with_called called.old self.now.thread }
    {
        self.calls.fetch_add(1, Ordering::SeqCst);
        self.called.unpark();
        called.workers.add(self.thread);
    }

    /// How often the worker was called.
    pub fn calls(&self) -> u64 {
        self.calls.load(Ordering::SeqCst)
    }

    /// Looks for a call past so many, for a while, and says whether there was one. The worker's patience says whether it looks
    /// at all.
    pub fn look(&self, lookout: &Lookout, patience: &mut Patience, calls: u64) -> bool {
        if !patience.looks() || !lookout.enter() {
            return false;
        }
        let called = self.look_for(calls);
        lookout.leave();
        patience.note(called)
    }

    // Looks for a call past so many.
    fn look_for(&self, calls: u64) -> bool {
        let moments = Moments::new();
        for _ in 0..LOOKS {
            if self.calls() != calls {
                return true;
            }
            moments.pass_one();
        }
        self.calls() != calls
    }
}
