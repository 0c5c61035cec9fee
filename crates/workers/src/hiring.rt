ghost use Rattle.std.specs.Prelude.{◌≡◌, Some, IfSome, IfNone, unwrap_or};
ghost use Rattle.machine.specs.ThreadSets.{IsThread};
ghost use Rattle.runner.specs.declared.fault.RunFault.TheVariants.{Memory};
ghost use Rattle.workers.specs.Hirings.{nobody_hired, asking_for, with_started, with_failed, asked_all};
ghost use Rattle.workers.specs.SharedRuns.{StartsWorker};

use crate::bucket_waiters::BucketWaiters;
use crate::ended::Ended;
use crate::shared_run::{SharedRun, Worker};
use runner::{RunName, Share};
use std::thread::JoinHandle;

/// For which threads a worker was asked, which of these were started, and which couldn't be. Nothing adds to it but what
/// does so.
#[derive(Drop)]
pub struct Hiring {
    asked: BucketWaiters,
    started: BucketWaiters,
    failed: BucketWaiters,
    // Whether the run has no thread left that asks for one.
    is_over: bool,
}

impl Hiring {
    /// None was asked for yet.
    pub fn new() -> Hiring
        ensures { result ≡ nobody_hired }
    {
        Hiring {
            asked: BucketWaiters::new(),
            started: BucketWaiters::new(),
            failed: BucketWaiters::new(),
            is_over: false,
        }
    }

    /// The next thread without a worker, with a part of the count for it. A run that has none now asks for no more.
    pub fn ask<J: RunName>(
        &mut self,
        shared_run: &mut SharedRun<J>,
    ) -> Option<(Worker<J>, Share<J>)>
        ensures some { IfSome result (λ worker. StartsWorker shared_run.old worker.0.thread worker.1 shared_run.new
            × (self.new ≡ asking_for self.old worker.0.thread)) }
        ensures none { IfNone result (self.new ≡ asked_all self.old) }
    {
        let Some((worker, share)) = shared_run.next_worker() else {
            self.is_over = true;
            return None;
        };
        self.asked.add(worker.thread());
        Some((worker, share))
    }

    /// Notes that this is the worker of thread `t`, which was started.
    pub fn start<J: RunName>(&mut self, t: u32, _worker: JoinHandle<Ended<J>>)
        requires { IsThread t }
        ensures { self.new ≡ with_started self.old t }
    {
        self.started.add(t);
    }

    /// Ends the run for want of memory, where the worker of thread `t` couldn't be started.
    pub fn fail<J: RunName>(&mut self, t: u32, shared_run: &mut SharedRun<J>)
        requires { IsThread t }
        ensures hiring { self.new ≡ with_failed self.old t }
        ensures run { shared_run.new ≡ record shared_run.old {
          fault = Some (unwrap_or shared_run.old.fault Memory);
        } }
    {
        shared_run.fail();
        self.failed.add(t);
    }
}
