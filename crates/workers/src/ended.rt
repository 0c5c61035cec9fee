ghost use Rattle.std.specs.Prelude.{◌≡◌, ◌≢◌, IfNone, IfSome};
ghost use Rattle.runner.specs.declared.next.After.TheVariants.{Ends};
ghost use Rattle.workers.specs.Endings.{HasEnded};

use crate::shared_run::{SharedRun, Worker};
use runner::{After, RunName};
use std::marker::Model;
use std::snapshot::Snapshot;

/// That the worker of a thread makes no entry any more. Its type keeps that there is a cause: under the lock its thread had
/// ended, its next entry would have passed the limit, or no worker was left to make one. So a worker that has none to give back
/// goes on.
#[derive(Drop)]
pub struct Ended<J: RunName> {
    thread: u32,
    // The run as it was then.
    run: Snapshot<SharedRun<J>>,
}

impl<J: RunName> Model for Ended<J> {
    ghost use Rattle.workers.specs.Endings.{EndedView, HasEnded};

    ghost Value = { EndedView };

    ghost view = { λ e. record { thread = e.thread; run = e.run.value } };

    ghost invariant = { λ e. HasEnded J.program J.limit e.run.value e.thread };
}

impl<J: RunName> Ended<J> {
    /// Of this worker, by where the run is now.
    pub fn of(run: &SharedRun<J>, worker: &Worker<J>) -> Ended<J>
        requires { HasEnded J.program J.limit run.now worker.now.thread }
        ensures { result.thread ≡ worker.now.thread }
    {
        Ended {
            thread: worker.thread(),
            run: Snapshot::of(run),
        }
    }

    /// The same where that is what comes behind its entries.
    pub fn behind(after: After, run: &SharedRun<J>, worker: &Worker<J>) -> Option<Ended<J>>
        requires { after ≡ Ends → HasEnded J.program J.limit run.now worker.now.thread }
        ensures some { IfSome result (λ ended. ended.thread ≡ worker.now.thread) }
        ensures none { IfNone result (after ≢ Ends) }
    {
        match after {
            After::Ends => Some(Ended::of(run, worker)),
            After::Goes | After::Sleeps => None,
        }
    }
}
