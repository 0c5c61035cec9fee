ghost use Rattle.std.specs.Prelude.{◌≡◌, IfOk};
ghost use Rattle.machine.specs.Views.{concrete};
ghost use Rattle.piece_machine.specs.PieceDetermined.{IsFit};
ghost use Rattle.piece_machine.specs.PieceViews.{parts};
ghost use Rattle.runner.specs.Reports.{IsVerdict};

use packed_log::PackedLog;
use piece_machine::PieceMachine;
use std::alloc::{AllocError, Global};

/// How a run came to its end.
#[derive(Clone, Copy, PartialEq, Eq, Debug)]
pub enum Verdict {
    /// All threads have ended.
    Done,
    /// Not all threads have ended, and none can move.
    Stuck,
    /// Some threads can move, but the next entry of each of them would pass the limit of steps, or waits for a bucket that
    /// is held by one whose next entry would.
    Limit,
}

/// What a run leaves.
#[derive(Drop)]
pub struct Report {
    /// The numbers that were printed.
    pub output: Vec<i32>,
    /// The entries of the threads, in order.
    pub log: PackedLog,
    /// How the run came to its end.
    pub verdict: Verdict,
    /// The machine after the last entry.
    pub last: PieceMachine,
}

/// What is told of a run that left this log and this machine.
pub fn report_of(alloc: Global, log: PackedLog, last: PieceMachine) -> Result<Report, AllocError>
    ensures log { IfOk result (λ report. report.log.items ≡ log.items) }
    ensures last { IfOk result (λ report. report.last ≡ last) }
    ensures output { IfOk result (λ report. report.output.items ≡ last.view.output) }
    ensures verdict { IfOk result (λ report. IsVerdict (concrete last.view) report.verdict) }
    ensures fit { IfOk result (λ report. IsFit last.view.program (parts last)) }
{
    Ok(Report {
        output: Vec::from_slice(alloc, last.machine().output())?,
        log,
        verdict: verdict_of(&last),
        last,
    })
}

// What the machine says of the end of a run.
fn verdict_of(machine: &PieceMachine) -> Verdict
    ensures { IsVerdict (concrete machine.now.view) result }
{
    if !machine.quiet() {
        Verdict::Limit
    } else if machine.machine().all_ended() {
        Verdict::Done
    } else {
        Verdict::Stuck
    }
}
