ghost use Rattle.std.specs.Prelude.{◌≡◌, ◌≢◌, is_some, IfOk, IfErr};
ghost use Rattle.runner.specs.declared.fault.RunFault.TheVariants.{Broken};
ghost use Rattle.runner.specs.Logs.{nothing_outside, outside_of};
ghost use Rattle.program.specs.Trees.{Program, as_version};
ghost use Rattle.commandline.specs.CommandLine.{version_by};
ghost use Rattle.backend.specs.Refusals.{CodeFits};
ghost use Rattle.compiler.specs.Accepts.{AcceptsText};
ghost use Rattle.answers.specs.Running.{IsRunBySeed, IsRunInOrder, IsRunOfText, IsRefusedRun, IsMemory};
ghost use Rattle.answers.specs.declared.source_run.RunSourceFault.TheVariants.{Refused, Run};

use crate::compiled::compile_by;
use commandline::Exits;
use runner::{Report, RunFault, logs_are_machine_runs};
use scanner::Refusal;
use std::alloc::Global;
use std::sync::Wait;
use std::thread::Threads;
use thiserror::Error;
use words::Gate;
use workers::Calls;

/// Why a source text was not run to an end.
#[derive(Clone, Copy, PartialEq, Eq, Debug, Error)]
pub enum RunSourceFault {
    /// The text has no image.
    #[error("{0}")]
    Refused(Refusal),
    /// The run of its image failed.
    #[error("{0}")]
    Run(RunFault),
}

impl From<Refusal> for RunSourceFault {
    ghost from_gives = { λ e f. f ≡ Refused e };

    fn from(refusal: Refusal) -> RunSourceFault {
        RunSourceFault::Refused(refusal)
    }
}

impl From<RunFault> for RunSourceFault {
    ghost from_gives = { λ e f. f ≡ Run e };

    fn from(fault: RunFault) -> RunSourceFault {
        RunSourceFault::Run(fault)
    }
}

/// Compiles a source text for this rule of exits and runs its image by it, within a limit of steps, with a worker for each
/// thread, as `workers::run` does. The gate is passed before each entry of the log, with the number of its thread;
/// `calls` says when a worker calls those whose threads it woke.
///
/// Some run of the text's program explains the report: it has the same output and the same ends of processes, and
/// where no thread can move, none of its processes can. No wake comes from outside. A text that `compile` refuses has
/// the same refusal. The run's own fault is `Memory`, also where a worker can't be started: `Broken` comes of no text,
/// whatever the limit. A run within the limit has fewer than 2^32 steps and is explained; and from where it leads no
/// thread comes, by local steps of its own, to a step that may not be.
pub fn run_source<R: Threads + Wait + Sync, G: Gate>(
    rt: &R,
    alloc: Global,
    text: &[u8],
    exits: Exits,
    limit: u32,
    calls: Calls,
    gate: &G,
) -> Result<Report, RunSourceFault>
    ensures report { IfOk result
        (λ report. IsRunOfText (version_by exits) text.now nothing_outside limit report) }
    ensures fault { IfErr result
        (λ fault. IsRefusedRun (version_by exits) text.now nothing_outside limit fault) }
    ensures sound { IfErr result (λ fault. fault ≢ Run Broken) }
    ensures only { (p : Program) → AcceptsText text.now p
        → CodeFits (as_version (version_by exits) p) → IfErr result (λ fault. IsMemory fault) }
{
    logs_are_machine_runs();
    let image = compile_by(alloc, text, exits)?;
    Ok(workers::run(rt, alloc, &image, limit, calls, gate)?)
}

/// The same on the calling thread, as `runner::run_in_order` does: round after round, an entry of each thread that
/// can move, by rising number. So the report depends on the text and the limit alone, want of memory aside.
pub fn run_in_order<G: Gate>(
    alloc: Global,
    text: &[u8],
    exits: Exits,
    limit: u32,
    gate: &G,
) -> Result<Report, RunSourceFault>
    ensures report { IfOk result
        (λ report. IsRunInOrder (version_by exits) text.now limit report) }
    ensures fault { IfErr result
        (λ fault. IsRefusedRun (version_by exits) text.now nothing_outside limit fault) }
    ensures sound { IfErr result (λ fault. fault ≢ Run Broken) }
    ensures only { (p : Program) → AcceptsText text.now p
        → CodeFits (as_version (version_by exits) p) → IfErr result (λ fault. IsMemory fault) }
{
    logs_are_machine_runs();
    let image = compile_by(alloc, text, exits)?;
    Ok(runner::run_in_order(alloc, &image, limit, gate)?)
}

/// The same on the calling thread, in the order that follows from a seed, as `runner::run_by_seed` does; with wakes
/// from outside, of which one comes in about so many entries, where `strays` has a number, and with at most `kills`
/// kills.
pub fn run_by_seed(
    alloc: Global,
    text: &[u8],
    exits: Exits,
    limit: u32,
    seed: u64,
    strays: Option<u32>,
    kills: u32,
) -> Result<Report, RunSourceFault>
    ensures report { IfOk result
        (λ report. IsRunBySeed (version_by exits) text.now strays kills limit seed report) }
    ensures fault { IfErr result
        (λ fault. IsRefusedRun (version_by exits) text.now (outside_of (is_some strays) kills) limit fault) }
    ensures sound { IfErr result (λ fault. fault ≢ Run Broken) }
    ensures only { (p : Program) → AcceptsText text.now p
        → CodeFits (as_version (version_by exits) p) → IfErr result (λ fault. IsMemory fault) }
{
    logs_are_machine_runs();
    let image = compile_by(alloc, text, exits)?;
    Ok(runner::run_by_seed(alloc, &image, limit, seed, strays, kills)?)
}
