ghost use Rattle.std.specs.Prelude.{◌≡◌, ◌<◌, ◌^◌, IfOk, IfErr, List, MatchResult, map, ℕ};
ghost use Rattle.piece_machine.specs.PieceConcrete.{PieceConcrete};
ghost use Rattle.program.specs.Names.{said_by};
ghost use Rattle.program.specs.Trees.{Program, as_version};
ghost use Rattle.source_states.specs.Actions.{action_of};
ghost use Rattle.runner.specs.Logs.{cost};
ghost use Rattle.runner.specs.Reports.{CanFail, IsReport};
ghost use Rattle.simulation.specs.ExplainedLog.{IsExplainedLog, LeadsTo};
ghost use Rattle.backend.specs.Lowered.{IsLowered};
ghost use Rattle.backend.specs.Refusals.{CodeFits};
ghost use Rattle.compiler.specs.Accepts.{AcceptsText};
ghost use Rattle.compiler.specs.Compiles.{IsCompiledAs};
ghost use Rattle.commandline.specs.CommandLine.{version_by};
ghost use Rattle.words.specs.declared.version.ImageVersion.{ImageVersion as VersionOf};
ghost use Rattle.answers.specs.Alone.{IsReportAlone, IsRunAlone, outside_alone};
ghost use Rattle.answers.specs.Explaining.{IsExplanation, IsRefusedExplanation, IsWantOfMemory};
ghost use Rattle.answers.specs.Running.{IsRunBySeed, IsRunInOrder};
ghost use Rattle.answers.specs.Replaying.{IsReplayOfText, IsRefusedReplay, IsNoRefusal};
ghost use Rattle.answers.specs.declared.explained_run.ExplainSourceFault.TheVariants.{Refused, Memory};

use crate::compiled::compile_checked_by;
use crate::replaying::{ReplayFault, follow_compiled};
use backend::Lowered;
use commandline::Exits;
use isa::Image;
use packed_log::LogReader;
use program::Checked;
use runner::{Report, RunFault, Turn, logs_are_machine_runs};
use scanner::Refusal;
use simulation::{ExplainFault, explain_lowered};
use source_states::Action;
use std::alloc::Global;
use thiserror::Error;
use words::OpenGate;

/// A run of a source text's image, and the run of its program that it is.
#[derive(Drop)]
pub struct ExplainedRun<'a> {
    /// The text's program.
    pub checked: Checked<'a>,
    /// What the run of the image left.
    pub report: Report,
    /// The actions of the program, in order.
    pub actions: Vec<Action>,
}

/// Why the run of a source text was not explained.
#[derive(Clone, Copy, PartialEq, Eq, Debug, Error)]
pub enum ExplainSourceFault {
    /// The text has no image.
    #[error("{0}")]
    Refused(Refusal),
    /// There is no memory for the run, or for what explains it.
    #[error("memory")]
    Memory,
}

impl From<Refusal> for ExplainSourceFault {
    ghost from_gives = { λ e f. f ≡ Refused e };

    fn from(refusal: Refusal) -> ExplainSourceFault {
        ExplainSourceFault::Refused(refusal)
    }
}

// Who moves the threads of a run on the calling thread.
#[derive(Clone, Copy, PartialEq, Eq, Debug)]
enum Alone {
    // A fixed order.
    InOrder,
    // The order that follows from a seed, with about one stray wake in so many entries, where such are wanted, and with
    // so many kills at most.
    Seed {
        seed: u64,
        strays: Option<u32>,
        kills: u32,
    },
}

// Runs an image on the calling thread.
fn run_alone(alloc: Global, image: &Image, limit: u32, order: Alone) -> Result<Report, RunFault>
    ensures ok { IfOk result (λ report. IsReport image.now (outside_alone order) limit report) }
    ensures order { IfOk result (λ report. IsReportAlone order limit image.now report) }
    ensures err { IfErr result (λ fault. CanFail image.now (outside_alone order) limit fault) }
{
    match order {
        Alone::Seed {
            seed,
            strays,
            kills,
        } => runner::run_by_seed(alloc, image, limit, seed, strays, kills),
        Alone::InOrder => runner::run_in_order(alloc, image, limit, &OpenGate),
    }
}

// The same of the image of a text. There is no fault but want of memory.
fn run_image(
    alloc: Global,
    image: &Image,
    limit: u32,
    order: Alone,
) -> Result<Report, ExplainSourceFault>
    requires { (version : VersionOf) × (text : List ℕ) × IsCompiledAs version text image.now }
    ensures report { MatchResult result (λ report. IsReport image.now (outside_alone order) limit report)
        (λ fault. fault ≡ Memory) }
    ensures order { IfOk result (λ report. IsReportAlone order limit image.now report) }
{
    logs_are_machine_runs();
    match run_alone(alloc, image, limit, order) {
        Ok(report) => Ok(report),
        Err(RunFault::Broken) => unreachable!(),
        Err(RunFault::Stray | RunFault::CannotMove | RunFault::Limit) => unreachable!(),
        Err(RunFault::Memory) => Err(ExplainSourceFault::Memory),
    }
}

// Explains a legal log of a program's image. There is no fault but want of memory.
fn explain_run(
    alloc: Global,
    checked: &Checked,
    lowered: Lowered,
    log: LogReader<'_>,
) -> Result<Vec<Action>, ExplainSourceFault>
    requires own { IsLowered (as_version lowered.image.version (said_by checked.now)) lowered }
    requires legal { (k : PieceConcrete) × LeadsTo lowered.image log k }
    requires few { cost log < 2 ^ 32 }
    ensures { MatchResult result
        (λ actions. IsExplainedLog (as_version lowered.image.version (said_by checked.now)) lowered.image
        log.entry (map action_of actions.items))
        (λ fault. fault ≡ Memory) }
{
    match explain_lowered(alloc, checked, lowered, log) {
        Ok(actions) => Ok(actions),
        Err(ExplainFault::Memory) => Err(ExplainSourceFault::Memory),
        Err(ExplainFault::OtherImage | ExplainFault::NotARun) => unreachable!(),
    }
}

// Compiles a source text, runs its image on the calling thread, and explains the log.
fn explain_alone<'a>(
    alloc: Global,
    text: &'a [u8],
    exits: Exits,
    limit: u32,
    order: Alone,
) -> Result<ExplainedRun<'a>, ExplainSourceFault>
    ensures explained { IfOk result
        (λ run. IsExplanation (version_by exits) text.now
        (λ report. IsRunAlone (version_by exits) order limit text.now report) run) }
    ensures fault { IfErr result (λ fault. IsRefusedExplanation (version_by exits) text.now fault) }
    ensures only { (p : Program) → AcceptsText text.now p
        → CodeFits (as_version (version_by exits) p)
        → IfErr result (λ fault. IsWantOfMemory fault) }
{
    logs_are_machine_runs();
    let (checked, lowered) = compile_checked_by(alloc, text, exits)?;
    let report = run_image(alloc, &lowered.image, limit, order)?;
    let actions = explain_run(alloc, &checked, lowered, report.log.iter())?;
    Ok(ExplainedRun {
        checked,
        report,
        actions,
    })
}

/// Compiles a source text for this rule of exits, runs its image within a limit of steps as `run_in_order` does, and
/// explains the log: the actions are a run of the text's program, at whose end the same is seen as of the machine.
///
/// # Errors
///
/// A text that `compile` refuses has the same refusal. Else there is no fault but want of memory.
pub fn explain_source<'a>(
    alloc: Global,
    text: &'a [u8],
    exits: Exits,
    limit: u32,
) -> Result<ExplainedRun<'a>, ExplainSourceFault>
    ensures explained { IfOk result
        (λ run. IsExplanation (version_by exits) text.now (IsRunInOrder (version_by exits) text.now limit) run) }
    ensures fault { IfErr result (λ fault. IsRefusedExplanation (version_by exits) text.now fault) }
    ensures only { (p : Program) → AcceptsText text.now p
        → CodeFits (as_version (version_by exits) p)
        → IfErr result (λ fault. IsWantOfMemory fault) }
{
    explain_alone(alloc, text, exits, limit, Alone::InOrder)
}

/// The same, with the run in the order that follows from a seed, with stray wakes and kills or without, as `run_by_seed`
/// makes it.
///
/// # Errors
///
/// Those of `explain_source`.
pub fn explain_by_seed<'a>(
    alloc: Global,
    text: &'a [u8],
    exits: Exits,
    limit: u32,
    seed: u64,
    strays: Option<u32>,
    kills: u32,
) -> Result<ExplainedRun<'a>, ExplainSourceFault>
    ensures explained { IfOk result
        (λ run. IsExplanation (version_by exits) text.now
        (IsRunBySeed (version_by exits) text.now strays kills limit seed) run) }
    ensures fault { IfErr result (λ fault. IsRefusedExplanation (version_by exits) text.now fault) }
    ensures only { (p : Program) → AcceptsText text.now p
        → CodeFits (as_version (version_by exits) p)
        → IfErr result (λ fault. IsWantOfMemory fault) }
{
    let order = Alone::Seed {
        seed,
        strays,
        kills,
    };
    explain_alone(alloc, text, exits, limit, order)
}

/// Compiles a source text for this rule of exits, runs its image by a schedule as `replay` does, and explains the log.
///
/// # Errors
///
/// Those of `replay`.
pub fn explain_schedule<'a>(
    alloc: Global,
    text: &'a [u8],
    exits: Exits,
    schedule: &[Turn],
) -> Result<ExplainedRun<'a>, ReplayFault>
    ensures explained { IfOk result
        (λ run. IsExplanation (version_by exits) text.now
        (IsReplayOfText (version_by exits) text.now schedule.now) run) }
    ensures fault { IfErr result
        (λ fault. IsRefusedReplay (version_by exits) text.now schedule.now fault) }
    ensures only { (p : Program) → AcceptsText text.now p
        → CodeFits (as_version (version_by exits) p) → IfErr result (λ fault. IsNoRefusal fault) }
{
    let (checked, lowered) = compile_checked_by(alloc, text, exits)?;
    let report = follow_compiled(alloc, &lowered.image, schedule)?;
    let Ok(actions) = explain_run(alloc, &checked, lowered, report.log.iter()) else {
        return Err(ReplayFault::Memory);
    };
    Ok(ExplainedRun {
        checked,
        report,
        actions,
    })
}
