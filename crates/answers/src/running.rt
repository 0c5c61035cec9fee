ghost use Rattle.std.specs.Prelude.{◌≡◌, ◌≢◌, IfOk, IfErr};
ghost use Rattle.compiler.specs.Accepts.{RefusesTextAs};
ghost use Rattle.commandline.specs.CommandLine.{version_by};
ghost use Rattle.answers.specs.Asked.{IsImageRunBy, IsReplayedAs, IsRunAs, IsRunBy, log_beside, outside_by};
ghost use Rattle.answers.specs.Done.{HasExecuted, HasRun, RunsImage};
ghost use Rattle.answers.specs.Causes.{CannotRun, FailsReplay, FailsRun, FailsTextLog, FailsTextTurns};
ghost use Rattle.answers.specs.Failures.{IsLeftBy, IsRefusalOrMemory};
ghost use Rattle.answers.specs.Images.{UnassemblesAs};
ghost use Rattle.answers.specs.Replaying.{IsReplayOfText};
ghost use Rattle.answers.specs.Running.{IsRefusedRun};
ghost use Rattle.answers.specs.LogLimits.{HasFewSteps};
ghost use Rattle.answers.specs.SourceLog.{CannotFollow, IsReplayOfLog};
ghost use Rattle.answers.specs.Turns.{turns_in};
ghost use Rattle.answers.specs.declared.source_run.RunSourceFault.TheVariants.{Run};
ghost use Rattle.runner.specs.Reports.{CanFail};
ghost use Rattle.runner.specs.declared.fault.RunFault.TheVariants.{Broken};

use crate::answer::Answer;
use crate::failure::{Failure, NoAnswer};
use crate::following::formed_image;
use crate::hinting::SourceText;
use crate::log_limits::check_bytes;
use crate::paging::{Kept, report_answer};
use crate::replaying::replay;
use crate::schedule::schedule_of;
use crate::source_log::replay_log_text;
use crate::source_run::{RunSourceFault, run_by_seed, run_in_order, run_source};
use crate::telling::{tell_run, told_entry, told_turn};
use commandline::{ImageForm, Order, ReplayedBy, RunOptions};
use isa::Image;
use run_hints::Way;
use runner::{Report, RunFault};
use std::alloc::Global;
use std::sync::Wait;
use std::thread::Threads;
use words::OpenGate;
use workers::Calls;

/// Runs a source text, and shows the run on a page where that is named.
pub fn answer_run<'a, R: AllocGlobal + Threads + Wait + Sync>(
    rt: &R,
    text: &SourceText<'_>,
    options: RunOptions<'a>,
    page: Option<&'a str>,
    told: &mut String,
) -> Result<Answer<'a>, NoAnswer<'a>>
    ensures done { IfOk result (HasRun (IsRunAs (version_by text.now.exits) options.entry)
        options.entry.trace options.entry.log page.entry text.now.bytes.now) }
    ensures refused { IfErr result
        (IsRefusalOrMemory (RefusesTextAs (version_by text.now.exits) text.now.bytes.now)) }
{
    let report = run_by(rt, text, options.steps, options.order)?;
    tell_run(rt.alloc(), told, text, &report, way_of(options));
    let kept = Kept {
        trace: options.trace,
        log: options.log,
        page,
    };
    report_answer(rt.alloc(), text, &report, way_of(options), kept)
}

// How a run by these options is made. One with kills is looked at by its log, as one on real threads.
fn way_of(options: RunOptions<'_>) -> Way<'_> {
    match options.order {
        Order::Workers => Way::Workers(options.log),
        Order::InOrder => Way::InOrder,
        Order::Seed { kills, .. } if kills > 0 => Way::Workers(options.log),
        Order::Seed { seed, strays, .. } => Way::Seed(seed, strays),
    }
}

fn run_by<R: AllocGlobal + Threads + Wait + Sync>(
    rt: &R,
    text: &SourceText<'_>,
    steps: u32,
    order: Order,
) -> Result<Report, RunSourceFault>
    ensures report { IfOk result (λ report. IsRunBy (version_by text.now.exits) order steps
        text.now.bytes.now report) }
    ensures fault { IfErr result (λ fault. IsRefusedRun (version_by text.now.exits)
        text.now.bytes.now (outside_by order) steps fault) }
    ensures sound { IfErr result (λ fault. fault ≢ Run Broken) }
{
    match order {
        Order::Workers => {
            run_source(
                rt,
                rt.alloc(),
                text.bytes,
                text.exits,
                steps,
                Calls::by_processors(rt),
                &OpenGate,
            )
        },
        Order::InOrder => run_in_order(rt.alloc(), text.bytes, text.exits, steps, &OpenGate),
        Order::Seed {
            seed,
            strays,
            kills,
        } => run_by_seed(
            rt.alloc(),
            text.bytes,
            text.exits,
            steps,
            seed,
            strays,
            kills,
        ),
    }
}

/// Runs the image that a file has in this form.
pub fn answer_exec<'a, R: AllocGlobal + Threads + Wait + Sync>(
    rt: &R,
    text: &SourceText<'_>,
    form: ImageForm,
    options: RunOptions<'a>,
) -> Result<Answer<'a>, NoAnswer<'a>>
    ensures done { IfOk result (HasExecuted text.now.exits form options.entry text.now.bytes.now) }
    ensures left { IfErr result (IsLeftBy (λ e. ⊥) (UnassemblesAs form text.now.bytes.now)
        (FailsRun text.now.exits form options.entry text.now.bytes.now)) }
{
    let formed = formed_image(rt.alloc(), text, form)?;
    exec_image(rt, &formed.image, options)
}

// Runs an image, and tells that.
fn exec_image<'a, R: AllocGlobal + Threads + Wait + Sync>(
    rt: &R,
    image: &Image,
    options: RunOptions<'a>,
) -> Result<Answer<'a>, NoAnswer<'a>>
    ensures done { IfOk result (RunsImage options.entry image.now) }
    ensures left { IfErr result
        (IsLeftBy (λ e. ⊥) (λ e. ⊥) (CannotRun options.entry image.now)) }
{
    match run_image(rt, image, options.steps, options.order) {
        Ok(report) => Answer::of_report(rt.alloc(), &report, options.trace, options.log, None),
        Err(fault) => Err(NoAnswer::Failed(Failure::from(fault))),
    }
}

// Runs an image.
fn run_image<R: AllocGlobal + Threads + Wait + Sync>(
    rt: &R,
    image: &Image,
    steps: u32,
    order: Order,
) -> Result<Report, RunFault>
    ensures ok { IfOk result (λ report. IsImageRunBy order steps image.now report) }
    ensures err { IfErr result (CanFail image.now (outside_by order) steps) }
{
    match order {
        Order::Workers => {
            workers::run(
                rt,
                rt.alloc(),
                image,
                steps,
                Calls::by_processors(rt),
                &OpenGate,
            )
        },
        Order::InOrder => runner::run_in_order(rt.alloc(), image, steps, &OpenGate),
        Order::Seed {
            seed,
            strays,
            kills,
        } => runner::run_by_seed(rt.alloc(), image, steps, seed, strays, kills),
    }
}

/// Runs a source text by a schedule or a log, of which these are the bytes, and shows the run on a page where that is
/// named.
pub fn answer_replay<'a>(
    alloc: Global,
    text: &SourceText<'_>,
    second: &[u8],
    by: ReplayedBy<'a>,
    trace: bool,
    page: Option<&'a str>,
    told: &mut String,
) -> Result<Answer<'a>, NoAnswer<'a>>
    ensures done { IfOk result (HasRun (IsReplayedAs (version_by text.now.exits) by.entry second.now)
        trace (log_beside by.entry) page.entry text.now.bytes.now) }
    ensures left { IfErr result
        (IsLeftBy (RefusesTextAs (version_by text.now.exits) text.now.bytes.now) (λ e. ⊥)
        (FailsReplay (version_by text.now.exits) by.entry text.now.bytes.now second.now)) }
{
    let report = replay_by(alloc, text, second, by, told)?;
    tell_run(alloc, told, text, &report, way_by(by));
    let log = log_beside(by);
    let kept = Kept { trace, log, page };
    report_answer(alloc, text, &report, way_by(by), kept)
}

// How a replay is made.
fn way_by(by: ReplayedBy<'_>) -> Way<'_> {
    match by {
        ReplayedBy::Schedule { schedule, .. } => Way::Schedule(schedule),
        ReplayedBy::Log { log, .. } => Way::Log(log),
    }
}

// Runs a text by a schedule or a log.
fn replay_by<'a>(
    alloc: Global,
    text: &SourceText<'_>,
    second: &[u8],
    by: ReplayedBy<'a>,
    told: &mut String,
) -> Result<Report, NoAnswer<'a>>
    ensures report { IfOk result (λ report. IsReplayedAs (version_by text.now.exits) by.entry
        second.now text.now.bytes.now report) }
    ensures left { IfErr result
        (IsLeftBy (RefusesTextAs (version_by text.now.exits) text.now.bytes.now) (λ e. ⊥)
        (FailsReplay (version_by text.now.exits) by.entry text.now.bytes.now second.now)) }
{
    match by {
        ReplayedBy::Schedule { .. } => replay_schedule(alloc, text, second, told),
        ReplayedBy::Log { steps, .. } => replay_log(alloc, text, second, steps, told),
    }
}

// Runs a text by the schedule that these bytes are.
fn replay_schedule<'a>(
    alloc: Global,
    text: &SourceText<'_>,
    schedule: &[u8],
    told: &mut String,
) -> Result<Report, NoAnswer<'a>>
    ensures report { IfOk result
        (λ report. IsReplayOfText (version_by text.now.exits) text.now.bytes.now
        (turns_in schedule.now) report) }
    ensures left { IfErr result
        (IsLeftBy (RefusesTextAs (version_by text.now.exits) text.now.bytes.now) (λ e. ⊥)
        (FailsTextTurns (version_by text.now.exits) text.now.bytes.now schedule.now)) }
{
    let turns = schedule_of(alloc, schedule)?;
    match replay(alloc, text.bytes, text.exits, turns.as_slice()) {
        Ok(report) => Ok(report),
        Err(fault) => Err(told_turn(alloc, told, text, turns.as_slice(), fault)),
    }
}

// Runs a text by the threads and counts of the log whose lines these are, of at most so many steps.
fn replay_log<'a>(
    alloc: Global,
    text: &SourceText<'_>,
    lines: &[u8],
    steps: u32,
    told: &mut String,
) -> Result<Report, NoAnswer<'a>>
    ensures report { IfOk result
        (λ report. IsReplayOfLog (version_by text.now.exits) text.now.bytes.now
        lines.now report × HasFewSteps lines.now steps) }
    ensures left { IfErr result
        (IsLeftBy (RefusesTextAs (version_by text.now.exits) text.now.bytes.now) (λ e. ⊥)
        (FailsTextLog (CannotFollow (version_by text.now.exits) text.now.bytes.now lines.now)
        steps text.now.bytes.now lines.now)) }
{
    check_bytes(lines, steps)?;
    match replay_log_text(alloc, text.bytes, text.exits, lines, steps) {
        Ok(report) => Ok(report),
        Err(fault) => Err(told_entry(alloc, told, text, lines, fault)),
    }
}

/// The file that the log of a replay is written to, where that is wanted.
pub fn log_beside<'a>(by: ReplayedBy<'a>) -> Option<&'a str>
    ensures { result ≡ log_beside by.entry }
{
    match by {
        ReplayedBy::Schedule { log, .. } => log,
        ReplayedBy::Log { .. } => None,
    }
}
