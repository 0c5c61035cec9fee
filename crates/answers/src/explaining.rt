ghost use Rattle.std.specs.Prelude.{IfOk, IfErr, true};
ghost use Rattle.compiler.specs.Accepts.{RefusesTextAs};
ghost use Rattle.commandline.specs.CommandLine.{version_by};
ghost use Rattle.answers.specs.Asked.{IsExplainedAs};
ghost use Rattle.answers.specs.Answers.{AreTold};
ghost use Rattle.answers.specs.Done.{HasExplained, TellsRun, explained_lines};
ghost use Rattle.answers.specs.Explaining.{IsExplanation};
ghost use Rattle.answers.specs.Causes.{FailsExplanation, FailsTextLog, FailsTextTurns};
ghost use Rattle.answers.specs.Failures.{HasNoMemory, IsLeftBy};
ghost use Rattle.answers.specs.Replaying.{IsReplayOfText};
ghost use Rattle.answers.specs.LogLimits.{HasFewSteps};
ghost use Rattle.answers.specs.SourceLog.{HasBadEntry, IsExplanationOfLog};
ghost use Rattle.answers.specs.Turns.{turns_in};
ghost use Rattle.answers.specs.Answers.{AreDrawn};

use crate::answer::{Answer, OutFiles, status_of};
use crate::drawing::{Drawings, ShownRun};
use crate::explained_run::{ExplainedRun, explain_by_seed, explain_schedule, explain_source};
use crate::failure::NoAnswer;
use crate::hinting::SourceText;
use crate::log_limits::check_bytes;
use crate::schedule::schedule_of;
use crate::source_log::explain_log_text;
use crate::telling::{tell_explained, told_entry, told_turn};
use crate::titles::title_of;
use actionlines::action_lines;
use commandline::ExplainedBy;
use line_tails::put_beside;
use run_hints::asides_of;
use std::alloc::{AllocError, Global};

/// Explains what a run of a source text is in its source, and shows it in other files where they are named. `second` has
/// the bytes of the schedule or the log.
pub fn answer_explain<'a>(
    alloc: Global,
    text: &SourceText<'_>,
    second: &[u8],
    by: ExplainedBy<'a>,
    drawings: Drawings<'a>,
    places: bool,
    told: &mut String,
) -> Result<Answer<'a>, NoAnswer<'a>>
    ensures done { IfOk result (HasExplained (version_by text.now.exits) by.entry second.now places
        drawings.entry.chart drawings.entry.timeline drawings.entry.page text.now.bytes.now) }
    ensures left { IfErr result
        (IsLeftBy (RefusesTextAs (version_by text.now.exits) text.now.bytes.now) (λ e. ⊥)
        (FailsExplanation (version_by text.now.exits) by.entry text.now.bytes.now second.now)) }
{
    let run = explain_by(alloc, text, second, by, told)?;
    tell_explained(alloc, told, text, &run, by);
    run_answer(alloc, text, &run, by, drawings, places)
}

// Tells an explained run, and shows it in other files where they are named. It is lent: a caller that owned it over all that
// can fail here took the borrow checker minutes.
fn run_answer<'a>(
    alloc: Global,
    text: &SourceText<'_>,
    run: &ExplainedRun<'_>,
    by: ExplainedBy<'a>,
    drawings: Drawings<'a>,
    places: bool,
) -> Result<Answer<'a>, NoAnswer<'a>>
    ensures told { IfOk result (TellsRun places drawings.entry.chart drawings.entry.timeline
        drawings.entry.page run.now) }
    ensures failed { IfErr result HasNoMemory }
{
    let lines = run_lines(alloc, text, run, places)?;
    let files = drawn_run(alloc, drawings, text, run, by)?;
    Ok(Answer::quiet(alloc, status_of(run.report.verdict), lines, files))
}

// The files that show an explained run.
fn drawn_run<'a>(
    alloc: Global,
    drawings: Drawings<'a>,
    text: &SourceText<'_>,
    run: &ExplainedRun<'_>,
    by: ExplainedBy<'a>,
) -> Result<OutFiles<'a>, AllocError>
    ensures { IfOk result (AreDrawn drawings.entry.chart drawings.entry.timeline drawings.entry.page) }
{
    let title = title_of(alloc, text.file, by, run.report.verdict)?;
    let shown = ShownRun {
        file: text.file,
        text: text.bytes,
        checked: &run.checked,
        actions: run.actions.as_slice(),
        log: &run.report.log,
        title: title.as_str(),
    };
    drawings.drawn(alloc, &shown)
}

// The lines of an explained run, with the places of its actions behind them where those are wanted.
fn run_lines(
    alloc: Global,
    text: &SourceText<'_>,
    run: &ExplainedRun<'_>,
    places: bool,
) -> Result<Vec<u8>, AllocError>
    ensures { IfOk result (λ v. AreTold places (explained_lines run.now) v.items) }
{
    let lines = action_lines(alloc, run.checked.names(), run.actions.as_slice())?;
    if places {
        lines_beside(alloc, text, run, lines.as_slice())
    } else {
        Ok(lines)
    }
}

// These lines, with the places of the actions of an explained run behind them.
fn lines_beside(
    alloc: Global,
    text: &SourceText<'_>,
    run: &ExplainedRun<'_>,
    lines: &[u8],
) -> Result<Vec<u8>, AllocError>
    ensures { IfOk result (λ v. AreTold true lines.now v.items) }
{
    let tails = asides_of(
        alloc,
        text.file,
        text.bytes,
        &run.checked,
        run.actions.as_slice(),
    )?;
    put_beside(alloc, "", lines, tails.as_slice())
}

// Runs a text and explains the run, or explains a log.
fn explain_by<'a, 't>(
    alloc: Global,
    text: &SourceText<'t>,
    second: &[u8],
    by: ExplainedBy<'a>,
    told: &mut String,
) -> Result<ExplainedRun<'t>, NoAnswer<'a>>
    ensures run { IfOk result (λ run. IsExplainedAs (version_by text.now.exits) by.entry
        second.now text.now.bytes.now run) }
    ensures left { IfErr result
        (IsLeftBy (RefusesTextAs (version_by text.now.exits) text.now.bytes.now) (λ e. ⊥)
        (FailsExplanation (version_by text.now.exits) by.entry text.now.bytes.now second.now)) }
{
    match by {
        ExplainedBy::Order { steps } => Ok(explain_source(alloc, text.bytes, text.exits, steps)?),
        ExplainedBy::Seed {
            steps,
            seed,
            strays,
            kills,
        } => Ok(explain_by_seed(alloc, text.bytes, text.exits, steps, seed, strays, kills)?),
        ExplainedBy::Schedule(_) => explain_turns(alloc, text, second, told),
        ExplainedBy::Log { steps, .. } => explain_log(alloc, text, second, steps, told),
    }
}

// Explains the run by the schedule that these bytes are.
fn explain_turns<'a, 't>(
    alloc: Global,
    text: &SourceText<'t>,
    schedule: &[u8],
    told: &mut String,
) -> Result<ExplainedRun<'t>, NoAnswer<'a>>
    ensures run { IfOk result (λ run. IsExplanation (version_by text.now.exits) text.now.bytes.now
        (IsReplayOfText (version_by text.now.exits) text.now.bytes.now (turns_in schedule.now)) run) }
    ensures left { IfErr result
        (IsLeftBy (RefusesTextAs (version_by text.now.exits) text.now.bytes.now) (λ e. ⊥)
        (FailsTextTurns (version_by text.now.exits) text.now.bytes.now schedule.now)) }
{
    let turns = schedule_of(alloc, schedule)?;
    match explain_schedule(alloc, text.bytes, text.exits, turns.as_slice()) {
        Ok(run) => Ok(run),
        Err(fault) => Err(told_turn(alloc, told, text, turns.as_slice(), fault)),
    }
}

// Explains the log whose lines these are, of at most so many steps.
fn explain_log<'a, 't>(
    alloc: Global,
    text: &SourceText<'t>,
    lines: &[u8],
    steps: u32,
    told: &mut String,
) -> Result<ExplainedRun<'t>, NoAnswer<'a>>
    ensures run { IfOk result
        (λ run. IsExplanationOfLog (version_by text.now.exits) text.now.bytes.now
        lines.now run × HasFewSteps lines.now steps) }
    ensures left { IfErr result
        (IsLeftBy (RefusesTextAs (version_by text.now.exits) text.now.bytes.now) (λ e. ⊥)
        (FailsTextLog (HasBadEntry (version_by text.now.exits) text.now.bytes.now lines.now)
        steps text.now.bytes.now lines.now)) }
{
    check_bytes(lines, steps)?;
    match explain_log_text(alloc, text.bytes, text.exits, lines, steps) {
        Ok(run) => Ok(run),
        Err(fault) => Err(told_entry(alloc, told, text, lines, fault)),
    }
}
