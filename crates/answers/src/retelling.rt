ghost use Rattle.std.specs.Prelude.{◌≡◌, IfErr, IfOk, map, true};
ghost use Rattle.source_states.specs.Actions.{action_of};
ghost use Rattle.compiler.specs.Accepts.{RefusesTextAs};
ghost use Rattle.commandline.specs.CommandLine.{version_by};
ghost use Rattle.actionlines.specs.Lines.{line};
ghost use Rattle.std.specs.List.{flat_map};
ghost use Rattle.answers.specs.Answers.{AreDrawn, AreTold};
ghost use Rattle.answers.specs.Failures.{HasNoMemory, IsLeftBy, OfFollowing};
ghost use Rattle.answers.specs.Retelling.{StopsRetelling, FailsRetelling, HasRetold, RetellsRun, TellsActions, status_of_end};

use crate::answer::{Answer, OutFiles};
use crate::compiled::compile_checked_by;
use crate::drawing::{Drawings, ShownRun};
use crate::failure::NoAnswer;
use crate::hinting::{SourceText, append_told};
use crate::status::Status;
use crate::telling::tell_found;
use crate::titles::title_of_actions;
use action_text::{FollowFault, RunEnd, ToldRun, follow_text, read_actions};
use actionlines::action_lines;
use line_tails::put_beside;
use packed_log::PackedLog;
use program::Checked;
use run_hints::{asides_of, end_hints};
use source_states::Action;
use std::alloc::{AllocError, Global};

/// Tells the run of a source text whose actions these lines are, as `explain` tells a run, and shows it in other files where
/// they are named. Whoever wrote the lines, they are followed by the meaning of the source and not trusted. `name` is that of
/// their file.
pub fn answer_retell<'a>(
    alloc: Global,
    text: &SourceText<'_>,
    lines: &[u8],
    name: &str,
    drawings: Drawings<'a>,
    places: bool,
    told: &mut String,
) -> Result<Answer<'a>, NoAnswer<'a>>
    ensures done { IfOk result (HasRetold lines.now places drawings.entry.chart drawings.entry.timeline
        drawings.entry.page text.now.bytes.now) }
    ensures left { IfErr result
        (IsLeftBy (RefusesTextAs (version_by text.now.exits) text.now.bytes.now) (λ e. ⊥)
        (FailsRetelling text.now.bytes.now lines.now)) }
{
    let (checked, _lowered) = compile_checked_by(alloc, text.bytes, text.exits)?;
    retold(alloc, text, &checked, lines, name, drawings, places, told)
}

// The same of the text's program.
fn retold<'a>(
    alloc: Global,
    text: &SourceText<'_>,
    checked: &Checked<'_>,
    lines: &[u8],
    name: &str,
    drawings: Drawings<'a>,
    places: bool,
    told: &mut String,
) -> Result<Answer<'a>, NoAnswer<'a>>
    ensures told { IfOk result (RetellsRun checked.now lines.now places drawings.entry.chart
        drawings.entry.timeline drawings.entry.page) }
    ensures left { IfErr result (IsLeftBy (λ e. ⊥) (λ e. ⊥) (StopsRetelling checked.now lines.now)) }
{
    match follow_text(alloc, checked, lines) {
        Ok(run) => {
            tell_found(alloc, told, text, checked, Some(run.actions.as_slice()));
            retold_answer(alloc, text, checked, &run, name, drawings, places)
        }
        Err(fault) => Err(told_action(alloc, told, text, checked, lines, fault)),
    }
}

// Tells a run, and shows it in other files where they are named.
fn retold_answer<'a>(
    alloc: Global,
    text: &SourceText<'_>,
    checked: &Checked<'_>,
    run: &ToldRun,
    name: &str,
    drawings: Drawings<'a>,
    places: bool,
) -> Result<Answer<'a>, NoAnswer<'a>>
    ensures told { IfOk result (TellsActions checked.now.names places drawings.entry.chart
        drawings.entry.timeline drawings.entry.page (map action_of run.now.actions.items) run.now.end) }
    ensures failed { IfErr result HasNoMemory }
{
    let lines = run_lines(alloc, text, checked, run.actions.as_slice(), places)?;
    let files = drawn_run(alloc, drawings, text, checked, run, name)?;
    Ok(Answer::quiet(alloc, status_of_end(run.end), lines, files))
}

// How a run that ends so ended.
fn status_of_end(end: RunEnd) -> Status
    ensures { result ≡ status_of_end end }
{
    match end {
        RunEnd::Over => Status::Done,
        RunEnd::Stuck => Status::Stuck,
        RunEnd::Open => Status::Limit,
    }
}

// The lines of a run, with the places of its actions behind them where those are wanted.
fn run_lines(
    alloc: Global,
    text: &SourceText<'_>,
    checked: &Checked<'_>,
    actions: &[Action],
    places: bool,
) -> Result<Vec<u8>, AllocError>
    ensures { IfOk result (λ v. AreTold places
        (flat_map (line checked.now.names) (map action_of actions.now)) v.items) }
{
    let lines = action_lines(alloc, checked.names(), actions)?;
    if places {
        lines_beside(alloc, text, checked, actions, lines.as_slice())
    } else {
        Ok(lines)
    }
}

// These lines, with the places of actions behind them.
fn lines_beside(
    alloc: Global,
    text: &SourceText<'_>,
    checked: &Checked<'_>,
    actions: &[Action],
    lines: &[u8],
) -> Result<Vec<u8>, AllocError>
    ensures { IfOk result (λ v. AreTold true lines.now v.items) }
{
    let tails = asides_of(alloc, text.file, text.bytes, checked, actions)?;
    put_beside(alloc, "", lines, tails.as_slice())
}

// The files that show a run.
fn drawn_run<'a>(
    alloc: Global,
    drawings: Drawings<'a>,
    text: &SourceText<'_>,
    checked: &Checked<'_>,
    run: &ToldRun,
    name: &str,
) -> Result<OutFiles<'a>, AllocError>
    ensures { IfOk result (AreDrawn drawings.entry.chart drawings.entry.timeline drawings.entry.page) }
{
    let title = title_of_actions(alloc, text.file, name, run.end)?;
    let log = PackedLog::new(alloc);
    let shown = ShownRun {
        file: text.file,
        text: text.bytes,
        checked,
        actions: run.actions.as_slice(),
        log: &log,
        title: title.as_str(),
    };
    drawings.drawn(alloc, &shown)
}

// What comes of lines that tell no run. To an action that can't come next hints are appended, where they are wanted: what each
// process does before it.
fn told_action<'a>(
    alloc: Global,
    told: &mut String,
    text: &SourceText<'_>,
    checked: &Checked<'_>,
    lines: &[u8],
    fault: FollowFault,
) -> NoAnswer<'a>
    ensures { OfFollowing fault result }
{
    if let FollowFault::Action(number) = fault {
        if text.hints {
            append_told(told, action_hints(alloc, text, checked, lines, number));
        }
    }
    NoAnswer::from(fault)
}

// What each process does before the action of this number.
fn action_hints(
    alloc: Global,
    text: &SourceText<'_>,
    checked: &Checked<'_>,
    lines: &[u8],
    number: u64,
) -> Result<String, AllocError> {
    let Ok(actions) = read_actions(alloc, checked.names(), lines) else {
        return Ok(String::new(alloc));
    };
    let before = front_of(actions.as_slice(), number);
    end_hints(alloc, text.file, text.bytes, checked, before)
}

// The actions before the one of this number.
fn front_of(actions: &[Action], number: u64) -> &[Action] {
    let before = usize::try_from(number).unwrap_or(0).saturating_sub(1);
    if before < actions.len() {
        actions.split_at(before).0
    } else {
        actions
    }
}
