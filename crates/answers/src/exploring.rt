ghost use Rattle.std.specs.Prelude.{◌≡◌, ◌++◌, ◌⊎◌, IfOk, IfErr, MatchResult, OnOk, is_some, option_map, string_bytes, true};
ghost use Rattle.scanner.specs.Refusals.{out_of_memory};
ghost use Rattle.program.specs.Names.{naming_of, said_by};
ghost use Rattle.compiler.specs.Accepts.{RefusesTextAs};
ghost use Rattle.commandline.specs.CommandLine.{version_by};
ghost use Rattle.answers.specs.Answers.{AreTold, put_of};
ghost use Rattle.answers.specs.Exploring.{blocked_line, blocked_lines, end_lines, ending_lines, explored_lines};
ghost use Rattle.answers.specs.Exploring.{explored_status, is_blocked, is_failed, is_found, is_lost};
ghost use Rattle.answers.specs.Exploring.{none_aborts, process_word, states_line};
ghost use Rattle.answers.specs.Exploring.{AreDrawnIf, HasExplored, IsExploredText, IsFoundOf, TellsFound};
ghost use Rattle.answers.specs.Exploring.{blocked_run, ending_run, run_put, shown_run};
ghost use Rattle.std.specs.List.{flat_map};
ghost use Rattle.answers.specs.Failures.{IsRefusalOrMemory};

use crate::answer::{Answer, OutFile, OutFiles};
use crate::compiled::compile_checked_by;
use crate::drawing::{Drawings, ShownRun};
use crate::failure::NoAnswer;
use crate::found_schedule::schedule_of_found;
use crate::growing::{counted_places, tell_growth};
use crate::hinting::SourceText;
use crate::status::Status;
use crate::telling::tell_found;
use crate::titles::title_of_found;
use action_text::run_text;
use actionlines::action_lines;
use commandline::Exits;
use compiler::text_laws;
use image_ends::image_laws;
use line_tails::put_beside;
use packed_log::PackedLog;
use program::{Checked, Names};
use run_hints::asides_of;
use scanner::Refusal;
use source_offers::Place;
use source_search::{Asked, Blocked, Ending, Exploration, Outside, Progress, explore};
use source_states::Action;
use std::alloc::{AllocError, Global};
use std::fmt::Write as _;

/// A source text's program, and what a search over all its runs found.
#[derive(Drop)]
pub struct ExploredText<'a> {
    /// The text's program.
    pub checked: Checked<'a>,
    /// What was found.
    pub exploration: Exploration,
}

/// Which runs of a source text are searched, and what is told of them.
#[derive(Clone, Copy)]
pub struct Searched {
    /// The most states that are kept.
    pub states: u32,
    /// What comes from outside in a run, at most.
    pub outside: Outside,
    /// What is told besides what always is.
    pub asked: Asked,
}

/// The files that have the run that was found, where they are wanted.
#[derive(Clone, Copy)]
pub struct FoundFiles<'a> {
    /// The name of that of a schedule by which the text's image goes there.
    pub schedule: Option<&'a str>,
    /// The name of that of its actions.
    pub actions: Option<&'a str>,
}

/// Searches all runs of the program of a source text, keeping at most so many states: for one that gets stuck, for one in
/// which a process aborts, and where nothing comes from outside for one at whose end a process is blocked for good; and
/// there, where it is asked for, for one that can't end any more.
/// With strays, processes that wait on a condition are also woken by nobody; with kills, so many processes at most are
/// killed, wherever they stand, and who was killed doesn't count as one that aborts.
///
/// The search is complete unless it met a bound, which `Exploration::bound` names: as many states are kept as may be,
/// or one of the others. Where it was complete and found none, there is none, and so no schedule of the text's image
/// hangs, or has a thread that aborts: with strays whatever wakes come from outside, else as long as none do; and as
/// long as no more threads are killed. That is so where futex calls are whole, and where they are taken in pieces, by
/// this rule of exits.
///
/// Where `grown` says so and the search ends early, what grew is counted. How far the search has come is told as it goes.
///
/// # Errors
///
/// A text that `compile` refuses has the same refusal. Else there is no fault but want of memory.
pub fn explore_source<'a, P: Progress>(
    alloc: Global,
    text: &'a [u8],
    exits: Exits,
    most_states: usize,
    outside: Outside,
    asked: Asked,
    grown: bool,
    progress: &mut P,
) -> Result<ExploredText<'a>, Refusal>
    ensures { MatchResult result
        (λ explored. IsExploredText (version_by exits) text.now outside asked most_states explored)
        (λ e. (e ≡ out_of_memory) ⊎ RefusesTextAs (version_by exits) text.now e) }
{
    text_laws();
    image_laws();
    let (checked, _lowered) = compile_checked_by(alloc, text, exits)?;
    let exploration = explore_checked(
        alloc,
        &checked,
        most_states,
        outside,
        asked,
        grown,
        progress,
    )?;
    Ok(ExploredText {
        checked,
        exploration,
    })
}

// The variables of which it is counted how many values each took, where that is wanted and there is memory for them.
fn places_if(alloc: Global, checked: &Checked, grown: bool) -> Option<Vec<Place>> {
    if !grown {
        return None;
    }
    counted_places(alloc, checked).ok()
}

// The same places, lent.
fn lent(places: &Option<Vec<Place>>) -> Option<&[Place]> {
    match places {
        Some(places) => Some(places.as_slice()),
        None => None,
    }
}

// What is found of a checked program.
fn explore_checked<P: Progress>(
    alloc: Global,
    checked: &Checked,
    most_states: usize,
    outside: Outside,
    asked: Asked,
    grown: bool,
    progress: &mut P,
) -> Result<Exploration, AllocError>
    ensures { IfOk result (IsFoundOf (said_by checked.now) outside asked most_states) }
{
    let places = places_if(alloc, checked, grown);
    explore(
        alloc,
        checked,
        most_states,
        outside,
        asked,
        lent(&places),
        progress,
    )
}

/// Searches all runs of a source text, with as much from outside as may be, tells what is found and what is asked for,
/// and shows it in other files where they are named and anything was found. A schedule by which the text's image fails as
/// that run does is for the file of `written.schedule`; where none is known, standard error is told. The run's actions are for
/// that of `written.actions`. How far the search has come is told as it goes. Where hints are wanted and the search wasn't complete, standard error is told which bound it met, and what
/// grew.
pub fn answer_explore<'a, P: Progress>(
    alloc: Global,
    text: &SourceText<'_>,
    searched: Searched,
    drawings: Drawings<'a>,
    written: FoundFiles<'a>,
    places: bool,
    told: &mut String,
    progress: &mut P,
) -> Result<Answer<'a>, NoAnswer<'a>>
    ensures done { IfOk result (HasExplored (version_by text.now.exits) searched.outside searched.asked
        searched.states places drawings.entry.chart drawings.entry.timeline drawings.entry.page
        written.entry.schedule written.entry.actions text.now.bytes.now) }
    ensures refused { IfErr result
        (IsRefusalOrMemory (RefusesTextAs (version_by text.now.exits) text.now.bytes.now)) }
{
    let explored = explore_source(
        alloc,
        text.bytes,
        text.exits,
        searched.states as usize,
        searched.outside,
        searched.asked,
        text.hints,
        progress,
    )?;
    let found = shown(&explored.exploration);
    tell_found(alloc, told, text, &explored.checked, found);
    tell_growth(alloc, told, text, &explored);
    found_answer(
        alloc,
        text,
        &explored,
        searched.outside,
        drawings,
        written,
        places,
    )
}

// Tells what was found, and shows it in other files where they are named.
fn found_answer<'a>(
    alloc: Global,
    text: &SourceText<'_>,
    explored: &ExploredText<'_>,
    outside: Outside,
    drawings: Drawings<'a>,
    written: FoundFiles<'a>,
    places: bool,
) -> Result<Answer<'a>, NoAnswer<'a>>
    ensures told { IfOk result (TellsFound (version_by text.now.exits) outside places
        drawings.entry.chart drawings.entry.timeline drawings.entry.page written.entry.schedule
        written.entry.actions text.now.bytes.now explored.now) }
    ensures refused { IfErr result
        (IsRefusalOrMemory (RefusesTextAs (version_by text.now.exits) text.now.bytes.now)) }
{
    let found = shown(&explored.exploration).is_some();
    let scheduled = schedule_of_found(alloc, text, &explored.exploration, found, written.schedule)?;
    let actions = actions_file(alloc, explored, written.actions)?;
    let lines = told_lines(alloc, text, explored, outside, places)?;
    let files = drawn_found(alloc, drawings, text, explored)?;
    let account = Vec::from_slice(alloc, scheduled.account.as_bytes())?;
    Ok(Answer {
        status: status_of_found(&explored.exploration),
        output: lines,
        account,
        files: OutFiles {
            out: files.out,
            timeline: files.timeline,
            page: files.page,
            schedule: scheduled.file,
            actions,
        },
    })
}

// The file of the actions of the run that was found, where both are there.
fn actions_file<'a>(
    alloc: Global,
    explored: &ExploredText<'_>,
    out: Option<&'a str>,
) -> Result<Option<OutFile<'a>>, AllocError>
    ensures { IfOk result (λ file. put_of file
        ≡ run_put explored.now.checked.names out.entry (shown_run explored.now.exploration)) }
{
    match (out, shown(&explored.exploration)) {
        (Some(name), Some(actions)) => {
            let bytes = run_text(alloc, explored.checked.names(), actions)?;
            Ok(Some(OutFile { name, bytes }))
        }
        (None, _) => Ok(None),
        (Some(_), None) => Ok(None),
    }
}

// What is told, with the places of the actions behind them where those are wanted.
fn told_lines(
    alloc: Global,
    text: &SourceText<'_>,
    explored: &ExploredText<'_>,
    outside: Outside,
    places: bool,
) -> Result<Vec<u8>, AllocError>
    ensures { IfOk result (λ v. AreTold places (explored_lines outside explored.now) v.items) }
{
    let lines = lines_of(alloc, explored, outside)?;
    if places {
        lines_beside(alloc, text, explored, lines.as_slice())
    } else {
        Ok(lines)
    }
}

// These lines, with the places of the actions of the runs that were found behind them.
fn lines_beside(
    alloc: Global,
    text: &SourceText<'_>,
    explored: &ExploredText<'_>,
    lines: &[u8],
) -> Result<Vec<u8>, AllocError>
    ensures { IfOk result (λ v. AreTold true lines.now v.items) }
{
    let tails = tails_of(alloc, text, explored)?;
    put_beside(alloc, "", lines, tails.as_slice())
}

// What stands behind each line of those that are told.
fn tails_of(
    alloc: Global,
    text: &SourceText<'_>,
    explored: &ExploredText<'_>,
) -> Result<Vec<String>, AllocError> {
    let found = &explored.exploration;
    let checked = &explored.checked;
    let complete = found.complete;
    let is_never = matches!(found.blocked, Blocked::Never);
    let can_end = matches!(found.ending, Ending::Never);
    let stuck = actions_of(&found.stuck);
    let blocked = blocked_run(&found.blocked);
    let aborted = actions_of(&found.aborted);
    let lost = ending_run(&found.ending);
    let mut tails = Vec::new(alloc);
    tails.push(String::new(alloc))?;
    add_tails(alloc, text, checked, stuck, complete, &mut tails)?;
    add_tails(alloc, text, checked, blocked, is_never, &mut tails)?;
    add_tails(alloc, text, checked, aborted, complete, &mut tails)?;
    add_tails(alloc, text, checked, lost, can_end, &mut tails)?;
    Ok(tails)
}

// The actions of a run, where one was found.
fn actions_of(found: &Option<Vec<Action>>) -> Option<&[Action]> {
    match found {
        Some(actions) => Some(actions.as_slice()),
        None => None,
    }
}

// Adds what stands behind the line of one kind of end, and behind each action of its run, where one was found; where none was
// and that is told, behind that line.
fn add_tails(
    alloc: Global,
    text: &SourceText<'_>,
    checked: &Checked,
    found: Option<&[Action]>,
    none_is_told: bool,
    tails: &mut Vec<String>,
) -> Result<(), AllocError> {
    if none_is_told || found.is_some() {
        tails.push(String::new(alloc))?;
    }
    let Some(actions) = found else {
        return Ok(());
    };
    for aside in asides_of(alloc, text.file, text.bytes, checked, actions)? {
        tails.push(aside)?;
    }
    Ok(())
}

// The files that show the run that was found.
fn drawn_found<'a>(
    alloc: Global,
    drawings: Drawings<'a>,
    text: &SourceText<'_>,
    explored: &ExploredText<'_>,
) -> Result<OutFiles<'a>, AllocError>
    ensures { IfOk result (AreDrawnIf (is_found explored.now.exploration) drawings.entry.chart
        drawings.entry.timeline drawings.entry.page) }
{
    let Some(actions) = shown(&explored.exploration) else {
        return Ok(OutFiles::only(None));
    };
    let title = title_of_found(alloc, text.file, end_of_found(&explored.exploration))?;
    let log = PackedLog::new(alloc);
    let run = ShownRun {
        file: text.file,
        text: text.bytes,
        checked: &explored.checked,
        actions,
        log: &log,
        title: title.as_str(),
    };
    drawings.drawn(alloc, &run)
}

// The run that was found: of several the stuck one, or else the one at whose end some are blocked for good; that which
// can't end any more only where it is the one.
fn shown(found: &Exploration) -> Option<&[Action]>
    ensures is { is_some result ≡ is_found found.now }
    ensures run { option_map (λ r. r.now) result ≡ shown_run found.now }
{
    match (&found.stuck, blocked_run(&found.blocked), &found.aborted) {
        (Some(actions), _, _) => Some(actions.as_slice()),
        (None, Some(actions), _) => Some(actions),
        (None, None, Some(actions)) => Some(actions.as_slice()),
        (None, None, None) => ending_run(&found.ending),
    }
}

// How that run ends.
fn end_of_found(found: &Exploration) -> &'static str {
    if found.stuck.is_some() {
        "stuck"
    } else if blocked_run(&found.blocked).is_some() {
        "blocked for good"
    } else if found.aborted.is_some() {
        "a process aborts"
    } else {
        "can't end"
    }
}

// The run at whose end some are blocked for good, where one was found.
fn blocked_run(blocked: &Blocked) -> Option<&[Action]>
    ensures is { is_some result ≡ is_blocked blocked.now }
    ensures run { option_map (λ r. r.now) result ≡ blocked_run blocked.now }
{
    match blocked {
        Blocked::Found { run, .. } => Some(run.as_slice()),
        Blocked::Never | Blocked::NotLookedFor | Blocked::NotTold => None,
    }
}

// The run that can't end any more, where one was found.
fn ending_run(ending: &Ending) -> Option<&[Action]>
    ensures is { is_some result ≡ is_lost ending.now }
    ensures run { option_map (λ r. r.now) result ≡ ending_run ending.now }
{
    match ending {
        Ending::Found(run) => Some(run.as_slice()),
        Ending::Never | Ending::NotAsked | Ending::NotLookedFor | Ending::NotTold => None,
    }
}

// Whether a run was found that fails otherwise than by getting stuck.
fn is_failed(found: &Exploration) -> bool
    ensures { result ≡ is_failed found.now }
{
    blocked_run(&found.blocked).is_some()
        || found.aborted.is_some()
        || ending_run(&found.ending).is_some()
}

// How a search ended.
fn status_of_found(found: &Exploration) -> Status
    ensures { result ≡ explored_status found.now }
{
    if found.stuck.is_some() {
        Status::Stuck
    } else if is_failed(found) {
        Status::Found
    } else if found.complete {
        Status::Done
    } else {
        Status::Limit
    }
}

// What is told of a search.
fn lines_of(
    alloc: Global,
    explored: &ExploredText<'_>,
    outside: Outside,
) -> Result<Vec<u8>, AllocError>
    ensures { IfOk result (λ v. v.items ≡ explored_lines outside explored.now) }
{
    let names = explored.checked.names();
    let found = &explored.exploration;
    let complete = found.complete;
    let mut lines = first_line(alloc, found.states, complete)?;
    append_end(
        alloc,
        &mut lines,
        names,
        "stuck\n",
        "no run is stuck\n",
        complete,
        &found.stuck,
    )?;
    append_blocked(alloc, &mut lines, names, &found.blocked)?;
    append_end(
        alloc,
        &mut lines,
        names,
        "aborted\n",
        none_aborts(outside),
        complete,
        &found.aborted,
    )?;
    append_ending(alloc, &mut lines, names, &found.ending)?;
    Ok(lines)
}

// What is told where no process was found to abort.
fn none_aborts(outside: Outside) -> &'static str
    ensures { result.now ≡ none_aborts outside }
{
    if outside.kills > 0 {
        "no process aborts but by a kill\n"
    } else {
        "no process aborts\n"
    }
}

fn first_line(alloc: Global, states: usize, complete: bool) -> Result<Vec<u8>, AllocError>
    ensures { IfOk result (λ v. v.items ≡ states_line states complete) }
{
    let mut line = String::new(alloc);
    append_states(&mut line, states, complete)?;
    Ok(line.into_bytes())
}

/// Appends the line of how many states were kept.
pub(crate) fn append_states(
    text: &mut String,
    states: usize,
    complete: bool,
) -> Result<(), AllocError>
    ensures { OnOk result (string_bytes text.new
        ≡ string_bytes text.old ++ states_line states complete) }
{
    write!(text, "{states} states")?;
    if complete {
        writeln!(text)
    } else {
        writeln!(text, ", not all")
    }
}

// Appends what is told of one kind of end.
fn append_end(
    alloc: Global,
    lines: &mut Vec<u8>,
    names: &Names,
    word: &str,
    none: &str,
    complete: bool,
    found: &Option<Vec<Action>>,
) -> Result<(), AllocError>
    ensures { OnOk result (lines.new.items
        ≡ lines.old.items ++ end_lines (naming_of names.now) word.now none.now complete found.now) }
{
    match found {
        Some(actions) => {
            lines.extend_from_slice(word.as_bytes())?;
            let told = action_lines(alloc, names, actions.as_slice())?;
            lines.extend_from_slice(told.as_slice())
        }
        None if complete => lines.extend_from_slice(none.as_bytes()),
        None => Ok(()),
    }
}

// Appends what is told of processes that are blocked for good.
fn append_blocked(
    alloc: Global,
    lines: &mut Vec<u8>,
    names: &Names,
    blocked: &Blocked,
) -> Result<(), AllocError>
    ensures { OnOk result (lines.new.items
        ≡ lines.old.items ++ blocked_lines (naming_of names.now) blocked.now) }
{
    match blocked {
        Blocked::Found { processes, run } => {
            lines.extend_from_slice(line_of_blocked(alloc, processes.as_slice())?.as_slice())?;
            let told = action_lines(alloc, names, run.as_slice())?;
            lines.extend_from_slice(told.as_slice())
        }
        Blocked::Never => lines.extend_from_slice("no process is blocked for good\n".as_bytes()),
        Blocked::NotLookedFor => Ok(()),
        Blocked::NotTold => Ok(()),
    }
}

// Appends what is told of runs that can't end any more.
fn append_ending(
    alloc: Global,
    lines: &mut Vec<u8>,
    names: &Names,
    ending: &Ending,
) -> Result<(), AllocError>
    ensures { OnOk result (lines.new.items
        ≡ lines.old.items ++ ending_lines (naming_of names.now) ending.now) }
{
    match ending {
        Ending::Found(run) => {
            lines.extend_from_slice("can't end\n".as_bytes())?;
            let told = action_lines(alloc, names, run.as_slice())?;
            lines.extend_from_slice(told.as_slice())
        }
        Ending::Never => lines.extend_from_slice("every run can end\n".as_bytes()),
        Ending::NotAsked => Ok(()),
        Ending::NotLookedFor => Ok(()),
        Ending::NotTold => Ok(()),
    }
}

// The line of processes that are blocked for good.
fn line_of_blocked(alloc: Global, processes: &[u64]) -> Result<Vec<u8>, AllocError>
    ensures { IfOk result (λ v. v.items ≡ blocked_line processes.now) }
{
    let mut line = String::new(alloc);
    line.push_str("blocked for good:")?;
    append_processes(&mut line, processes)?;
    line.push_str("\n")?;
    Ok(line.into_bytes())
}

// Appends the numbers of processes.
fn append_processes(line: &mut String, processes: &[u64]) -> Result<(), AllocError>
    ensures { OnOk result (string_bytes line.new
        ≡ string_bytes line.old ++ flat_map process_word processes.now) }
{
    for process in processes {
        write!(line, " {process}")?;
    }
    Ok(())
}
