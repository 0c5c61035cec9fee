ghost use Rattle.std.specs.Prelude.{◌≡◌, string_bytes};
ghost use Rattle.answers.specs.Failures.{OfReplay, OfSourceLog};
ghost use Rattle.answers.specs.Hinting.{TellsMore, help_to};

use crate::explained_run::ExplainedRun;
use crate::failure::{Failure, NoAnswer};
use crate::hinting::{SourceText, append_told, push_told};
use crate::replaying::ReplayFault;
use crate::run_ends::{explained_hints, report_hints};
use crate::run_entries::{log_entry_hints, schedule_entry_hints};
use crate::source_log::SourceLogFault;
use commandline::ExplainedBy;
use image_search::{Bound, Doubt, Ending, ImageExploration, Sleeping};
use program::Checked;
use run_hints::{Way, end_hints};
use runner::{Report, Turn};
use source_states::Action;
use std::alloc::{AllocError, Global};
use std::io::ErrorKind;

// What a line of a log has.
const LINE: &str =
    "  a line has a thread, its local steps, and TURN 0 or a step's name and value\n";

// What a line of actions has.
const ACTION_LINE: &str = "  a line has a process and its action, as explain shows it\n";

// What takes Linux's rule of exits.
const SECOND: &str = "  --exits linux takes an image of version 2\n";

// What takes a longer log.
const LONGER: &str = "  --steps N takes a log of at most N steps\n";

// The line of the system's reason, where it is known.
fn reason_line(alloc: Global, reason: Option<ErrorKind>) -> Result<String, AllocError> {
    let mut line = String::new(alloc);
    if let Some(reason) = reason {
        writeln!(line, "  {reason}")?;
    }
    Ok(line)
}

// What helps with a failure, where more is known than its line tells.
fn help_to(failure: Failure<'_>) -> &'static str
    ensures { result.now ≡ help_to failure.entry }
{
    match failure {
        Failure::LogLine(_) => LINE,
        Failure::ActionLine(_) => ACTION_LINE,
        Failure::LogSteps(_) | Failure::LogBytes(_) => LONGER,
        Failure::FirstVersion => SECOND,
        Failure::Read { .. }
        | Failure::Write { .. }
        | Failure::OtherImage(_)
        | Failure::Image(_)
        | Failure::Run(_)
        | Failure::Schedule(_)
        | Failure::Broken(_)
        | Failure::NoFailure
        | Failure::LogEntry(_)
        | Failure::Action(_)
        | Failure::Memory => "",
    }
}

/// Appends what helps where a job has no answer, and more is known than its line tells. Where there is no memory for it
/// nothing is appended; where the job failed for want of memory nothing is left.
pub fn tell_more(alloc: Global, told: &mut String, left: NoAnswer<'_>)
    ensures { TellsMore left.entry (string_bytes told.old) (string_bytes told.new) }
{
    let NoAnswer::Failed(failure) = left else {
        return;
    };
    match failure {
        Failure::Read { reason, .. } | Failure::Write { reason, .. } => {
            append_told(told, reason_line(alloc, reason))
        }
        Failure::Memory => told.clear(),
        other => push_told(told, help_to(other)),
    }
}

/// Appends which bound a search over an image met, where it met one, or why it isn't known whether a thread sleeps for good.
pub(crate) fn tell_bound(told: &mut String, found: &ImageExploration) {
    let words = match (&found.ending, &found.sleeping) {
        (Ending::Bounded(bound), _) => words_of(*bound),
        (_, Sleeping::Unknown(doubt)) => doubtful_words(*doubt),
        _ => "",
    };
    let _appended = told.push_str(words);
}

// What a doubt says.
fn doubtful_words(doubt: Doubt) -> &'static str {
    match doubt {
        Doubt::Wakes => {
            "  whether a thread sleeps for good isn't known: a requeue or an exit may wake another than it should\n"
        }
        Doubt::Choice => {
            "  a thread sleeps for good, but by another choice of sleepers than this machine's\n"
        }
        Doubt::Nexts(_) => {
            "  whether a thread sleeps for good isn't known: not all that comes next was found again\n"
        }
    }
}

// What a bound says.
fn words_of(bound: Bound) -> &'static str {
    match bound {
        Bound::States => "  as many states are kept as --states allows\n",
        Bound::Choice => "  what was found needs another choice of sleepers than this machine's\n",
        Bound::Nexts(image_states::Bound::Sleepers) => {
            "  more than twelve threads sleep on one word: not each choice of them is tried\n"
        }
        Bound::Nexts(_) => "  more local states and memories than have numbers\n",
    }
}

/// Appends the hints to the end of a run of a text, where they are wanted.
pub(crate) fn tell_run(
    alloc: Global,
    told: &mut String,
    text: &SourceText<'_>,
    report: &Report,
    way: Way<'_>,
) {
    if text.hints {
        append_told(told, report_hints(alloc, text, report, way));
    }
}

/// Appends the hints to the end of a run that was explained, where they are wanted.
pub(crate) fn tell_explained(
    alloc: Global,
    told: &mut String,
    text: &SourceText<'_>,
    run: &ExplainedRun<'_>,
    by: ExplainedBy<'_>,
) {
    if text.hints {
        append_told(told, explained_hints(alloc, text, run, way_by(by)));
    }
}

// How a run was made that was explained.
fn way_by(by: ExplainedBy<'_>) -> Way<'_> {
    match by {
        ExplainedBy::Order { .. } => Way::InOrder,
        ExplainedBy::Seed { seed, strays, .. } => Way::Seed(seed, strays),
        ExplainedBy::Schedule(schedule) => Way::Schedule(schedule),
        ExplainedBy::Log { log, .. } => Way::Log(log),
    }
}

/// Appends the hints to the end of a run that a search found, where one was and they are wanted.
pub(crate) fn tell_found(
    alloc: Global,
    told: &mut String,
    text: &SourceText<'_>,
    checked: &Checked,
    found: Option<&[Action]>,
) {
    if !text.hints {
        return;
    }
    if let Some(actions) = found {
        append_told(
            told,
            end_hints(alloc, text.file, text.bytes, checked, actions),
        );
    }
}

/// What comes of a run by a schedule that isn't made. To an entry that is refused hints are appended, where they are wanted.
pub fn told_turn<'a>(
    alloc: Global,
    told: &mut String,
    text: &SourceText<'_>,
    turns: &[Turn],
    fault: ReplayFault,
) -> NoAnswer<'a>
    ensures { OfReplay fault result }
{
    if let ReplayFault::BadEntry(number) = fault {
        if text.hints {
            append_told(told, schedule_entry_hints(alloc, text, turns, number));
        }
    }
    NoAnswer::from(fault)
}

/// What comes of a log that isn't followed. To an entry that is refused hints are appended, where they are wanted.
pub fn told_entry<'a>(
    alloc: Global,
    told: &mut String,
    text: &SourceText<'_>,
    lines: &[u8],
    fault: SourceLogFault,
) -> NoAnswer<'a>
    ensures { OfSourceLog fault result }
{
    if let SourceLogFault::Entry(number) = fault {
        if text.hints {
            append_told(told, log_entry_hints(alloc, text, lines, number));
        }
    }
    NoAnswer::from(fault)
}
