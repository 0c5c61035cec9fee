ghost use Rattle.std.specs.Prelude.{◌≡◌, ◌++◌, IfOk, IfErr, OnOk, Some, length, string_bytes};
ghost use Rattle.schedules.specs.OfLog.{log_turns};
ghost use Rattle.answers.specs.Answers.{TellsAlone};
ghost use Rattle.answers.specs.Causes.{FailsLines};
ghost use Rattle.answers.specs.Failures.{HasNoMemory, IsLeftBy};
ghost use Rattle.answers.specs.ScheduleText.{schedule_text};
ghost use Rattle.answers.specs.Scheduling.{HasScheduled, steps_line};

use crate::answer::{Answer, OutFiles};
use crate::failure::NoAnswer;
use crate::log_limits::check_bytes;
use crate::searching::schedule_file;
use crate::source_log::entries_of;
use crate::status::Status;
use packed_log::LogReader;
use schedules::schedule_of_log;
use std::alloc::{AllocError, Global};
use std::fmt::Write as _;

/// Makes the schedule of the log whose lines these are, of at most so many steps, for the file of this name.
pub fn answer_schedule<'a>(
    alloc: Global,
    lines: &[u8],
    steps: u32,
    out: &'a str,
) -> Result<Answer<'a>, NoAnswer<'a>>
    ensures done { IfOk result (HasScheduled steps out.entry lines.now) }
    ensures left { IfErr result (IsLeftBy (λ e. ⊥) (λ e. ⊥) (FailsLines steps lines.now)) }
{
    check_bytes(lines, steps)?;
    let entries = entries_of(alloc, lines, steps)?;
    schedule_answer(alloc, entries.iter(), out)
}

// How many steps a log has, and its schedule for the file of this name.
fn schedule_answer<'a>(
    alloc: Global,
    entries: LogReader<'_>,
    out: &'a str,
) -> Result<Answer<'a>, NoAnswer<'a>>
    ensures told { IfOk result (TellsAlone (steps_line (length (log_turns entries.entry)))
        (Some (out.entry, schedule_text (log_turns entries.entry)))) }
    ensures failed { IfErr result HasNoMemory }
{
    let turns = schedule_of_log(alloc, entries)?;
    let steps = turns.as_slice();
    let line = line_of_steps(alloc, steps.len())?;
    let file = schedule_file(alloc, Some(out), steps)?;
    Ok(Answer::quiet(alloc, Status::Done, line.into_bytes(), OutFiles::only(file)))
}

// The line that tells of so many steps.
fn line_of_steps(alloc: Global, count: usize) -> Result<String, AllocError>
    ensures { IfOk result (λ line. string_bytes line ≡ steps_line count) }
{
    let mut line = String::new(alloc);
    append_steps_line(&mut line, count)?;
    Ok(line)
}

fn append_steps_line(text: &mut String, count: usize) -> Result<(), AllocError>
    ensures { OnOk result (string_bytes text.new ≡ string_bytes text.old ++ steps_line count) }
{
    writeln!(text, "ok {count} steps")
}
