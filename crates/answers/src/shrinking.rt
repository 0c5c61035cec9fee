ghost use Rattle.std.specs.Prelude.{◌≡◌, ◌++◌, IfOk, IfErr, OnOk, Some, string_bytes};
ghost use Rattle.compiler.specs.Accepts.{RefusesTextAs};
ghost use Rattle.commandline.specs.CommandLine.{version_by};
ghost use Rattle.answers.specs.Answers.{TellsAlone};
ghost use Rattle.answers.specs.Causes.{FailsShrinking};
ghost use Rattle.answers.specs.Failures.{HasNoMemory, IsLeftBy, OfSchedule, OfShrink};
ghost use Rattle.answers.specs.ScheduleText.{schedule_text};
ghost use Rattle.answers.specs.Shrinking.{HasShrunk, failure_line, minimal_line, shrunk_lines, sizes_line};

use crate::answer::{Answer, OutFiles};
use crate::compiled::compile_by;
use crate::failure::NoAnswer;
use crate::hinting::SourceText;
use crate::replaying::ReplayFault;
use crate::schedule::schedule_of;
use crate::searching::schedule_file;
use crate::status::Status;
use crate::telling::told_turn;
use runner::{ScheduleFault, Turn};
use schedules::{RunFailure, ShrinkFault, ShrunkSchedule, shrink, switches};
use std::alloc::{AllocError, Global};
use std::fmt::Write as _;

/// Makes a schedule short by which the run of a source text fails, of which `second` has the bytes, for the file of this
/// name.
pub fn answer_shrink<'a>(
    alloc: Global,
    text: &SourceText<'_>,
    second: &[u8],
    out: &'a str,
    told: &mut String,
) -> Result<Answer<'a>, NoAnswer<'a>>
    ensures done { IfOk result (HasShrunk (version_by text.now.exits) out.entry
        text.now.bytes.now second.now) }
    ensures left { IfErr result
        (IsLeftBy (RefusesTextAs (version_by text.now.exits) text.now.bytes.now) (λ e. ⊥)
        (FailsShrinking (version_by text.now.exits) text.now.bytes.now second.now)) }
{
    let turns = schedule_of(alloc, second)?;
    let image = compile_by(alloc, text.bytes, text.exits)?;
    let given = turns.as_slice();
    match shrink(alloc, &image, given) {
        Ok(shrunk) => shrunk_answer(alloc, given, &shrunk, out),
        Err(fault) => Err(told_fault(alloc, told, text, given, fault)),
    }
}

// What comes of a schedule that isn't made shorter. To an entry that is refused hints are appended, where they are wanted.
fn told_fault<'a>(
    alloc: Global,
    told: &mut String,
    text: &SourceText<'_>,
    given: &[Turn],
    fault: ShrinkFault,
) -> NoAnswer<'a>
    ensures { OfShrink fault result }
{
    match fault {
        ShrinkFault::Schedule(fault) => told_entry(alloc, told, text, given, fault),
        other => NoAnswer::from(other),
    }
}

// What comes of one that isn't followed.
fn told_entry<'a>(
    alloc: Global,
    told: &mut String,
    text: &SourceText<'_>,
    given: &[Turn],
    fault: ScheduleFault,
) -> NoAnswer<'a>
    ensures { OfSchedule fault result }
{
    match fault {
        ScheduleFault::BadEntry(number) => {
            told_turn(alloc, told, text, given, ReplayFault::BadEntry(number))
        }
        other => NoAnswer::from(other),
    }
}

// What is told of a schedule that was made short, and that one for the file of this name.
fn shrunk_answer<'a>(
    alloc: Global,
    given: &[Turn],
    shrunk: &ShrunkSchedule,
    out: &'a str,
) -> Result<Answer<'a>, NoAnswer<'a>>
    ensures told { IfOk result (TellsAlone (shrunk_lines given.now shrunk.now)
        (Some (out.entry, schedule_text shrunk.now.turns.items))) }
    ensures failed { IfErr result HasNoMemory }
{
    let turns = shrunk.turns.as_slice();
    let lines = lines_of(alloc, shrunk, given, turns)?;
    let file = schedule_file(alloc, Some(out), turns)?;
    Ok(Answer::quiet(
        alloc,
        Status::Done,
        lines.into_bytes(),
        OutFiles::only(file),
    ))
}

// The lines that tell what a run fails by, how much shorter its schedule is, and whether that is minimal.
fn lines_of(
    alloc: Global,
    shrunk: &ShrunkSchedule,
    given: &[Turn],
    turns: &[Turn],
) -> Result<String, AllocError>
    ensures { IfOk result (λ lines. string_bytes lines
        ≡ (failure_line shrunk.now.failure ++ sizes_line given.now turns.now)
        ++ minimal_line shrunk.now.minimal) }
{
    let mut lines = String::new(alloc);
    append_failure(&mut lines, shrunk.failure)?;
    append_sizes(&mut lines, given, turns)?;
    lines.push_str(minimal_line(shrunk.minimal))?;
    Ok(lines)
}

// The line of a schedule of which no turn can be left out.
fn minimal_line(minimal: bool) -> &'static str
    ensures { result.now ≡ minimal_line minimal }
{
    if minimal {
        "no entry can be left out\n"
    } else {
        ""
    }
}

fn append_failure(text: &mut String, failure: RunFailure) -> Result<(), AllocError>
    ensures { OnOk result (string_bytes text.new ≡ string_bytes text.old ++ failure_line failure) }
{
    match failure {
        RunFailure::Stuck => writeln!(text, "stuck"),
        RunFailure::Aborted { thread, fault } => {
            let number = fault.number();
            writeln!(text, "process {thread} aborted: fault {number}")
        }
    }
}

fn append_sizes(text: &mut String, given: &[Turn], turns: &[Turn]) -> Result<(), AllocError>
    ensures { OnOk result (string_bytes text.new
        ≡ string_bytes text.old ++ sizes_line given.now turns.now) }
{
    let before = given.len();
    let now = turns.len();
    let parts = switches(given);
    let left = switches(turns);
    writeln!(
        text,
        "entries {before} to {now}, switches {parts} to {left}"
    )
}
