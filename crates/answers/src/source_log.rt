ghost use Rattle.std.specs.Prelude.{◌≡◌, ◌≤◌, IfOk, IfErr, MatchResult};
ghost use Rattle.runner.specs.Logs.{cost};
ghost use Rattle.program.specs.Names.{said_by};
ghost use Rattle.program.specs.Trees.{Program, as_version};
ghost use Rattle.backend.specs.Lowered.{IsLowered};
ghost use Rattle.backend.specs.Refusals.{CodeFits};
ghost use Rattle.log_text.specs.Spelled.{IsLogText};
ghost use Rattle.runner.specs.LogSchedules.{IsFollowedLog};
ghost use Rattle.compiler.specs.Accepts.{AcceptsText};
ghost use Rattle.commandline.specs.CommandLine.{version_by};
ghost use Rattle.simulation.specs.ExplainedLog.{ExplainsEntries};
ghost use Rattle.answers.specs.SourceLog.{FollowsNot, IsExplanationOfLog, IsOfLog, IsRefusedLog};
ghost use Rattle.answers.specs.SourceLog.{IsReplayOfLog, IsUnfollowedLog, IsWantOfMemory, LinesOfRun};
ghost use Rattle.answers.specs.LogLimits.{HasFewSteps};
ghost use Rattle.answers.specs.SourceLog.{ReadsNone, ReadsNot, StopsLog};
ghost use Rattle.answers.specs.declared.source_log.SourceLogFault.TheVariants.{Refused, Memory};

use crate::compiled::{compile_by, compile_checked_by};
use crate::explained_run::ExplainedRun;
use crate::log_limits::has_few_steps;
use backend::Lowered;
use commandline::Exits;
use compiler::text_laws;
use isa::Image;
use log_text::{ReadLogFault, log_text_laws, read_log};
use packed_log::{LogReader, PackedLog};
use program::Checked;
use runner::{FollowLogFault, Report, follow_log, report_of};
use scanner::Refusal;
use simulation::{ExplainedLog, LogFault, explain_log_lowered};
use std::alloc::{AllocError, Global};
use thiserror::Error;

/// Why a log of a source text's image isn't explained, or isn't run again.
#[derive(Clone, Copy, PartialEq, Eq, Debug, Error)]
pub enum SourceLogFault {
    /// The text has no image.
    #[error("{0}")]
    Refused(Refusal),
    /// The line of this number, from 1, is the first of the log's that is no entry's.
    #[error("log line {0}")]
    Line(u64),
    /// The entry of this number, from 1, is the log's first that is refused.
    #[error("log entry {0}")]
    Entry(u64),
    /// The log has more steps than these, which is the most that it may have.
    #[error("log of more than {0} steps")]
    Steps(u32),
    /// There is no memory for the log, or for its run.
    #[error("memory")]
    Memory,
}

impl From<Refusal> for SourceLogFault {
    ghost from_gives = { λ e f. f ≡ Refused e };

    fn from(refusal: Refusal) -> SourceLogFault {
        SourceLogFault::Refused(refusal)
    }
}

impl From<AllocError> for SourceLogFault {
    ghost from_gives = { λ _ f. f ≡ Memory };

    fn from(_error: AllocError) -> SourceLogFault {
        SourceLogFault::Memory
    }
}

/// The entries of which a text has the lines, where they have at most so many steps.
pub fn entries_of(alloc: Global, lines: &[u8], most: u32) -> Result<PackedLog, SourceLogFault>
    ensures { MatchResult result
        (λ entries. IsLogText lines.now entries.items × (cost entries.items ≤ most))
        (λ fault. ReadsNot lines.now most fault) }
{
    let entries = all_entries_of(alloc, lines)?;
    if !has_few_steps(entries.iter(), most) {
        return Err(SourceLogFault::Steps(most));
    }
    Ok(entries)
}

// The entries of which a text has the lines.
fn all_entries_of(alloc: Global, lines: &[u8]) -> Result<PackedLog, SourceLogFault>
    ensures { MatchResult result (λ entries. IsLogText lines.now entries.items)
        (λ fault. ReadsNone lines.now fault) }
{
    match read_log(alloc, lines) {
        Ok(entries) => Ok(entries),
        Err(ReadLogFault::Line(number)) => Err(SourceLogFault::Line(number)),
        Err(ReadLogFault::Memory) => Err(SourceLogFault::Memory),
    }
}

// Explains the log of a program's image.
fn explain_entries(
    alloc: Global,
    checked: &Checked,
    lowered: Lowered,
    entries: LogReader<'_>,
) -> Result<ExplainedLog, SourceLogFault>
    requires { IsLowered (as_version lowered.image.version (said_by checked.now)) lowered }
    ensures { MatchResult result
        (λ explained. ExplainsEntries (as_version lowered.image.version (said_by checked.now))
        lowered.image entries.entry explained)
        (λ fault. StopsLog lowered.image entries.entry fault) }
{
    match explain_log_lowered(alloc, checked, lowered, entries) {
        Ok(explained) => Ok(explained),
        Err(LogFault::Entry(number)) => Err(SourceLogFault::Entry(number)),
        Err(LogFault::Memory) => Err(SourceLogFault::Memory),
    }
}

/// Runs an image by the threads and counts of a log.
pub fn follow_entries(
    alloc: Global,
    image: &Image,
    entries: LogReader<'_>,
) -> Result<Report, SourceLogFault>
    ensures { MatchResult result (λ report. IsFollowedLog image.now entries.entry report)
        (λ fault. FollowsNot image.now entries.entry fault) }
{
    match follow_log(alloc, image, entries) {
        Ok(report) => Ok(report),
        Err(FollowLogFault::BadEntry(number)) => Err(SourceLogFault::Entry(number)),
        Err(FollowLogFault::Memory) => Err(SourceLogFault::Memory),
    }
}

// Compiles a source text, and explains a log of its image, whose lines are given.
fn explain_lines<'a>(
    alloc: Global,
    text: &'a [u8],
    exits: Exits,
    lines: &[u8],
    most: u32,
) -> Result<ExplainedRun<'a>, SourceLogFault>
    ensures explained { IfOk result
        (λ run. IsExplanationOfLog (version_by exits) text.now lines.now run) }
    ensures short { IfOk result (λ run. HasFewSteps lines.now most) }
    ensures fault { IfErr result
        (λ fault. IsRefusedLog (version_by exits) text.now lines.now most fault) }
    ensures only { (p : Program) → AcceptsText text.now p
        → CodeFits (as_version (version_by exits) p) → IfErr result (λ fault. IsOfLog fault) }
{
    let (checked, lowered) = compile_checked_by(alloc, text, exits)?;
    let entries = entries_of(alloc, lines, most)?;
    let explained = explain_entries(alloc, &checked, lowered, entries.iter())?;
    let report = report_of(alloc, entries, explained.last)?;
    Ok(ExplainedRun {
        checked,
        report,
        actions: explained.actions,
    })
}

/// Compiles a source text for this rule of exits, and explains a log of its image, whose lines are given: whoever wrote
/// them, they are tested and not trusted. The actions are the explanation of the run of the machine that the log is,
/// and the report is that of the state that the log leads to; its verdict is Limit where some thread can still move.
/// Each log of a run of the image of at most so many steps is explained, memory aside.
///
/// # Errors
///
/// A text that `compile` refuses has the same refusal. Then comes the first line that is no entry's; then `Steps`, where
/// there are more steps than `most`; then the first entry with which the log is none of the text's image: it isn't legal.
/// `Memory` may come at any point.
pub fn explain_log_text<'a>(
    alloc: Global,
    text: &'a [u8],
    exits: Exits,
    lines: &[u8],
    most: u32,
) -> Result<ExplainedRun<'a>, SourceLogFault>
    ensures explained { IfOk result
        (λ run. IsExplanationOfLog (version_by exits) text.now lines.now run) }
    ensures short { IfOk result (λ run. HasFewSteps lines.now most) }
    ensures fault { IfErr result
        (λ fault. IsRefusedLog (version_by exits) text.now lines.now most fault) }
    ensures only { (p : Program) → AcceptsText text.now p
        → CodeFits (as_version (version_by exits) p) → IfErr result (λ fault. IsOfLog fault) }
    ensures legal { LinesOfRun (version_by exits) text.now lines.now most
        → IfErr result (λ fault. IsWantOfMemory fault) }
{
    text_laws();
    log_text_laws();
    explain_lines(alloc, text, exits, lines, most)
}

/// Compiles a source text for this rule of exits, and runs its image by the threads and counts of a log whose lines are
/// given, as `runner::follow_log` does: a run on real threads, again on one. The events of the log aren't compared.
///
/// Some run of the text's program explains the report. The verdict is Limit where some thread can still move.
///
/// # Errors
///
/// A text that `compile` refuses has the same refusal. Then comes the first line that is no entry's; then `Steps`, where
/// there are more steps than `most`; then the first entry that can't be followed. `Memory` may come at any point.
pub fn replay_log_text(
    alloc: Global,
    text: &[u8],
    exits: Exits,
    lines: &[u8],
    most: u32,
) -> Result<Report, SourceLogFault>
    ensures report { IfOk result
        (λ report. IsReplayOfLog (version_by exits) text.now lines.now report) }
    ensures short { IfOk result (λ report. HasFewSteps lines.now most) }
    ensures fault { IfErr result
        (λ fault. IsUnfollowedLog (version_by exits) text.now lines.now most fault) }
    ensures only { (p : Program) → AcceptsText text.now p
        → CodeFits (as_version (version_by exits) p) → IfErr result (λ fault. IsOfLog fault) }
{
    let image = compile_by(alloc, text, exits)?;
    let entries = entries_of(alloc, lines, most)?;
    follow_entries(alloc, &image, entries.iter())
}
