use crate::compiled::{compile_by, compile_checked_by};
use crate::hinting::SourceText;
use log_text::read_log;
use machine::{Entry, EventName};
use packed_log::{LogReader, PackedLog};
use program::Checked;
use run_hints::{Refused, entry_hints};
use runner::{Report, Turn, follow, follow_log};
use simulation::explain_log_lowered;
use source_states::Action;
use std::alloc::{AllocError, Global};

/// The program of a text, and the actions that the log of its image is; None where the text has no image, or the log
/// is none of it.
pub(crate) fn explained<'t>(
    alloc: Global,
    text: &SourceText<'t>,
    log: LogReader<'_>,
) -> Result<Option<(Checked<'t>, Vec<Action>)>, AllocError> {
    let Ok((checked, lowered)) = compile_checked_by(alloc, text.bytes, text.exits) else {
        return Ok(None);
    };
    match explain_log_lowered(alloc, &checked, lowered, log) {
        Ok(explained) => Ok(Some((checked, explained.actions))),
        Err(_) => Ok(None),
    }
}

// What a turn wanted.
fn wanted_by_turn(turn: Turn) -> Refused {
    match turn {
        Turn::Step(thread) => Refused::Step(thread),
        Turn::Stray(thread) => Refused::Stray(thread),
        Turn::Kill(thread) => Refused::Kill(thread),
    }
}

// What an entry wanted.
fn wanted_by_entry(entry: &Entry) -> Refused {
    match entry.event {
        Some(event) if event.name == EventName::Stray => Refused::Stray(entry.thread),
        Some(event) if event.name == EventName::Kill => Refused::Kill(entry.thread),
        _ => Refused::Step(entry.thread),
    }
}

// The hints to an entry that is refused behind the run of this report.
fn hints_behind(
    alloc: Global,
    text: &SourceText<'_>,
    report: &Report,
    refused: Refused,
) -> Result<String, AllocError> {
    match explained(alloc, text, report.log.iter())? {
        None => Ok(String::new(alloc)),
        Some((checked, actions)) => {
            let actions = actions.as_slice();
            entry_hints(alloc, text.file, text.bytes, &checked, actions, refused)
        }
    }
}

// The report of a run of a text's image by a schedule, where it has one.
fn followed(alloc: Global, text: &SourceText<'_>, turns: &[Turn]) -> Option<Report> {
    let Ok(image) = compile_by(alloc, text.bytes, text.exits) else {
        return None;
    };
    match follow(alloc, &image, turns) {
        Ok(report) => Some(report),
        Err(_) => None,
    }
}

/// The hints to the entry of a schedule that has this number, from 1, and is the first that is refused: why, in the
/// words of the source.
///
/// # Errors
///
/// Where memory runs out, and for nothing else.
pub(crate) fn schedule_entry_hints(
    alloc: Global,
    text: &SourceText<'_>,
    turns: &[Turn],
    number: u64,
) -> Result<String, AllocError> {
    let before = (number as usize).saturating_sub(1);
    let (Some(turn), Some(turns)) = (turns.get(before), turns.get(..before)) else {
        return Ok(String::new(alloc));
    };
    match followed(alloc, text, turns) {
        Some(report) => hints_behind(alloc, text, &report, wanted_by_turn(*turn)),
        None => Ok(String::new(alloc)),
    }
}

// The first entries of a log, so many.
fn first_of(alloc: Global, log: &PackedLog, count: usize) -> Result<PackedLog, AllocError> {
    let mut entries = PackedLog::new(alloc);
    for entry in log.iter().take(count) {
        entries.push(entry)?;
    }
    Ok(entries)
}

// The report of a run of a text's image by the threads and counts of a log, where it has one.
fn followed_log(alloc: Global, text: &SourceText<'_>, log: LogReader<'_>) -> Option<Report> {
    let Ok(image) = compile_by(alloc, text.bytes, text.exits) else {
        return None;
    };
    match follow_log(alloc, &image, log) {
        Ok(report) => Some(report),
        Err(_) => None,
    }
}

// The hints to the entry of a log behind so many.
fn hints_at(
    alloc: Global,
    text: &SourceText<'_>,
    log: &PackedLog,
    before: usize,
) -> Result<String, AllocError> {
    let Some(entry) = log.iter().nth(before) else {
        return Ok(String::new(alloc));
    };
    let first = first_of(alloc, log, before)?;
    match followed_log(alloc, text, first.iter()) {
        Some(report) => hints_behind(alloc, text, &report, wanted_by_entry(&entry)),
        None => Ok(String::new(alloc)),
    }
}

/// The hints to the entry of a log, whose lines are given, that has this number, from 1, and is the first that is
/// refused: why, in the words of the source.
///
/// # Errors
///
/// Where memory runs out, and for nothing else.
pub(crate) fn log_entry_hints(
    alloc: Global,
    text: &SourceText<'_>,
    lines: &[u8],
    number: u64,
) -> Result<String, AllocError> {
    let before = (number as usize).saturating_sub(1);
    match read_log(alloc, lines) {
        Ok(log) => hints_at(alloc, text, &log, before),
        Err(_) => Ok(String::new(alloc)),
    }
}
