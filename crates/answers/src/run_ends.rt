use crate::explained_run::ExplainedRun;
use crate::hinting::SourceText;
use crate::run_entries::explained;
use commandline::Exits;
use machine::Machine;
use packed_log::LogReader;
use program::Checked;
use run_hints::{Way, append_drawing, append_limit, append_way, end_hints};
use runner::{Report, Verdict};
use source_states::Action;
use std::alloc::{AllocError, Global};
use words::Outcome;

// Whether a thread has aborted.
fn has_aborted(machine: &Machine) -> bool {
    for before in 0..machine.threads() {
        if let Outcome::Aborted(_) = machine.outcome(before + 1) {
            return true;
        }
    }
    false
}

// Whether anything is to be told of a run.
fn is_told(report: &Report) -> bool {
    report.verdict != Verdict::Done || has_aborted(report.last.machine())
}

// How many steps a log has.
fn steps_of(log: LogReader<'_>) -> u64 {
    let mut steps: u64 = 0;
    for entry in log {
        let shared = u64::from(entry.event.is_some());
        steps = steps
            .saturating_add(u64::from(entry.local))
            .saturating_add(shared);
    }
    steps
}

// The hints to the end of a run, whose actions are known, without how to look on.
fn known_hints(
    alloc: Global,
    text: &SourceText<'_>,
    checked: &Checked,
    report: &Report,
    actions: &[Action],
    way: Way<'_>,
) -> Result<String, AllocError> {
    let mut told = end_hints(alloc, text.file, text.bytes, checked, actions)?;
    if report.verdict == Verdict::Limit {
        append_limit(&mut told, way, steps_of(report.log.iter()))?;
    }
    Ok(told)
}

// How a command names a text beside its file.
fn named(alloc: Global, text: &SourceText<'_>) -> Result<String, AllocError> {
    let mut named = String::new(alloc);
    if let Exits::Linux = text.exits {
        named.push_str("--linux ")?;
    }
    named.push_str(text.file)?;
    Ok(named)
}

/// The hints to the end of a run that was explained: nothing where all processes ended by their returns.
///
/// # Errors
///
/// Where memory runs out, and for nothing else.
pub(crate) fn explained_hints(
    alloc: Global,
    text: &SourceText<'_>,
    run: &ExplainedRun<'_>,
    way: Way<'_>,
) -> Result<String, AllocError> {
    if !is_told(&run.report) {
        return Ok(String::new(alloc));
    }
    let actions = run.actions.as_slice();
    let mut told = known_hints(alloc, text, &run.checked, &run.report, actions, way)?;
    append_drawing(&mut told)?;
    Ok(told)
}

/// The hints to the end of a run of a text's image, whose report this is: its log is explained, and what each process
/// that is not over or that aborted does is told; nothing where all ended by their returns.
///
/// # Errors
///
/// Where memory runs out, and for nothing else.
pub(crate) fn report_hints(
    alloc: Global,
    text: &SourceText<'_>,
    report: &Report,
    way: Way<'_>,
) -> Result<String, AllocError> {
    if !is_told(report) {
        return Ok(String::new(alloc));
    }
    match explained(alloc, text, report.log.iter())? {
        None => Ok(String::new(alloc)),
        Some((checked, actions)) => {
            let mut told = known_hints(alloc, text, &checked, report, actions.as_slice(), way)?;
            let named = named(alloc, text)?;
            append_way(&mut told, named.as_str(), way)?;
            Ok(told)
        }
    }
}
