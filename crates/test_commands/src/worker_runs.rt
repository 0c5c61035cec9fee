use crate::lists::failure::Failure;
use log_text::append_log;
use mesamon::{Calls, Exits, ExplainedRun, explain_log_text, run_source};
use runner::Report;
use source_states::accepts;
use std::alloc::Global;
use std::io;
use std::sync::Wait;
use std::thread::Threads;
use words::OpenGate;

// The most steps of a run.
const STEPS: u32 = 1_000_000;

/// Prints what comes of a row of runs on real workers, or why nothing does; false where this line is none.
pub fn take_line<R: AllocGlobal + Print + Threads + Wait + Sync>(
    rt: &R,
    line: &str,
) -> io::Result<bool> {
    let Some(row) = line.strip_prefix("workers ") else {
        return Ok(false);
    };
    if let Err(failure) = show_runs(rt, row) {
        println!(rt; "{failure}")?;
    }
    Ok(true)
}

// Prints how many runs are explained, of the program whose text stands in the row, behind how many of them are made.
fn show_runs<R: AllocGlobal + Print + Threads + Wait + Sync>(
    rt: &R,
    row: &str,
) -> Result<(), Failure> {
    let (said, text) = row.split_once('|').ok_or(Failure::Row)?;
    let count: u32 = said.trim().parse().map_err(|_| Failure::Row)?;
    let mut explained: u32 = 0;
    for _ in 0..count {
        if is_explained(rt, text.as_bytes())? {
            explained = explained.saturating_add(1);
        }
    }
    println!(rt; "{count} runs on workers, {explained} explained")?;
    Ok(())
}

// Whether the log of a run on real workers, written and read again, is explained by a run of the program that prints
// what it printed.
fn is_explained<R: AllocGlobal + Threads + Wait + Sync>(
    rt: &R,
    text: &[u8],
) -> Result<bool, Failure> {
    let alloc = rt.alloc();
    match run_source(
        rt,
        alloc,
        text,
        Exits::Machine,
        STEPS,
        Calls::PutOff,
        &OpenGate,
    ) {
        Ok(report) => is_report_explained(alloc, text, &report),
        Err(_) => Ok(false),
    }
}

// The same of the report of such a run. Reports and explained runs are lent: owned over what can fail they took the borrow
// checker minutes.
fn is_report_explained(alloc: Global, text: &[u8], report: &Report) -> Result<bool, Failure> {
    let mut lines = String::new(alloc);
    append_log(&mut lines, report.log.iter())?;
    match explain_log_text(alloc, text, Exits::Machine, lines.as_bytes(), STEPS) {
        Ok(run) => prints_the_same(alloc, &run, report),
        Err(_) => Ok(false),
    }
}

// Whether the source run prints what the run on workers printed.
fn prints_the_same(
    alloc: Global,
    run: &ExplainedRun<'_>,
    report: &Report,
) -> Result<bool, Failure> {
    match accepts(alloc, &run.checked, run.actions.as_slice())? {
        Some(state) => Ok(are_printed(state.printed(), report.output.as_slice())),
        None => Ok(false),
    }
}

// Whether these numbers are the ones that were printed.
fn are_printed(numbers: &[i64], output: &[i32]) -> bool {
    numbers.len() == output.len()
        && numbers
            .iter()
            .zip(output.iter())
            .all(|(number, printed)| *number == i64::from(*printed))
}
