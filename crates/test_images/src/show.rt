use crate::failure::Failure;
use machine::{EventName, MOST_THREADS, Machine, ThreadSet};
use packed_log::{LogReader, PackedLog};
use piece_machine::PieceMachine;
use runner::{Report, report_of};
use std::alloc::Global;
use std::io;
use words::{Cause, Outcome};

// The most entries of a log that is printed.
const SHORT: usize = 24;

/// Prints what came of a run: how it ended and how long it was, its log where that is short, its output, and the
/// threads that sleep or have aborted.
pub fn show<R: Print>(rt: &R, report: &Report) -> io::Result<()> {
    let log = &report.log;
    let verdict = report.verdict;
    let entries = log.len();
    let steps = steps_of(log.iter());
    let walked = events_of(log.iter(), EventName::Entry);
    let forked = events_of(log.iter(), EventName::Fork);
    println!(rt; "  {verdict:?}, {steps} steps, {entries} entries, {walked} ENTRY, {forked} FORK")?;
    if entries <= SHORT {
        show_log(rt, log, 0)?;
    }
    show_output(rt, report)
}

/// Prints how a run ended, how many threads it made, its output, and the threads that sleep or have aborted.
pub fn show_end<R: Print>(rt: &R, report: &Report) -> io::Result<()> {
    let verdict = report.verdict;
    let threads = report.last.machine().threads();
    println!(rt; "  {verdict:?}, {threads} threads")?;
    show_output(rt, report)
}

/// The same of what a run by hand leaves.
pub fn show_run<R: Print>(
    rt: &R,
    alloc: Global,
    log: PackedLog,
    machine: PieceMachine,
) -> Result<(), Failure> {
    let report = report_of(alloc, log, machine)?;
    Ok(show_end(rt, &report)?)
}

// The numbers that were printed, and the threads that sleep or have aborted.
fn show_output<R: Print>(rt: &R, report: &Report) -> io::Result<()> {
    for number in report.output.as_slice() {
        println!(rt; "  output {number}")?;
    }
    show_threads(rt, report.last.machine())
}

/// Prints the entries of a log but the first `before`.
pub fn show_log<R: Print>(rt: &R, log: &PackedLog, before: usize) -> io::Result<()> {
    for entry in log.iter().skip(before) {
        let thread = entry.thread;
        let local = entry.local;
        match entry.event {
            None => println!(rt; "  {thread} {local} turn")?,
            Some(event) => {
                let name = event.name;
                let value = event.value;
                println!(rt; "  {thread} {local} {name:?} {value}")?;
                show_set(rt, "woke", event.woken)?;
                show_set(rt, "moved", event.moved)?;
            }
        }
    }
    Ok(())
}

/// Prints the threads of a set, each on a line.
pub fn show_set<R: Print>(rt: &R, what: &str, set: ThreadSet) -> io::Result<()> {
    for before in 0..MOST_THREADS {
        let thread = before + 1;
        if set.contains(thread) {
            println!(rt; "    {what} {thread}")?;
        }
    }
    Ok(())
}

// The threads that have aborted, and those that sleep.
fn show_threads<R: Print>(rt: &R, last: &Machine) -> io::Result<()> {
    for before in 0..last.threads() {
        let thread = before + 1;
        let outcome = last.outcome(thread);
        match outcome {
            Outcome::Aborted(Cause::Faulted(fault)) => println!(rt;
                "  thread {thread}: {fault:?}"
            )?,
            Outcome::Aborted(Cause::Killed) => println!(rt; "  thread {thread}: Killed")?,
            _ => {}
        }
        if let Some(address) = last.asleep(thread) {
            let word = address.0;
            println!(rt; "  thread {thread} sleeps on word {word}")?;
        }
    }
    Ok(())
}

// How many steps a log has.
fn steps_of(log: LogReader<'_>) -> u64 {
    let mut steps: u64 = 0;
    for entry in log {
        let shared = if entry.event.is_some() { 1 } else { 0 };
        steps = steps.saturating_add(u64::from(entry.local) + shared);
    }
    steps
}

// How many events of a name a log has.
fn events_of(log: LogReader<'_>, name: EventName) -> usize {
    let mut events: usize = 0;
    for entry in log {
        if entry.event.is_some_and(|event| event.name == name) {
            events = events.saturating_add(1);
        }
    }
    events
}
