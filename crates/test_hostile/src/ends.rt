use crate::counting::count;
use crate::failure::Failure;
use isa::Image;
use packed_log::LogReader;
use runner::{Report, RunFault, Verdict, run_in_order};
use std::alloc::Global;
use std::io;
use words::OpenGate;

/// How many runs of images ended in each way.
#[derive(Clone, Copy)]
pub struct Ends {
    done: u32,
    stuck: u32,
    limit: u32,
    broken: u32,
    otherwise: u32,
}

impl Ends {
    /// None yet.
    pub fn new() -> Ends {
        Ends {
            done: 0,
            stuck: 0,
            limit: 0,
            broken: 0,
            otherwise: 0,
        }
    }

    /// Runs an image in order, within a limit of steps, and counts how that ends.
    pub fn run(&mut self, alloc: Global, image: &Image, limit: u32) {
        match run_in_order(alloc, image, limit, &OpenGate) {
            Ok(report) => self.count_verdict(report.verdict),
            Err(RunFault::Broken) => count(&mut self.broken),
            Err(_) => count(&mut self.otherwise),
        }
    }

    fn count_verdict(&mut self, verdict: Verdict) {
        match verdict {
            Verdict::Done => count(&mut self.done),
            Verdict::Stuck => count(&mut self.stuck),
            Verdict::Limit => count(&mut self.limit),
        }
    }

    /// Prints the counts.
    pub fn show<R: Print>(&self, rt: &R) -> io::Result<()> {
        let done = self.done;
        let stuck = self.stuck;
        let limit = self.limit;
        let broken = self.broken;
        let otherwise = self.otherwise;
        print!(rt; "  runs: {done} Done, {stuck} Stuck, {limit} Limit, {broken} fault 4, ")?;
        println!(rt; "{otherwise} otherwise")
    }
}

/// Runs an image in order, within a limit of steps, and prints how that ends.
pub fn show_run<R: Print>(rt: &R, alloc: Global, image: &Image, limit: u32) -> Result<(), Failure> {
    let report = run_in_order(alloc, image, limit, &OpenGate)?;
    show_report(rt, &report)?;
    Ok(())
}

fn show_report<R: Print>(rt: &R, report: &Report) -> io::Result<()> {
    let verdict = report.verdict;
    let entries = report.log.len();
    let steps = steps_of(report.log.iter());
    let threads = report.last.machine().threads();
    println!(rt; "  {verdict:?}, {steps} steps, {entries} entries, {threads} threads")
}

// How many steps a log has.
fn steps_of(log: LogReader<'_>) -> u64 {
    let mut steps: u64 = 0;
    for entry in log {
        let shared = if entry.event.is_some() { 1 } else { 0 };
        steps = steps.saturating_add(u64::from(entry.local) + shared);
    }
    steps
}
