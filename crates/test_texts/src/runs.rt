// Runs of programs, of which timelines and pictures are made.

use crate::failure::Failure;
use crate::pictures::show_pictures;
use crate::timelines::show_timeline;
use compiler::compile_checked;
use isa::Image;
use program::Checked;
use runner::{Report, RunFault, run_by_seed};
use simulation::{ExplainFault, explain};
use source_states::Action;
use std::alloc::Global;

/// What is made of a run.
#[derive(Clone, Copy)]
pub enum Shown {
    /// What its timeline has.
    Tally,
    /// The same, and the timeline.
    Timeline,
    /// What its pictures have.
    Pictures,
}

// A row on standard input.
#[derive(Clone, Copy)]
struct Row<'a> {
    // The seed of the run's order.
    seed: u64,
    // The most steps of the machine.
    steps: u32,
    // One entry in about so many is a stray wake; 0 where none is.
    strays: u32,
    // The source text.
    text: &'a str,
}

impl<'a> Row<'a> {
    // The row that is said behind its first word.
    fn of_line(said: &'a str) -> Result<Row<'a>, Failure> {
        let (said, text) = said.split_once('|').ok_or(Failure::Row)?;
        let said = said.trim();
        let (seed, said) = said.split_once(' ').ok_or(Failure::Row)?;
        let (steps, strays) = said.split_once(' ').ok_or(Failure::Row)?;
        Ok(Row {
            seed: seed.parse().map_err(|_| Failure::Row)?,
            steps: steps.parse().map_err(|_| Failure::Row)?,
            strays: strays.parse().map_err(|_| Failure::Row)?,
            text,
        })
    }
}

// What a row's run of an image left.
fn report_of(alloc: Global, image: &Image, row: &Row<'_>) -> Result<Report, Failure> {
    match run_by_seed(alloc, image, row.steps, row.seed, Some(row.strays), 0) {
        Ok(report) => Ok(report),
        Err(RunFault::Memory) => Err(Failure::Memory),
        Err(_) => Err(Failure::Run),
    }
}

// The actions of a run of an image, which is that of a program.
fn actions_of(
    alloc: Global,
    checked: &Checked,
    image: &Image,
    report: &Report,
) -> Result<Vec<Action>, Failure> {
    match explain(alloc, checked, image, report.log.iter()) {
        Ok(actions) => Ok(actions),
        Err(ExplainFault::Memory) => Err(Failure::Memory),
        Err(_) => Err(Failure::Run),
    }
}

/// Runs the program of a row, and prints what is to be shown of the run.
pub fn show_run<R: AllocGlobal + Print>(rt: &R, said: &str, shown: Shown) -> Result<(), Failure> {
    let row = Row::of_line(said)?;
    let (checked, lowered) = compile_checked(rt.alloc(), row.text.as_bytes())?;
    show_program(rt, &checked, &lowered.image, &row, shown)
}

// Runs a program.
fn show_program<R: AllocGlobal + Print>(
    rt: &R,
    checked: &Checked,
    image: &Image,
    row: &Row<'_>,
    shown: Shown,
) -> Result<(), Failure> {
    let report = report_of(rt.alloc(), image, row)?;
    show_report(rt, checked, image, &report, shown)
}

// Explains a run.
fn show_report<R: AllocGlobal + Print>(
    rt: &R,
    checked: &Checked,
    image: &Image,
    report: &Report,
    shown: Shown,
) -> Result<(), Failure> {
    let actions = actions_of(rt.alloc(), checked, image, report)?;
    show_actions(rt, checked, actions.as_slice(), report, shown)
}

// Prints what is to be shown of a run.
fn show_actions<R: AllocGlobal + Print>(
    rt: &R,
    checked: &Checked,
    actions: &[Action],
    report: &Report,
    shown: Shown,
) -> Result<(), Failure> {
    match shown {
        Shown::Tally => show_timeline(rt, checked, actions, false),
        Shown::Timeline => show_timeline(rt, checked, actions, true),
        Shown::Pictures => show_pictures(rt, checked, actions, report),
    }
}
