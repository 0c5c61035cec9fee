use crate::failure::Failure;
use compiler::compile_checked;
use isa::Image;
use machine::Entry;
use program::Checked;
use std::alloc::{AllocError, Global};
use std::io;
use test_logs::{
    CHANGES, Change, ChangeTrial, log_of, log_with_kill, log_with_strays, try_changes,
};
use test_schedules::Sequence;

// The most entries of a log.
const MOST: u32 = 300;

/// What happens from outside in the run of a log.
#[derive(Clone, Copy)]
pub enum Outside {
    /// Nothing; the schedule is that of the row's seed.
    Nothing,
    /// Each seventh entry is the wake of a thread that sleeps.
    Wakes,
    /// One thread is killed, behind the step of the row's number.
    Kill,
}

impl Outside {
    fn log_of(self, alloc: Global, image: &Image, number: u32) -> Result<Vec<Entry>, AllocError> {
        match self {
            Outside::Nothing => log_of(alloc, image, number, MOST),
            Outside::Wakes => log_with_strays(alloc, image, number, MOST),
            Outside::Kill => log_with_kill(alloc, image, number, MOST),
        }
    }
}

/// Prints what comes of the log of a run of a text's program, changed in each way so often as the row says.
pub fn show_logs<R: AllocGlobal + Print>(
    rt: &R,
    outside: Outside,
    row: &str,
) -> Result<(), Failure> {
    let (count, rest) = row.split_once(' ').ok_or(Failure::Row)?;
    let count: u32 = count.parse().map_err(|_| Failure::Row)?;
    let (number, text) = rest.split_once(' ').ok_or(Failure::Row)?;
    let number: u32 = number.parse().map_err(|_| Failure::Row)?;
    let (checked, lowered) = compile_checked(rt.alloc(), text.as_bytes())?;
    show_log(rt, outside, &checked, &lowered.image, count, number)
}

fn show_log<R: AllocGlobal + Print>(
    rt: &R,
    outside: Outside,
    checked: &Checked,
    image: &Image,
    count: u32,
    number: u32,
) -> Result<(), Failure> {
    let log = outside.log_of(rt.alloc(), image, number)?;
    println!(rt; "  {} entries", log.len())?;
    show_changes(rt, checked, log.as_slice(), count, Sequence::new(number))
}

fn show_changes<R: AllocGlobal + Print>(
    rt: &R,
    checked: &Checked,
    log: &[Entry],
    count: u32,
    mut sequence: Sequence,
) -> Result<(), Failure> {
    for change in CHANGES {
        let trial = try_changes(rt.alloc(), checked, log, change, count, &mut sequence)?;
        show_trial(rt, change, &trial)?;
    }
    Ok(())
}

fn show_trial<R: Print>(rt: &R, change: Change, trial: &ChangeTrial) -> io::Result<()> {
    let name = change.name();
    let ChangeTrial {
        lines,
        entries,
        explained,
        memory,
    } = *trial;
    print!(rt; "  {name}: refused at {lines} lines and {entries} entries, ")?;
    println!(rt; "{explained} explained, {memory} otherwise")
}
