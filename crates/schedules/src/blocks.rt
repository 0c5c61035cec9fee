use crate::switching::goes_on;
use runner::Turn;
use std::alloc::{AllocError, Global};

/// Turns of a schedule: from the first of these places to before the second.
#[derive(Clone, Copy)]
pub(crate) struct Span {
    pub from: usize,
    pub to: usize,
}

/// What a schedule is made up of.
#[derive(Clone, Copy)]
pub(crate) enum Units {
    /// Of blocks: rows of steps of one thread, and single wakes and kills.
    Blocks,
    /// Of turns.
    Turns,
}

/// The places at which the units of a schedule end, in their order.
pub(crate) fn ends_of(
    alloc: Global,
    schedule: &[Turn],
    units: Units,
) -> Result<Vec<usize>, AllocError> {
    let mut ends = Vec::new(alloc);
    for before in 0..schedule.len() {
        if is_end(schedule, before, units) {
            ends.push(before + 1)?;
        }
    }
    Ok(ends)
}

// Whether a unit ends with the turn behind so many others.
fn is_end(schedule: &[Turn], before: usize, units: Units) -> bool {
    let Units::Blocks = units else {
        return true;
    };
    let next = before.saturating_add(1);
    match (schedule.get(before), schedule.get(next)) {
        (Some(turn), Some(next)) => !goes_on(*turn, *next),
        _ => true,
    }
}

/// The turns of so many units before those that end at the last places, so many; None where there are none.
pub(crate) fn chunk(ends: &[usize], behind: usize, size: usize) -> Option<Span> {
    let last = ends.len().saturating_sub(behind);
    let first = last.saturating_sub(size);
    let to = *ends.get(last.checked_sub(1)?)?;
    Some(Span {
        from: start_of(ends, first),
        to,
    })
}

// Where the unit behind so many others begins.
fn start_of(ends: &[usize], unit: usize) -> usize {
    match unit.checked_sub(1) {
        Some(before) => end_of(ends, before),
        None => 0,
    }
}

// Where the unit behind so many others ends.
fn end_of(ends: &[usize], unit: usize) -> usize {
    match ends.get(unit) {
        Some(end) => *end,
        None => 0,
    }
}

/// The turns of the unit behind so many others.
pub(crate) fn unit(ends: &[usize], number: usize) -> Option<Span> {
    let to = *ends.get(number)?;
    Some(Span {
        from: start_of(ends, number),
        to,
    })
}

/// The next block of the thread whose steps a block is, behind at least one other.
pub(crate) fn next_alike(schedule: &[Turn], ends: &[usize], number: usize) -> Option<Span> {
    let own = *schedule.get(start_of(ends, number))?;
    for other in number.saturating_add(2)..ends.len() {
        let span = unit(ends, other)?;
        let turn = *schedule.get(span.from)?;
        if goes_on(own, turn) {
            return Some(span);
        }
    }
    None
}

/// The turns of these spans of a schedule, one after another.
pub(crate) fn joined(
    alloc: Global,
    schedule: &[Turn],
    spans: &[Span],
) -> Result<Vec<Turn>, AllocError> {
    let mut turns = Vec::with_capacity(alloc, schedule.len())?;
    for span in spans {
        if let Some(part) = schedule.get(span.from..span.to) {
            turns.extend_from_slice(part)?;
        }
    }
    Ok(turns)
}

/// The schedule with the turns of each thread together in a span of it, those of the thread that comes first in it first.
pub(crate) fn gathered(
    alloc: Global,
    schedule: &[Turn],
    span: Span,
) -> Result<Vec<Turn>, AllocError> {
    let mut turns = Vec::with_capacity(alloc, schedule.len())?;
    add_part(&mut turns, schedule.get(..span.from))?;
    if let Some(part) = schedule.get(span.from..span.to) {
        for thread in threads_of(alloc, part)? {
            add_turns(&mut turns, part, thread)?;
        }
    }
    add_part(&mut turns, schedule.get(span.to..))?;
    Ok(turns)
}

fn add_part(turns: &mut Vec<Turn>, part: Option<&[Turn]>) -> Result<(), AllocError> {
    match part {
        Some(part) => turns.extend_from_slice(part),
        None => Ok(()),
    }
}

// Adds the turns of a thread.
fn add_turns(turns: &mut Vec<Turn>, part: &[Turn], thread: u32) -> Result<(), AllocError> {
    for turn in part {
        if thread_of(*turn) == thread {
            turns.push(*turn)?;
        }
    }
    Ok(())
}

// The threads of turns, in the order in which they come first.
fn threads_of(alloc: Global, part: &[Turn]) -> Result<Vec<u32>, AllocError> {
    let mut threads = Vec::new(alloc);
    for turn in part {
        let thread = thread_of(*turn);
        if !is_among(threads.as_slice(), thread) {
            threads.push(thread)?;
        }
    }
    Ok(threads)
}

fn is_among(threads: &[u32], thread: u32) -> bool {
    for other in threads {
        if *other == thread {
            return true;
        }
    }
    false
}

fn thread_of(turn: Turn) -> u32 {
    match turn {
        Turn::Step(t) | Turn::Stray(t) | Turn::Kill(t) => t,
    }
}
