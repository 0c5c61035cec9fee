use image_lines::{Doing, Mark};
use std::alloc::{AllocError, Global};

/// What a thread does between two steps.
#[derive(Clone, Copy, PartialEq, Eq)]
pub(crate) enum State {
    /// There is no such thread yet, or none any more.
    Absent,
    /// It can move, or could.
    Runs,
    /// It sleeps.
    Sleeps,
}

/// A thread while a run is drawn.
#[derive(Clone, Copy)]
pub(crate) struct Lane {
    /// What it does.
    pub state: State,
    /// Since where, from the left edge.
    pub since: u64,
}

// The greatest number of a thread in a step.
fn greatest(mark: &Mark) -> u32 {
    match mark.doing {
        Doing::Fork(child) if child > mark.thread => child,
        _ => mark.thread,
    }
}

/// How many threads a run has, which has one at least.
pub(crate) fn threads_of(marks: &[Mark]) -> u32 {
    let mut threads = 1;
    for mark in marks {
        if greatest(mark) > threads {
            threads = greatest(mark);
        }
    }
    threads
}

/// How many of the lines of a run tell of steps: those that are left tell who sleeps at its end.
pub(crate) fn steps_of(marks: &[Mark]) -> u64 {
    let mut steps: u64 = 0;
    for mark in marks {
        if mark.doing != Doing::Stays {
            steps = steps.saturating_add(1);
        }
    }
    steps
}

/// The lanes of so many threads where a run begins, at a place, of which the first thread alone is there.
pub(crate) fn lanes_of(alloc: Global, threads: u32, since: u64) -> Result<Vec<Lane>, AllocError> {
    let mut lanes = Vec::new(alloc);
    for before in 0..threads {
        let state = if before == 0 {
            State::Runs
        } else {
            State::Absent
        };
        lanes.push(Lane { state, since })?;
    }
    Ok(lanes)
}

/// What a thread does behind its own step, or behind what was done to it.
pub(crate) fn behind(state: State, doing: Doing) -> State {
    match doing {
        Doing::Sleep => State::Sleeps,
        Doing::Stray => State::Runs,
        Doing::End | Doing::Die => State::Absent,
        Doing::Kill if state == State::Sleeps => State::Runs,
        _ => state,
    }
}
