use crate::failing::{RunFailure, has_aborted};
use isa::Image;
use machine::{Event, EventName};
use piece_machine::PieceMachine;
use runner::Turn;
use std::alloc::{AllocError, Global};
use words::BUCKETS;

/// The turns of a run that fails so, of at most so many: those of a candidate that can be taken, and behind them steps of
/// the threads that can still move, each as long as it can. None where that run doesn't fail so. Nothing is promised of
/// them: who takes them tests them.
pub(crate) fn attempt(
    alloc: Global,
    image: &Image,
    candidate: &[Turn],
    failure: RunFailure,
    most: usize,
) -> Result<Option<Vec<Turn>>, AllocError> {
    let mut turns = Vec::with_capacity(alloc, most)?;
    let mut machine = PieceMachine::new(alloc, image, BUCKETS)?;
    let failed = run(&mut machine, &mut turns, candidate, failure, most);
    where_failed(turns, failed)
}

fn where_failed(
    turns: Vec<Turn>,
    failed: Result<bool, AllocError>,
) -> Result<Option<Vec<Turn>>, AllocError> {
    match failed {
        Ok(true) => Ok(Some(turns)),
        Ok(false) => Ok(None),
        Err(error) => Err(error),
    }
}

// Takes the turns of a candidate that can be taken, and runs on to the end. Answers whether the run fails so.
fn run(
    machine: &mut PieceMachine,
    turns: &mut Vec<Turn>,
    candidate: &[Turn],
    failure: RunFailure,
    most: usize,
) -> Result<bool, AllocError> {
    for turn in candidate {
        if turns.len() >= most {
            break;
        }
        if take_turn(machine, turns, *turn)? && has_aborted(machine.machine(), failure) {
            return Ok(true);
        }
    }
    run_on(machine, turns, failure, most)
}

// Takes a turn and notes it, if it can be taken.
fn take_turn(
    machine: &mut PieceMachine,
    turns: &mut Vec<Turn>,
    turn: Turn,
) -> Result<bool, AllocError> {
    machine.make_room(1)?;
    let mut event = Event::new(EventName::Local, 0);
    let taken = match turn {
        Turn::Step(t) => machine.step(t, &mut event),
        Turn::Stray(t) => machine.stray(t, &mut event),
        Turn::Kill(t) => machine.kill(t, &mut event),
    };
    if taken.is_err() {
        return Ok(false);
    }
    turns.push(turn)?;
    Ok(true)
}

// Takes steps until no thread can move or there are so many turns, and notes them.
fn run_on(
    machine: &mut PieceMachine,
    turns: &mut Vec<Turn>,
    failure: RunFailure,
    most: usize,
) -> Result<bool, AllocError> {
    let mut thread = last_thread(turns.as_slice());
    for _ in turns.len()..most {
        let Some(next) = next_mover(machine, thread) else {
            break;
        };
        if !take_turn(machine, turns, Turn::Step(next))? {
            break;
        }
        if has_aborted(machine.machine(), failure) {
            return Ok(true);
        }
        thread = next;
    }
    Ok(is_stuck(machine, failure))
}

// The thread that took the last turn.
fn last_thread(turns: &[Turn]) -> u32 {
    match turns.last() {
        Some(Turn::Step(t)) => *t,
        _ => 0,
    }
}

// The thread that moves next: the same one as long as it can, and then the first that can.
fn next_mover(machine: &PieceMachine, thread: u32) -> Option<u32> {
    if machine.can_move(thread) {
        return Some(thread);
    }
    for before in 0..machine.machine().threads() {
        if machine.can_move(before + 1) {
            return Some(before + 1);
        }
    }
    None
}

// Whether the failure is that no thread can move though not all have ended, and that is so.
fn is_stuck(machine: &PieceMachine, failure: RunFailure) -> bool {
    match failure {
        RunFailure::Stuck => machine.quiet() && !machine.machine().all_ended(),
        RunFailure::Aborted { .. } => false,
    }
}
