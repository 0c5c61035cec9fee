ghost use Rattle.std.specs.Prelude.{◌≡◌, ◌≤◌, true};
ghost use Rattle.piece_machine.specs.PieceConcrete.{can_take};
ghost use Rattle.piece_machine.specs.PieceViews.{parts};

use isa::Image;
use machine::{Entry, Event, EventName, StepFault};
use piece_machine::PieceMachine;
use std::alloc::{AllocError, Global};
use test_schedules::{SORTS, Sequence, draw_mover, draw_sleeper};
use words::BUCKETS;

// Takes local steps of a thread, so many at most, and where these are fewer the shared step that comes next, unless a
// held bucket is in its way.
fn take_turn(machine: &mut PieceMachine, thread: u32, most: u32) -> Result<Entry, StepFault>
    requires mover { can_take machine.old.view.program (parts machine.old) thread ≡ true }
    requires room { 1 ≤ machine.old.view.room }
{
    let local = machine.run_local(thread, most);
    let event = if local == most {
        None
    } else {
        let mut event = Event::new(EventName::Local, 0);
        match machine.step(thread, &mut event) {
            Ok(()) => Some(event),
            Err(StepFault::CannotMove) => None,
            Err(fault) => return Err(fault),
        }
    };
    Ok(Entry {
        thread,
        local,
        event,
    })
}

// The turn of a thread that is drawn among those that can move, of one local step more than the mask has at most; None
// where none can.
fn draw_turn(
    machine: &mut PieceMachine,
    sequence: &mut Sequence,
    mask: u32,
) -> Result<Option<Entry>, AllocError> {
    machine.make_room(1)?;
    let Some(thread) = draw_mover(machine, sequence) else {
        return Ok(None);
    };
    let most = (sequence.draw() & mask).saturating_add(1);
    Ok(take_turn(machine, thread, most).ok())
}

// Which entry is a wake from outside: each of this number.
const STRAY: u32 = 7;

// A seed by whose schedules a turn is one step.
const SINGLE_STEPS: u32 = SORTS;

// What happens in a run from outside.
#[derive(Clone, Copy, PartialEq, Eq, Debug)]
enum Outside {
    // Nothing.
    Nothing,
    // Each seventh entry is a wake, where any thread sleeps.
    Wakes,
    // One thread is killed, behind so many entries.
    Kill(u32),
}

impl Outside {
    // The entry that happens from outside behind so many entries; None where none does.
    fn happen(
        self,
        machine: &mut PieceMachine,
        sequence: &mut Sequence,
        before: u32,
    ) -> Option<Entry> {
        match self {
            Outside::Wakes if before % STRAY == STRAY - 1 => wake(machine, sequence),
            Outside::Kill(at) if before == at => kill(machine, at),
            _ => None,
        }
    }
}

// Wakes a thread that is drawn among those that sleep from outside; None where none sleeps.
fn wake(machine: &mut PieceMachine, sequence: &mut Sequence) -> Option<Entry> {
    let thread = draw_sleeper(machine.machine(), sequence)?;
    let mut event = Event::new(EventName::Local, 0);
    machine.stray(thread, &mut event).ok()?;
    Some(Entry {
        thread,
        local: 0,
        event: Some(event),
    })
}

// Kills a thread, of those that are made each in turn.
fn kill(machine: &mut PieceMachine, turn: u32) -> Option<Entry> {
    let thread = turn % machine.machine().threads() + 1;
    let mut event = Event::new(EventName::Local, 0);
    machine.kill(thread, &mut event).ok()?;
    Some(Entry {
        thread,
        local: 0,
        event: Some(event),
    })
}

// The log of an image's run by the schedule of a seed, with what happens from outside, as far as so many entries.
fn log_with(
    alloc: Global,
    image: &Image,
    seed: u32,
    most: u32,
    outside: Outside,
) -> Result<Vec<Entry>, AllocError> {
    let mut machine = PieceMachine::new(alloc, image, BUCKETS)?;
    let mut sequence = Sequence::new(seed);
    let mask = !(u32::MAX << (seed % SORTS));
    let mut log = Vec::new(alloc);
    for before in 0..most {
        let entry = match outside.happen(&mut machine, &mut sequence, before) {
            Some(entry) => Some(entry),
            None => draw_turn(&mut machine, &mut sequence, mask)?,
        };
        let Some(entry) = entry else {
            break;
        };
        log.push(entry)?;
    }
    Ok(log)
}

/// The log of an image's run by the schedule of a seed, as far as so many entries.
///
/// In each turn a thread is drawn among those that can move. It takes its local steps, as far as a number that is
/// drawn, and where its shared step comes before that, also that.
pub fn log_of(
    alloc: Global,
    image: &Image,
    seed: u32,
    most: u32,
) -> Result<Vec<Entry>, AllocError> {
    log_with(alloc, image, seed, most, Outside::Nothing)
}

/// The log of an image's run by the schedule of a seed, with wakes from outside, as far as so many entries.
///
/// It is as `log_of` has it, but each seventh entry is the wake of a thread that is drawn among those that sleep, where
/// any does.
pub fn log_with_strays(
    alloc: Global,
    image: &Image,
    seed: u32,
    most: u32,
) -> Result<Vec<Entry>, AllocError> {
    log_with(alloc, image, seed, most, Outside::Wakes)
}

/// The log of a run of an image in which each entry is one step, with one thread killed right behind the step of a
/// number, as far as so many entries.
///
/// The run goes by the same draws whichever step that is. Behind later steps later threads are killed, of those that
/// are made each in turn.
pub fn log_with_kill(
    alloc: Global,
    image: &Image,
    step: u32,
    most: u32,
) -> Result<Vec<Entry>, AllocError> {
    log_with(alloc, image, SINGLE_STEPS, most, Outside::Kill(step))
}
