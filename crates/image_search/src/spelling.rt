ghost use Rattle.std.specs.Prelude.{◌≡◌, ◌<◌, ◌≤◌, length, true};

use crate::kept::Way;
use image_states::{Doing, MOST_AT_ONCE};
use isa::Image;
use locals::NextStep;
use machine::{Event, EventName, Machine};
use piece_machine::PieceMachine;
use robustexit::ExitPhase;
use runner::Turn;
use std::alloc::{AllocError, Global};
use words::{Addr, BUCKETS, MOST_BLOCKS, ProcessWord, block};

// How many steps of a thread are taken for one at most: those local ones that a kept state is ahead, one more, and all pieces
// of a futex call.
const MOST_STEPS: u32 = MOST_AT_ONCE + 8;

// The steps that lead from the first kept state to that at a place. Nothing is promised of them.
fn ways_to(alloc: Global, ways: &[Way], place: u32) -> Result<Vec<Way>, AllocError> {
    let mut steps = Vec::new(alloc);
    let mut at = place;
    for _ in 0..place {
        let Some(way) = ways.get(at as usize) else {
            break;
        };
        if at == 0 {
            break;
        }
        steps.push(*way)?;
        at = way.before;
    }
    steps.reverse();
    Ok(steps)
}

// Whether a thread was made.
fn is_made(machine: &Machine, t: u32) -> bool
    ensures { result ≡ true → (0 < t) × (t ≤ length machine.now.threads) }
{
    t > 0 && t <= machine.threads()
}

// Takes a step of a thread and notes it; None where it can't take one.
fn take_step(
    machine: &mut PieceMachine,
    turns: &mut Vec<Turn>,
    t: u32,
) -> Result<Option<EventName>, AllocError> {
    machine.make_room(1)?;
    let mut event = Event::new(EventName::Local, 0);
    if machine.step(t, &mut event).is_err() {
        return Ok(None);
    }
    turns.push(Turn::Step(t))?;
    Ok(Some(event.name))
}

// Whether a thread's step is over with a step of this name: a shared one, all of it, or one by which it begins to die.
fn is_over(machine: &PieceMachine, t: u32, name: EventName) -> bool {
    match name {
        EventName::FutexLock | EventName::FutexCompare => false,
        EventName::Local => {
            let machine = machine.machine();
            is_made(machine, t) && machine.local(t).is_dying()
        }
        _ => true,
    }
}

// Takes the local steps by which a kept state is ahead, and the step behind them, which is over with all its pieces.
fn take_own(machine: &mut PieceMachine, turns: &mut Vec<Turn>, t: u32) -> Result<(), AllocError> {
    let mut local: u32 = 0;
    for _ in 0..MOST_STEPS {
        let Some(name) = take_step(machine, turns, t)? else {
            return Ok(());
        };
        if name == EventName::Local {
            local = local.saturating_add(1);
        }
        if local > MOST_AT_ONCE || is_over(machine, t, name) {
            return Ok(());
        }
    }
    Ok(())
}

// How many steps an exit has behind the robust list.
const LAST_STEPS: u32 = 3;

// Whether nobody sleeps on an address.
fn has_nobody_on(machine: &Machine, a: Addr) -> bool {
    for before in 0..machine.threads() {
        if let Some(place) = machine.asleep(before + 1) {
            if place.0 == a.0 {
                return false;
            }
        }
    }
    true
}

// Whether the rest of a thread's exit was taken at once where it stands so: it has no pending entry, and nobody sleeps on its
// id.
fn leaves_alone(machine: &PieceMachine, t: u32) -> bool {
    let machine = machine.machine();
    if t > MOST_BLOCKS || !is_made(machine, t) {
        return false;
    }
    if !matches!(machine.next_step(t), NextStep::Exit(ExitPhase::Pending)) {
        return false;
    }
    let pending = block(t, ProcessWord::Pending);
    if pending.0 as usize >= machine.memory_len() || machine.word(pending) != 0 {
        return false;
    }
    has_nobody_on(machine, block(t, ProcessWord::Id))
}

// Takes a thread's own step, and with exits followed alone the rest of its exit, should it come there.
fn take_whole(
    machine: &mut PieceMachine,
    turns: &mut Vec<Turn>,
    t: u32,
    alone: bool,
) -> Result<(), AllocError> {
    take_own(machine, turns, t)?;
    if !alone || !leaves_alone(machine, t) {
        return Ok(());
    }
    for _ in 0..LAST_STEPS {
        take_step(machine, turns, t)?;
    }
    Ok(())
}

// Takes the steps of one.
fn take_way(
    machine: &mut PieceMachine,
    turns: &mut Vec<Turn>,
    way: Way,
    alone: bool,
) -> Result<(), AllocError> {
    let mut event = Event::new(EventName::Local, 0);
    let t = way.thread;
    match way.doing {
        Doing::Own => take_whole(machine, turns, t, alone),
        Doing::Stray => {
            let _ = machine.stray(t, &mut event);
            turns.push(Turn::Stray(t))?;
            Ok(())
        }
        Doing::Kill => {
            let _ = machine.kill(t, &mut event);
            turns.push(Turn::Kill(t))?;
            Ok(())
        }
    }
}

// Takes those of these.
fn take_ways(
    machine: &mut PieceMachine,
    turns: &mut Vec<Turn>,
    steps: &[Way],
    alone: bool,
) -> Result<(), AllocError> {
    for way in steps {
        take_way(machine, turns, *way, alone)?;
    }
    Ok(())
}

// Whether a thread can move, and its next step is a local one.
fn is_before_local(machine: &PieceMachine, t: u32) -> bool {
    let machine = machine.machine();
    is_made(machine, t) && machine.can_move(t) && matches!(machine.next_step(t), NextStep::Local)
}

// Takes the local steps that come next of a thread, and the step behind them, where that may not be; else takes none as
// noted.
fn try_broken(
    machine: &mut PieceMachine,
    turns: &mut Vec<Turn>,
    t: u32,
) -> Result<bool, AllocError> {
    let noted = turns.len();
    for _ in 0..MOST_STEPS {
        if !is_before_local(machine, t) {
            break;
        }
        take_step(machine, turns, t)?;
    }
    if is_broken(machine, t) {
        turns.push(Turn::Step(t))?;
        return Ok(true);
    }
    turns.truncate(noted);
    Ok(false)
}

// Whether a thread can move, and its next step may not be.
fn is_broken(machine: &PieceMachine, t: u32) -> bool {
    let machine = machine.machine();
    if !is_made(machine, t) || !machine.can_move(t) {
        return false;
    }
    machine.refusal_as(t, machine.next_step(t)).is_some()
}

// Adds the turns of a thread whose next step may not be.
fn add_broken(machine: &mut PieceMachine, turns: &mut Vec<Turn>) -> Result<(), AllocError> {
    for before in 0..machine.machine().threads() {
        if try_broken(machine, turns, before + 1)? {
            return Ok(());
        }
    }
    Ok(())
}

// Takes those of these on a new machine; with a broken end those to it.
fn spell(
    machine: &mut PieceMachine,
    turns: &mut Vec<Turn>,
    steps: &[Way],
    broken: bool,
    alone: bool,
) -> Result<(), AllocError> {
    take_ways(machine, turns, steps, alone)?;
    if broken {
        return add_broken(machine, turns);
    }
    Ok(())
}

// Adds the turns of these.
fn spell_ways(
    alloc: Global,
    image: &Image,
    steps: &[Way],
    broken: bool,
    alone: bool,
    turns: &mut Vec<Turn>,
) -> Result<(), AllocError> {
    let mut machine = PieceMachine::new(alloc, image, BUCKETS)?;
    spell(&mut machine, turns, steps, broken, alone)
}

/// A schedule that leads to the kept state at a place: for each step the local steps that come next of its thread, and its
/// own step, with all pieces of a futex call, and where exits are followed alone the rest of its exit. With a broken end it
/// goes on to a step that may not be. Nothing is promised of it: where a step took another sleeper than the front of its list, the machine may go elsewhere.
pub(crate) fn schedule_to(
    alloc: Global,
    image: &Image,
    ways: &[Way],
    place: u32,
    broken: bool,
    alone: bool,
) -> Result<Vec<Turn>, AllocError> {
    let steps = ways_to(alloc, ways, place)?;
    let mut turns = Vec::new(alloc);
    spell_ways(alloc, image, steps.as_slice(), broken, alone, &mut turns)?;
    Ok(turns)
}
