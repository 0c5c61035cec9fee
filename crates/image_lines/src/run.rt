use crate::ending::write_end;
use crate::events::{Seen, write_event};
use crate::lines::{Doing, Lines, RunLines};
use crate::origin::Origin;
use isa::Image;
use machine::{Event, EventName, ThreadSet};
use piece_machine::PieceMachine;
use runner::Turn;
use std::alloc::{AllocError, Global};
use words::BUCKETS;

// What comes next of a thread; None where there is no such thread.
fn seen(machine: &PieceMachine, t: u32, base: u32) -> Option<Seen> {
    let machine = machine.machine();
    if t == 0 || t > machine.threads() {
        return None;
    }
    Some(Seen {
        thread: t,
        place: machine.local(t).place(),
        next: machine.next_step(t),
        base,
    })
}

// Writes the line of a step that may not be.
fn write_refused(seen: Seen, origin: &Origin, lines: &mut Lines) {
    let from = lines.writer.len();
    lines.writer.form(
        "$ comes to a step that may not be",
        &[u64::from(seen.thread)],
    );
    origin.end_line(seen.place, &mut lines.writer);
    lines.mark(from, seen.thread, Doing::Broken, ThreadSet::new())
}

// Writes the line of what comes from outside.
fn write_outside(form: &str, thread: u32, doing: Doing, lines: &mut Lines) {
    let from = lines.writer.len();
    lines.writer.form(form, &[u64::from(thread)]);
    lines.mark(from, thread, doing, ThreadSet::new())
}

// Takes a step of a thread, and writes its line, if it has one.
fn write_step(machine: &mut PieceMachine, seen: Seen, origin: &Origin, lines: &mut Lines) {
    let mut event = Event::new(EventName::Local, 0);
    if machine.make_room(1).is_err() {
        lines.writer.fail();
        return;
    }
    if machine.step(seen.thread, &mut event).is_err() {
        write_refused(seen, origin, lines);
        return;
    }
    match event.name {
        EventName::Local | EventName::FutexLock | EventName::FutexCompare => {}
        _ => write_event(&event, seen, origin, lines),
    }
}

// Takes a turn, and writes its line, if it has one.
fn write_turn(
    machine: &mut PieceMachine,
    turn: Turn,
    base: u32,
    origin: &Origin,
    lines: &mut Lines,
) {
    let mut event = Event::new(EventName::Local, 0);
    match turn {
        Turn::Step(t) => {
            if let Some(seen) = seen(machine, t, base) {
                write_step(machine, seen, origin, lines);
            }
        }
        Turn::Stray(t) => {
            let _ = machine.stray(t, &mut event);
            write_outside("$ is woken from outside\n", t, Doing::Stray, lines);
        }
        Turn::Kill(t) => {
            let _ = machine.kill(t, &mut event);
            write_outside("$ is killed from outside\n", t, Doing::Kill, lines);
        }
    }
}

// Takes the turns of a schedule, and writes their lines.
fn write_turns(
    machine: &mut PieceMachine,
    turns: &[Turn],
    base: u32,
    origin: &Origin,
    lines: &mut Lines,
) {
    for turn in turns {
        write_turn(machine, *turn, base, origin, lines);
    }
    write_end(machine.machine(), base, origin, lines);
}

// Writes the run of an image by a schedule.
fn write_run(alloc: Global, image: &Image, turns: &[Turn], origin: &Origin, lines: &mut Lines) {
    match PieceMachine::new(alloc, image, BUCKETS) {
        Err(_) => lines.writer.fail(),
        Ok(mut machine) => {
            let base = image.version().monitors_base();
            write_turns(&mut machine, turns, base, origin, lines)
        }
    }
}

/// The lines of the run of an image by a schedule: of each step of a thread that others can see, in order, what it did and
/// where its instruction stands, and at the end who sleeps on which word. A futex call has one line, where it is over.
/// Beside each line stands what its step did.
///
/// # Errors
///
/// Where memory ran out.
pub fn run_lines(
    alloc: Global,
    image: &Image,
    turns: &[Turn],
    origin: &Origin,
) -> Result<RunLines, AllocError> {
    let mut lines = Lines::new(alloc);
    write_run(alloc, image, turns, origin, &mut lines);
    let Lines { writer, marks } = lines;
    let text = writer.finish()?;
    Ok(RunLines { text, marks })
}
