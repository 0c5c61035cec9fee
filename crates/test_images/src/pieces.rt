use crate::failure::Failure;
use crate::piece_steps::{show_movers, show_refusal, show_step};
use buckets::Buckets;
use isa::Image;
use machine::{Event, EventName, StepFault};
use piece_machine::PieceMachine;
use std::alloc::Global;
use std::str::SplitWhitespace;

// The most steps of a word of a schedule.
const MOST_STEPS: u32 = 1000;

/// Runs an image with futex calls in pieces over so many buckets, by the schedule of these words, and prints the shared
/// steps.
pub fn run_pieces<R: Print>(
    rt: &R,
    alloc: Global,
    image: &Image,
    buckets: u32,
    words: SplitWhitespace,
) -> Result<(), Failure> {
    if !Buckets::allowed(buckets) {
        return Err(Failure::Row);
    }
    let mut machine = PieceMachine::new(alloc, image, buckets)?;
    for word in words {
        take_word(rt, &mut machine, word)?;
    }
    Ok(())
}

// Does what a word of a schedule says.
fn take_word<R: Print>(rt: &R, machine: &mut PieceMachine, word: &str) -> Result<(), Failure> {
    if word == "movers" {
        return Ok(show_movers(rt, machine)?);
    }
    if let Some(sleeper) = word.strip_prefix('s') {
        let thread = number(sleeper)?;
        let mut event = Event::new(EventName::Local, 0);
        let outcome = machine.stray(thread, &mut event);
        return show_outside(rt, thread, outcome, &event);
    }
    if let Some(killed) = word.strip_prefix('k') {
        let thread = number(killed)?;
        let mut event = Event::new(EventName::Local, 0);
        let outcome = machine.kill(thread, &mut event);
        return show_outside(rt, thread, outcome, &event);
    }
    if let Some(asked) = word.strip_prefix('r') {
        return show_next(rt, machine, number(asked)?);
    }
    if let Some(local) = word.strip_prefix('l') {
        let (thread, steps) = counted(local)?;
        return run_locally(rt, machine, thread, steps);
    }
    let (thread, steps) = counted(word)?;
    take_steps(rt, machine, thread, steps)
}

// The thread and the number of steps of a word of a schedule.
fn counted(word: &str) -> Result<(u32, u32), Failure> {
    let (thread, steps) = word.split_once('x').ok_or(Failure::Row)?;
    Ok((number(thread)?, number(steps)?.min(MOST_STEPS)))
}

// Takes up to so many local steps of a thread, and prints how many they were.
fn run_locally<R: Print>(
    rt: &R,
    machine: &mut PieceMachine,
    thread: u32,
    steps: u32,
) -> Result<(), Failure> {
    if !machine.machine().can_move(thread) {
        return Err(Failure::Row);
    }
    let taken = machine.run_local(thread, steps);
    println!(rt; "  {thread} took {taken} local steps")?;
    Ok(())
}

// Prints what came to a thread from outside.
fn show_outside<R: Print>(
    rt: &R,
    thread: u32,
    outcome: Result<(), StepFault>,
    event: &Event,
) -> Result<(), Failure> {
    match outcome {
        Ok(()) => show_step(rt, thread, event)?,
        Err(fault) => show_refusal(rt, thread, fault)?,
    }
    Ok(())
}

// Prints what the next step of a thread, from where it stands, would be refused for.
fn show_next<R: Print>(rt: &R, machine: &PieceMachine, thread: u32) -> Result<(), Failure> {
    let whole = machine.machine();
    if thread == 0 || thread > whole.threads() {
        return Err(Failure::Row);
    }
    match machine.refusal_as(thread, whole.next_step(thread)) {
        Some(fault) => show_refusal(rt, thread, fault)?,
        None => println!(rt; "  {thread} can go on")?,
    }
    Ok(())
}

fn number(word: &str) -> Result<u32, Failure> {
    word.parse().map_err(|_| Failure::Row)
}

// Takes up to so many steps of a thread, and prints those that others see.
fn take_steps<R: Print>(
    rt: &R,
    machine: &mut PieceMachine,
    thread: u32,
    steps: u32,
) -> Result<(), Failure> {
    let mut event = Event::new(EventName::Local, 0);
    for _ in 0..steps {
        machine.make_room(1)?;
        match machine.step(thread, &mut event) {
            Ok(()) => show_step(rt, thread, &event)?,
            Err(fault) => {
                show_refusal(rt, thread, fault)?;
                return Ok(());
            }
        }
    }
    Ok(())
}
