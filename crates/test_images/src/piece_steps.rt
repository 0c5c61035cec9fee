use crate::show::show_set;
use machine::{Event, EventName, MOST_THREADS, StepFault};
use piece_machine::PieceMachine;
use std::io;

/// Prints a step of a thread, unless it is a local one.
pub fn show_step<R: Print>(rt: &R, thread: u32, event: &Event) -> io::Result<()> {
    if event.name == EventName::Local {
        return Ok(());
    }
    println!(rt; "  {thread} {:?} {}", event.name, event.value)?;
    show_set(rt, "woke", event.woken)?;
    show_set(rt, "moved", event.moved)
}

/// Prints why a step of a thread is refused.
pub fn show_refusal<R: Print>(rt: &R, thread: u32, fault: StepFault) -> io::Result<()> {
    println!(rt; "  {thread} {fault:?}")
}

/// Prints the threads that can take a step, or that none can.
pub fn show_movers<R: Print>(rt: &R, machine: &PieceMachine) -> io::Result<()> {
    if machine.quiet() {
        return println!(rt; "  rest");
    }
    for before in 0..MOST_THREADS {
        let thread = before + 1;
        if machine.can_move(thread) {
            println!(rt; "  {thread} can move")?;
        }
    }
    Ok(())
}
