ghost use Rattle.std.specs.Prelude.{◌<◌, ◌≤◌, length};

use crate::failure::Failure;
use machine::Machine;
use piece_machine::PieceMachine;
use runner::Verdict;
use std::alloc::{AllocError, Global};
use std::fmt::Write;
use words::{Addr, Cause, Outcome};

/// How a run ended, in a word: the verdict, the numbers that were printed, who aborted, with the fault, and who sleeps,
/// with the address, by rising number, and the words at these addresses. A comma stands before each of these.
pub fn outcome_of(
    alloc: Global,
    pieces: &PieceMachine,
    addresses: &[Addr],
) -> Result<String, Failure> {
    let mut text = String::new(alloc);
    let verdict = verdict_of(pieces);
    let machine = pieces.machine();
    write!(text, "{verdict:?}")?;
    for number in machine.output() {
        write!(text, ",{number}")?;
    }
    append_threads(&mut text, machine)?;
    append_words(&mut text, machine, addresses)?;
    Ok(text)
}

fn verdict_of(pieces: &PieceMachine) -> Verdict {
    if !pieces.quiet() {
        Verdict::Limit
    } else if pieces.machine().all_ended() {
        Verdict::Done
    } else {
        Verdict::Stuck
    }
}

fn append_threads(text: &mut String, machine: &Machine) -> Result<(), AllocError> {
    for before in 0..machine.threads() {
        append_thread(text, machine, before + 1)?;
    }
    Ok(())
}

// What became of a thread that was made, if it neither ended by its return nor can move.
fn append_thread(text: &mut String, machine: &Machine, thread: u32) -> Result<(), AllocError>
    requires { (0 < thread) × (thread ≤ length machine.now.threads) }
{
    match machine.outcome(thread) {
        Outcome::Aborted(Cause::Faulted(fault)) => write!(text, ",{thread}={fault:?}")?,
        Outcome::Aborted(Cause::Killed) => write!(text, ",{thread}=Killed")?,
        _ => {}
    }
    if let Some(address) = machine.asleep(thread) {
        let word = address.0;
        write!(text, ",{thread}@{word}")?;
    }
    Ok(())
}

// The words at these addresses, in their order, as hexadecimal digits.
fn append_words(text: &mut String, machine: &Machine, addresses: &[Addr]) -> Result<(), Failure> {
    for address in addresses {
        let number = address.0;
        if number as usize >= machine.memory_len() {
            return Err(Failure::Address(number));
        }
        let word = machine.word(*address);
        write!(text, ",{number}:{word:x}")?;
    }
    Ok(())
}
