//! The program mesamon: it hands its words to `mesamon::perform_with_hints`, where its text wants it on a thread with a
//! larger stack.
#![tactic(auto)]

mod piped;
mod stack;

use crate::piped::Piped;
use crate::stack::stack_for;
use mesamon::{Counted, FileFailures, Progress, ProgressLines, Status, perform_with_hints};
use std::io::Write;
use std::process::ExitCode;
use std::rt::{Env, Files};
use std::sync::Wait;
use std::thread::{Builder, Threads};
use std::{env, io};

// For how many states that a search keeps it tells once how far it has come.
const STATES: usize = 100_000;

// The status where nobody reads what is written: the one that a shell gives for a program that the signal PIPE has ended,
// which the standard library has this one ignore.
const PIPE: u8 = 141;

fn main(rt: HostRuntime) -> ExitCode {
    let Some(stack) = stack_for(&rt) else {
        return ExitCode::from(do_job(&rt, rt.stdout(), rt.stderr(), rt.stderr()));
    };
    let started = Builder::new().stack_size(stack).spawn(
        &rt,
        move || do_job(&rt, rt.stdout(), rt.stderr(), rt.stderr()),
    );
    ExitCode::from(match started {
        Ok(thread) => thread.join(&rt),
        Err(_) => do_job(&rt, rt.stdout(), rt.stderr(), rt.stderr()),
    })
}

// Does the job, and answers the exit status. What tells how far a search has come is a writer of its own, since `errors`
// is lent to whoever does the job.
fn do_job<
    R: Env + Files + Eprint + AllocGlobal + Threads + Wait + Sync,
    O: Write + Drop,
    E: Write + Drop,
>(rt: &R, output: O, errors: E, progress: E) -> u8 {
    let mut output = Counted::new(Piped::new(output));
    let mut errors = Counted::new(Piped::new(errors));
    let mut progress = ProgressLines::new(progress, STATES);
    let status = match perform_words(rt, &mut output, &mut errors, &mut progress) {
        Ok(status) => status,
        Err(error) => refuse(rt, &error).code(),
    };
    let left = output.into_inner().is_left() || errors.into_inner().is_left();
    if left && status == Status::Failed.code() {
        PIPE
    } else {
        status
    }
}

// Does what the words of the command line ask for.
fn perform_words<
    R: Env + Files + AllocGlobal + Threads + Wait + Sync,
    O: Write,
    E: Write,
    P: Progress,
>(rt: &R, output: &mut Counted<O>, errors: &mut Counted<E>, progress: &mut P) -> io::Result<u8> {
    let words: Vec<String> = env::args(rt)?.skip(1).collect(rt.alloc())?;
    let texts: Vec<&str> = words.iter().map(|word| word.as_str()).collect(rt.alloc())?;
    let mut failures = FileFailures::new();
    Ok(perform_with_hints(
        rt,
        texts.as_slice(),
        &mut failures,
        output,
        errors,
        progress,
    ))
}

// Says why there are no words: one of them is no UTF-8, or there was no memory for them.
fn refuse(rt: &impl Eprint, error: &io::Error) -> Status {
    if error.kind() == io::ErrorKind::InvalidData {
        let _told = rt.eprintln("error: a word of the command line is not UTF-8");
        Status::Usage
    } else {
        let _told = rt.eprintln("memory");
        Status::Memory
    }
}
