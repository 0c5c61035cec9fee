use crate::ends::append_process;
use crate::follower::Follower;
use places::places_of;
use program::{Checked, Names};
use source_states::Action;
use std::alloc::{AllocError, Global};
use text_writer::TextWriter;

/// What an entry of a schedule or a log wanted of a thread, and didn't get.
#[derive(Clone, Copy)]
pub enum Refused {
    /// A step.
    Step(u32),
    /// A stray wake.
    Stray(u32),
    /// A kill.
    Kill(u32),
}

const CANNOT_MOVE: &str =
    "  process $ can't move there: it sleeps, waits for a held bucket, or its step is another one\n";

impl Refused {
    // What is said of it and of its process.
    fn form(self) -> &'static str {
        match self {
            Refused::Step(_) => CANNOT_MOVE,
            Refused::Stray(_) => "  process $ doesn't sleep there, so it can't be woken\n",
            Refused::Kill(_) => "  process $ can't be killed so there\n",
        }
    }

    // The thread.
    fn thread(self) -> u32 {
        match self {
            Refused::Step(thread) => thread,
            Refused::Stray(thread) => thread,
            Refused::Kill(thread) => thread,
        }
    }
}

// Appends that there is no such process.
fn append_unmade(out: &mut TextWriter, process: u64, made: u64) {
    if process == 0 {
        return out.text("  the entry names no process: they count from 1\n");
    }
    let form = "  process $ wasn't made there: of processes there were $\n";
    out.form(form, &[process, made])
}

// Appends what is refused to a process that was made.
fn append_refusal(
    out: &mut TextWriter,
    follower: &Follower<'_, '_>,
    refused: Refused,
    process: u64,
) {
    match refused {
        Refused::Step(_) if follower.state.over(process).is_some() => {}
        _ => out.form(refused.form(), &[process]),
    }
}

/// The hints to an entry of a schedule or a log that is refused behind a run of a program, whose text this is: what is
/// refused, and where the process stands.
///
/// # Errors
///
/// Where memory runs out, and for nothing else.
pub fn entry_hints(
    alloc: Global,
    file: &str,
    text: &[u8],
    checked: &Checked,
    actions: &[Action],
    refused: Refused,
) -> Result<String, AllocError> {
    let places = places_of(alloc, text)?;
    let mut out = TextWriter::new(alloc);
    match Follower::opening(alloc, checked, &places) {
        Ok(mut follower) => {
            follow(&mut out, &mut follower, actions);
            append_hints(&mut out, file, &follower, checked.names(), refused)
        }
        Err(_) => out.fail(),
    }
    out.finish()
}

// Follows actions.
fn follow(out: &mut TextWriter, follower: &mut Follower<'_, '_>, actions: &[Action]) {
    follower.begin(out);
    follower.pass_all(out, actions)
}

// Appends the hints to an entry that is refused where a run has come to.
fn append_hints(
    out: &mut TextWriter,
    file: &str,
    follower: &Follower<'_, '_>,
    names: &Names<'_>,
    refused: Refused,
) {
    let process = u64::from(refused.thread());
    let made = follower.state.made();
    if process == 0 || process > made {
        return append_unmade(out, process, made);
    }
    append_refusal(out, follower, refused, process);
    append_process(out, file, follower, names, process)
}
