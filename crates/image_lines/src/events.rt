use crate::lines::{Doing, Lines};
use crate::origin::Origin;
use locals::{NextStep, Request};
use machine::{Event, ThreadSet};
use text_writer::TextWriter;
use words::Cause;

/// What a line tells of a step: whose it is, where its thread stood, and what came next of it.
#[derive(Clone, Copy)]
pub(crate) struct Seen {
    /// The thread.
    pub thread: u32,
    /// The place of its instruction, where it ran its code.
    pub place: Option<u32>,
    /// The step.
    pub next: NextStep,
    /// The first address that belongs to no process.
    pub base: u32,
}

// The threads that there can be.
const MOST: u32 = 1000;

// Writes the threads of a set, behind a word; or nothing, where there is none.
fn write_threads(word: &str, set: &ThreadSet, writer: &mut TextWriter) {
    if set.is_empty() {
        return;
    }
    writer.text(word);
    for before in 0..MOST {
        if set.contains(before + 1) {
            writer.form(" $", &[u64::from(before) + 1]);
        }
    }
}

// Writes whom a step woke and moved, or that it woke nobody.
fn write_woken(event: &Event, writer: &mut TextWriter) {
    if event.woken.is_empty() && event.moved.is_empty() {
        writer.text(" woke nobody");
    }
    write_threads(" woke", &event.woken, writer);
    write_threads(" moved", &event.moved, writer);
}

// Writes a step of this name at a word, and the word before it.
fn write_at(
    name: &str,
    word: u32,
    before: u32,
    seen: Seen,
    origin: &Origin,
    writer: &mut TextWriter,
) {
    writer.text(name);
    origin.write_word(word, seen.base, writer);
    writer.form(" $", &[u64::from(before)]);
}

// The same, and the word behind it.
fn write_change(
    name: &str,
    word: u32,
    before: u32,
    behind: u32,
    seen: Seen,
    origin: &Origin,
    writer: &mut TextWriter,
) {
    write_at(name, word, before, seen, origin, writer);
    writer.form(" to $", &[u64::from(behind)]);
}

// Writes a compare-and-swap that found this word.
fn write_swapped(
    word: u32,
    expected: u32,
    new: u32,
    found: u32,
    seen: Seen,
    origin: &Origin,
    writer: &mut TextWriter,
) {
    if found == expected {
        write_change("CAS ", word, found, new, seen, origin, writer);
    } else {
        write_at("CAS ", word, found, seen, origin, writer);
        writer.form(", not $", &[u64::from(expected)]);
    }
}

// Writes why a thread dies.
fn write_cause(cause: Cause, writer: &mut TextWriter) {
    match cause {
        Cause::Killed => writer.text("dies of a kill"),
        Cause::Faulted(fault) => writer.form("dies of fault $", &[u64::from(fault.number())]),
    }
}

// Writes an access to a word, or the end of a thread.
fn write_access(
    request: Request,
    event: &Event,
    seen: Seen,
    origin: &Origin,
    writer: &mut TextWriter,
) {
    let value = event.value;
    match request {
        Request::Load(a) => write_at("LOAD ", a.0, value, seen, origin, writer),
        Request::Store(a, new) => write_at("STORE ", a.0, new, seen, origin, writer),
        Request::Swap(a, new) => write_change("SWAP ", a.0, value, new, seen, origin, writer),
        Request::CompareSwap {
            address,
            expected,
            new,
        } => write_swapped(address.0, expected, new, value, seen, origin, writer),
        Request::FetchOr(a, bits) => write_change(
            "AOR ",
            a.0,
            value,
            value | bits,
            seen,
            origin,
            writer,
        ),
        Request::FetchAdd(a, number) => {
            let behind = value.wrapping_add(number);
            write_change("AADD ", a.0, value, behind, seen, origin, writer)
        }
        Request::Print(number) => writer.form("PRINT $", &[u64::from(number)]),
        Request::Return => writer.text("RET"),
        Request::ReturnValue(number) => writer.form("RETV $", &[u64::from(number)]),
        Request::Fault(cause) => write_cause(cause, writer),
        _ => {}
    }
}

// Writes a futex call, or another request.
fn write_request(
    request: Request,
    event: &Event,
    seen: Seen,
    origin: &Origin,
    writer: &mut TextWriter,
) {
    match request {
        Request::Wait { address, expected } => {
            write_at("FWAIT ", address.0, expected, seen, origin, writer);
            writer.text(if event.value == 0 {
                " sleeps"
            } else {
                " goes on"
            });
        }
        Request::Wake { address, count } => {
            write_at("FWAKE ", address.0, count, seen, origin, writer);
            write_woken(event, writer);
        }
        Request::Requeue {
            from,
            to,
            wake: _,
            moves: _,
            expected,
        } => {
            write_at("FREQ ", from.0, expected, seen, origin, writer);
            writer.text(" to ");
            origin.write_word(to.0, seen.base, writer);
            write_requeued(event, writer);
        }
        _ => write_access(request, event, seen, origin, writer),
    }
}

// Writes what came of a requeue.
fn write_requeued(event: &Event, writer: &mut TextWriter) {
    if event.value == u32::MAX {
        writer.text(" goes on");
    } else {
        write_woken(event, writer);
    }
}

// What a step is, by what came next of its thread.
fn doing_of(event: &Event, next: NextStep) -> Doing {
    match next {
        NextStep::Fork { .. } => Doing::Fork(event.value),
        NextStep::Shared(Request::Wait { .. }) if event.value == 0 => Doing::Sleep,
        NextStep::Shared(Request::Return) | NextStep::Shared(Request::ReturnValue(_)) => Doing::End,
        NextStep::Shared(Request::Fault(_)) => Doing::Die,
        _ => Doing::Other,
    }
}

// Writes the line of a shared step. Of an exit's steps those alone have one that wake somebody.
fn write_shared(event: &Event, seen: Seen, origin: &Origin, writer: &mut TextWriter) {
    let thread = u64::from(seen.thread);
    match seen.next {
        NextStep::Shared(request) => {
            writer.form("$ ", &[thread]);
            write_request(request, event, seen, origin, writer);
            origin.end_line(seen.place, writer);
        }
        NextStep::Fork { .. } => {
            writer.form("$ FORK $", &[thread, u64::from(event.value)]);
            origin.end_line(seen.place, writer);
        }
        NextStep::Exit(_) => {
            if !event.woken.is_empty() {
                writer.form("$ exits,", &[thread]);
                write_woken(event, writer);
                origin.end_line(None, writer);
            }
        }
        _ => {}
    }
}

/// Writes the line of a shared step that was taken whole, or in its last piece, if it has one.
pub(crate) fn write_event(event: &Event, seen: Seen, origin: &Origin, lines: &mut Lines) {
    let from = lines.writer.len();
    write_shared(event, seen, origin, &mut lines.writer);
    lines.mark(from, seen.thread, doing_of(event, seen.next), event.woken)
}
