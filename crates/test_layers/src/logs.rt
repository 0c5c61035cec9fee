ghost use Rattle.std.specs.Prelude.{IfOk};
ghost use Rattle.machine.specs.ThreadSets.{IsMember};

use crate::failure::Failure;
use machine::{Entry, Event, EventName, MOST_THREADS, ThreadSet};
use packed_log::{LogReader, PackedLog};
use std::str::SplitWhitespace;

// From here on a thread and a number of local steps have no room in a head.
const THREAD_END: u32 = 1024;

const LOCAL_END: u32 = 512;

/// Puts the entries of a row into a log, one after the other, and prints whether it gives them back.
pub fn show_log(rt: &HostRuntime, row: &str) -> Result<(), Failure> {
    let mut log = PackedLog::new(rt.alloc());
    show_puts(rt, &mut log, row)
}

// Puts the entries into the log, and prints what it says of each, and of all of them.
fn show_puts(rt: &HostRuntime, log: &mut PackedLog, row: &str) -> Result<(), Failure> {
    let mut entries = Vec::new(rt.alloc());
    for part in row.split(',') {
        entries.push(show_put(rt, log, part.trim())?)?;
    }
    show_all(rt, log, entries.as_slice())
}

// Puts the entry into the log that stands behind the name of a call, and prints what the log then says.
fn show_put(rt: &HostRuntime, log: &mut PackedLog, part: &str) -> Result<Entry, Failure> {
    let (call, rest) = part.split_once(' ').ok_or(Failure::Row)?;
    let entry = entry_of(rest)?;
    put(log, call, entry)?;
    show_last(rt, log, entry)?;
    Ok(entry)
}

// Puts an entry at the end of a log by the call of this name.
fn put(log: &mut PackedLog, call: &str, entry: Entry) -> Result<(), Failure> {
    match (call, entry.event) {
        ("push", _) => log.push(entry)?,
        ("parts", event) => {
            log.make_room()?;
            log.push_parts(entry.thread, entry.local, event.as_ref());
        }
        ("plain", Some(event)) => {
            if !log.has_room() {
                log.make_room_for(2)?;
            }
            log.push_plain(entry.thread, entry.local, event.name, event.value);
        }
        ("small", Some(event)) if entry.thread < THREAD_END && entry.local < LOCAL_END => {
            log.make_room_for(1)?;
            log.push_small(entry.thread, entry.local, event.name, event.value);
        }
        _ => return Err(Failure::Row),
    }
    Ok(())
}

// Prints how many entries there are, and whether the last one is this entry and woke its threads.
fn show_last(rt: &HostRuntime, log: &PackedLog, entry: Entry) -> Result<(), Failure> {
    let mut woken = ThreadSet::of(&[1, 2]);
    let name = log.last_woken(&mut woken);
    let wanted = entry.event.map_or(ThreadSet::new(), |event| event.woken);
    let is_last = log.last() == Some(entry);
    println!(rt;
        "  {} entries, empty: {}, last: {is_last}, {name:?}, woken: {}",
        log.len(),
        log.is_empty(),
        woken == wanted
    )?;
    Ok(())
}

// Prints what a log of these entries says of them, and what logs without entries say.
fn show_all(rt: &HostRuntime, log: &PackedLog, entries: &[Entry]) -> Result<(), Failure> {
    show_list(rt, log, entries)?;
    show_read(rt, log, entries)?;
    show_empty(rt, &PackedLog::new(rt.alloc()))?;
    show_empty(rt, &PackedLog::with_capacity(rt.alloc(), entries.len())?)
}

fn show_list(rt: &HostRuntime, log: &PackedLog, entries: &[Entry]) -> Result<(), Failure> {
    let list = log.to_vec(rt.alloc())?;
    println!(rt; "  list: {}", list.as_slice() == entries)?;
    Ok(())
}

// Prints what a reader of the log says, and one of the list.
fn show_read(rt: &HostRuntime, log: &PackedLog, entries: &[Entry]) -> Result<(), Failure> {
    println!(rt; "  {} to read", log.iter().len())?;
    let mut reader = LogReader::of(entries);
    let left = reader.len();
    println!(rt;
        "  {left} to read, first: {}",
        reader.next() == log.iter().next()
    )?;
    Ok(())
}

fn show_empty(rt: &HostRuntime, log: &PackedLog) -> Result<(), Failure> {
    println!(rt; "  without entries: {}", log.is_empty())?;
    Ok(())
}

// An entry: its thread, its local steps, and the kind of its step, the value, the woken and the moved threads, if there are.
fn entry_of(text: &str) -> Result<Entry, Failure> {
    let mut words = text.split_whitespace();
    let thread = number(words.next())?;
    let local = number(words.next())?;
    let event = match words.next() {
        Some(name) => Some(event_of(name, words)?),
        None => None,
    };
    Ok(Entry {
        thread,
        local,
        event,
    })
}

fn event_of(name: &str, mut words: SplitWhitespace) -> Result<Event, Failure> {
    Ok(Event {
        name: name_of(name)?,
        value: number(words.next())?,
        woken: set_of(words.next())?,
        moved: set_of(words.next())?,
    })
}

// The kinds of steps that rows name.
fn name_of(name: &str) -> Result<EventName, Failure> {
    match name {
        "Kill" => Ok(EventName::Kill),
        "Requeue" => Ok(EventName::Requeue),
        _ => Err(Failure::Row),
    }
}

// No thread, one thread, or two with a plus sign between them.
fn set_of(word: Option<&str>) -> Result<ThreadSet, Failure> {
    let Some(word) = word else {
        return Ok(ThreadSet::new());
    };
    match word.split_once('+') {
        Some((one, two)) => Ok(ThreadSet::of(&[thread_of(one)?, thread_of(two)?])),
        None => Ok(ThreadSet::of(&[thread_of(word)?])),
    }
}

// The number of a thread.
fn thread_of(word: &str) -> Result<u32, Failure>
    ensures { IfOk result IsMember }
{
    let thread = number(Some(word))?;
    if thread == 0 || thread > MOST_THREADS {
        return Err(Failure::Outside);
    }
    Ok(thread)
}

fn number(word: Option<&str>) -> Result<u32, Failure> {
    word.ok_or(Failure::Row)?.parse().map_err(|_| Failure::Row)
}
