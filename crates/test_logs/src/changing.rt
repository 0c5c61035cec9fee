use log_text::append_log;
use machine::{Entry, Event, EventName, ThreadSet};
use packed_log::LogReader;
use std::alloc::{AllocError, Global};
use test_schedules::Sequence;

/// The ways in which a log is changed.
pub const CHANGES: [Change; 9] = [
    Change::Byte,
    Change::LeftOut,
    Change::Doubled,
    Change::Exchanged,
    Change::Thread,
    Change::Count,
    Change::Name,
    Change::Value,
    Change::Woken,
];

// The names that an event may become.
const NAMES: [EventName; 8] = [
    EventName::Load,
    EventName::Store,
    EventName::Wait,
    EventName::Wake,
    EventName::Requeue,
    EventName::Die,
    EventName::Stray,
    EventName::Kill,
];

// As many threads are drawn, and 0.
const THREADS: u32 = 1000;

/// How a log is changed, at a place that is drawn.
#[derive(Clone, Copy, PartialEq, Eq, Debug)]
pub enum Change {
    /// A byte of its text is another one.
    Byte,
    /// An entry is left out.
    LeftOut,
    /// An entry stands twice.
    Doubled,
    /// Two entries are exchanged.
    Exchanged,
    /// An entry's thread is drawn.
    Thread,
    /// How many local steps an entry has is drawn.
    Count,
    /// The name of an entry's event is drawn.
    Name,
    /// The value of an entry's event is drawn.
    Value,
    /// An entry's event woke one thread, which is drawn.
    Woken,
}

impl Change {
    /// What is told of it.
    pub fn name(self) -> &'static str {
        match self {
            Change::Byte => "a byte",
            Change::LeftOut => "an entry left out",
            Change::Doubled => "an entry twice",
            Change::Exchanged => "two entries exchanged",
            Change::Thread => "a thread",
            Change::Count => "a count",
            Change::Name => "a name",
            Change::Value => "a value",
            Change::Woken => "a thread woken",
        }
    }

    /// The text of a log that is changed so.
    pub fn text_of(
        self,
        alloc: Global,
        log: &[Entry],
        sequence: &mut Sequence,
    ) -> Result<Vec<u8>, AllocError> {
        let entries = self.entries_of(alloc, log, sequence)?;
        let mut bytes = lines_of(alloc, entries.as_slice())?;
        if self == Change::Byte {
            change_byte(bytes.as_mut_slice(), sequence);
        }
        Ok(bytes)
    }

    // The entries of a log that is changed so; those of the log, where a byte is to be changed.
    fn entries_of(
        self,
        alloc: Global,
        log: &[Entry],
        sequence: &mut Sequence,
    ) -> Result<Vec<Entry>, AllocError> {
        let mut entries = Vec::from_slice(alloc, log)?;
        let place = draw_below(sequence, log.len());
        if place >= entries.len() {
            return Ok(entries);
        }
        match self {
            Change::Byte => {}
            Change::LeftOut => {
                entries.remove(place);
            }
            Change::Doubled => entries.insert(place, entries[place])?,
            Change::Exchanged => {
                let other = draw_below(sequence, log.len());
                exchange(entries.as_mut_slice(), place, other);
            }
            _ => self.change_entry(&mut entries.as_mut_slice()[place], sequence),
        }
        Ok(entries)
    }

    // Changes a part of an entry.
    fn change_entry(self, entry: &mut Entry, sequence: &mut Sequence) {
        match self {
            Change::Thread => entry.thread = draw_number(sequence),
            Change::Count => entry.local = draw_number(sequence),
            _ => entry.event = Some(self.event_for(entry.event, sequence)),
        }
    }

    // The event in place of that of an entry; a turn has that of a kill that nobody dies by.
    fn event_for(self, before: Option<Event>, sequence: &mut Sequence) -> Event {
        let mut event = before.unwrap_or(Event::new(EventName::Kill, 0));
        match self {
            Change::Name => event.name = draw_name(sequence),
            Change::Value => event.value = draw_number(sequence),
            _ => event.woken = draw_set(sequence),
        }
        event
    }
}

// The lines of a log.
fn lines_of(alloc: Global, log: &[Entry]) -> Result<Vec<u8>, AllocError> {
    let mut text = String::new(alloc);
    append_log(&mut text, LogReader::of(log))?;
    Ok(text.into_bytes())
}

// Changes a byte that is drawn.
fn change_byte(bytes: &mut [u8], sequence: &mut Sequence) {
    let place = draw_below(sequence, bytes.len());
    let bits = (sequence.draw() % 255 + 1) as u8;
    if let Some(byte) = bytes.get_mut(place) {
        *byte ^= bits;
    }
}

fn exchange(entries: &mut [Entry], place: usize, other: usize) {
    if place < entries.len() && other < entries.len() {
        entries.swap(place, other);
    }
}

// A number below this one, or 0 where this is 0.
fn draw_below(sequence: &mut Sequence, end: usize) -> usize {
    let number = sequence.draw() as usize;
    number.checked_rem(end).unwrap_or(0)
}

// A number of 32 bits: as often as not one of a thread, or one past them.
fn draw_number(sequence: &mut Sequence) -> u32 {
    let number = sequence.draw();
    if number % 2 == 0 {
        number / 2 % (THREADS + 2)
    } else {
        number.wrapping_mul(0x1_0001)
    }
}

fn draw_name(sequence: &mut Sequence) -> EventName {
    let place = draw_below(sequence, NAMES.len());
    NAMES.get(place).copied().unwrap_or(EventName::Load)
}

// One thread.
fn draw_set(sequence: &mut Sequence) -> ThreadSet {
    let thread = sequence.draw() % THREADS + 1;
    ThreadSet::of(&[thread])
}
