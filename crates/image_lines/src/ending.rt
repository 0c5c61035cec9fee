use crate::lines::{Doing, Lines};
use crate::origin::Origin;
use locals::Local;
use machine::{Machine, ThreadSet};
use text_writer::TextWriter;
use words::Addr;

// The word at an address; 0 where there is none.
fn word_at(machine: &Machine, address: Addr) -> u32 {
    if (address.0 as usize) < machine.memory_len() {
        machine.word(address)
    } else {
        0
    }
}

// The place of the wait behind which a thread stands that sleeps.
fn place_before(local: &Local) -> Option<u32> {
    match local.place() {
        None => None,
        Some(place) => Some(place.saturating_sub(1)),
    }
}

// Writes where a thread sleeps, if it does.
fn write_sleeper(machine: &Machine, t: u32, base: u32, origin: &Origin, writer: &mut TextWriter) {
    if t == 0 || t > machine.threads() {
        return;
    }
    if let Some(address) = machine.asleep(t) {
        writer.form("  thread $ sleeps on ", &[u64::from(t)]);
        origin.write_word(address.0, base, writer);
        writer.form(", which is $", &[u64::from(word_at(machine, address))]);
        origin.end_line(place_before(machine.local(t)), writer);
    }
}

/// Writes who sleeps at the end of a run.
pub(crate) fn write_end(machine: &Machine, base: u32, origin: &Origin, lines: &mut Lines) {
    for before in 0..machine.threads() {
        let from = lines.writer.len();
        write_sleeper(machine, before + 1, base, origin, &mut lines.writer);
        lines.mark(from, before + 1, Doing::Stays, ThreadSet::new());
    }
}
