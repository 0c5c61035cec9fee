//! Speed and aim alone: no promise rests on what is told here.

use layout::Layout;
use locals::{NextStep, Request};
use machine::Machine;
use robustexit::ExitPhase;
use words::{Addr, MOST_THREADS, ProcessWord, block, tid};

/// Where the locks of a program's monitors lie.
#[derive(Clone, Copy)]
pub(crate) struct Locks<'a> {
    /// Where its words lie.
    pub(crate) layout: &'a Layout,
    /// How many monitors it has.
    pub(crate) monitors: u32,
}

impl Locks<'_> {
    /// Whether a monitor's lock word has this address.
    pub(crate) fn has(&self, address: Addr) -> bool {
        for monitor in 0..self.monitors {
            if self.layout.link(monitor) + 1 == address.0 {
                return true;
            }
        }
        false
    }

    /// Whether by its next step, which is this, a thread takes a lock or gives one up, notifies, broadcasts or makes a
    /// thread. These are the steps that other processes see, but for what they join.
    pub(crate) fn is_handed(&self, machine: &Machine, t: u32, step: NextStep) -> bool {
        match step {
            NextStep::Shared(request) => self.is_handed_by(machine, request),
            NextStep::Fork { .. } => true,
            NextStep::Exit(phase) => abandons(machine, t, phase),
            NextStep::Local | NextStep::Broken | NextStep::Ended => false,
        }
    }

    // The same of a request.
    fn is_handed_by(&self, machine: &Machine, request: Request) -> bool {
        match request {
            Request::CompareSwap {
                address,
                expected,
                ..
            } => self.has(address) && tid(expected) == 0 && word_at(machine, address) == expected,
            Request::Swap(address, new) => {
                self.has(address) && (new == 0 || word_at(machine, address) == 0)
            }
            Request::FetchAdd(address, _) => self.has(address),
            Request::Wake { address, .. } => !self.has(address),
            Request::Requeue { .. } => true,
            _ => false,
        }
    }
}

// The word at an address, 0 where the memory has none.
fn word_at(machine: &Machine, address: Addr) -> u32 {
    if address.0 as usize >= machine.memory_len() {
        return 0;
    }
    machine.word(address)
}

// Whether thread `t` owns the lock of a robust list's entry.
fn owns(machine: &Machine, t: u32, entry: u32) -> bool {
    entry != 0 && entry != u32::MAX && tid(word_at(machine, Addr(entry + 1))) == t
}

// The pending word of thread `t`.
fn pending_word(machine: &Machine, t: u32) -> u32 {
    if t == 0 || t > MOST_THREADS {
        return 0;
    }
    word_at(machine, block(t, ProcessWord::Pending))
}

// Whether thread `t` gives up a lock by the step of its exit in this phase.
fn abandons(machine: &Machine, t: u32, phase: ExitPhase) -> bool {
    let pending = pending_word(machine, t);
    match phase {
        ExitPhase::Entry { entry, .. } => pending != entry.0 && owns(machine, t, entry.0),
        ExitPhase::Pending => owns(machine, t, pending),
        ExitPhase::ClearId | ExitPhase::LastWake | ExitPhase::Ended => false,
    }
}
