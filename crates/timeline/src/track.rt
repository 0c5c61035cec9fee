use crate::slice::Slice;
use crate::tape::Tape;
use program::{Member, Names};
use std::alloc::{AllocError, Global};

/// What is known of a monitor.
#[derive(Drop)]
pub(crate) struct Gate {
    /// The flow from who gave it up, where another process takes it next.
    pub given_up: Option<u64>,
    /// How many processes wait on each of its members.
    pub waiting: Vec<u64>,
}

/// The track of a process.
#[derive(Drop)]
pub(crate) struct Track {
    /// The slices that it is in, the outermost first.
    pub open: Vec<Slice>,
    /// The flow from who resumed it.
    pub resumed: Option<u64>,
    /// The flow from its end.
    pub ended: Option<u64>,
}

// Zeros, one for each member of a monitor.
fn zeros(alloc: Global, members: &[&[u8]]) -> Result<Vec<u64>, AllocError> {
    let mut zeros = Vec::new(alloc);
    for _member in members {
        zeros.push(0)?;
    }
    Ok(zeros)
}

// A monitor of these members as a run begins.
fn new_gate(alloc: Global, members: &[&[u8]]) -> Result<Gate, AllocError> {
    let waiting = zeros(alloc, members)?;
    Ok(Gate {
        given_up: None,
        waiting,
    })
}

/// The monitors as a run begins.
pub(crate) fn gates(alloc: Global, names: &Names) -> Result<Vec<Gate>, AllocError> {
    let mut gates = Vec::new(alloc);
    for naming in names.monitors.iter() {
        gates.push(new_gate(alloc, naming.members.as_slice())?)?;
    }
    Ok(gates)
}

// How many processes wait on a condition.
fn waiting(gates: &mut [Gate], condition: Member) -> Option<&mut u64> {
    let gate = gates.get_mut(condition.monitor as usize)?;
    gate.waiting.get_mut(condition.number as usize)
}

// A process waits on a condition more, or less.
fn recount(tape: &mut Tape, gates: &mut [Gate], condition: Member, begins: bool) {
    let Some(count) = waiting(gates, condition) else {
        return;
    };
    if begins {
        *count = count.saturating_add(1);
    } else {
        *count = count.saturating_sub(1);
    }
    tape.count(condition, *count)
}

impl Track {
    /// A track without slices.
    pub fn new(alloc: Global) -> Track {
        Track {
            open: Vec::new(alloc),
            resumed: None,
            ended: None,
        }
    }

    // How many of its slices go on, from the outermost.
    fn kept(&self, slices: &[Slice]) -> usize {
        let mut kept: usize = 0;
        for (open, slice) in self.open.iter().zip(slices) {
            if *open != *slice {
                break;
            }
            kept = kept.saturating_add(1);
        }
        kept
    }

    // Ends the innermost slice.
    fn close(&mut self, tape: &mut Tape, gates: &mut [Gate], process: u64) {
        let Some(slice) = self.open.pop() else {
            return;
        };
        tape.close(process, slice);
        match slice {
            Slice::Waits(condition) => recount(tape, gates, condition, false),
            _ => {}
        }
    }

    // Begins a slice within the others.
    fn open(&mut self, tape: &mut Tape, gates: &mut [Gate], process: u64, slice: Slice) {
        tape.out.push(&mut self.open, slice);
        tape.open(process, slice);
        match slice {
            Slice::Waits(condition) => recount(tape, gates, condition, true),
            _ => {}
        }
    }

    // Ends its slices from a place on, the innermost first.
    fn close_from(&mut self, tape: &mut Tape, gates: &mut [Gate], process: u64, kept: usize) {
        for _place in kept..self.open.len() {
            self.close(tape, gates, process);
        }
    }

    /// From now on the process is in these slices: some end, and others begin.
    pub fn change(&mut self, tape: &mut Tape, gates: &mut [Gate], process: u64, slices: &[Slice]) {
        let kept = self.kept(slices);
        self.close_from(tape, gates, process, kept);
        for slice in slices.get(kept..).unwrap_or(&[]) {
            self.open(tape, gates, process, *slice);
        }
    }

    /// Ends its slices with the run, though the process goes on.
    pub fn cut(&self, tape: &mut Tape, process: u64) {
        for slice in self.open.iter().rev() {
            tape.close(process, *slice);
        }
    }
}
