use piece_machine::PieceMachine;
use test_schedules::{SORTS, Sequence, draw_mover, draw_sleeper};

/// Which thread takes each next step, as it follows from a seed alone.
#[derive(Drop)]
pub struct Schedule {
    sequence: Sequence,
    // One less than the most steps that a thread takes in a row: a number of bits that are all 1.
    mask: u32,
    // Who took the last step, from 1 on, and how many it may still take in a row.
    thread: u32,
    left: u32,
}

impl Schedule {
    /// The schedule of a seed, before its first step.
    pub fn new(seed: u32) -> Schedule {
        Schedule {
            sequence: Sequence::new(seed),
            mask: !(u32::MAX << (seed % SORTS)),
            thread: 0,
            left: 0,
        }
    }

    /// The thread that takes the next step, if any can take one.
    pub fn next(&mut self, machine: &PieceMachine) -> Option<u32> {
        if self.left > 0 && machine.can_move(self.thread) {
            self.left -= 1;
            return Some(self.thread);
        }
        self.thread = draw_mover(machine, &mut self.sequence)?;
        self.left = self.sequence.draw() & self.mask;
        Some(self.thread)
    }

    /// The thread that is woken from outside, if any sleeps.
    pub fn next_sleeper(&mut self, machine: &PieceMachine) -> Option<u32> {
        draw_sleeper(machine.machine(), &mut self.sequence)
    }
}
