use std::sync::atomic::{AtomicBool, AtomicU64, Ordering};
use std::thread;
use words::Gate;

/// A gate that only two workers pass: the first one's second pass waits for the second one's first, and that one for
/// it. Each waits for so many turns, and then notes that it missed the other.
#[derive(Drop)]
pub struct Meeting {
    turns: u32,
    first: AtomicU64,
    second: AtomicU64,
    missed: AtomicBool,
}

impl Meeting {
    /// A meeting of two workers, in so many turns.
    pub fn new(turns: u32) -> Meeting {
        Meeting {
            turns,
            first: AtomicU64::new(0),
            second: AtomicU64::new(0),
            missed: AtomicBool::new(false),
        }
    }

    /// Whether each pass that had to be waited for came, and the second worker passed at all.
    pub fn was_held(&self) -> bool {
        !self.missed.load(Ordering::SeqCst) && self.second.load(Ordering::SeqCst) > 0
    }

    // Waits for so many passes.
    fn wait_for(&self, passes: &AtomicU64, count: u64) {
        for _ in 0..self.turns {
            if passes.load(Ordering::SeqCst) >= count {
                return;
            }
            thread::yield_now();
        }
        self.missed.store(true, Ordering::SeqCst);
    }
}

impl Gate for Meeting {
    fn pass(&self, who: u32) {
        if who == 1 && self.first.fetch_add(1, Ordering::SeqCst) == 1 {
            self.wait_for(&self.second, 1);
        }
        if who == 2 && self.second.fetch_add(1, Ordering::SeqCst) == 0 {
            self.wait_for(&self.first, 2);
        }
    }
}
