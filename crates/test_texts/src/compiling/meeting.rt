use std::sync::atomic::{AtomicBool, Ordering};
use std::thread;
use words::Gate;

/// A gate of three workers: the first pass of each waits until all three have called it. Each waits for so many turns,
/// and then notes that it missed the others.
#[derive(Drop)]
pub struct Meeting {
    turns: u32,
    called: [AtomicBool; 3],
    missed: AtomicBool,
}

impl Meeting {
    /// A meeting of three workers, in so many turns.
    pub fn new(turns: u32) -> Meeting {
        Meeting {
            turns,
            called: [
                AtomicBool::new(false),
                AtomicBool::new(false),
                AtomicBool::new(false),
            ],
            missed: AtomicBool::new(false),
        }
    }

    /// Whether all three came, and none had to go on alone.
    pub fn was_held(&self) -> bool {
        !self.missed.load(Ordering::SeqCst) && self.have_all_called()
    }

    fn have_all_called(&self) -> bool {
        self.called[0].load(Ordering::SeqCst)
            && self.called[1].load(Ordering::SeqCst)
            && self.called[2].load(Ordering::SeqCst)
    }

    // Waits until all three have called.
    fn wait_for_all(&self) {
        for _ in 0..self.turns {
            if self.have_all_called() {
                return;
            }
            thread::yield_now();
        }
        self.missed.store(true, Ordering::SeqCst);
    }
}

impl Gate for Meeting {
    fn pass(&self, who: u32) {
        let Some(called) = self.called.get(who.wrapping_sub(1) as usize) else {
            self.missed.store(true, Ordering::SeqCst);
            return;
        };
        if !called.swap(true, Ordering::SeqCst) {
            self.wait_for_all();
        }
    }
}
