use std::sync::atomic::{AtomicU64, Ordering};

/// Lets time go by for one who looks for something without sleeping. The kit's `spin_loop` does nothing, and a turn of a loop that
/// only reads takes as long as the processor likes. So a moment is an addition to a word that nobody else writes: some twenty
/// cycles of any x86-64 processor, eight nanoseconds or so. It is a courtesy: nothing rests on it but speed.
#[derive(Drop)]
pub struct Moments {
    word: AtomicU64,
}

impl Moments {
    /// None has gone by.
    pub fn new() -> Moments {
        Moments {
            word: AtomicU64::new(0),
        }
    }

    /// Lets one go by.
    pub fn pass_one(&self) {
        self.word.fetch_add(1, Ordering::SeqCst);
    }

    /// Lets so many go by.
    pub fn pass(&self, count: u32) {
        for _ in 0..count {
            self.pass_one();
        }
    }
}
