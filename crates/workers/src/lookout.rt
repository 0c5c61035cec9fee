use crossbeam_utils::CachePadded;
use std::sync::atomic::{AtomicU64, Ordering};
use std::thread;
use std::thread::Threads;

/// Places for workers that look for the lock or for a call, for a while, before they sleep: one fewer than there are
/// processors, so that those who look keep none from those who work. Who looks for precedence takes none.
#[derive(Drop)]
pub struct Lookout {
    places: u64,
    lookers: CachePadded<AtomicU64>,
}

impl Lookout {
    /// A lookout with nobody on it. On one processor it has no place.
    pub fn new(rt: &impl Threads) -> Lookout {
        let places = match thread::available_parallelism(rt) {
            Ok(processors) => processors.get() as u64 - 1,
            Err(_) => 0,
        };
        Lookout {
            places,
            lookers: CachePadded::new(AtomicU64::new(0)),
        }
    }

    /// Whether it has places at all.
    pub fn has_places(&self) -> bool {
        self.places > 0
    }

    /// Takes a place, if one is free.
    pub fn enter(&self) -> bool {
        if !self.has_places() {
            return false;
        }
        if self.lookers.fetch_add(1, Ordering::SeqCst) < self.places {
            return true;
        }
        self.leave();
        false
    }

    /// Gives the place up.
    pub fn leave(&self) {
        self.lookers.fetch_sub(1, Ordering::SeqCst);
    }
}
