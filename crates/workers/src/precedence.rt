use crate::lookout::Lookout;
use crate::moments::Moments;
use crate::patience::Patience;
use crossbeam_utils::CachePadded;
use std::sync::atomic::{AtomicU64, Ordering};
use std::sync::{Mutex, Wait};
use std::thread::yield_now;

// For how many moments a worker looks for precedence in one go: about a microsecond.
const LOOKS: u32 = 100;

// How often it looks at most, as long as the one that has it makes entries: longer than that one keeps it.
const MOST_GOES: u32 = 1000;

// Behind so many entries the one that has it says that it runs.
const SEVERAL: usize = 4;

/// For how long the one that has precedence may make no entry before it counts as one that doesn't run.
#[derive(Clone, Copy)]
pub enum Grace {
    /// Some nine microseconds: about as long as being woken takes.
    Full,
    /// Some three. Where other work has the processors, who was just called mostly waits for one that has none.
    Short,
}

impl Grace {
    /// What a worker that was called leaves to the one that has precedence: less where its own looks were in vain.
    pub fn by_patience(patience: &Patience) -> Grace {
        if patience.rests() {
            Grace::Short
        } else {
            Grace::Full
        }
    }

    // For how many goes in a row.
    fn goes(self) -> u32 {
        match self {
            Grace::Full => 8,
            Grace::Short => 2,
        }
    }
}

/// Which worker has precedence: the others leave the lock to it, as long as it makes entries. So it makes entry after entry, and what
/// the lock keeps stays in its processor's memory. It is a courtesy: nothing rests on it but speed.
#[derive(Drop)]
pub struct Precedence {
    // The thread whose worker has it, or 0.
    holder: CachePadded<AtomicU64>,
    // How often it said that it runs.
    progress: CachePadded<AtomicU64>,
    // Where one looks for it.
    room: CachePadded<Mutex<Moments>>,
}

impl Precedence {
    /// Nobody has it.
    pub fn new() -> Precedence {
        Precedence {
            holder: CachePadded::new(AtomicU64::new(0)),
            progress: CachePadded::new(AtomicU64::new(0)),
            room: CachePadded::new(Mutex::new(Moments::new())),
        }
    }

    /// Takes it for the worker of thread `t`: at once where nobody else has it, else when that one gives it up, and anyhow
    /// where that one makes no entry for that long. It isn't taken from one that makes entries: two that take it from one another
    /// at each entry would hand everything that the lock keeps to and fro. Where there is no place to look from, it is left where
    /// it is.
    pub fn take<R: Wait>(&self, rt: &R, lookout: &Lookout, t: u32, grace: Grace) {
        let me = u64::from(t);
        if !lookout.has_places() || self.holder.load(Ordering::SeqCst) == me || self.claim(me) {
            return;
        }
        let moments = self.room.lock(rt);
        if !self.wait(me, &moments, grace.goes()) {
            self.holder.store(me, Ordering::SeqCst);
        }
    }

    // Looks for it, again and again as long as the one that has it runs. Behind each entry of that one others may have the
    // processor. Says whether it came.
    fn wait(&self, me: u64, moments: &Moments, most_still: u32) -> bool {
        let mut progress = self.progress.load(Ordering::SeqCst);
        let mut still = 0;
        for _ in 0..MOST_GOES {
            if self.look(me, moments) {
                return true;
            }
            let now = self.progress.load(Ordering::SeqCst);
            if now != progress {
                progress = now;
                still = 0;
                yield_now();
            } else if still < most_still {
                still += 1;
            } else {
                return false;
            }
        }
        false
    }

    // Looks for it in one go, and says whether it came.
    fn look(&self, me: u64, moments: &Moments) -> bool {
        for _ in 0..LOOKS {
            if self.claim(me) {
                return true;
            }
            moments.pass_one();
        }
        false
    }

    /// Gives it up behind so many entries, if the worker of thread `t` has it and doesn't keep it (`Turns::keep_precedence`).
    /// The worker counts its entries itself, so that nothing shared is written at each.
    pub fn pass_on(&self, t: u32, keeps: bool, count: usize, entries: &mut usize) {
        if keeps {
            let before = *entries / SEVERAL;
            *entries = entries.saturating_add(count);
            if *entries / SEVERAL != before {
                self.progress.fetch_add(1, Ordering::SeqCst);
            }
            return;
        }
        *entries = 0;
        if self.holder.load(Ordering::SeqCst) == u64::from(t) {
            self.holder.store(0, Ordering::SeqCst);
        }
    }

    // Takes it where nobody has it.
    fn claim(&self, me: u64) -> bool {
        self.holder.load(Ordering::SeqCst) == 0
            && self
                .holder
                .compare_exchange(0, me, Ordering::SeqCst, Ordering::SeqCst)
                .is_ok()
    }
}
