use crate::logging::log_with_strays;
use crate::outside::{OutsideForgery, first_outside};
use crate::trial::Subject;
use machine::Entry;
use std::alloc::AllocError;

/// What came of logs with wakes from outside, and of what was forged of each that has one.
#[derive(Clone, Copy, PartialEq, Eq, Default, Debug)]
pub struct StrayTrial {
    /// Logs that have a wake from outside.
    pub logs: u32,
    /// Logs whose explanation is a run of the program.
    pub runs: u32,
    /// Logs that were refused with a local step before their first wake from outside.
    pub counts: u32,
    /// Logs that were refused with that wake twice: then the thread is awake.
    pub doubled: u32,
    /// Logs that were refused with nobody woken by it.
    pub woken: u32,
}

impl StrayTrial {
    // Adds what came of one more log.
    fn add(&mut self, other: StrayTrial) {
        self.logs = self.logs.saturating_add(other.logs);
        self.runs = self.runs.saturating_add(other.runs);
        self.counts = self.counts.saturating_add(other.counts);
        self.doubled = self.doubled.saturating_add(other.doubled);
        self.woken = self.woken.saturating_add(other.woken);
    }
}

// What comes of a log.
fn try_log(subject: &Subject, log: &[Entry]) -> Result<StrayTrial, AllocError> {
    let mut trial = StrayTrial {
        runs: u32::from(subject.is_run(log)?),
        ..StrayTrial::default()
    };
    if first_outside(log).is_some() {
        trial.logs = 1;
        trial.counts = OutsideForgery::Count.count(subject, log)?;
        trial.doubled = OutsideForgery::Doubled.count(subject, log)?;
        trial.woken = OutsideForgery::Woken.count(subject, log)?;
    }
    Ok(trial)
}

/// What comes of the logs with wakes from outside of the seeds from 1 to a number, each of so many entries at most.
pub fn try_strays(subject: &Subject, count: u32, most: u32) -> Result<StrayTrial, AllocError> {
    let mut trial = StrayTrial::default();
    for before in 0..count {
        let log = log_with_strays(subject.alloc, subject.image, before + 1, most)?;
        trial.add(try_log(subject, log.as_slice())?);
    }
    Ok(trial)
}
