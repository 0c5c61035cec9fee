use crate::logging::log_with_kill;
use crate::outside::{OutsideForgery, first_outside};
use crate::trial::Subject;
use machine::Entry;
use std::alloc::AllocError;

/// What came of logs in which one thread is killed, and of what was forged of each.
#[derive(Clone, Copy, PartialEq, Eq, Default, Debug)]
pub struct KillTrial {
    /// Logs that have a kill.
    pub logs: u32,
    /// Logs whose thread begins to die by it.
    pub deaths: u32,
    /// Logs whose explanation is a run of the program.
    pub runs: u32,
    /// Logs that were refused with a local step before the kill.
    pub counts: u32,
    /// Logs that were refused with its other value.
    pub values: u32,
}

impl KillTrial {
    // Adds what came of one more log.
    fn add(&mut self, other: KillTrial) {
        self.logs = self.logs.saturating_add(other.logs);
        self.deaths = self.deaths.saturating_add(other.deaths);
        self.runs = self.runs.saturating_add(other.runs);
        self.counts = self.counts.saturating_add(other.counts);
        self.values = self.values.saturating_add(other.values);
    }
}

// Whether a thread begins to die by the event of an entry that is a kill.
fn is_death(kill: &Entry) -> bool {
    match kill.event {
        Some(event) => event.value == 1,
        None => false,
    }
}

// What comes of a log.
fn try_log(subject: &Subject, log: &[Entry]) -> Result<KillTrial, AllocError> {
    let mut trial = KillTrial {
        runs: u32::from(subject.is_run(log)?),
        ..KillTrial::default()
    };
    if let Some(kill) = first_outside(log) {
        trial.logs = 1;
        trial.deaths = u32::from(is_death(&kill));
        trial.counts = OutsideForgery::Count.count(subject, log)?;
        trial.values = OutsideForgery::Value.count(subject, log)?;
    }
    Ok(trial)
}

/// What comes of the logs of one run, each of so many entries at most, in which one thread is killed right behind a
/// step: behind the first, behind the second, and so on to this number.
pub fn try_kills(subject: &Subject, count: u32, most: u32) -> Result<KillTrial, AllocError> {
    let mut trial = KillTrial::default();
    for before in 0..count {
        let log = log_with_kill(subject.alloc, subject.image, before + 1, most)?;
        trial.add(try_log(subject, log.as_slice())?);
    }
    Ok(trial)
}
