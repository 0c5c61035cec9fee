use crate::forging::Forgery;
use crate::logging::log_of;
use isa::Image;
use machine::Entry;
use packed_log::LogReader;
use program::Checked;
use simulation::{ExplainFault, explain};
use source_states::accepts;
use std::alloc::{AllocError, Global};

/// What came of the logs of a program's image, and of what was forged of each.
#[derive(Clone, Copy, PartialEq, Eq, Default, Debug)]
pub struct Trial {
    /// Logs whose explanation is a run of the program.
    pub runs: u32,
    /// Logs that were refused as those of another image.
    pub other_images: u32,
    /// Logs that were refused with an event of another value.
    pub events: u32,
    /// Logs that were refused with their last entry twice.
    pub doubled: u32,
    /// Logs that were refused without their first entry.
    pub firsts: u32,
    /// Logs that were refused with a local step more before an event.
    pub counts: u32,
}

/// What a log is tried with: the program, its image, and another image.
#[derive(Clone, Copy)]
pub struct Subject<'a> {
    /// What memory comes from.
    pub alloc: Global,
    /// The program.
    pub checked: &'a Checked<'a>,
    /// The program's image.
    pub image: &'a Image,
    /// An image of another program.
    pub other: &'a Image,
}

impl Subject<'_> {
    // Whether the explanation of a log is a run of the program.
    pub(crate) fn is_run(&self, log: &[Entry]) -> Result<bool, AllocError> {
        match explain(self.alloc, self.checked, self.image, LogReader::of(log)) {
            Ok(actions) => {
                let end = accepts(self.alloc, self.checked, actions.as_slice())?;
                Ok(end.is_some())
            }
            Err(ExplainFault::Memory) => Err(AllocError),
            Err(_) => Ok(false),
        }
    }

    // Whether a log is refused so, of an image.
    pub(crate) fn is_refused(
        &self,
        image: &Image,
        log: &[Entry],
        wanted: ExplainFault,
    ) -> Result<bool, AllocError> {
        match explain(self.alloc, self.checked, image, LogReader::of(log)) {
            Ok(_) => Ok(false),
            Err(ExplainFault::Memory) => Err(AllocError),
            Err(fault) => Ok(fault == wanted),
        }
    }

    // One where what is forged of a log is no run, else none.
    fn count_forged(
        &self,
        log: &[Entry],
        forgery: Forgery,
        place: usize,
    ) -> Result<u32, AllocError> {
        let entries = forgery.forge(self.alloc, log, place)?;
        let is_refused = self.is_refused(self.image, entries.as_slice(), ExplainFault::NotARun)?;
        Ok(u32::from(is_refused))
    }
}

impl Trial {
    // Adds what came of one more log.
    fn add(&mut self, other: Trial) {
        self.runs = self.runs.saturating_add(other.runs);
        self.other_images = self.other_images.saturating_add(other.other_images);
        self.events = self.events.saturating_add(other.events);
        self.doubled = self.doubled.saturating_add(other.doubled);
        self.firsts = self.firsts.saturating_add(other.firsts);
        self.counts = self.counts.saturating_add(other.counts);
    }
}

// What comes of a log; a forged event or count is the first from a place on.
fn try_log(subject: &Subject, log: &[Entry], place: usize) -> Result<Trial, AllocError> {
    let is_other = subject.is_refused(subject.other, log, ExplainFault::OtherImage)?;
    Ok(Trial {
        runs: u32::from(subject.is_run(log)?),
        other_images: u32::from(is_other),
        events: subject.count_forged(log, Forgery::Event, place)?,
        doubled: subject.count_forged(log, Forgery::Doubled, place)?,
        firsts: subject.count_forged(log, Forgery::First, place)?,
        counts: subject.count_forged(log, Forgery::Count, place)?,
    })
}

/// What comes of the logs of the seeds from 1 to a number, each of so many entries at most. A forged event or count is
/// the first from the place on that has the number of the seed.
pub fn try_logs(subject: &Subject, count: u32, most: u32) -> Result<Trial, AllocError> {
    let mut trial = Trial::default();
    for before in 0..count {
        let log = log_of(subject.alloc, subject.image, before + 1, most)?;
        trial.add(try_log(subject, log.as_slice(), before as usize)?);
    }
    Ok(trial)
}
