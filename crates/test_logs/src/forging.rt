use machine::Entry;
use std::alloc::{AllocError, Global};

/// How a log is forged.
#[derive(Clone, Copy, PartialEq, Eq, Debug)]
pub enum Forgery {
    /// An event has another value.
    Event,
    /// The last entry stands there twice.
    Doubled,
    /// The first entry is missing.
    First,
    /// An entry has a local step more before its event.
    Count,
}

impl Forgery {
    /// The log, forged. Where it is an entry with an event, that is the first one from this place on, which is counted
    /// round the log.
    pub fn forge(
        self,
        alloc: Global,
        log: &[Entry],
        place: usize,
    ) -> Result<Vec<Entry>, AllocError> {
        let mut entries = Vec::new(alloc);
        if self == Forgery::First {
            entries.extend_from_slice(without_first(log))?;
            return Ok(entries);
        }
        entries.extend_from_slice(log)?;
        if self == Forgery::Doubled {
            if let Some(last) = log.last() {
                entries.push(*last)?;
            }
            return Ok(entries);
        }
        let start = place.checked_rem(log.len()).unwrap_or(0);
        for entry in entries.as_mut_slice().iter_mut().skip(start) {
            if self.is_done(entry) {
                break;
            }
        }
        Ok(entries)
    }

    // Whether an entry has an event, and so was forged.
    fn is_done(self, entry: &mut Entry) -> bool {
        let Some(event) = &mut entry.event else {
            return false;
        };
        if self == Forgery::Event {
            event.value = event.value.wrapping_add(1);
        } else {
            entry.local = entry.local.wrapping_add(1);
        }
        true
    }
}

fn without_first(log: &[Entry]) -> &[Entry] {
    match log {
        [] => log,
        [_, later @ ..] => later,
    }
}
