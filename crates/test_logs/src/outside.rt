use crate::trial::Subject;
use machine::{Entry, EventName, ThreadSet};
use simulation::ExplainFault;
use std::alloc::{AllocError, Global};

/// How the first wake or kill from outside of a log is forged.
#[derive(Clone, Copy, PartialEq, Eq, Debug)]
pub(crate) enum OutsideForgery {
    /// With a local step before it.
    Count,
    /// It stands there twice.
    Doubled,
    /// It wakes nobody.
    Woken,
    /// Its value is 0 in place of 1, or 1 in place of another.
    Value,
}

// Whether an entry is a wake or a kill from outside.
fn is_outside(entry: &Entry) -> bool {
    match entry.event {
        Some(event) => matches!(event.name, EventName::Stray | EventName::Kill),
        None => false,
    }
}

/// The first wake or kill from outside of a log; None where there is none.
pub(crate) fn first_outside(log: &[Entry]) -> Option<Entry> {
    for entry in log {
        if is_outside(entry) {
            return Some(*entry);
        }
    }
    None
}

impl OutsideForgery {
    // Adds the forged entry to a log, in place of this one.
    fn push(self, entries: &mut Vec<Entry>, entry: &Entry) -> Result<(), AllocError> {
        let mut forged = *entry;
        if self == OutsideForgery::Count {
            forged.local = 1;
        }
        if self == OutsideForgery::Doubled {
            entries.push(*entry)?;
        }
        if let Some(event) = &mut forged.event {
            match self {
                OutsideForgery::Woken => event.woken = ThreadSet::new(),
                OutsideForgery::Value => event.value = u32::from(event.value != 1),
                _ => {}
            }
        }
        entries.push(forged)?;
        Ok(())
    }

    // The log up to its first wake or kill from outside, which is forged.
    fn forge(self, alloc: Global, log: &[Entry]) -> Result<Vec<Entry>, AllocError> {
        let mut entries = Vec::new(alloc);
        for entry in log {
            if is_outside(entry) {
                self.push(&mut entries, entry)?;
                break;
            }
            entries.push(*entry)?;
        }
        Ok(entries)
    }

    /// One where the forged log is no run, else none.
    pub(crate) fn count(self, subject: &Subject, log: &[Entry]) -> Result<u32, AllocError> {
        let entries = self.forge(subject.alloc, log)?;
        let image = subject.image;
        let is_refused = subject.is_refused(image, entries.as_slice(), ExplainFault::NotARun)?;
        Ok(u32::from(is_refused))
    }
}
