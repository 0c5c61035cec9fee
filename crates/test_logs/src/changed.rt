use crate::changing::Change;
use backend::lower;
use log_text::{ReadLogFault, read_log};
use machine::Entry;
use packed_log::LogReader;
use program::Checked;
use simulation::{LogFault, explain_log_lowered};
use std::alloc::{AllocError, Global};
use test_schedules::Sequence;
use words::ImageVersion;

// What is said of the text of a log.
#[derive(Clone, Copy, PartialEq, Eq, Debug)]
enum Answer {
    Line,
    Entry,
    Explained,
    Memory,
}

/// What came of logs that were changed in one way.
#[derive(Clone, Copy, PartialEq, Eq, Default, Debug)]
pub struct ChangeTrial {
    /// Logs that were refused at a line that is no entry's.
    pub lines: u32,
    /// Logs that were refused at an entry with which they are none of the program.
    pub entries: u32,
    /// Logs that were explained.
    pub explained: u32,
    /// Logs for which there was no memory.
    pub memory: u32,
}

impl ChangeTrial {
    // Counts one more.
    fn count(&mut self, answer: Answer) {
        let number = match answer {
            Answer::Line => &mut self.lines,
            Answer::Entry => &mut self.entries,
            Answer::Explained => &mut self.explained,
            Answer::Memory => &mut self.memory,
        };
        *number = number.saturating_add(1);
    }
}

// What is said of a text as the log of a program.
fn answer_to(alloc: Global, checked: &Checked, text: &[u8]) -> Answer {
    match read_log(alloc, text) {
        Ok(entries) => answer_to_entries(alloc, checked, entries.iter()),
        Err(ReadLogFault::Line(_)) => Answer::Line,
        Err(ReadLogFault::Memory) => Answer::Memory,
    }
}

fn answer_to_entries(alloc: Global, checked: &Checked, entries: LogReader<'_>) -> Answer {
    let Ok(lowered) = lower(alloc, checked, ImageVersion::Two) else {
        return Answer::Memory;
    };
    match explain_log_lowered(alloc, checked, lowered, entries) {
        Ok(_) => Answer::Explained,
        Err(LogFault::Entry(_)) => Answer::Entry,
        Err(LogFault::Memory) => Answer::Memory,
    }
}

/// What comes of a program's log that is changed in this way, so many times, where its text is read and explained as one
/// from outside.
pub fn try_changes(
    alloc: Global,
    checked: &Checked,
    log: &[Entry],
    change: Change,
    count: u32,
    sequence: &mut Sequence,
) -> Result<ChangeTrial, AllocError> {
    let mut trial = ChangeTrial::default();
    for _ in 0..count {
        let text = change.text_of(alloc, log, sequence)?;
        trial.count(answer_to(alloc, checked, text.as_slice()));
    }
    Ok(trial)
}
