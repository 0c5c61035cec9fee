use crate::device::Device;
use crate::fault::RowFault;
use crate::row::Row;
use mesamon::{Counted, FileFailures, ProgressLines, perform_with_hints};
use std::alloc::{AllocError, Global};
use std::rt::Files;
use std::sync::Wait;
use std::thread::Threads;
use std::{fs, io};

// The file that a row's source text is written to.
const SOURCE: &str = "program.mesa";

// The file that a row's schedule is written to.
const SCHEDULE: &str = "program.schedule";

// The file that a row's log is written to, and whose lines afterwards it tells.
const LOG: &str = "program.log";

// The file whose bytes a row tells.
const IMAGE: &str = "program.image";

// For how many states that a search keeps it tells once how far it has come.
const STATES: usize = 2_000;

/// What a command left.
#[derive(Drop)]
pub struct Outcome {
    /// The exit status.
    pub status: u8,
    /// What was written to standard output.
    pub output: Vec<u8>,
    /// What was written to standard error.
    pub errors: Vec<u8>,
    /// How many writes failed.
    pub failures: u32,
    /// The bytes of program.image, where there is that file.
    pub image: Option<Vec<u8>>,
    /// Those of program.log, where there is that file and the row gave none.
    pub log: Option<Vec<u8>>,
}

impl Outcome {
    /// That of a command that writes nothing, and is done.
    pub fn new(alloc: Global) -> Outcome {
        Outcome {
            status: 0,
            output: Vec::new(alloc),
            errors: Vec::new(alloc),
            failures: 0,
            image: None,
            log: None,
        }
    }

    /// That of a row's command.
    pub fn of_row<R: Files + AllocGlobal + Threads + Wait + Sync>(
        rt: &R,
        row: &Row,
    ) -> Result<Outcome, RowFault> {
        put_file(rt, SOURCE, &row.source)?;
        put_file(rt, SCHEDULE, &row.schedule)?;
        put_file(rt, LOG, &row.log)?;
        let mut outcome = Outcome::of_words(rt, row)?;
        outcome.take_files(rt)?;
        if row.log.is_some() {
            outcome.log = None;
        }
        Ok(outcome)
    }

    // Takes the files that the command left, and those that it was given.
    fn take_files<R: Files + AllocGlobal>(&mut self, rt: &R) -> io::Result<()> {
        self.image = take_file(rt, IMAGE)?;
        self.log = take_file(rt, LOG)?;
        take_file(rt, SOURCE)?;
        take_file(rt, SCHEDULE)?;
        Ok(())
    }

    fn of_words<R: Files + AllocGlobal + Threads + Wait + Sync>(
        rt: &R,
        row: &Row,
    ) -> Result<Outcome, RowFault> {
        let words: Vec<&str> = row
            .words
            .iter()
            .map(|word| word.as_str())
            .collect(rt.alloc())?;
        let mut output = Counted::new(Device::new(rt.alloc(), row.output_room)?);
        let mut errors = Counted::new(Device::new(rt.alloc(), row.errors_room)?);
        let mut progress = ProgressLines::new(Device::new(rt.alloc(), row.errors_room)?, STATES);
        let mut failures = FileFailures::new();
        let status = perform_with_hints(
            rt,
            words.as_slice(),
            &mut failures,
            &mut output,
            &mut errors,
            &mut progress,
        );
        let errors = joined(progress.into_inner(), errors.into_inner())?;
        let output = output.into_inner();
        Ok(Outcome {
            status,
            failures: output.failures.saturating_add(errors.failures),
            output: output.taken,
            errors: errors.taken,
            image: None,
            log: None,
        })
    }
}

// What two devices took and how often they failed, as of one that took the first one's bytes before the other's.
fn joined(first: Device, second: Device) -> Result<Device, AllocError> {
    let mut both = first;
    both.taken.extend_from_slice(second.taken.as_slice())?;
    both.failures = both.failures.saturating_add(second.failures);
    Ok(both)
}

// Writes a file of these bytes, where there are any.
fn put_file<R: Files>(rt: &R, name: &str, bytes: &Option<Vec<u8>>) -> io::Result<()> {
    match bytes {
        Some(bytes) => fs::write(rt, name, bytes.as_slice()),
        None => Ok(()),
    }
}

// The bytes of a file, which is removed, where it stands.
fn take_file<R: Files + AllocGlobal>(rt: &R, name: &str) -> io::Result<Option<Vec<u8>>> {
    if !fs::exists(rt, name)? {
        return Ok(None);
    }
    let bytes = fs::read(rt, name)?;
    fs::remove_file(rt, name)?;
    Ok(Some(bytes))
}
