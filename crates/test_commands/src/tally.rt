use crate::fault::RowFault;
use crate::outcome::Outcome;
use crate::row::Row;
use std::io;
use std::process::ExitCode;
use std::rt::Files;
use std::sync::Wait;
use std::thread::Threads;

/// The rows so far: how many there were, how many of them failed, and the row that is being read.
#[derive(Drop)]
pub struct Tally {
    rows: u32,
    failures: u32,
    row: Option<Row>,
}

impl Tally {
    /// No row.
    pub fn new() -> Tally {
        Tally {
            rows: 0,
            failures: 0,
            row: None,
        }
    }

    /// Takes a line of a file, whose number in it is this. Where a row begins, the one before it is run.
    pub fn take_line<R: Files + AllocGlobal + Print + Threads + Wait + Sync>(
        &mut self,
        rt: &R,
        file: &str,
        number: u32,
        line: &str,
    ) -> io::Result<()> {
        if line.trim().is_empty() || line.starts_with('#') {
            return Ok(());
        }
        let (key, said) = line.split_once(' ').unwrap_or((line, ""));
        if key == "row" {
            let before = self.run_row(rt)?;
            let name = format!(in rt.alloc(); "{file}:{number}: {said}")?;
            self.row = Some(Row::new(rt.alloc(), name, before));
            return Ok(());
        }
        let taken = match &mut self.row {
            Some(row) => row.take_line(key, said),
            None => Err(RowFault::Row),
        };
        if let Err(fault) = taken {
            self.failures = self.failures.saturating_add(1);
            println!(rt; "{file}:{number}: {line}: {fault}")?;
        }
        Ok(())
    }

    /// Runs the last row of a file.
    pub fn end_file<R: Files + AllocGlobal + Print + Threads + Wait + Sync>(
        &mut self,
        rt: &R,
    ) -> io::Result<()> {
        let _source = self.run_row(rt)?;
        Ok(())
    }

    /// Tells how many rows there were.
    pub fn finish<R: Print>(self, rt: &R) -> io::Result<ExitCode> {
        let rows = self.rows;
        let failures = self.failures;
        println!(rt; "{rows} rows, {failures} failures")?;
        Ok(ExitCode::from(u8::from(failures > 0)))
    }

    // Runs the row that was read, where there is one, and tells what came out otherwise. Its source text is given back.
    fn run_row<R: Files + AllocGlobal + Print + Threads + Wait + Sync>(
        &mut self,
        rt: &R,
    ) -> io::Result<Option<Vec<u8>>> {
        let Some(row) = self.row.take() else {
            return Ok(None);
        };
        self.rows = self.rows.saturating_add(1);
        if !is_met(rt, &row)? {
            self.failures = self.failures.saturating_add(1);
        }
        Ok(row.source)
    }
}

// Whether a row's command leaves what is wanted; prints what it leaves otherwise.
fn is_met<R: Files + AllocGlobal + Print + Threads + Wait + Sync>(
    rt: &R,
    row: &Row,
) -> io::Result<bool> {
    match Outcome::of_row(rt, row) {
        Ok(outcome) => compare(rt, row, &outcome),
        Err(fault) => {
            let name = row.name.as_str();
            println!(rt; "{name}: {fault}")?;
            Ok(false)
        }
    }
}

// Whether a row's command left what is wanted; prints what it left otherwise.
fn compare<R: Print + AllocGlobal>(rt: &R, row: &Row, outcome: &Outcome) -> io::Result<bool> {
    let wanted = &row.wanted;
    let is_well = outcome.status == wanted.status
        && outcome.output == wanted.output
        && outcome.errors == wanted.errors
        && outcome.failures == wanted.failures
        && outcome.image == wanted.image
        && outcome.log == wanted.log;
    if !is_well {
        show_outcome(rt, row.name.as_str(), outcome)?;
    }
    Ok(is_well)
}

// Prints what the command of a row of this name left.
fn show_outcome<R: Print + AllocGlobal>(rt: &R, name: &str, outcome: &Outcome) -> io::Result<()> {
    let status = outcome.status;
    let failures = outcome.failures;
    println!(rt; "{name}: status {status}, {failures} writes failed")?;
    show(rt, "output", outcome.output.as_slice())?;
    show(rt, "errors", outcome.errors.as_slice())?;
    if let Some(log) = &outcome.log {
        show(rt, "logged", log.as_slice())?;
    }
    match &outcome.image {
        Some(image) => show_image(rt, image.as_slice()),
        None => Ok(()),
    }
}

// Prints the bytes of an image.
fn show_image<R: Print + AllocGlobal>(rt: &R, image: &[u8]) -> io::Result<()> {
    let digits = hex::encode(rt.alloc(), image)?;
    println!(rt; "image {digits}")
}

// Prints what was written to a device, each line after the device's key.
fn show<R: Print + AllocGlobal>(rt: &R, key: &str, written: &[u8]) -> io::Result<()> {
    let text = String::from_utf8_lossy(rt.alloc(), written)?;
    for line in text.as_str().lines() {
        println!(rt; "{key} {line}")?;
    }
    Ok(())
}
