//! Files of rows.

use crate::tally::Tally;
use crate::{lists, worker_runs};
use std::rt::Files;
use std::sync::Wait;
use std::thread::Threads;
use std::{fs, io};

/// Runs the rows of the file of this name, or tells on standard error which file can't be read.
pub fn take_file<R: Files + AllocGlobal + Print + Eprint + Threads + Wait + Sync>(
    rt: &R,
    tally: &mut Tally,
    name: &str,
) -> io::Result<()> {
    match fs::read_to_string(rt, name) {
        Ok(rows) => take_rows(rt, tally, name, rows.as_str()),
        Err(error) => {
            eprintln!(rt; "rows of {name:?}: {error}")?;
            Err(error)
        }
    }
}

// Runs these rows, which are those of the file of this name.
fn take_rows<R: Files + AllocGlobal + Print + Threads + Wait + Sync>(
    rt: &R,
    tally: &mut Tally,
    name: &str,
    rows: &str,
) -> io::Result<()> {
    let mut number: u32 = 0;
    for line in rows.lines() {
        number = number.saturating_add(1);
        if !worker_runs::take_line(rt, line)? && !lists::take_line(rt, line)? {
            tally.take_line(rt, name, number, line)?;
        }
    }
    tally.end_file(rt)
}
