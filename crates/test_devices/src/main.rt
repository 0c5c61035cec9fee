//! Reads, writes and puts files over devices that go wrong, as rows on standard input say, and prints what comes of each.
//! A row is a line:
//!
//! ```text
//! read WRONG TEXT         a source is read from a reader of the text, of which each call in turn goes wrong
//! whole WRONG TEXT        the same, of all that the reader gives
//! write WRONG TEXT        the text is written to a writer, of which each call in turn goes wrong
//! report WRONG LIMIT HEX  an image is run, and what that tells is written to two writers, of which each call in turn
//!                         goes wrong, of the first, of the second and of both
//! put FOLDER TEXT         the text is put into files of a new folder
//! ```
//!
//! WRONG is `broken` or `interrupted`, of a call that fails so, or `nothing`, of one that reads or writes no byte. Each
//! other call reads or writes one byte.
//!
//! Empty lines and lines that begin with `#` say nothing.
#![tactic(auto)]

mod failure;
mod faulty;
mod leaving;
mod putting;
mod reading;
mod telling;
mod writing;

use crate::failure::Failure;
use crate::faulty::Wrong;
use crate::putting::show_files;
use crate::reading::{Extent, show_reads};
use crate::telling::show_reports;
use crate::writing::show_writes;
use std::io;
use std::rt::Files;

fn main(rt: HostRuntime) -> io::Result<()> {
    for line in rt.lines(rt.alloc()) {
        let line = line?;
        let line = line.as_str();
        if line.trim().is_empty() || line.starts_with('#') {
            continue;
        }
        println!(rt; "{line}")?;
        if let Err(failure) = take_row(&rt, line) {
            println!(rt; "{failure}")?;
        }
    }
    Ok(())
}

// Does what a row says.
fn take_row<R: AllocGlobal + Print + Files>(rt: &R, row: &str) -> Result<(), Failure> {
    let (key, said) = row.split_once(' ').ok_or(Failure::Row)?;
    let (first, rest) = said.split_once(' ').ok_or(Failure::Row)?;
    match key {
        "read" => show_reads(rt, Extent::Source, Wrong::called(first)?, rest),
        "whole" => show_reads(rt, Extent::Whole, Wrong::called(first)?, rest),
        "write" => show_writes(rt, Wrong::called(first)?, rest),
        "report" => show_reports(rt, Wrong::called(first)?, rest),
        "put" => show_files(rt, first, rest),
        _ => Err(Failure::Row),
    }
}
