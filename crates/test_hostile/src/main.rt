//! Hands bytes that nobody wrote with good intent to public calls, and prints how many were refused, and why, and how
//! many went through. A row of standard input is a line, which is printed before what came of it:
//!
//! ```text
//! changes LIMIT TEXT                  the image of a source text: each proper beginning of its bytes, and they with one
//!                                     byte changed, in each place and in all 255 ways. What is an image then is encoded
//!                                     again, and run in order within a limit of steps
//! code LIMIT TIMES HEAD BLOCK [TAIL]  an image whose bytes are a head, so many times a block, and a tail, in
//!                                     hexadecimal digits, is run in order within a limit of steps
//! jumps LIMIT COUNT STRIDE            so is one of so many instructions, each a jump that goes so far on, round and round
//! text MOST HEAD|UNIT|TAIL            source texts of MOST / 1024, MOST / 32 and MOST bytes, in which a part is repeated
//!                                     as often as it can be, and blanks fill up the rest; `~` stands for a line feed
//! bytes MOST DIGITS                   the same of that part alone, in hexadecimal digits
//! log COUNT SEED TEXT                 the log of a run of a source text's program by the schedule of a seed (`test_logs`)
//!                                     is changed in nine ways, so often in each, and then read and explained as one from
//!                                     outside
//! strays COUNT SEED TEXT              the same of a log with wakes from outside
//! kill COUNT STEP TEXT                the same of one in which a thread is killed behind the step of this number
//! schedules COUNT SEED TEXT           so many schedules whose turns are drawn are followed
//! ```
//!
//! What is drawn follows from the row's number (`test_schedules`).
//!
//! Empty lines and lines that begin with `#` say nothing.
#![tactic(auto)]

mod changes;
mod codes;
mod counting;
mod ends;
mod failure;
mod filling;
mod jumps;
mod logs;
mod schedules;
mod texts;
mod tries;

use crate::changes::show_changes;
use crate::codes::show_code;
use crate::failure::Failure;
use crate::jumps::show_jumps;
use crate::logs::{Outside, show_logs};
use crate::schedules::show_schedules;
use crate::texts::{show_bytes, show_texts};
use std::io;

fn main(rt: HostRuntime) -> io::Result<()> {
    for line in rt.lines(rt.alloc()) {
        let line = line?;
        let line = line.as_str();
        if !line.trim().is_empty() && !line.starts_with('#') {
            show_row(&rt, line)?;
        }
    }
    Ok(())
}

// Prints a row, and what comes of it.
fn show_row<R: AllocGlobal + Print>(rt: &R, row: &str) -> io::Result<()> {
    println!(rt; "{row}")?;
    match run_row(rt, row) {
        Ok(()) => Ok(()),
        Err(failure) => println!(rt; "  {failure}"),
    }
}

// Does what a row asks for.
fn run_row<R: AllocGlobal + Print>(rt: &R, row: &str) -> Result<(), Failure> {
    let (name, rest) = row.split_once(' ').ok_or(Failure::Row)?;
    match name {
        "changes" => show_changes(rt, rest),
        "code" => show_code(rt, rest),
        "jumps" => show_jumps(rt, rest),
        "text" => show_texts(rt, rest),
        "bytes" => show_bytes(rt, rest),
        "log" => show_logs(rt, Outside::Nothing, rest),
        "strays" => show_logs(rt, Outside::Wakes, rest),
        "kill" => show_logs(rt, Outside::Kill, rest),
        "schedules" => show_schedules(rt, rest),
        _ => Err(Failure::Row),
    }
}
