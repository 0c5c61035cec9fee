//! Does what rows on standard input say with source texts, and prints what comes of it. A row is a line, and its first
//! word says what is tested:
//!
//! ```text
//! alike TEXT                compiled by `compile`, and by 1, 2, 3, 7 and 64 workers, for an image of either version
//! meet TEXT                 compiled by three workers, ten times; the first piece of each waits for the other two
//! alone TEXT                compiled by one worker through the same gate, where nobody else can come
//! pieces COUNT NUMBER ..    empty pieces of these numbers are handed to a collector of so many
//! times COUNT N TEXT        the code of the text's pieces is made so often, by N workers, or by `generate` where N is 0
//! emit TEXT                 the C of the program; in TEXT a `|` stands for a line feed
//! search MOST RUNS TEXT     a search over all runs that keeps so many states at most; RUNS is `own`, or `ends`
//!                           where it is asked too whether each run can end, or `strays` where those who wait may
//!                           resume by themselves too, or `kills1`, `kills2` and so on where at most so many
//!                           processes may be killed
//! timeline SEED STEPS STRAYS | TEXT     the timeline of a run in the order of a seed, of so many steps at most, in
//!                                       which about one entry in so many is a stray wake, or none where that is 0
//! show SEED STEPS STRAYS | TEXT         the same, and the timeline is printed too
//! picture SEED STEPS STRAYS | TEXT      the pictures of the same run, whole and in part
//! == TITLE                  behind it stands a text of several lines, up to the next line that begins with `==`: its
//!                           refusal is printed with its hints
//! ==                        no text stands behind it: rows of one line go on
//! astray HINTS              the hints to a refusal of each kind at a place that its text does not have
//! ```
//!
//! Outside texts of several lines, empty lines and lines that begin with `#` say nothing. The script beside/speed/benchmark times
//! rows `times`.
#![tactic(auto)]

mod compiling;
mod emitting;
mod failure;
mod hinting;
mod pictures;
mod runs;
mod searching;
mod timelines;

use crate::compiling::take_compiling;
use crate::emitting::show_c;
use crate::failure::Failure;
use crate::hinting::{HintedText, show_astray};
use crate::runs::{Shown, show_run};
use crate::searching::show_search;
use std::io;
use std::sync::Wait;
use std::thread::Threads;

fn main(rt: HostRuntime) -> io::Result<()> {
    let mut hinted = HintedText::new(rt.alloc());
    for line in rt.lines(rt.alloc()) {
        let line = line?;
        if let Err(failure) = take_line(&rt, &mut hinted, line.as_str()) {
            println!(rt; "{failure}")?;
        }
    }
    Ok(())
}

// Takes a line of standard input: of a text of several lines, or a row.
fn take_line<R: AllocGlobal + Print + Threads + Wait + Sync>(
    rt: &R,
    hinted: &mut HintedText,
    line: &str,
) -> Result<(), Failure> {
    if line.starts_with("==") || hinted.is_open() {
        return hinted.take(rt, line);
    }
    if line.trim().is_empty() || line.starts_with('#') {
        return Ok(());
    }
    take_row(rt, line)
}

// Does what a row says.
fn take_row<R: AllocGlobal + Print + Threads + Wait + Sync>(
    rt: &R,
    row: &str,
) -> Result<(), Failure> {
    let (key, said) = row.split_once(' ').ok_or(Failure::Row)?;
    match key {
        "emit" => show_c(rt, said),
        "search" => show_search(rt, said),
        "timeline" => show_run(rt, said, Shown::Tally),
        "show" => show_run(rt, said, Shown::Timeline),
        "picture" => show_run(rt, said, Shown::Pictures),
        "astray" => show_astray(rt),
        _ => take_compiling(rt, key, said),
    }
}
