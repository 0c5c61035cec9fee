use crate::lists::failure::Failure;
use compiler::{compile, compile_checked_as};
use isa::Image;
use mesamon::Exits;
use program::Checked;
use std::io;
use test_logs::{KillTrial, StrayTrial, Subject, Trial, try_kills, try_logs, try_strays};

// A program whose image is none of a row's.
const OTHER: &[u8] = b"PROGRAM P; MAIN END.";

// What a row says: how many logs there are, of how many entries each at most, and the text of the program.
#[derive(Clone, Copy)]
struct LogRow<'a> {
    count: u32,
    most: u32,
    text: &'a [u8],
}

fn row_of(row: &str) -> Result<LogRow<'_>, Failure> {
    let (said, text) = row.split_once('|').ok_or(Failure::Row)?;
    let (count, most) = said.trim().split_once(' ').ok_or(Failure::Row)?;
    Ok(LogRow {
        count: count.parse().map_err(|_| Failure::Row)?,
        most: most.parse().map_err(|_| Failure::Row)?,
        text: text.as_bytes(),
    })
}

/// What happens from outside in the logs of a row.
#[derive(Clone, Copy, PartialEq, Eq, Debug)]
pub enum Outside {
    /// Nothing.
    Nothing,
    /// Threads that sleep are woken.
    Strays,
    /// One thread is killed.
    Kills,
}

/// Prints what comes of logs of the image, for this rule of exits, of the program whose text stands in the row, behind
/// how many logs there are, and of how many entries each at most.
pub fn show_logs<R: AllocGlobal + Print>(
    rt: &R,
    row: &str,
    outside: Outside,
    exits: Exits,
) -> Result<(), Failure> {
    let row = row_of(row)?;
    let (checked, lowered) = compile_checked_as(rt.alloc(), row.text, exits.version())?;
    show_of(rt, &checked, &lowered.image, row, outside)
}

fn show_of<R: AllocGlobal + Print>(
    rt: &R,
    checked: &Checked,
    image: &Image,
    row: LogRow,
    outside: Outside,
) -> Result<(), Failure> {
    let other = compile(rt.alloc(), OTHER)?;
    let subject = Subject {
        alloc: rt.alloc(),
        checked,
        image,
        other: &other,
    };
    match outside {
        Outside::Nothing => show_trial(rt, &try_logs(&subject, row.count, row.most)?)?,
        Outside::Strays => show_stray_trial(rt, &try_strays(&subject, row.count, row.most)?)?,
        Outside::Kills => show_kill_trial(rt, &try_kills(&subject, row.count, row.most)?)?,
    }
    Ok(())
}

fn show_trial<R: Print>(rt: &R, trial: &Trial) -> io::Result<()> {
    let runs = trial.runs;
    let images = trial.other_images;
    print!(rt; "{runs} runs, refused {images} of another image, ")?;
    let events = trial.events;
    let doubled = trial.doubled;
    let firsts = trial.firsts;
    let counts = trial.counts;
    println!(rt; "{events} events, {doubled} doubled, {firsts} without the first, {counts} counts")
}

fn show_stray_trial<R: Print>(rt: &R, trial: &StrayTrial) -> io::Result<()> {
    let runs = trial.runs;
    let logs = trial.logs;
    print!(rt; "{runs} runs, {logs} with wakes from outside, refused ")?;
    let counts = trial.counts;
    let doubled = trial.doubled;
    let woken = trial.woken;
    println!(rt; "{counts} counts, {doubled} doubled, {woken} without the woken")
}

fn show_kill_trial<R: Print>(rt: &R, trial: &KillTrial) -> io::Result<()> {
    let runs = trial.runs;
    let logs = trial.logs;
    let deaths = trial.deaths;
    print!(rt; "{runs} runs, {logs} with a kill, {deaths} that made a thread die, ")?;
    let counts = trial.counts;
    let values = trial.values;
    println!(rt; "refused {counts} counts, {values} values")
}
