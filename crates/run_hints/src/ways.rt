// How to look on.

use std::alloc::AllocError;

// Appends bytes of a file's name.
fn append_bytes(out: &mut String, bytes: &[u8]) -> Result<(), AllocError> {
    for byte in bytes {
        out.push(if matches!(*byte, b' '..=b'~') {
            char::from(*byte)
        } else {
            '?'
        })?;
    }
    Ok(())
}

/// How a run was made.
#[derive(Clone, Copy)]
pub enum Way<'a> {
    /// By a worker for each process, with its log kept in the file of this name, where that is wanted.
    Workers(Option<&'a str>),
    /// In the fixed order.
    InOrder,
    /// In the order that follows from a seed, with stray wakes where such are wanted.
    Seed(u64, Option<u32>),
    /// By the schedule in the file of this name.
    Schedule(&'a str),
    /// By the log in the file of this name.
    Log(&'a str),
}

// Appends the options by which `explain` makes the same run.
fn append_options(out: &mut String, way: Way<'_>) -> Result<(), AllocError> {
    match way {
        Way::Workers(Some(log)) | Way::Log(log) => {
            out.push_str(" --log ")?;
            append_bytes(out, log.as_bytes())
        }
        Way::Schedule(schedule) => {
            out.push_str(" --schedule ")?;
            append_bytes(out, schedule.as_bytes())
        }
        Way::Seed(seed, None) => write!(out, " --seed {seed}"),
        Way::Seed(seed, Some(strays)) => write!(out, " --seed {seed} --strays {strays}"),
        Way::Workers(None) | Way::InOrder => Ok(()),
    }
}

// What is said of a run on real threads of which no log was kept.
const KEEP: &str =
    "  --log OUT keeps the log of such a run; mesamon explain FILE --log OUT tells what led there\n";

// What is said of a run that was explained.
const DRAW: &str = "  with --places each action has its place; --chart OUT draws them\n";

/// Appends the line that says how to look on at a run that was explained.
pub fn append_drawing(out: &mut String) -> Result<(), AllocError> {
    out.push_str(DRAW)
}

/// Appends the line that says how to look on at a run that wasn't explained yet.
pub fn append_way(out: &mut String, file: &str, way: Way<'_>) -> Result<(), AllocError> {
    if let Way::Workers(None) = way {
        return out.push_str(KEEP);
    }
    out.push_str("  mesamon explain ")?;
    append_bytes(out, file.as_bytes())?;
    append_options(out, way)?;
    out.push_str(" tells what led there\n")
}

/// Appends the line of a run that reached its limit of steps, or the end of its schedule or log.
pub fn append_limit(out: &mut String, way: Way<'_>, steps: u64) -> Result<(), AllocError> {
    match way {
        Way::Schedule(_) => out.push_str("  the schedule ends here, and a process can move\n"),
        Way::Log(_) => out.push_str("  the log ends here, and a process can move\n"),
        _ => writeln!(
            out,
            "  {steps} steps were taken; the next entry would pass the limit, and --steps N sets another"
        ),
    }
}
