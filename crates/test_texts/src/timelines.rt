// Timelines of runs. A timeline has to be JSON, its slices have to lie within one another on each track, each with one
// name where it begins and where it ends, times may not fall, and no flow may end that didn't begin.

mod tally;

use crate::failure::Failure;
use crate::timelines::tally::Tally;
use program::Checked;
use serde_json::Value;
use source_states::Action;
use std::str;
use timeline::timeline;

/// Checks the timeline of a run, and prints how many records of each kind it has; and the timeline before, where it is
/// to be shown.
pub fn show_timeline<R: AllocGlobal + Print>(
    rt: &R,
    checked: &Checked,
    actions: &[Action],
    shown: bool,
) -> Result<(), Failure> {
    let file = timeline(rt.alloc(), checked, actions)?;
    show_file(rt, file.as_slice(), actions.len(), shown)
}

// Checks a timeline of so many actions, and prints what it has.
fn show_file<R: AllocGlobal + Print>(
    rt: &R,
    file: &[u8],
    count: usize,
    shown: bool,
) -> Result<(), Failure> {
    let file = str::from_utf8(file).map_err(|_| Failure::Text)?;
    if shown {
        println!(rt; "{file}")?;
    }
    println!(rt; "{count} actions")?;
    show_tally(rt, file)
}

// Reads a timeline, and prints what it has.
fn show_tally<R: AllocGlobal + Print>(rt: &R, file: &str) -> Result<(), Failure> {
    let value = Value::from_str(rt.alloc(), file).map_err(|_| Failure::Json)?;
    let mut tally = Tally::new(rt.alloc());
    tally.take_all(&value)?;
    println!(rt; "{tally}")?;
    Ok(())
}
