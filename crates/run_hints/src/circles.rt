// Circles of processes, each of which waits for the next.

use source_offers::Stage;
use source_states::SourceState;
use source_table::Hold;
use std::alloc::{AllocError, Global};
use text_writer::TextWriter;

// Who holds a monitor.
fn holder(state: &SourceState<'_>, monitor: u32) -> Option<u64> {
    match state.hold(monitor) {
        Hold::HeldBy(process) => Some(process),
        _ => None,
    }
}

/// The one process that a process waits for, where it is one.
pub(crate) fn awaited(state: &SourceState<'_>, process: u64) -> Option<u64> {
    match &state.process(process)?.stage {
        Stage::Entering(monitor) => holder(state, *monitor),
        Stage::Suspended(condition) => match state.waits(process) {
            Some(_) => None,
            None => holder(state, condition.monitor),
        },
        Stage::Joining { child, .. } => Some(*child),
        _ => None,
    }
}

// The circle that begins with a process, where that has the least number of it.
fn circle_from(alloc: Global, state: &SourceState<'_>, first: u64) -> Result<Vec<u64>, AllocError> {
    let mut circle = Vec::new(alloc);
    let mut last = first;
    for _step in 0..state.made() {
        circle.push(last)?;
        match awaited(state, last) {
            Some(next) if next == first => return Ok(circle),
            Some(next) if next > first => last = next,
            _ => break,
        }
    }
    circle.clear();
    Ok(circle)
}

// Appends the line of a circle, where there is one.
fn append_circle(out: &mut TextWriter, circle: &[u64], first: u64) {
    if circle.is_empty() {
        return;
    }
    out.form("  a circle: process $ waits for process ", &[first]);
    for process in circle.get(1..).unwrap_or(&[]) {
        out.form("$, which waits for process ", &[*process]);
    }
    out.form("$\n", &[first])
}

/// Appends a line for each circle.
pub(crate) fn append_circles(alloc: Global, out: &mut TextWriter, state: &SourceState<'_>) {
    for index in 0..state.made() {
        let first = index.saturating_add(1);
        match circle_from(alloc, state, first) {
            Ok(circle) => append_circle(out, circle.as_slice(), first),
            Err(_) => out.fail(),
        }
    }
}
