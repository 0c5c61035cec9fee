// Processes that wait for one another.

use source_offers::Stage;
use source_states::SourceState;
use source_table::Hold;
use std::alloc::{AllocError, Global};

/// Who holds a monitor.
pub(crate) fn holder(state: &SourceState, monitor: u32) -> Option<u64> {
    match state.hold(monitor) {
        Hold::HeldBy(process) => Some(process),
        _ => None,
    }
}

/// The one process that a process waits for, where it is one: who holds the monitor that it is to take, or whom it
/// joins.
pub(crate) fn awaited(state: &SourceState, process: u64) -> Option<u64> {
    match &state.process(process)?.stage {
        Stage::Entering(monitor) => holder(state, *monitor),
        Stage::Suspended(condition) => match state.waits(process) {
            Some(_) => None,
            None => holder(state, condition.monitor),
        },
        Stage::Joining { child, .. } => Some(*child),
        _ => None,
    }
}

// Appends a process, whom it waits for, and so on, as far as their numbers are greater than its own; whether the last
// waits for it.
fn closes(circle: &mut Vec<u64>, state: &SourceState, first: u64) -> Result<bool, AllocError> {
    let mut last = first;
    for _step in 0..state.made() {
        circle.push(last)?;
        last = awaited(state, last).unwrap_or(0);
        if last <= first {
            break;
        }
    }
    Ok(last == first)
}

/// The circle of processes, each of which waits for the next and the last for the first, that begins with a process
/// whose number is the least of it; else nobody.
pub(crate) fn circle_from(
    alloc: Global,
    state: &SourceState,
    first: u64,
) -> Result<Vec<u64>, AllocError> {
    let mut circle = Vec::new(alloc);
    if !closes(&mut circle, state, first)? {
        circle.clear();
    }
    Ok(circle)
}
