use program::Names;
use source_states::{Action, ActionKind};
use std::alloc::{AllocError, Global};

/// The monitor that an action takes.
pub(crate) fn taken(kind: &ActionKind) -> Option<u32> {
    match kind {
        ActionKind::Enter(monitor) | ActionKind::Resume(monitor) => Some(*monitor),
        _ => None,
    }
}

/// The monitor that an action gives up.
pub(crate) fn given_up(kind: &ActionKind) -> Option<u32> {
    match kind {
        ActionKind::Exit(monitor) | ActionKind::Abandon(monitor) => Some(*monitor),
        ActionKind::Wait(condition) => Some(condition.monitor),
        _ => None,
    }
}

// Nobody, for each monitor.
fn nobody(alloc: Global, names: &Names) -> Result<Vec<Option<u64>>, AllocError> {
    let mut takers = Vec::new(alloc);
    for _monitor in names.monitors.iter() {
        takers.push(None)?;
    }
    Ok(takers)
}

// Whether an action gives a monitor up that another process takes next; who takes each monitor next is known of the
// actions behind it, and then of this one too.
fn hands_over(takers: &mut [Option<u64>], action: &Action) -> bool {
    if let Some(monitor) = taken(&action.kind) {
        if let Some(taker) = takers.get_mut(monitor as usize) {
            *taker = Some(action.process);
        }
    }
    let Some(monitor) = given_up(&action.kind) else {
        return false;
    };
    match takers.get(monitor as usize) {
        Some(Some(taker)) => *taker != action.process,
        _ => false,
    }
}

/// Of each action, the last one first, whether it gives a monitor up that another process takes next.
pub(crate) fn handovers(
    alloc: Global,
    names: &Names,
    actions: &[Action],
) -> Result<Vec<bool>, AllocError> {
    let mut takers = nobody(alloc, names)?;
    let mut handovers = Vec::new(alloc);
    for action in actions.iter().rev() {
        handovers.push(hands_over(takers.as_mut_slice(), action))?;
    }
    Ok(handovers)
}
