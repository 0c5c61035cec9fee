// The procedures that run in a process, and the monitors that they hold.

use crate::layer::{Layer, Layers};
use program::{Role, Statement};
use source_offers::{Process, Stage, upcoming};
use source_states::{Action, ActionKind, SourceState};

/// The piece that an action begins, before it: that of a call, or of a process that is made.
pub(crate) fn begun(state: &SourceState, action: &Action) -> Option<u32> {
    let process = state.process(action.process)?;
    match (&action.kind, upcoming(process.frame.rest.as_slice())?) {
        (ActionKind::Call, Statement::Call { procedure, .. }) => Some(*procedure),
        (ActionKind::Fork(_), Statement::Fork { procedure, .. }) => Some(*procedure),
        _ => None,
    }
}

/// The processes that an action resumes.
pub(crate) fn resumed_by(kind: &ActionKind) -> &[u64] {
    match kind {
        ActionKind::Notify(_, resumed) => resumed.as_slice(),
        ActionKind::Broadcast(_, resumed) => resumed.as_slice(),
        ActionKind::Kill(resumed, _) => resumed.as_slice(),
        _ => &[],
    }
}

/// How many procedures run in a process.
pub(crate) fn depth(state: &SourceState, number: u64) -> usize {
    match state.process(number) {
        None => 0,
        Some(process) => process.callers.len().saturating_add(1),
    }
}

// The monitor that a process gave up to wait on a condition of it.
fn given_up(process: &Process) -> Option<u32> {
    match &process.stage {
        Stage::Suspended(condition) => Some(condition.monitor),
        _ => None,
    }
}

// The monitor that the uppermost procedure of a process holds.
fn held_on_top(process: &Process) -> Option<u32> {
    match (&process.stage, process.frame.role) {
        (Stage::Entering(_) | Stage::Returning(_), _) => None,
        (_, Role::Entry(monitor)) => Some(monitor),
        _ => None,
    }
}

// Appends a monitor that a process holds, where it didn't give it up.
fn append_hold(layers: &mut Layers, process: &Process, monitor: u32, piece: Option<u32>) {
    if given_up(process) != Some(monitor) {
        layers.push(Layer::Holds(monitor, piece));
    }
}

// Appends the monitors that the procedures of a process hold which wait for one that they called.
fn append_of_callers(layers: &mut Layers, process: &Process, pieces: &[Option<u32>]) {
    for (index, caller) in process.callers.iter().enumerate() {
        if let Role::Entry(monitor) = caller.role {
            let piece = pieces.get(index).copied().unwrap_or(None);
            append_hold(layers, process, monitor, piece);
        }
    }
}

// Appends the monitors that a dying process hasn't given up yet, the outermost first.
fn append_left(layers: &mut Layers, left: &[u32]) {
    for monitor in left.iter().rev() {
        layers.push(Layer::Holds(*monitor, None));
    }
}

/// Appends the monitors that a process holds, from the outermost. These pieces run in it, the outermost first.
pub(crate) fn append_held(layers: &mut Layers, process: &Process, pieces: &[Option<u32>]) {
    match &process.stage {
        Stage::Dying(_, left) => append_left(layers, left.as_slice()),
        Stage::Leaving(_) => {}
        Stage::Over(_) => {}
        _ => append_of_frames(layers, process, pieces),
    }
}

// Appends the monitors that the procedures of a process hold.
fn append_of_frames(layers: &mut Layers, process: &Process, pieces: &[Option<u32>]) {
    append_of_callers(layers, process, pieces);
    if let Some(monitor) = held_on_top(process) {
        let piece = pieces.get(process.callers.len()).copied().unwrap_or(None);
        append_hold(layers, process, monitor, piece)
    }
}
