use crate::frames::append_held;
use program::Member;
use source_offers::{Process, Stage};
use source_states::SourceState;
use std::alloc::Global;

/// What a process is doing while others act. Those that it holds lie below what it waits for.
#[derive(Clone, Copy, PartialEq, Eq)]
pub(crate) enum Layer {
    /// Runs, or could run.
    Runs,
    /// Holds this monitor, in the ENTRY procedure of this piece where it is known.
    Holds(u32, Option<u32>),
    /// Waits on this condition.
    Waits(Member),
    /// Was resumed, and hasn't taken this monitor again.
    Resumed(u32),
    /// Called an ENTRY procedure of this monitor, and hasn't entered.
    Enters(u32),
    /// Tried to take this monitor, where it is known which, while this process held it.
    Tried(Option<u32>, u64),
    /// Waits for the end of this process.
    Joins(u64),
    /// Is dying.
    Dies,
    /// Is over, and not joined.
    IsOver,
}

/// What a process is doing, from the outermost monitor that it holds. Where memory runs out it tells so.
#[derive(Drop)]
pub(crate) struct Layers {
    /// The layers, as far as memory sufficed.
    pub list: Vec<Layer>,
    /// Whether memory ran out.
    pub failed: bool,
}

impl Layers {
    /// None of them.
    pub fn new(alloc: Global) -> Layers {
        Layers {
            list: Vec::new(alloc),
            failed: false,
        }
    }

    /// Appends a layer.
    pub fn push(&mut self, layer: Layer) {
        if self.list.push(layer).is_err() {
            self.failed = true;
        }
    }
}

/// A failed attempt to take a monitor, where it is known which, and who held that.
#[derive(Clone, Copy)]
pub(crate) struct Trial {
    /// The monitor, where it is taken later.
    pub monitor: Option<u32>,
    /// Who held it.
    pub holder: u64,
}

/// What a process does besides holding monitors.
pub(crate) fn uppermost(state: &SourceState, number: u64, process: &Process) -> Option<Layer> {
    match &process.stage {
        Stage::Entering(monitor) => Some(Layer::Enters(*monitor)),
        Stage::Suspended(condition) => match state.waits(number) {
            Some(_) => Some(Layer::Waits(*condition)),
            None => Some(Layer::Resumed(condition.monitor)),
        },
        Stage::Joining { child, .. } => Some(Layer::Joins(*child)),
        Stage::Dying(_, _) => Some(Layer::Dies),
        Stage::Over(_) => Some(Layer::IsOver),
        _ => None,
    }
}

// The same of a process whose last attempt to take a monitor failed. It waits on a condition until it is resumed.
fn tried(layer: Option<Layer>, trial: Option<Trial>) -> Option<Layer> {
    match (layer, trial) {
        (Some(Layer::Waits(_)), _) | (_, None) => layer,
        (_, Some(trial)) => Some(Layer::Tried(trial.monitor, trial.holder)),
    }
}

/// Appends what a process of this number is doing, if there is one, from the outermost monitor that it holds. These are
/// the pieces that run in it, the outermost first, and its last attempt to take a monitor, if that failed.
pub(crate) fn append_layers_of(
    layers: &mut Layers,
    state: &SourceState,
    number: u64,
    pieces: &[Option<u32>],
    trial: Option<Trial>,
) {
    if let Some(process) = state.process(number) {
        append_held(layers, process, pieces);
        append_last(layers, tried(uppermost(state, number, process), trial));
    }
}

// Appends what a process does besides holding monitors; where it does neither, it runs.
fn append_last(layers: &mut Layers, last: Option<Layer>) {
    match last {
        Some(layer) => layers.push(layer),
        None if layers.list.is_empty() => layers.push(Layer::Runs),
        None => {}
    }
}
