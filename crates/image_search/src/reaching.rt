use crate::flagged::is_flagged;
use crate::graph::{Edge, Graph};
use crate::kept::KeptStates;
use std::alloc::{AllocError, Global};

/// From which kept states a run of the threads' own steps leads to where a thread is awake, as the steps tell that were found.
/// Nothing is promised of it.
#[derive(Drop)]
pub(crate) struct Reach {
    /// For each place whether one does.
    pub reached: Vec<bool>,
    /// The places from which one does, each behind one to which a step leads, or where the thread is awake.
    pub order: Vec<u32>,
}

// The states in which the thread behind so many others is awake.
fn awake(alloc: Global, kept: &KeptStates, k: usize) -> Result<Reach, AllocError> {
    let mut reached = Vec::new(alloc);
    let mut order = Vec::new(alloc);
    let mut place: u32 = 0;
    for packed in &kept.states {
        let is = packed.place(k) == 0;
        reached.push(is)?;
        if is {
            order.push(place)?;
        }
        place = place.saturating_add(1);
    }
    Ok(Reach { reached, order })
}

impl Reach {
    // Goes back over one step; whether a place more is reached.
    fn go_back(&mut self, edge: Edge) -> Result<bool, AllocError> {
        if is_flagged(self.reached.as_slice(), edge.from) {
            return Ok(false);
        }
        if !is_flagged(self.reached.as_slice(), edge.to) {
            return Ok(false);
        }
        self.order.push(edge.from)?;
        let at = edge.from as usize;
        if at < self.reached.len() {
            self.reached[at] = true;
        }
        Ok(true)
    }

    // Goes back over all steps, the last ones first; whether a place more is reached.
    fn pass(&mut self, edges: &[Edge]) -> Result<bool, AllocError> {
        let mut more = false;
        for behind in 0..edges.len() {
            let number = edges.len() - 1 - behind;
            if let Some(edge) = edges.get(number) {
                if self.go_back(*edge)? {
                    more = true;
                }
            }
        }
        Ok(more)
    }
}

/// The same of the thread behind so many others.
pub(crate) fn reach_of(
    alloc: Global,
    kept: &KeptStates,
    graph: &Graph,
    k: usize,
) -> Result<Reach, AllocError> {
    let mut reach = awake(alloc, kept, k)?;
    for _ in 0..kept.states.len() {
        if !reach.pass(graph.edges.as_slice())? {
            break;
        }
    }
    Ok(reach)
}

/// How many threads there are in a kept state, at most.
pub(crate) fn most_threads(kept: &KeptStates) -> usize {
    let mut most = 0;
    for packed in &kept.states {
        most = packed.parts.len().max(most);
    }
    most
}

/// For each place whether no run leads from it to where the thread is awake.
pub(crate) fn unreached(alloc: Global, reach: &Reach) -> Result<Vec<bool>, AllocError> {
    let mut flags = Vec::new(alloc);
    for is in &reach.reached {
        flags.push(!*is)?;
    }
    Ok(flags)
}
