use crate::graph::Graph;
use crate::kept::KeptStates;
use crate::reaching::{most_threads, reach_of};
use std::alloc::{AllocError, Global};

// Notes the places of states from which none leads to where the thread behind so many others is awake.
fn note_asleep(
    alloc: Global,
    kept: &KeptStates,
    graph: &Graph,
    k: usize,
    asleep: &mut [bool],
) -> Result<(), AllocError> {
    let reach = reach_of(alloc, kept, graph, k)?;
    let mut at = 0;
    for is in &reach.reached {
        if !*is && at < asleep.len() {
            asleep[at] = true;
        }
        at = at.saturating_add(1);
    }
    Ok(())
}

// The first of these places, so many at most.
fn first_of(alloc: Global, asleep: &[bool], most: usize) -> Result<Vec<u32>, AllocError> {
    let mut places = Vec::new(alloc);
    let mut at: u32 = 0;
    for is in asleep {
        if *is && places.len() < most {
            places.push(at)?;
        }
        at = at.saturating_add(1);
    }
    Ok(places)
}

/// The places of the first kept states, so many at most, from which some thread isn't woken by any run, as the steps tell that
/// were found. Nothing is promised of it.
pub(crate) fn lasting(
    alloc: Global,
    kept: &KeptStates,
    graph: &Graph,
    most: usize,
) -> Result<Vec<u32>, AllocError> {
    let mut asleep = Vec::new(alloc);
    for _ in 0..kept.states.len() {
        asleep.push(false)?;
    }
    for k in 0..most_threads(kept) {
        note_asleep(alloc, kept, graph, k, asleep.as_mut_slice())?;
    }
    first_of(alloc, asleep.as_slice(), most)
}
