ghost use Rattle.std.specs.Prelude.{◌<◌, OnOk, length};
ghost use Rattle.image_search.specs.Kept.{IsSound};
ghost use Rattle.image_search.specs.Living.{IsStill};

use crate::kept::KeptStates;
use crate::nexts::nexts_at;
use image_states::{Next, Outside, Scratch};
use isa::Image;
use std::alloc::{AllocError, Global};

/// A step of a thread's own from one kept state to another.
#[derive(Clone, Copy)]
pub(crate) struct Edge {
    /// The place of the one.
    pub from: u32,
    /// The thread.
    pub thread: u32,
    /// The place of the other.
    pub to: u32,
}

/// The steps of the threads' own between kept states, by the places from which they lead. Nothing is promised of them: what
/// is said of a step is found again where it is used.
#[derive(Drop)]
pub(crate) struct Graph {
    /// The steps.
    pub edges: Vec<Edge>,
    // For each place how many steps lead from it or from one before it.
    ends: Vec<usize>,
}

// The threads' own steps alone.
const OWN: Outside = Outside {
    strays: false,
    kills: 0,
};

// Adds those that lead to these.
fn add_edges(
    edges: &mut Vec<Edge>,
    kept: &KeptStates,
    from: u32,
    found: &[Next],
) -> Result<(), AllocError> {
    for next in found {
        if let Some(to) = kept.place_of(&next.state) {
            let thread = next.thread;
            edges.push(Edge { from, thread, to })?;
        }
    }
    Ok(())
}

impl Graph {
    /// None yet.
    pub fn new(alloc: Global) -> Graph {
        Graph {
            edges: Vec::new(alloc),
            ends: Vec::new(alloc),
        }
    }

    // Adds those from the state at a place; or answers why not all were found.
    fn add_from(
        &mut self,
        alloc: Global,
        image: &Image,
        kept: &mut KeptStates,
        place: u32,
        scratch: &mut Scratch,
    ) -> Result<Option<image_states::Bound>, AllocError>
        requires sound { IsSound kept.old }
        requires place { place < length kept.old.states.items }
        ensures sound { OnOk result (IsSound kept.new) }
        ensures still { OnOk result (IsStill kept.old kept.new) }
    {
        let mut found = Vec::new(alloc);
        let why = nexts_at(
            alloc,
            image,
            &mut kept.parts,
            kept.states.as_slice(),
            place,
            OWN,
            scratch,
            &mut found,
        )?;
        add_edges(&mut self.edges, kept, place, found.as_slice())?;
        self.ends.push(self.edges.len())?;
        Ok(why)
    }

    /// Finds those from each kept state; or answers why not all were found.
    pub fn fill(
        &mut self,
        alloc: Global,
        image: &Image,
        kept: &mut KeptStates,
        scratch: &mut Scratch,
    ) -> Result<Option<image_states::Bound>, AllocError>
        requires sound { IsSound kept.old }
        ensures sound { OnOk result (IsSound kept.new) }
        ensures still { OnOk result (IsStill kept.old kept.new) }
    {
        for place in 0..kept.most {
            if place as usize >= kept.states.len() {
                return Ok(None);
            }
            let why = self.add_from(alloc, image, kept, place, scratch)?;
            if why.is_some() {
                return Ok(why);
            }
        }
        Ok(None)
    }

    /// Where those that lead from the state at a place begin, and where they end.
    pub fn range(&self, place: u32) -> (usize, usize) {
        let start = match (place as usize).checked_sub(1) {
            None => 0,
            Some(before) => self.ends.get(before).copied().unwrap_or(0),
        };
        let end = self.ends.get(place as usize).copied().unwrap_or(start);
        (start, end)
    }
}
