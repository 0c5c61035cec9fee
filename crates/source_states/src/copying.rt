ghost use Rattle.std.specs.Prelude.{◌≡◌, [], IfOk};
ghost use Rattle.source_states.specs.States.{numbered};

use crate::state::SourceState;
use sorted_map::SortedMap;
use source_offers::Process;
use std::alloc::{AllocError, Global};

// Processes once more, with their numbers.
fn copies<'a>(
    alloc: Global,
    processes: &[(u64, Process<'a>)],
) -> Result<Vec<(u64, Process<'a>)>, AllocError>
    ensures { IfOk result (λ v. numbered v.items ≡ numbered processes.now) }
{
    let mut copies = Vec::with_capacity(alloc, processes.len())?;
    for (number, process) in processes {
        copies.push((*number, process.copy(alloc)?))?;
    }
    Ok(copies)
}

impl<'a> SourceState<'a> {
    ghost use Rattle.source_states.specs.States.{state_of};

    /// The same state once more, but with nothing printed.
    pub fn copy(&self, alloc: Global) -> Result<SourceState<'a>, AllocError>
        ensures { IfOk result (λ s. state_of s ≡ record (state_of self.now) { printed = [] }) }
    {
        Ok(SourceState {
            table: self.table.copy()?,
            variables: self.variables.copy()?,
            processes: SortedMap::of_entries(copies(alloc, self.processes.entries())?),
            printed: Vec::new(alloc),
        })
    }
}
