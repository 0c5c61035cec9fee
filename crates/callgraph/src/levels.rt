// Levels of procedures, which never rise along calls.

ghost use Rattle.std.specs.Prelude.{◌≡◌, ℕ, ◌≤◌, List, slice_index_or, IfOk, Contains, true};
ghost use Rattle.callgraph.specs.Calls.{Leads};
ghost use Rattle.callgraph.specs.Graphs.{IsGraph};
ghost use Rattle.callgraph.specs.Levels.{NeverRise};
ghost use Rattle.callgraph.specs.declared.Call.{Call as CallOf};

use crate::components::component_numbers;
use crate::graph::Graph;
use std::alloc::{AllocError, Global};

// The level of a procedure.
fn level_of(levels: &[usize], procedure: usize) -> usize
    ensures level { result ≡ slice_index_or levels.now procedure 0 }
{
    levels.get(procedure).copied().unwrap_or(0)
}

// Whether no procedure of these is above a level.
fn are_at_most(procedures: &[u32], levels: &[usize], level: usize) -> bool
    ensures { result ≡ true → (b : ℕ) → Contains procedures.now b
        → slice_index_or levels.now b 0 ≤ level }
{
    for procedure in procedures {
        if level_of(levels, *procedure as usize) > level {
            return false;
        }
    }
    true
}

impl Graph {
    // Whether levels never rise along calls.
    fn never_rises(&self, levels: &[usize]) -> bool
        ensures { result ≡ true → (calls : List CallOf) → IsGraph calls self.now → NeverRise calls levels.now }
    {
        for procedure in 0..self.count() {
            if !are_at_most(self.callees(procedure), levels, level_of(levels, procedure)) {
                return false;
            }
        }
        true
    }

    /// A level for each procedure, which never rises along calls. It is as fine as a depth-first walk makes it: procedures
    /// are of one level where calls lead from each to the other. Each call is looked at twice. The only error is that
    /// memory runs out.
    pub fn levels(&self, alloc: Global) -> Result<Vec<usize>, AllocError>
        ensures { (calls : List CallOf) → IsGraph calls self.now → IfOk result (λ v. NeverRise calls v.items) }
    {
        // What the walk numbers is tested, not proved: where it rose, no levels at all would do.
        let levels = component_numbers(alloc, self)?;
        if self.never_rises(&levels) {
            return Ok(levels);
        }
        Ok(Vec::new(alloc))
    }

    /// Whether calls lead from a procedure back to it. They are followed only where it calls one of its own level. The
    /// only error is that memory runs out.
    pub fn leads_back(
        &self,
        alloc: Global,
        levels: &[usize],
        start: u32,
    ) -> Result<bool, AllocError>
        requires { (calls : List CallOf) → IsGraph calls self.now → NeverRise calls levels.now }
        ensures sound { (calls : List CallOf) → IsGraph calls self.now
            → IfOk result (λ b. b ≡ true → Leads calls start start) }
        ensures complete { (calls : List CallOf) → IsGraph calls self.now
            → IfOk result (λ b. Leads calls start start → b ≡ true) }
    {
        let callees = self.callees(start as usize);
        let level = level_of(levels, start as usize);
        if level > 0 && are_at_most(callees, levels, level - 1) {
            return Ok(false);
        }
        let reached = self.reached(alloc, start)?;
        Ok(reached.get(start as usize).copied().unwrap_or(false))
    }
}
