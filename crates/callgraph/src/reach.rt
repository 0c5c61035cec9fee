// Where calls lead.

ghost use Rattle.std.specs.Prelude.{◌≡◌, ℕ, ◌<◌, ◌+◌, ◌⊎◌, List, length, slice_index_or, IfOk, OnOk, true, false};
ghost use Rattle.std.specs.Prelude.{count_by, Contains};
ghost use Rattle.callgraph.specs.Calls.{Leads};
ghost use Rattle.callgraph.specs.Graphs.{IsGraph};
ghost use Rattle.callgraph.specs.Marks.{Marks};
ghost use Rattle.callgraph.specs.declared.Call.{Call as CallOf};

use crate::graph::Graph;
use std::alloc::{AllocError, Global};

// Marks a procedure, and adds it to the pending ones, where it wasn't marked.
fn mark(procedure: u32, marks: &mut [bool], pending: &mut Vec<u32>) -> Result<(), AllocError>
    ensures marked { OnOk result (procedure < length marks.old
        → slice_index_or marks.new procedure false ≡ true) }
    ensures kept { (b : ℕ) → slice_index_or marks.old b false ≡ true
        → slice_index_or marks.new b false ≡ true }
    ensures only { (b : ℕ) → slice_index_or marks.new b false ≡ true
        → (slice_index_or marks.old b false ≡ true) ⊎ (b ≡ procedure) }
    ensures added { OnOk result ((b : ℕ) → slice_index_or marks.new b false ≡ true
        → (slice_index_or marks.old b false ≡ true) ⊎ Contains pending.new.items b) }
    ensures queued { OnOk result ((b : ℕ) → Contains pending.old.items b
        → Contains pending.new.items b) }
    ensures counted { OnOk result (count_by (λ m. m) marks.new + length pending.old.items
        ≡ count_by (λ m. m) marks.old + length pending.new.items) }
    ensures waiting { (b : ℕ) → Contains pending.new.items b
        → Contains pending.old.items b ⊎ (slice_index_or marks.new b false ≡ true) }
{
    let number = procedure as usize;
    if number < marks.len() && !marks[number] {
        marks[number] = true;
        pending.push(procedure)?;
    }
    Ok(())
}

// Marks procedures, and adds those that weren't marked to the pending ones.
fn mark_all(
    procedures: &[u32],
    marks: &mut [bool],
    pending: &mut Vec<u32>,
) -> Result<(), AllocError>
    ensures { OnOk result
        (Marks procedures.now marks.old pending.old.items marks.new pending.new.items) }
{
    for procedure in procedures {
        mark(*procedure, marks, pending)?;
    }
    Ok(())
}

impl Graph {
    // Where calls lead from a procedure. It is on a cycle where they lead to itself. The only error is that memory
    // runs out. Each call is looked at once.
    pub(crate) fn reached(&self, alloc: Global, start: u32) -> Result<Vec<bool>, AllocError>
        ensures sound { (calls : List CallOf) → IsGraph calls self.now → IfOk result (λ v. (b : ℕ)
            → slice_index_or v.items b false ≡ true → Leads calls start b) }
        ensures complete { (calls : List CallOf) → IsGraph calls self.now
            → IfOk result (λ v. (b : ℕ)
            → Leads calls start b → slice_index_or v.items b false ≡ true) }
    {
        let mut marks = vec![in alloc; false; self.count()]?;
        let mut pending = Vec::new(alloc);
        mark_all(self.callees(start as usize), &mut marks, &mut pending)?;
        'walk: while let Some(procedure) = pending.pop() {
            mark_all(self.callees(procedure as usize), &mut marks, &mut pending)?;
        }
        Ok(marks)
    }
}
