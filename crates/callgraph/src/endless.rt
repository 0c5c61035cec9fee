// Chains of calls that have no end.

ghost use Rattle.std.specs.Prelude.{◌≡◌, ℕ, ◌<◌, List, length, slice_index_or, IfOk, vec_len, true, false};
ghost use Rattle.callgraph.specs.Calls.{has_chain};
ghost use Rattle.callgraph.specs.Graphs.{IsGraph};
ghost use Rattle.callgraph.specs.Marks.{AreSettled};
ghost use Rattle.callgraph.specs.declared.Call.{Call as CallOf};

use crate::graph::Graph;
use crate::walking::{Step, all_entered, push_steps};
use std::alloc::{AllocError, Global};

// Adds the steps of a procedure and of what it calls, where it wasn't seen.
fn enter(
    graph: &Graph,
    procedure: usize,
    seen: &mut [bool],
    steps: &mut Vec<Step>,
) -> Result<(), AllocError> {
    if procedure >= seen.len() || seen[procedure] {
        return Ok(());
    }
    seen[procedure] = true;
    push_steps(graph, procedure, steps)
}

// Settles what a depth-first walk leaves, each procedure behind those that it calls, so that few or none of those whose
// chains all end stay marked.
fn walked(alloc: Global, graph: &Graph) -> Result<Vec<bool>, AllocError>
    ensures len { IfOk result (λ v. vec_len v ≡ vec_len graph.now.rows) }
    ensures settled { (calls : List CallOf) → IsGraph calls graph.now
        → IfOk result (λ v. AreSettled calls v.items) }
{
    let mut marks = vec![in alloc; true; graph.count()]?;
    let mut seen = vec![in alloc; false; graph.count()]?;
    let mut steps = all_entered(alloc, graph.count())?;
    for _step in 0..u64::MAX {
        match steps.pop() {
            Some(Step::Enter(procedure)) => enter(graph, procedure, &mut seen, &mut steps)?,
            Some(Step::Leave(procedure)) => {
                graph.settle(procedure, &mut marks);
            }
            None => break,
        }
    }
    Ok(marks)
}

impl Graph {
    /// Which procedures begin chains of calls of every length: those on a cycle, and those above one. The only error is
    /// that memory runs out.
    pub fn endless_chains(&self, alloc: Global) -> Result<Vec<bool>, AllocError>
        ensures len { IfOk result (λ v. vec_len v ≡ vec_len self.now.rows) }
        ensures every { (calls : List CallOf) → IsGraph calls self.now → IfOk result (λ v. (a n : ℕ)
            → slice_index_or v.items a false ≡ true → has_chain calls n a ≡ true) }
        ensures ends { (calls : List CallOf) → IsGraph calls self.now → IfOk result (λ v. (a : ℕ)
            → a < vec_len self.now.rows → slice_index_or v.items a false ≡ false
            → (n : ℕ) × (has_chain calls n a ≡ false)) }
    {
        let mut marks = walked(alloc, self)?;
        'sweeps: while self.sweep(&mut marks) {}
        Ok(marks)
    }
}
