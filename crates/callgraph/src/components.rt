// Levels of procedures, by the components of those that lead to each other (Tarjan, 1972).

use crate::graph::Graph;
use crate::walking::{Step, all_entered, push_steps};
use std::alloc::{AllocError, Global};

// Where a procedure stands in a walk.
#[derive(Clone, Copy)]
enum Standing {
    // It wasn't entered yet.
    New,
    // Its component isn't complete: calls lead from it to the open procedure of this place.
    Open(usize),
    // Its component is the one of this number, in the order in which they were completed.
    Complete(usize),
}

// A depth-first walk.
#[derive(Drop)]
struct Walk {
    // Where each procedure stands.
    standings: Vec<Standing>,
    // The procedures whose components aren't complete, in the order in which they were entered.
    open: Vec<usize>,
    // How many components are complete.
    complete: usize,
}

// The least place among the open ones to which calls lead from a procedure that isn't complete, one call on.
fn least_place(callees: &[u32], standings: &[Standing], own: usize) -> usize {
    let mut least = own;
    for callee in callees {
        if let Some(Standing::Open(place)) = standings.get(*callee as usize).copied() {
            least = least.min(place);
        }
    }
    least
}

// Completes a component.
fn complete(members: &[usize], number: usize, standings: &mut [Standing]) {
    for member in members {
        if let Some(standing) = standings.get_mut(*member) {
            *standing = Standing::Complete(number);
        }
    }
}

// Enters a procedure that is new.
fn enter(
    graph: &Graph,
    procedure: usize,
    walk: &mut Walk,
    steps: &mut Vec<Step>,
) -> Result<(), AllocError> {
    if let Some(standing) = walk.standings.get_mut(procedure) {
        if let Standing::New = *standing {
            *standing = Standing::Open(walk.open.len());
            walk.open.push(procedure)?;
            push_steps(graph, procedure, steps)?;
        }
    }
    Ok(())
}

// Leaves a procedure: it completes a component, where calls lead to no procedure that was entered before it and is open.
fn leave(graph: &Graph, procedure: usize, walk: &mut Walk) {
    let Some(Standing::Open(own)) = walk.standings.get(procedure).copied() else {
        return;
    };
    let least = least_place(graph.callees(procedure), &walk.standings, own);
    if least < own {
        walk.standings[procedure] = Standing::Open(least);
    } else if own < walk.open.len() {
        complete(&walk.open[own..], walk.complete, &mut walk.standings);
        walk.open.truncate(own);
        walk.complete = walk.complete.saturating_add(1);
    }
}

// The number of each procedure's component: those that it calls are complete first.
fn numbers(alloc: Global, standings: &[Standing]) -> Result<Vec<usize>, AllocError> {
    let mut numbers = Vec::with_capacity(alloc, standings.len())?;
    for standing in standings {
        numbers.push(match *standing {
            Standing::Complete(number) => number,
            _ => 0,
        })?;
    }
    Ok(numbers)
}

// Numbers of procedures that don't rise along calls, and are equal where calls lead from each to the other.
pub(crate) fn component_numbers(alloc: Global, graph: &Graph) -> Result<Vec<usize>, AllocError> {
    let mut walk = Walk {
        standings: vec![in alloc; Standing::New; graph.count()]?,
        open: Vec::new(alloc),
        complete: 0,
    };
    let mut steps = all_entered(alloc, graph.count())?;
    for _step in 0..u64::MAX {
        match steps.pop() {
            Some(Step::Enter(procedure)) => enter(graph, procedure, &mut walk, &mut steps)?,
            Some(Step::Leave(procedure)) => leave(graph, procedure, &mut walk),
            None => break,
        }
    }
    numbers(alloc, &walk.standings)
}
