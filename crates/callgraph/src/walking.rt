// Steps of depth-first walks.

use crate::graph::Graph;
use std::alloc::{AllocError, Global};

// A step of a depth-first walk.
#[derive(Clone, Copy)]
pub(crate) enum Step {
    // A procedure is entered, unless it was before.
    Enter(usize),
    // All that it calls was entered.
    Leave(usize),
}

// The steps that enter each of `count` procedures.
pub(crate) fn all_entered(alloc: Global, count: usize) -> Result<Vec<Step>, AllocError> {
    let mut steps = Vec::with_capacity(alloc, count)?;
    for number in 0..count {
        steps.push(Step::Enter(number))?;
    }
    Ok(steps)
}

// Adds the steps that enter all that a procedure calls, and leave it then.
pub(crate) fn push_steps(
    graph: &Graph,
    procedure: usize,
    steps: &mut Vec<Step>,
) -> Result<(), AllocError> {
    steps.push(Step::Leave(procedure))?;
    for callee in graph.callees(procedure) {
        steps.push(Step::Enter(*callee as usize))?;
    }
    Ok(())
}
