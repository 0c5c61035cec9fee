// Calls by their callers.

ghost use Rattle.std.specs.Prelude.{◌≡◌, [], ◌<◌, ℕ, IfOk, vec_len, slice_index_or};
ghost use Rattle.callgraph.specs.Calls.{Within};
ghost use Rattle.callgraph.specs.Graphs.{IsGraph, rows_of};

use crate::Call;
use std::alloc::{AllocError, Global};

/// What one procedure calls.
#[derive(Drop)]
pub struct Row {
    /// The procedures that it calls, one for each of its calls.
    pub callees: Vec<u32>,
}

/// The calls of procedures, by their callers.
#[derive(Drop)]
pub struct Graph {
    /// What each procedure calls.
    pub rows: Vec<Row>,
}

// The rows of procedures that call nothing.
fn empty_rows(alloc: Global, count: usize) -> Result<Vec<Row>, AllocError>
    ensures len { IfOk result (λ v. vec_len v ≡ count) }
    ensures empty { IfOk result (λ v. (a : ℕ) → slice_index_or (rows_of v.items) a [] ≡ []) }
{
    let mut rows = Vec::with_capacity(alloc, count)?;
    for _row in 0..count {
        rows.push(Row {
            callees: Vec::new(alloc),
        })?;
    }
    Ok(rows)
}

impl Graph {
    /// The calls of `count` procedures. The only error is that memory runs out.
    pub fn new(alloc: Global, calls: &[Call], count: usize) -> Result<Graph, AllocError>
        requires { Within calls.now count }
        ensures len { IfOk result (λ g. vec_len g.rows ≡ count) }
        ensures graph { IfOk result (λ g. IsGraph calls.now g) }
    {
        let mut rows = empty_rows(alloc, count)?;
        for call in calls {
            rows[call.caller as usize].callees.push(call.callee)?;
        }
        Ok(Graph { rows })
    }

    /// How many procedures there are.
    pub fn count(&self) -> usize
        ensures { result ≡ vec_len self.now.rows }
    {
        self.rows.len()
    }

    /// What a procedure calls.
    pub fn callees(&self, procedure: usize) -> &[u32]
        ensures { result.now ≡ slice_index_or (rows_of self.now.rows.items) procedure [] }
    {
        match self.rows.get(procedure) {
            Some(row) => &row.callees,
            None => &[],
        }
    }
}
