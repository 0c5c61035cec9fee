// Chains of calls.

ghost use Rattle.std.specs.Prelude.{◌≡◌, ℕ, ◌<◌, length, slice_index_or, IfOk, vec_len, nat_eq, ◌&&◌, true, false};
ghost use Rattle.std.specs.List.{list_any};
ghost use Rattle.callgraph.specs.Calls.{Within, has_chain};

use crate::Call;
use std::alloc::{AllocError, Global};

/// Which procedures call a marked one.
pub fn callers(alloc: Global, calls: &[Call], marks: &[bool]) -> Result<Vec<bool>, AllocError>
    requires { Within calls.now (length marks.now) }
    ensures len { IfOk result (λ v. vec_len v ≡ length marks.now) }
    ensures marks { IfOk result (λ v. (a : ℕ) → slice_index_or v.items a false
        ≡ list_any (λ c. nat_eq c.caller a && slice_index_or marks.now c.callee false) calls.now) }
{
    let mut next = vec![in alloc; false; marks.len()]?;
    for call in calls {
        if marks[call.callee as usize] {
            next[call.caller as usize] = true;
        }
    }
    Ok(next)
}

// Whether the same procedures are marked.
fn are_same(marks: &[bool], others: &[bool]) -> bool
    ensures { result ≡ true → marks.now ≡ others.now }
{
    marks == others
}

/// Which of `count` procedures begin a chain of so many calls.
pub fn chains(
    alloc: Global,
    calls: &[Call],
    count: usize,
    most: u32,
) -> Result<Vec<bool>, AllocError>
    requires { Within calls.now count }
    ensures len { IfOk result (λ v. vec_len v ≡ count) }
    ensures chains { IfOk result (λ v. (a : ℕ) → a < count → slice_index_or v.items a false
        ≡ has_chain calls.now most a) }
{
    let mut marks = vec![in alloc; true; count]?;
    for _round in 0..most {
        let next = callers(alloc, calls, &marks)?;
        // A round that changes nothing is the last one that could.
        if are_same(&next, &marks) {
            return Ok(marks);
        }
        marks = next;
    }
    Ok(marks)
}
