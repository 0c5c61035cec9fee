ghost use Rattle.std.specs.Prelude.{◌≡◌, List, true};
ghost use Rattle.program.specs.Trees.{Block};
ghost use Rattle.meaning.specs.Processes.{Caller, Frame as FrameIn};
ghost use Rattle.source_offers.specs.Frames.{caller_of, callers_from};
ghost use Rattle.source_offers.specs.Rests.{stacked_blocks};
ghost use Rattle.source_offers.specs.Stages.{part_at, process_of, standing};

use crate::statements::same_block;
use program::Statement;
use source_offers::{Frame, Process, Stage};

// Whether two rests are the same.
fn same_rest(a: &[&[Statement]], b: &[&[Statement]]) -> bool
    ensures { result ≡ true → (later : Block) → stacked_blocks a.now later ≡ stacked_blocks b.now later }
{
    if a.len() != b.len() {
        return false;
    }
    for i in 0..a.len() {
        if !same_block(a[i], b[i]) {
            return false;
        }
    }
    true
}

// Whether two procedures that run stand at one place, with the same locals.
fn same_frame(a: &Frame, b: &Frame) -> bool
    ensures { result ≡ true → caller_of a.now ≡ caller_of b.now }
{
    if a.role != b.role {
        return false;
    }
    if a.into != b.into {
        return false;
    }
    if a.locals != b.locals {
        return false;
    }
    let first = a.rest.as_slice();
    let second = b.rest.as_slice();
    same_rest(first, second)
}

// Whether two lists of callers are the same.
fn same_callers(a: &[Frame], b: &[Frame]) -> bool
    ensures { result ≡ true → (callers : List Caller) → callers_from a.now callers ≡ callers_from b.now callers }
{
    if a.len() != b.len() {
        return false;
    }
    for i in 0..a.len() {
        if !same_frame(&a[i], &b[i]) {
            return false;
        }
    }
    true
}

// Whether two ABORTED parts are the same.
fn same_aborted(a: Option<&[Statement]>, b: Option<&[Statement]>) -> bool
    ensures { result ≡ true → part_at a.entry ≡ part_at b.entry }
{
    match (a, b) {
        (None, None) => true,
        (Some(a), Some(b)) => same_block(a, b),
        _ => false,
    }
}

// Whether two stages are the same.
fn same_stage(a: &Stage, b: &Stage) -> bool
    ensures { result ≡ true
        → (f : FrameIn) (callers : List Caller) → standing a.now f callers ≡ standing b.now f callers }
{
    match (a, b) {
        (Stage::Entering(m), Stage::Entering(n)) => *m == *n,
        (Stage::Before(m), Stage::Before(n)) => *m == *n,
        (Stage::Suspended(c), Stage::Suspended(d)) => *c == *d,
        (
            Stage::Joining {
                child: p,
                into: i,
                aborted: x,
            },
            Stage::Joining {
                child: q,
                into: j,
                aborted: y,
            },
        ) => {
            if *p != *q {
                return false;
            }
            if *i != *j {
                return false;
            }
            same_aborted(*x, *y)
        }
        (Stage::Returning(y), Stage::Returning(z)) => *y == *z,
        (Stage::Failing(e, m), Stage::Failing(f, n)) => *e == *f && *m == *n,
        (Stage::Dying(e, x), Stage::Dying(f, y)) => *e == *f && *x == *y,
        (Stage::Leaving(y), Stage::Leaving(z)) => *y == *z,
        (Stage::Over(d), Stage::Over(e)) => *d == *e,
        _ => false,
    }
}

// Whether nothing that is to come depends on the procedures in which a process stood: it dies, leaves or is over.
fn is_past(stage: &Stage) -> bool
    ensures { result ≡ true → (f g : FrameIn) (callers others : List Caller)
        → standing stage.now f callers ≡ standing stage.now g others }
{
    matches!(
        stage,
        Stage::Dying(_, _) | Stage::Leaving(_) | Stage::Over(_)
    )
}

// Whether nothing that is to come depends on the procedure that runs: it has ended, and hands its result over.
fn is_returning(stage: &Stage) -> bool
    ensures { result ≡ true → (f g : FrameIn) (callers : List Caller)
        → standing stage.now f callers ≡ standing stage.now g callers }
{
    matches!(stage, Stage::Returning(_))
}

/// Whether two processes stand at one place. Of one that dies, leaves or is over the procedures don't matter any more, and
/// of one that hands a result to its caller the procedure that ended doesn't.
pub fn same_process(a: &Process, b: &Process) -> bool
    ensures { result ≡ true → process_of a.now ≡ process_of b.now }
{
    if !same_stage(&a.stage, &b.stage) {
        return false;
    }
    if is_past(&a.stage) {
        return true;
    }
    let first = a.callers.as_slice();
    let second = b.callers.as_slice();
    if !same_callers(first, second) {
        return false;
    }
    if is_returning(&a.stage) {
        return true;
    }
    same_frame(&a.frame, &b.frame)
}
