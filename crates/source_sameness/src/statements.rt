ghost use Rattle.std.specs.Prelude.{◌≡◌, true};
ghost use Rattle.program.specs.Trees.{Block};
ghost use Rattle.program.specs.Views.{block_before, statement_of};

use crate::expressions::{same_arguments, same_expression, same_target, same_value};
use program::Statement;

// Whether two statements are the same.
#[cycle(statements)]
fn same_statement(a: &Statement, b: &Statement) -> bool
    ensures { result ≡ true → statement_of a.now ≡ statement_of b.now }
{
    match (a, b) {
        (Statement::Assign(x, e), Statement::Assign(y, f)) => {
            same_target(x, y) && same_expression(e, f)
        }
        (
            Statement::If {
                condition: e,
                then_part: x,
                else_part: v,
            },
            Statement::If {
                condition: f,
                then_part: y,
                else_part: w,
            },
        ) => {
            if !same_expression(e, f) {
                return false;
            }
            if !same_block(x, y) {
                return false;
            }
            match (v, w) {
                (None, None) => true,
                (Some(v), Some(w)) => same_block(v, w),
                _ => false,
            }
        }
        (
            Statement::While {
                condition: e,
                body: x,
            },
            Statement::While {
                condition: f,
                body: y,
            },
        ) => same_expression(e, f) && same_block(x, y),
        (
            Statement::Call {
                procedure: p,
                arguments: x,
                into: i,
            },
            Statement::Call {
                procedure: q,
                arguments: y,
                into: j,
            },
        ) => *p == *q && same_arguments(x, y) && *i == *j,
        (
            Statement::Fork {
                procedure: p,
                arguments: x,
                into: i,
            },
            Statement::Fork {
                procedure: q,
                arguments: y,
                into: j,
            },
        ) => *p == *q && same_arguments(x, y) && *i == *j,
        (
            Statement::Join {
                handle: e,
                into: i,
                aborted: x,
            },
            Statement::Join {
                handle: f,
                into: j,
                aborted: y,
            },
        ) => {
            if !same_expression(e, f) {
                return false;
            }
            if *i != *j {
                return false;
            }
            match (x, y) {
                (None, None) => true,
                (Some(x), Some(y)) => same_block(x, y),
                _ => false,
            }
        }
        (Statement::Return(e), Statement::Return(f)) => same_value(e, f),
        (Statement::Wait(c), Statement::Wait(d)) => *c == *d,
        (Statement::Notify(c), Statement::Notify(d)) => *c == *d,
        (Statement::Broadcast(c), Statement::Broadcast(d)) => *c == *d,
        (Statement::Print(e), Statement::Print(f)) => same_expression(e, f),
        (Statement::Abort, Statement::Abort) => true,
        _ => false,
    }
}

/// Whether two lists of statements are the same.
#[cycle(statements)]
pub(crate) fn same_block(a: &[Statement], b: &[Statement]) -> bool
    ensures { result ≡ true → (later : Block) → block_before a.now later ≡ block_before b.now later }
{
    if a.len() != b.len() {
        return false;
    }
    for i in 0..a.len() {
        if !same_statement(&a[i], &b[i]) {
            return false;
        }
    }
    true
}
