// Statements, and those that hold others.

ghost use Rattle.std.specs.Prelude.{◌≡◌, ◌++◌, IfOk};
ghost use Rattle.program.specs.Views as p;
ghost use Rattle.program.specs.declared.kinds.ValueType.TheVariants.{Boolean as BooleanOf};
ghost use Rattle.syntax.specs.View as v;
ghost use Rattle.types.specs.CallFaults as c;
ghost use Rattle.types.specs.Expressions as e;
ghost use Rattle.types.specs.Scope.{Scope};
ghost use Rattle.types.specs.StatementFaults as f;
ghost use Rattle.types.specs.Statements as st;
ghost use Rattle.resolver.specs.Clean.{is_clean, IsJudged};
ghost use Rattle.resolver.specs.Sites.{IsSite, is_part_clean, part_made};

use crate::calls::{broadcast, call, fork, join, notify, return_from, wait};
use crate::flags::both;
use crate::known::Judged;
use crate::operands::typed;
use crate::simple::{assignment, print};
use crate::site::Site;
use program::{Expression, Statement, ValueType};
use std::alloc::{AllocError, Global};
use syntax::Statement as Tree;

// A test, and the statements behind it, and whether both are clean.
#[cycle(statements)]
fn tested(
    trees: &[Tree<'_>],
    tree: &syntax::Expression<'_>,
    alloc: Global,
    site: &Site<'_, '_, '_, '_>,
) -> Result<(Expression, Vec<Statement>, bool), AllocError>
    ensures condition { (s : Scope) → IsSite s site.now
        → IfOk result (λ x. p.expression_of x.0 ≡ e.expression s (v.expression_of tree.now)) }
    ensures statements { (s : Scope) → IsSite s site.now
        → IfOk result (λ x. p.block_in x.1.items ≡ st.block s (v.statements_in trees.now)) }
    ensures clean { (s : Scope) → IsSite s site.now
        → IfOk result (λ x. x.2 ≡ is_clean (f.typed_faults s BooleanOf (v.expression_of tree.now)
        ++ c.block_faults s (v.statements_in trees.now))) }
{
    let (condition, fits) = typed(alloc, site.standing, ValueType::Boolean, tree)?;
    let (statements, is_clean) = block(trees, alloc, site)?;
    Ok((condition, statements, both(fits, is_clean)))
}

// A part that may be left out, and whether it is clean.
fn part_of(made: Option<(Vec<Statement>, bool)>) -> (Option<Vec<Statement>>, bool)
    ensures part { p.part_in result.0 ≡ part_made made }
    ensures clean { result.1 ≡ is_part_clean made }
{
    match made {
        Some((statements, is_clean)) => (Some(statements), is_clean),
        None => (None, true),
    }
}

// A statement.
#[cycle(statements)]
fn statement(
    tree: &Tree<'_>,
    alloc: Global,
    site: &Site<'_, '_, '_, '_>,
) -> Result<Judged, AllocError>
    ensures { (s : Scope) → IsSite s site.now → IfOk result (IsJudged s (v.statement_of tree.now)) }
{
    match tree {
        Tree::Assign(target, value) => assignment(alloc, site.standing, target, value),
        Tree::If {
            condition,
            then_part,
            else_part,
            ..
        } => {
            let else_part = match else_part {
                Some(trees) => Some(block(trees, alloc, site)?),
                None => None,
            };
            let (condition, then_part, is_clean) = tested(then_part, condition, alloc, site)?;
            let (part, is_rest_clean) = part_of(else_part);
            Ok(Judged {
                statement: Statement::If {
                    condition,
                    then_part,
                    else_part: part,
                },
                is_clean: both(is_clean, is_rest_clean),
            })
        }
        Tree::While {
            condition,
            body,
            ..
        } => {
            let (condition, body, is_clean) = tested(body, condition, alloc, site)?;
            Ok(Judged {
                statement: Statement::While { condition, body },
                is_clean,
            })
        }
        Tree::Call { callee, into, .. } => call(alloc, site, callee, *into),
        Tree::Fork { callee, into, .. } => fork(alloc, site, callee, *into),
        Tree::Join {
            process,
            into,
            aborted,
            ..
        } => {
            let aborted = match aborted {
                Some(trees) => Some(block(trees, alloc, site)?),
                None => None,
            };
            let (part, is_rest_clean) = part_of(aborted);
            join(alloc, site, process, *into, part, is_rest_clean)
        }
        Tree::Return { value, .. } => return_from(alloc, site, value),
        Tree::Wait { condition, .. } => Ok(wait(site, *condition)),
        Tree::Notify { condition, .. } => Ok(notify(site, *condition)),
        Tree::Broadcast { condition, .. } => Ok(broadcast(site, *condition)),
        Tree::Print { value, .. } => print(alloc, site.standing, value),
        Tree::Abort { .. } => Ok(Judged {
            statement: Statement::Abort,
            is_clean: true,
        }),
    }
}

/// Statements, in their order, and whether all are clean. Calls are nested as deep as the text.
#[cycle(statements)]
pub fn block(
    trees: &[Tree<'_>],
    alloc: Global,
    site: &Site<'_, '_, '_, '_>,
) -> Result<(Vec<Statement>, bool), AllocError>
    ensures statements { (s : Scope) → IsSite s site.now
        → IfOk result (λ x. p.block_in x.0.items ≡ st.block s (v.statements_in trees.now)) }
    ensures clean { (s : Scope) → IsSite s site.now
        → IfOk result (λ x. x.1 ≡ is_clean (c.block_faults s (v.statements_in trees.now))) }
{
    let mut statements = Vec::with_capacity(alloc, trees.len())?;
    let mut is_clean = true;
    for tree in trees {
        let made = statement(tree, alloc, site)?;
        is_clean = both(is_clean, made.is_clean);
        statements.push(made.statement)?;
    }
    Ok((statements, is_clean))
}
