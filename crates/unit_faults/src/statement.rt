// The faults of statements.

ghost use Rattle.std.specs.Prelude.{◌++◌};
ghost use Rattle.program.specs.declared.kinds.ValueType.TheVariants.{Boolean as BooleanOf};
ghost use Rattle.syntax.specs.View as v;
ghost use Rattle.types.specs.CallFaults as c;
ghost use Rattle.types.specs.Faults.{Gathers};
ghost use Rattle.types.specs.Scope.{Scope};
ghost use Rattle.types.specs.StatementFaults as f;
ghost use Rattle.unit_faults.specs.Contexts.{IsContext};

use crate::call::{call, fork};
use crate::context::Context;
use body_faults::{assignment, join, notify, print, returned, typed, wait};
use program::ValueType;
use scanner::Refusal;
use syntax::{Expression, Statement};

// A test, and what is done where it holds.
#[cycle(statements)]
fn guarded(
    body: &[Statement<'_>],
    condition: &Expression<'_>,
    context: &Context<'_, '_, '_>,
    least: Option<Refusal>,
) -> Option<Refusal>
    ensures { (s : Scope) → IsContext s context.now
        → Gathers (f.typed_faults s BooleanOf (v.expression_of condition.now)
        ++ c.block_faults s (v.statements_in body.now)) least result }
{
    let first = typed(context.standing, ValueType::Boolean, condition, least);
    block(body, context, first)
}

// A statement.
#[cycle(statements)]
fn statement(
    tree: &Statement<'_>,
    context: &Context<'_, '_, '_>,
    least: Option<Refusal>,
) -> Option<Refusal>
    ensures { (s : Scope) → IsContext s context.now
        → Gathers (c.statement_faults s (v.statement_of tree.now)) least result }
{
    let standing = context.standing;
    let role = context.role;
    match tree {
        Statement::Assign(target, value) => assignment(standing, target, value, least),
        Statement::If {
            condition,
            then_part,
            else_part,
            ..
        } => {
            let first = guarded(then_part, condition, context, least);
            match else_part {
                Some(else_part) => block(else_part, context, first),
                None => first,
            }
        }
        Statement::While {
            condition,
            body,
            ..
        } => guarded(body, condition, context, least),
        Statement::Call {
            place,
            callee,
            into,
        } => call(context, *place, callee, *into, least),
        Statement::Fork {
            place,
            callee,
            into,
        } => fork(context, *place, callee, *into, least),
        Statement::Join {
            place,
            process,
            into,
            aborted,
        } => {
            let first = join(standing, role, *place, process, *into, least);
            match aborted {
                Some(aborted) => block(aborted, context, first),
                None => first,
            }
        }
        Statement::Return { place, value } => {
            returned(standing, role, context.returns, *place, value, least)
        }
        Statement::Wait { place, condition } => wait(standing, role, *place, *condition, least),
        Statement::Notify { place, condition } => notify(standing, role, *place, *condition, least),
        Statement::Broadcast { place, condition } => {
            notify(standing, role, *place, *condition, least)
        }
        Statement::Print { value, .. } => print(standing, value, least),
        Statement::Abort { .. } => least,
    }
}

/// The least fault, where statements stand behind what has this one.
#[cycle(statements)]
pub fn block(
    statements: &[Statement<'_>],
    context: &Context<'_, '_, '_>,
    least: Option<Refusal>,
) -> Option<Refusal>
    ensures { (s : Scope) → IsContext s context.now
        → Gathers (c.block_faults s (v.statements_in statements.now)) least result }
{
    let mut all = least;
    for tree in statements {
        all = statement(tree, context, all);
    }
    all
}
