// The faults of statements that hold no others.

ghost use Rattle.std.specs.Prelude.{◌≡◌, ◌++◌, option_map, Some as SomeOf, None as NoneOf};
ghost use Rattle.scanner.specs.declared.token.Place.{Place as PlaceOf};
ghost use Rattle.syntax.specs.Tree.{Print, Wait, Notify, Return};
ghost use Rattle.syntax.specs.View as v;
ghost use Rattle.types.specs.CallFaults as c;
ghost use Rattle.types.specs.StatementFaults as f;
ghost use Rattle.program.specs.declared.kinds.ValueType.TheVariants.{Process as ProcessOf, Integer as IntegerOf};
ghost use Rattle.types.specs.Faults.{Gathers};
ghost use Rattle.types.specs.Kinds.{result_kind};
ghost use Rattle.types.specs.Scope.{Scope};
ghost use Rattle.types.specs.Standings.{IsNameScope};

use crate::expressions::expression;
use crate::names::{condition, into, outside, recover};
use crate::values::typed;
use program::{Role, ValueType};
use scanner::{Place, Refusal, RefusalKind};
use syntax::{Expression, Name};
use types::{NameScope, note};

/// The least fault, where a PRINT stands behind what has this one.
pub fn print(
    standing: &NameScope<'_, '_>,
    tree: &Expression<'_>,
    least: Option<Refusal>,
) -> Option<Refusal>
    ensures { (s : Scope) (place : PlaceOf) → IsNameScope s standing.now
        → Gathers (c.statement_faults s (Print place (v.expression_of tree.now))) least result }
{
    typed(standing, ValueType::Integer, tree, least)
}

/// The least fault, where a WAIT stands behind what has this one.
pub fn wait(
    standing: &NameScope<'_, '_>,
    role: Role,
    place: Place,
    name: Name<'_>,
    least: Option<Refusal>,
) -> Option<Refusal>
    ensures { (s : Scope) → IsNameScope s standing.now → s.piece.role ≡ role
        → Gathers (c.statement_faults s (Wait place (v.name_of name.entry))) least result }
{
    let first = recover(role, place, least);
    let second = outside(role, place, first);
    condition(standing, name, second)
}

/// The least fault, where a NOTIFY or a BROADCAST, which have the same ones, stands behind what has this one.
pub fn notify(
    standing: &NameScope<'_, '_>,
    role: Role,
    place: Place,
    name: Name<'_>,
    least: Option<Refusal>,
) -> Option<Refusal>
    ensures { (s : Scope) → IsNameScope s standing.now → s.piece.role ≡ role
        → Gathers (c.statement_faults s (Notify place (v.name_of name.entry))) least result }
{
    let first = outside(role, place, least);
    condition(standing, name, first)
}

// The least fault of an expression that is returned, where a result of this type is due, if any.
fn some_value(
    standing: &NameScope<'_, '_>,
    returns: Option<ValueType>,
    place: Place,
    tree: &Expression<'_>,
    least: Option<Refusal>,
) -> Option<Refusal>
    ensures { (s : Scope) → IsNameScope s standing.now
        → Gathers (c.return_faults s place returns (SomeOf (v.expression_of tree.now))) least result }
{
    match returns {
        Some(wanted) => typed(standing, wanted, tree, least),
        None => {
            let first = note(Some(RefusalKind::TypeMismatch), place, least);
            expression(standing, tree, first)
        }
    }
}

// The least fault of a RETURN without an expression.
fn no_value(returns: Option<ValueType>, place: Place, least: Option<Refusal>) -> Option<Refusal>
    ensures { (s : Scope) → Gathers (c.return_faults s place returns NoneOf) least result }
{
    match returns {
        Some(_) => note(Some(RefusalKind::TypeMismatch), place, least),
        None => least,
    }
}

/// The least fault, where a RETURN stands behind what has this one, in a piece of this role and result.
pub fn returned(
    standing: &NameScope<'_, '_>,
    role: Role,
    returns: Option<ValueType>,
    place: Place,
    value: &Option<Expression<'_>>,
    least: Option<Refusal>,
) -> Option<Refusal>
    ensures { (s : Scope) → IsNameScope s standing.now → s.piece.role ≡ role
        → option_map result_kind s.piece.returns ≡ returns
        → Gathers (c.statement_faults s (Return place (v.option_expression value.now))) least result }
{
    let first = recover(role, place, least);
    match value {
        Some(tree) => some_value(standing, returns, place, tree, first),
        None => no_value(returns, place, first),
    }
}

/// The least fault of a JOIN, without that of the statements behind ABORTED.
pub fn join(
    standing: &NameScope<'_, '_>,
    role: Role,
    place: Place,
    process: &Expression<'_>,
    name: Option<Name<'_>>,
    least: Option<Refusal>,
) -> Option<Refusal>
    ensures { (s : Scope) → IsNameScope s standing.now → s.piece.role ≡ role
        → Gathers (c.recover_faults s place
        ++ f.typed_faults s ProcessOf (v.expression_of process.now)
        ++ f.into_faults s (SomeOf IntegerOf) (v.option_name name.entry)) least result }
{
    let first = recover(role, place, least);
    let second = typed(standing, ValueType::Process, process, first);
    into(standing, Some(ValueType::Integer), name, second)
}
