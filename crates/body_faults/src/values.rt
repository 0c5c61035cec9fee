// The faults of expressions of which a type is wanted, and of assignments.

ghost use Rattle.syntax.specs.Tree.{Assign, NoIndex, At};
ghost use Rattle.syntax.specs.View as v;
ghost use Rattle.types.specs.CallFaults as c;
ghost use Rattle.types.specs.Faults.{Gathers};
ghost use Rattle.types.specs.Scope.{Scope};
ghost use Rattle.types.specs.Standings.{IsNameScope};
ghost use Rattle.types.specs.StatementFaults as f;

use crate::expressions::{element, judge_expression};
use crate::names::note_where;
use crate::operands::operand;
use program::ValueType;
use scanner::{Refusal, RefusalKind};
use syntax::{Element, Expression, Name, Variable};
use types::{NameScope, differ, expression_place, note, read_fault, variable_type};

/// The least fault, where an expression of this type is wanted.
pub fn typed(
    standing: &NameScope<'_, '_>,
    wanted: ValueType,
    tree: &Expression<'_>,
    least: Option<Refusal>,
) -> Option<Refusal>
    ensures { (s : Scope) → IsNameScope s standing.now
        → Gathers (f.typed_faults s wanted (v.expression_of tree.now)) least result }
{
    let judged = judge_expression(standing, tree, least);
    operand(wanted, judged.kind, expression_place(tree), judged.least)
}

// The least fault of what is assigned to something of this type.
fn value(
    standing: &NameScope<'_, '_>,
    target: Option<ValueType>,
    tree: &Expression<'_>,
    least: Option<Refusal>,
) -> Option<Refusal>
    ensures { (s : Scope) → IsNameScope s standing.now
        → Gathers (f.value_faults s target (v.expression_of tree.now)) least result }
{
    let judged = judge_expression(standing, tree, least);
    let test = differ(target, judged.kind);
    note_where(
        test,
        RefusalKind::TypeMismatch,
        expression_place(tree),
        judged.least,
    )
}

// An assignment to a variable.
fn to_variable(
    standing: &NameScope<'_, '_>,
    name: Name<'_>,
    tree: &Expression<'_>,
    least: Option<Refusal>,
) -> Option<Refusal>
    ensures { (s : Scope) → IsNameScope s standing.now
        → Gathers (c.statement_faults s (Assign (record { name = v.name_of name.entry; index = NoIndex })
        (v.expression_of tree.now))) least result }
{
    let meaning = standing.meaning(name);
    let before = note(read_fault(meaning), name.place, least);
    value(standing, variable_type(meaning), tree, before)
}

// An assignment to an element of an array.
fn to_element(
    standing: &NameScope<'_, '_>,
    target: &Element<'_>,
    tree: &Expression<'_>,
    least: Option<Refusal>,
) -> Option<Refusal>
    ensures { (s : Scope) → IsNameScope s standing.now
        → Gathers (c.statement_faults s (Assign (record {
          name = v.name_of target.now.name;
          index = At (v.expression_of target.now.index);
        }) (v.expression_of tree.now))) least result }
{
    let judged = element(standing, target, least);
    value(standing, judged.kind, tree, judged.least)
}

/// The least fault, where an assignment stands behind what has this one.
pub fn assignment(
    standing: &NameScope<'_, '_>,
    target: &Variable<'_>,
    tree: &Expression<'_>,
    least: Option<Refusal>,
) -> Option<Refusal>
    ensures { (s : Scope) → IsNameScope s standing.now
        → Gathers (c.statement_faults s
        (Assign (v.variable_of target.now) (v.expression_of tree.now)))
        least result }
{
    match target {
        Variable::Name(name) => to_variable(standing, *name, tree, least),
        Variable::Element(inner) => to_element(standing, inner, tree, least),
    }
}
