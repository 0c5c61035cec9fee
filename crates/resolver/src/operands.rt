// What statements name and evaluate.

ghost use Rattle.std.specs.Prelude.{◌≡◌, ◌&&◌, ◌++◌, IfOk, List, Option, map, option_map, slice_get};
ghost use Rattle.scanner.specs.declared.refusal.Refusal.{Refusal};
ghost use Rattle.scanner.specs.declared.token.Place.{Place};
ghost use Rattle.program.specs.Trees as t;
ghost use Rattle.program.specs.declared.kinds.ValueType.{ValueType as TypeOf};
ghost use Rattle.program.specs.Views.{expression_of};
ghost use Rattle.syntax.specs.View as v;
ghost use Rattle.types.specs.CallFaults.{condition_faults};
ghost use Rattle.types.specs.Expressions as x;
ghost use Rattle.types.specs.Kinds as k;
ghost use Rattle.types.specs.Scope.{Scope, meaning};
ghost use Rattle.types.specs.Standings.{IsNameScope};
ghost use Rattle.types.specs.StatementFaults as f;
ghost use Rattle.types.specs.Statements as st;
ghost use Rattle.resolver.specs.Clean.{is_clean, wants_of, Says};

use crate::expressions::expression;
use crate::known::{Typed, fits, fits_behind};
use crate::names::array;
use program::{Expression, Member, ValueType};
use std::alloc::{AllocError, Global};
use syntax::{Name, Parameter};
use types::{NameScope, condition_fault, differ, local_kind};

/// The local that a name behind INTO means, local 0 where it means none, and whether it may take a value of this type.
pub fn local(standing: &NameScope<'_, '_>, kind: Option<ValueType>, name: Name<'_>) -> (u32, bool)
    ensures local { (s : Scope) → IsNameScope s standing.now
        → result.0 ≡ st.local s (v.name_of name.entry) }
    ensures clean { (s : Scope) → IsNameScope s standing.now
        → result.1 ≡ is_clean (f.taker_faults s kind (v.name_of name.entry)) }
{
    match standing.locals.find(name) {
        Some(slot) => (
            slot,
            !differ(kind, standing.kinds.get(slot as usize).copied()),
        ),
        None => (0, false),
    }
}

/// The local behind INTO, where a name stands there, and whether it may take a value of this type.
pub fn into(
    standing: &NameScope<'_, '_>,
    kind: Option<ValueType>,
    name: Option<Name<'_>>,
) -> (Option<u32>, bool)
    ensures into { (s : Scope) → IsNameScope s standing.now
        → result.0 ≡ st.into s (v.option_name name.entry) }
    ensures clean { (s : Scope) → IsNameScope s standing.now
        → result.1 ≡ is_clean (f.into_faults s kind (v.option_name name.entry)) }
{
    match name {
        Some(name) => {
            let (slot, is_clean) = local(standing, kind, name);
            (Some(slot), is_clean)
        }
        None => (None, true),
    }
}

/// The condition behind WAIT, NOTIFY or BROADCAST, member 0 of monitor 0 where there is none, and whether it is one.
pub fn condition_of(standing: &NameScope<'_, '_>, name: Name<'_>) -> (Member, bool)
    ensures condition { (s : Scope) → IsNameScope s standing.now
        → result.0 ≡ st.condition s (v.name_of name.entry) }
    ensures clean { (s : Scope) → IsNameScope s standing.now
        → result.1 ≡ is_clean (condition_faults (meaning s (v.name_of name.entry)) name.entry.place) }
{
    let meaning = standing.meaning(name);
    (array(meaning), condition_fault(meaning).is_none())
}

/// An expression of which this type is wanted, and whether nothing of it is faulty. Only memory can run out.
pub fn typed(
    alloc: Global,
    standing: &NameScope<'_, '_>,
    wanted: ValueType,
    tree: &syntax::Expression<'_>,
) -> Result<(Expression, bool), AllocError>
    ensures expression { (s : Scope) → IsNameScope s standing.now
        → IfOk result (λ e. expression_of e.0 ≡ x.expression s (v.expression_of tree.now)) }
    ensures clean { (s : Scope) → IsNameScope s standing.now
        → IfOk result (λ e. e.1 ≡ is_clean (f.typed_faults s wanted (v.expression_of tree.now))) }
{
    let made = expression(alloc, standing, tree)?;
    let is_clean = fits(&made, wanted);
    Ok((made.expression, is_clean))
}

// The type of the parameter of this number, where there is one.
fn wanted_of(parameters: &[Parameter<'_>], number: usize) -> Option<ValueType>
    ensures { result ≡ option_map (λ p. k.local_kind p.kind) (slice_get parameters.now number) }
{
    match parameters.get(number) {
        Some(parameter) => Some(local_kind(parameter.kind)),
        None => None,
    }
}

// Whether nothing is faulty before an argument, nor in it where this type is wanted, if any.
fn passes(before: bool, made: &Typed, wanted: Option<ValueType>) -> bool
    ensures { (e : t.Expression) (kind : Option TypeOf) (fs : List Refusal) (place : Place)
        → Says e kind fs made.now
        → result ≡ (before && is_clean (fs ++ wants_of wanted kind place)) }
{
    match wanted {
        Some(wanted) => fits_behind(before, made, wanted),
        None => before && made.is_clean,
    }
}

/// Arguments for these parameters, in their order, and whether nothing of them is faulty but their number. Only memory
/// can run out.
pub fn arguments(
    alloc: Global,
    standing: &NameScope<'_, '_>,
    trees: &[syntax::Expression<'_>],
    parameters: &[Parameter<'_>],
) -> Result<(Vec<Expression>, bool), AllocError>
    ensures arguments { (s : Scope) → IsNameScope s standing.now
        → IfOk result (λ es. map expression_of es.0.items
        ≡ st.arguments s (map v.expression_of trees.now)) }
    ensures clean { (s : Scope) → IsNameScope s standing.now
        → IfOk result (λ es. es.1 ≡ is_clean (f.arguments_faults s (map v.expression_of trees.now)
        ++ f.matched_faults s (map v.expression_of trees.now) (map v.parameter_of parameters.now))) }
{
    let mut arguments = Vec::new(alloc);
    let mut all_clean = true;
    for (number, tree) in trees.iter().enumerate() {
        let made = expression(alloc, standing, tree)?;
        let wanted = wanted_of(parameters, number);
        all_clean = passes(all_clean, &made, wanted);
        arguments.push(made.expression)?;
    }
    Ok((arguments, all_clean))
}
