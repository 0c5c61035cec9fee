// Statements that hold no others and call nothing.

ghost use Rattle.std.specs.Prelude.{◌≡◌, IfOk, Some as SomeOf};
ghost use Rattle.scanner.specs.declared.token.Place.{Place as PlaceOf};
ghost use Rattle.program.specs.Views.{target_of};
ghost use Rattle.syntax.specs.Tree.{Assign, Print, NoIndex};
ghost use Rattle.syntax.specs.View as v;
ghost use Rattle.types.specs.ExpressionFaults.{use_faults};
ghost use Rattle.types.specs.Scope.{Scope};
ghost use Rattle.types.specs.Standings.{meaning_of, IsNameScope};
ghost use Rattle.types.specs.Statements as st;
ghost use Rattle.types.specs.Typing.{type_of_use};
ghost use Rattle.resolver.specs.Clean.{is_clean, IsAim, IsJudged, IsReturn};

use crate::expressions::{element, expression};
use crate::known::{Aim, Judged, fits, takes};
use crate::operands::typed;
use program::{Statement, Target, ValueType};
use std::alloc::{AllocError, Global};
use syntax::{Expression, Variable};
use types::{Meaning, NameScope, read_fault, variable_type};

// What is assigned to by its name alone; a name that means nothing is local 0.
fn named(meaning: Meaning) -> Aim
    ensures target { (s : Scope) → target_of result.target
        ≡ st.target_of s (meaning_of meaning) NoIndex }
    ensures kind { result.kind ≡ type_of_use (meaning_of meaning) NoIndex }
    ensures clean { (place : PlaceOf) → result.is_clean
        ≡ is_clean (use_faults (meaning_of meaning) NoIndex place) }
{
    let target = match meaning {
        Meaning::Nothing => Target::Local(0),
        Meaning::Local(slot, _) => Target::Local(slot),
        Meaning::Member(member, _) => Target::Member(member),
    };
    Aim {
        target,
        kind: variable_type(meaning),
        is_clean: read_fault(meaning).is_none(),
    }
}

// What is assigned to.
fn target(
    alloc: Global,
    standing: &NameScope<'_, '_>,
    tree: &Variable<'_>,
) -> Result<Aim, AllocError>
    ensures { (s : Scope) → IsNameScope s standing.now
        → IfOk result (IsAim s (v.variable_of tree.now)) }
{
    match tree {
        Variable::Name(name) => Ok(named(standing.meaning(*name))),
        Variable::Element(inner) => {
            let made = element(alloc, standing, inner)?;
            Ok(Aim {
                target: Target::Element(made.element),
                kind: made.kind,
                is_clean: made.is_clean,
            })
        }
    }
}

/// An assignment. Only memory can run out.
pub fn assignment(
    alloc: Global,
    standing: &NameScope<'_, '_>,
    variable: &Variable<'_>,
    tree: &Expression<'_>,
) -> Result<Judged, AllocError>
    ensures { (s : Scope) → IsNameScope s standing.now
        → IfOk result (IsJudged s (Assign (v.variable_of variable.now) (v.expression_of tree.now))) }
{
    let aim = target(alloc, standing, variable)?;
    let value = expression(alloc, standing, tree)?;
    let is_clean = takes(&aim, &value);
    Ok(Judged {
        statement: Statement::Assign(aim.target, value.expression),
        is_clean,
    })
}

/// A PRINT. Only memory can run out.
pub fn print(
    alloc: Global,
    standing: &NameScope<'_, '_>,
    tree: &Expression<'_>,
) -> Result<Judged, AllocError>
    ensures { (s : Scope) (place : PlaceOf) → IsNameScope s standing.now
        → IfOk result (IsJudged s (Print place (v.expression_of tree.now))) }
{
    let (value, is_clean) = typed(alloc, standing, ValueType::Integer, tree)?;
    Ok(Judged {
        statement: Statement::Print(value),
        is_clean,
    })
}

// A RETURN with an expression, where a result of this type is due, if any.
fn some_value(
    alloc: Global,
    standing: &NameScope<'_, '_>,
    returns: Option<ValueType>,
    tree: &Expression<'_>,
) -> Result<Judged, AllocError>
    ensures { (s : Scope) (place : PlaceOf) → IsNameScope s standing.now
        → IfOk result (IsReturn s place returns (SomeOf (v.expression_of tree.now))) }
{
    let value = expression(alloc, standing, tree)?;
    let is_clean = match returns {
        Some(wanted) => fits(&value, wanted),
        None => false,
    };
    Ok(Judged {
        statement: Statement::Return(Some(value.expression)),
        is_clean,
    })
}

/// A RETURN, where a result of this type is due, if any. Only memory can run out.
pub fn returned(
    alloc: Global,
    standing: &NameScope<'_, '_>,
    returns: Option<ValueType>,
    tree: &Option<Expression<'_>>,
) -> Result<Judged, AllocError>
    ensures { (s : Scope) (place : PlaceOf) → IsNameScope s standing.now
        → IfOk result (IsReturn s place returns (v.option_expression tree.now)) }
{
    match tree {
        Some(tree) => some_value(alloc, standing, returns, tree),
        None => Ok(Judged {
            statement: Statement::Return(None),
            is_clean: returns.is_none(),
        }),
    }
}
