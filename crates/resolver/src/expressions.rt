// Expressions. Each level of their grammar is resolved by a function of its own, and a chain by a loop, so that calls
// are nested no deeper than the text.

ghost use Rattle.std.specs.Prelude.{◌++◌, IfOk, Some as SomeOf};
ghost use Rattle.program.specs.Trees as x;
ghost use Rattle.syntax.specs.Tree.{Relates, Compares, AllOf as AllOfTree, AndAlso, AnyOf as AnyOfTree, OrElse};
ghost use Rattle.syntax.specs.View as v;
ghost use Rattle.types.specs.ExpressionFaults as f;
ghost use Rattle.types.specs.Expressions as e;
ghost use Rattle.types.specs.Scope.{Scope};
ghost use Rattle.types.specs.Standings.{IsNameScope};
ghost use Rattle.types.specs.Typing as t;
ghost use Rattle.resolver.specs.Clean.{Says, IsFactor, IsIndexed, IsTerm, IsSum, IsRelation, IsConjunction, IsTyped};

use crate::folds::{both, unary};
use crate::known::{Indexed, Typed, compares, fits, fits_behind};
use crate::names::{array, variable};
use program::{Element, Expression, Operator, UnaryOperator, ValueType};
use std::alloc::{AllocError, Global};
use syntax::{AllOf, AnyOf, Comparison, Conjunction, Factor, Product, Relation, Sum, Term, Total};
use types::{
    NameScope, comparison_operator, element_type, index_fault, product_operator, sum_operator,
};

// A factor.
#[cycle(expressions)]
fn factor(
    alloc: Global,
    standing: &NameScope<'_, '_>,
    tree: &Factor<'_>,
) -> Result<Typed, AllocError>
    ensures { (s : Scope) → IsNameScope s standing.now
        → IfOk result (IsFactor s (v.factor_of tree.now)) }
{
    match tree {
        Factor::Number(number) => Ok(Typed {
            expression: Expression::Number(number.value),
            kind: Some(ValueType::Integer),
            is_clean: true,
        }),
        Factor::Truth(truth) => Ok(Typed {
            expression: Expression::Truth(truth.value),
            kind: Some(ValueType::Boolean),
            is_clean: true,
        }),
        Factor::Name(name) => Ok(variable(standing.meaning(*name))),
        Factor::Element(inner) => {
            let made = element(alloc, standing, inner)?;
            Ok(Typed {
                expression: Expression::Element(made.element),
                kind: made.kind,
                is_clean: made.is_clean,
            })
        }
        Factor::Group(_, inner) => expression(alloc, standing, inner),
        Factor::Minus(_, inner) => operated(
            alloc,
            standing,
            UnaryOperator::Negate,
            ValueType::Integer,
            inner,
        ),
        Factor::Not(_, inner) => operated(
            alloc,
            standing,
            UnaryOperator::Not,
            ValueType::Boolean,
            inner,
        ),
    }
}

// An operator before a factor, of the type that it takes and gives.
#[cycle(expressions)]
fn operated(
    alloc: Global,
    standing: &NameScope<'_, '_>,
    operator: UnaryOperator,
    wanted: ValueType,
    tree: &Factor<'_>,
) -> Result<Typed, AllocError>
    ensures { (s : Scope) → IsNameScope s standing.now
        → IfOk result (Says (x.Unary operator (e.factor s (v.factor_of tree.now))) (SomeOf wanted)
        (f.factor_faults s (v.factor_of tree.now)
        ++ f.wants wanted (t.factor_type s (v.factor_of tree.now))
        (t.factor_place (v.factor_of tree.now)))) }
{
    let operand = factor(alloc, standing, tree)?;
    let is_clean = fits(&operand, wanted);
    Ok(Typed {
        expression: unary(alloc, operator, operand.expression)?,
        kind: Some(wanted),
        is_clean,
    })
}

/// An element of an array, where an expression or a target names one.
///
/// A name that means no member is read as member 0 of monitor 0. Only memory can run out.
#[cycle(expressions)]
pub fn element(
    alloc: Global,
    standing: &NameScope<'_, '_>,
    tree: &syntax::Element<'_>,
) -> Result<Indexed, AllocError>
    ensures { (s : Scope) → IsNameScope s standing.now
        → IfOk result (IsIndexed s (v.name_of tree.now.name) (v.expression_of tree.now.index)) }
{
    let meaning = standing.meaning(tree.name);
    let index = expression(alloc, standing, &tree.index)?;
    let is_number = fits(&index, ValueType::Integer);
    let element = Element {
        array: array(meaning),
        index: index.expression,
    };
    Ok(Indexed {
        element: Box::new(alloc, element)?,
        kind: element_type(meaning),
        is_clean: index_fault(meaning).is_none() && is_number,
    })
}

// Factors with `*`, `/` or `MOD` between them.
#[cycle(expressions)]
fn product(
    alloc: Global,
    standing: &NameScope<'_, '_>,
    tree: &Product<'_>,
) -> Result<Typed, AllocError>
    ensures { (s : Scope) → IsNameScope s standing.now
        → IfOk result (IsTerm s (v.product_of tree.now)) }
{
    let first = factor(alloc, standing, &tree.first)?;
    let second = factor(alloc, standing, &tree.second.factor)?;
    let is_first = fits(&first, ValueType::Integer);
    let mut is_clean = fits_behind(is_first, &second, ValueType::Integer);
    let operator = product_operator(tree.second.operator);
    let mut left = both(alloc, operator, first.expression, second.expression)?;
    for multiplier in &tree.rest {
        let right = factor(alloc, standing, &multiplier.factor)?;
        is_clean = fits_behind(is_clean, &right, ValueType::Integer);
        left = both(
            alloc,
            product_operator(multiplier.operator),
            left,
            right.expression,
        )?;
    }
    Ok(Typed {
        expression: left,
        kind: Some(ValueType::Integer),
        is_clean,
    })
}

// A term.
#[cycle(expressions)]
fn term(alloc: Global, standing: &NameScope<'_, '_>, tree: &Term<'_>) -> Result<Typed, AllocError>
    ensures { (s : Scope) → IsNameScope s standing.now
        → IfOk result (IsTerm s (v.term_of tree.now)) }
{
    match tree {
        Term::Factor(tree) => factor(alloc, standing, tree),
        Term::Product(tree) => product(alloc, standing, tree),
    }
}

// Terms with `+` or `-` between them.
#[cycle(expressions)]
fn total(alloc: Global, standing: &NameScope<'_, '_>, tree: &Total<'_>) -> Result<Typed, AllocError>
    ensures { (s : Scope) → IsNameScope s standing.now
        → IfOk result (IsSum s (v.total_of tree.now)) }
{
    let first = term(alloc, standing, &tree.first)?;
    let second = term(alloc, standing, &tree.second.term)?;
    let is_first = fits(&first, ValueType::Integer);
    let mut is_clean = fits_behind(is_first, &second, ValueType::Integer);
    let operator = sum_operator(tree.second.operator);
    let mut left = both(alloc, operator, first.expression, second.expression)?;
    for summand in &tree.rest {
        let right = term(alloc, standing, &summand.term)?;
        is_clean = fits_behind(is_clean, &right, ValueType::Integer);
        left = both(
            alloc,
            sum_operator(summand.operator),
            left,
            right.expression,
        )?;
    }
    Ok(Typed {
        expression: left,
        kind: Some(ValueType::Integer),
        is_clean,
    })
}

// A sum.
#[cycle(expressions)]
fn sum(alloc: Global, standing: &NameScope<'_, '_>, tree: &Sum<'_>) -> Result<Typed, AllocError>
    ensures { (s : Scope) → IsNameScope s standing.now
        → IfOk result (IsSum s (v.sum_of tree.now)) }
{
    match tree {
        Sum::Factor(tree) => factor(alloc, standing, tree),
        Sum::Product(tree) => product(alloc, standing, tree),
        Sum::Total(tree) => total(alloc, standing, tree),
    }
}

// Two sums with the sign of a comparison between them.
#[cycle(expressions)]
fn comparison(
    alloc: Global,
    standing: &NameScope<'_, '_>,
    tree: &Comparison<'_>,
) -> Result<Typed, AllocError>
    ensures { (s : Scope) → IsNameScope s standing.now
        → IfOk result (IsRelation s (Relates (v.sum_of tree.now.left)
        (Compares tree.now.comparator (v.sum_of tree.now.right)))) }
{
    let left = sum(alloc, standing, &tree.left)?;
    let right = sum(alloc, standing, &tree.right)?;
    let is_clean = compares(tree.comparator, &left, &right);
    let operator = comparison_operator(tree.comparator);
    let joined = both(alloc, operator, left.expression, right.expression)?;
    Ok(Typed {
        expression: joined,
        kind: Some(ValueType::Boolean),
        is_clean,
    })
}

// A relation.
#[cycle(expressions)]
fn relation(
    alloc: Global,
    standing: &NameScope<'_, '_>,
    tree: &Relation<'_>,
) -> Result<Typed, AllocError>
    ensures { (s : Scope) → IsNameScope s standing.now
        → IfOk result (IsRelation s (v.relation_of tree.now)) }
{
    match tree {
        Relation::Factor(tree) => factor(alloc, standing, tree),
        Relation::Product(tree) => product(alloc, standing, tree),
        Relation::Total(tree) => total(alloc, standing, tree),
        Relation::Comparison(tree) => comparison(alloc, standing, tree),
    }
}

// Relations with `AND` between them.
#[cycle(expressions)]
fn all_of(
    alloc: Global,
    standing: &NameScope<'_, '_>,
    tree: &AllOf<'_>,
) -> Result<Typed, AllocError>
    ensures { (s : Scope) → IsNameScope s standing.now
        → IfOk result (IsConjunction s (AllOfTree (v.relation_of tree.now.first)
        (AndAlso (v.relation_of tree.now.second) (v.relations_in tree.now.rest.items)))) }
{
    let first = relation(alloc, standing, &tree.first)?;
    let second = relation(alloc, standing, &tree.second)?;
    let is_first = fits(&first, ValueType::Boolean);
    let mut is_clean = fits_behind(is_first, &second, ValueType::Boolean);
    let mut left = both(alloc, Operator::And, first.expression, second.expression)?;
    for further in &tree.rest {
        let right = relation(alloc, standing, further)?;
        is_clean = fits_behind(is_clean, &right, ValueType::Boolean);
        left = both(alloc, Operator::And, left, right.expression)?;
    }
    Ok(Typed {
        expression: left,
        kind: Some(ValueType::Boolean),
        is_clean,
    })
}

// A conjunction.
#[cycle(expressions)]
fn conjunction(
    alloc: Global,
    standing: &NameScope<'_, '_>,
    tree: &Conjunction<'_>,
) -> Result<Typed, AllocError>
    ensures { (s : Scope) → IsNameScope s standing.now
        → IfOk result (IsConjunction s (v.conjunction_of tree.now)) }
{
    match tree {
        Conjunction::Factor(tree) => factor(alloc, standing, tree),
        Conjunction::Product(tree) => product(alloc, standing, tree),
        Conjunction::Total(tree) => total(alloc, standing, tree),
        Conjunction::Comparison(tree) => comparison(alloc, standing, tree),
        Conjunction::AllOf(tree) => all_of(alloc, standing, tree),
    }
}

// Conjunctions with `OR` between them.
#[cycle(expressions)]
fn any_of(
    alloc: Global,
    standing: &NameScope<'_, '_>,
    tree: &AnyOf<'_>,
) -> Result<Typed, AllocError>
    ensures { (s : Scope) → IsNameScope s standing.now
        → IfOk result (IsTyped s (AnyOfTree (v.conjunction_of tree.now.first)
        (OrElse (v.conjunction_of tree.now.second) (v.conjunctions_in tree.now.rest.items)))) }
{
    let first = conjunction(alloc, standing, &tree.first)?;
    let second = conjunction(alloc, standing, &tree.second)?;
    let is_first = fits(&first, ValueType::Boolean);
    let mut is_clean = fits_behind(is_first, &second, ValueType::Boolean);
    let mut left = both(alloc, Operator::Or, first.expression, second.expression)?;
    for further in &tree.rest {
        let right = conjunction(alloc, standing, further)?;
        is_clean = fits_behind(is_clean, &right, ValueType::Boolean);
        left = both(alloc, Operator::Or, left, right.expression)?;
    }
    Ok(Typed {
        expression: left,
        kind: Some(ValueType::Boolean),
        is_clean,
    })
}

/// An expression, with these names in scope.
///
/// Only memory can run out. Calls are nested as deep as the text, of which the parser bounds the nestings.
#[cycle(expressions)]
pub fn expression(
    alloc: Global,
    standing: &NameScope<'_, '_>,
    tree: &syntax::Expression<'_>,
) -> Result<Typed, AllocError>
    ensures { (s : Scope) → IsNameScope s standing.now
        → IfOk result (IsTyped s (v.expression_of tree.now)) }
{
    match tree {
        syntax::Expression::Factor(tree) => factor(alloc, standing, tree),
        syntax::Expression::Product(tree) => product(alloc, standing, tree),
        syntax::Expression::Total(tree) => total(alloc, standing, tree),
        syntax::Expression::Comparison(tree) => comparison(alloc, standing, tree),
        syntax::Expression::AllOf(tree) => all_of(alloc, standing, tree),
        syntax::Expression::AnyOf(tree) => any_of(alloc, standing, tree),
    }
}
