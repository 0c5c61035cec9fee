// The least fault of an expression, from the least one of what stands before it.

ghost use Rattle.std.specs.Prelude.{◌≡◌};
ghost use Rattle.syntax.specs.Tree.{Reads, At};
ghost use Rattle.syntax.specs.View as v;
ghost use Rattle.types.specs.ExpressionFaults as x;
ghost use Rattle.types.specs.Faults.{Gathers};
ghost use Rattle.types.specs.Scope.{Scope};
ghost use Rattle.types.specs.Standings.{IsNameScope};
ghost use Rattle.types.specs.Typing as t;
ghost use Rattle.body_faults.specs.Operands as o;

use crate::operands::{Judged, judge_name, name_operand, operand};
use program::ValueType;
use scanner::Refusal;
use syntax::{
    AllOf, AnyOf, Comparison, Conjunction, Element, Expression, Factor, Product, Relation, Sum,
    Term, Total,
};
use types::{
    NameScope, comparison_faults, conjunction_place, element_type, expression_place, factor_place,
    index_fault, note, relation_place, sum_place, term_place,
};

// A factor.
#[cycle(expressions)]
fn factor(
    standing: &NameScope<'_, '_>,
    tree: &Factor<'_>,
    least: Option<Refusal>,
) -> Option<Refusal>
    ensures { (s : Scope) → IsNameScope s standing.now
        → Gathers (x.factor_faults s (v.factor_of tree.now)) least result }
{
    match tree {
        Factor::Number(_) => least,
        Factor::Truth(_) => least,
        Factor::Name(name) => judge_name(standing, *name, least).least,
        Factor::Element(inner) => element(standing, inner, least).least,
        Factor::Group(_, inner) => expression(standing, inner, least),
        Factor::Minus(_, inner) => factor_operand(standing, ValueType::Integer, inner, least),
        Factor::Not(_, inner) => factor_operand(standing, ValueType::Boolean, inner, least),
    }
}

/// An element of an array: the least fault, where it stands behind what has this one, and its type.
#[cycle(expressions)]
pub fn element(standing: &NameScope<'_, '_>, tree: &Element<'_>, least: Option<Refusal>) -> Judged
    ensures least { (s : Scope) → IsNameScope s standing.now
        → Gathers (o.element s (v.name_of tree.now.name) (v.expression_of tree.now.index)) least
        result.least }
    ensures kind { (s : Scope) → IsNameScope s standing.now → result.kind
        ≡ t.factor_type s (Reads (v.name_of tree.now.name) (At (v.expression_of tree.now.index))) }
{
    let meaning = standing.meaning(tree.name);
    let before = note(index_fault(meaning), tree.name.place, least);
    let index = judge_expression(standing, &tree.index, before);
    Judged {
        least: operand(
            ValueType::Integer,
            index.kind,
            expression_place(&tree.index),
            index.least,
        ),
        kind: element_type(meaning),
    }
}

// A factor, and its type. A name is looked up once for both.
#[cycle(expressions)]
fn judge_factor(standing: &NameScope<'_, '_>, tree: &Factor<'_>, least: Option<Refusal>) -> Judged
    ensures least { (s : Scope) → IsNameScope s standing.now
        → Gathers (x.factor_faults s (v.factor_of tree.now)) least result.least }
    ensures kind { (s : Scope) → IsNameScope s standing.now
        → result.kind ≡ t.factor_type s (v.factor_of tree.now) }
{
    match tree {
        Factor::Number(_) => Judged {
            least,
            kind: Some(ValueType::Integer),
        },
        Factor::Name(name) => judge_name(standing, *name, least),
        Factor::Element(inner) => element(standing, inner, least),
        _ => Judged {
            least: factor(standing, tree, least),
            kind: standing.factor_type(tree),
        },
    }
}

// A factor of which a type is wanted.
#[cycle(expressions)]
fn factor_operand(
    standing: &NameScope<'_, '_>,
    wanted: ValueType,
    tree: &Factor<'_>,
    least: Option<Refusal>,
) -> Option<Refusal>
    ensures { (s : Scope) → IsNameScope s standing.now
        → Gathers (o.factor_operand s wanted (v.factor_of tree.now)) least result }
{
    match tree {
        Factor::Number(number) => operand(wanted, Some(ValueType::Integer), number.place, least),
        Factor::Name(name) => name_operand(standing, wanted, *name, least),
        Factor::Element(inner) => {
            let judged = element(standing, inner, least);
            operand(wanted, judged.kind, inner.name.place, judged.least)
        }
        Factor::Group(place, inner) => {
            let judged = judge_expression(standing, inner, least);
            operand(wanted, judged.kind, *place, judged.least)
        }
        _ => {
            let inside = factor(standing, tree, least);
            operand(
                wanted,
                standing.factor_type(tree),
                factor_place(tree),
                inside,
            )
        }
    }
}

// Factors with `*`, `/` or `MOD` between them.
#[cycle(expressions)]
fn product(
    standing: &NameScope<'_, '_>,
    tree: &Product<'_>,
    least: Option<Refusal>,
) -> Option<Refusal>
    ensures { (s : Scope) → IsNameScope s standing.now
        → Gathers (x.term_faults s (v.product_of tree.now)) least result }
{
    let first = factor_operand(standing, ValueType::Integer, &tree.first, least);
    let mut all = factor_operand(standing, ValueType::Integer, &tree.second.factor, first);
    for multiplier in &tree.rest {
        all = factor_operand(standing, ValueType::Integer, &multiplier.factor, all);
    }
    all
}

// A term, which is INTEGER.
#[cycle(expressions)]
fn term(standing: &NameScope<'_, '_>, tree: &Term<'_>, least: Option<Refusal>) -> Option<Refusal>
    ensures { (s : Scope) → IsNameScope s standing.now
        → Gathers (o.term_operand s (v.term_of tree.now)) least result }
{
    match tree {
        Term::Factor(inner) => factor_operand(standing, ValueType::Integer, inner, least),
        Term::Product(inner) => {
            let inside = product(standing, inner, least);
            operand(
                ValueType::Integer,
                standing.term_type(tree),
                term_place(tree),
                inside,
            )
        }
    }
}

// Terms with `+` or `-` between them.
#[cycle(expressions)]
fn total(standing: &NameScope<'_, '_>, tree: &Total<'_>, least: Option<Refusal>) -> Option<Refusal>
    ensures { (s : Scope) → IsNameScope s standing.now
        → Gathers (x.sum_faults s (v.total_of tree.now)) least result }
{
    let first = term(standing, &tree.first, least);
    let mut all = term(standing, &tree.second.term, first);
    for summand in &tree.rest {
        all = term(standing, &summand.term, all);
    }
    all
}

// A sum.
#[cycle(expressions)]
fn sum(standing: &NameScope<'_, '_>, tree: &Sum<'_>, least: Option<Refusal>) -> Option<Refusal>
    ensures { (s : Scope) → IsNameScope s standing.now
        → Gathers (x.sum_faults s (v.sum_of tree.now)) least result }
{
    match tree {
        Sum::Factor(tree) => factor(standing, tree, least),
        Sum::Product(tree) => product(standing, tree, least),
        Sum::Total(tree) => total(standing, tree, least),
    }
}

// A sum, and its type.
#[cycle(expressions)]
fn judge_sum(standing: &NameScope<'_, '_>, tree: &Sum<'_>, least: Option<Refusal>) -> Judged
    ensures least { (s : Scope) → IsNameScope s standing.now
        → Gathers (x.sum_faults s (v.sum_of tree.now)) least result.least }
    ensures kind { (s : Scope) → IsNameScope s standing.now
        → result.kind ≡ t.sum_type s (v.sum_of tree.now) }
{
    match tree {
        Sum::Factor(inner) => judge_factor(standing, inner, least),
        _ => Judged {
            least: sum(standing, tree, least),
            kind: standing.sum_type(tree),
        },
    }
}

// Two sums with the sign of a comparison between them.
#[cycle(expressions)]
fn comparison(
    standing: &NameScope<'_, '_>,
    tree: &Comparison<'_>,
    least: Option<Refusal>,
) -> Option<Refusal>
    ensures { (s : Scope) → IsNameScope s standing.now
        → Gathers (o.comparison s (v.sum_of tree.now.left) tree.now.comparator
        (v.sum_of tree.now.right))
        least result }
{
    let left = judge_sum(standing, &tree.left, least);
    let right = judge_sum(standing, &tree.right, left.least);
    let sides = comparison_faults(tree.comparator, left.kind, right.kind);
    let first = note(sides.left, sum_place(&tree.left), right.least);
    note(sides.right, sum_place(&tree.right), first)
}

// A relation, which is BOOLEAN.
#[cycle(expressions)]
fn relation(
    standing: &NameScope<'_, '_>,
    tree: &Relation<'_>,
    least: Option<Refusal>,
) -> Option<Refusal>
    ensures { (s : Scope) → IsNameScope s standing.now
        → Gathers (o.relation_operand s (v.relation_of tree.now)) least result }
{
    let inside = match tree {
        Relation::Factor(tree) => {
            return factor_operand(standing, ValueType::Boolean, tree, least);
        }
        Relation::Product(tree) => product(standing, tree, least),
        Relation::Total(tree) => total(standing, tree, least),
        Relation::Comparison(tree) => comparison(standing, tree, least),
    };
    operand(
        ValueType::Boolean,
        standing.relation_type(tree),
        relation_place(tree),
        inside,
    )
}

// Relations with `AND` between them.
#[cycle(expressions)]
fn all_of(standing: &NameScope<'_, '_>, tree: &AllOf<'_>, least: Option<Refusal>) -> Option<Refusal>
    ensures { (s : Scope) → IsNameScope s standing.now
        → Gathers (o.all_of s (v.relation_of tree.now.first) (v.relation_of tree.now.second)
        (v.relations_in tree.now.rest.items)) least result }
{
    let first = relation(standing, &tree.first, least);
    let mut all = relation(standing, &tree.second, first);
    for further in &tree.rest {
        all = relation(standing, further, all);
    }
    all
}

// A conjunction, which is BOOLEAN.
#[cycle(expressions)]
fn conjunction(
    standing: &NameScope<'_, '_>,
    tree: &Conjunction<'_>,
    least: Option<Refusal>,
) -> Option<Refusal>
    ensures { (s : Scope) → IsNameScope s standing.now
        → Gathers (o.conjunction_operand s (v.conjunction_of tree.now)) least result }
{
    let inside = match tree {
        Conjunction::Factor(tree) => {
            return factor_operand(standing, ValueType::Boolean, tree, least);
        }
        Conjunction::Product(tree) => product(standing, tree, least),
        Conjunction::Total(tree) => total(standing, tree, least),
        Conjunction::Comparison(tree) => comparison(standing, tree, least),
        Conjunction::AllOf(tree) => all_of(standing, tree, least),
    };
    operand(
        ValueType::Boolean,
        standing.conjunction_type(tree),
        conjunction_place(tree),
        inside,
    )
}

// Conjunctions with `OR` between them.
#[cycle(expressions)]
fn any_of(standing: &NameScope<'_, '_>, tree: &AnyOf<'_>, least: Option<Refusal>) -> Option<Refusal>
    ensures { (s : Scope) → IsNameScope s standing.now
        → Gathers (o.any_of s (v.conjunction_of tree.now.first) (v.conjunction_of tree.now.second)
        (v.conjunctions_in tree.now.rest.items)) least result }
{
    let first = conjunction(standing, &tree.first, least);
    let mut all = conjunction(standing, &tree.second, first);
    for further in &tree.rest {
        all = conjunction(standing, further, all);
    }
    all
}

/// The least fault, where an expression stands behind what has this one.
#[cycle(expressions)]
pub fn expression(
    standing: &NameScope<'_, '_>,
    tree: &Expression<'_>,
    least: Option<Refusal>,
) -> Option<Refusal>
    ensures { (s : Scope) → IsNameScope s standing.now
        → Gathers (x.expression_faults s (v.expression_of tree.now)) least result }
{
    match tree {
        Expression::Factor(tree) => factor(standing, tree, least),
        Expression::Product(tree) => product(standing, tree, least),
        Expression::Total(tree) => total(standing, tree, least),
        Expression::Comparison(tree) => comparison(standing, tree, least),
        Expression::AllOf(tree) => all_of(standing, tree, least),
        Expression::AnyOf(tree) => any_of(standing, tree, least),
    }
}

/// The least fault, where an expression stands behind what has this one, and its type.
#[cycle(expressions)]
pub fn judge_expression(
    standing: &NameScope<'_, '_>,
    tree: &Expression<'_>,
    least: Option<Refusal>,
) -> Judged
    ensures least { (s : Scope) → IsNameScope s standing.now
        → Gathers (x.expression_faults s (v.expression_of tree.now)) least result.least }
    ensures kind { (s : Scope) → IsNameScope s standing.now
        → result.kind ≡ t.expression_type s (v.expression_of tree.now) }
{
    match tree {
        Expression::Factor(inner) => judge_factor(standing, inner, least),
        _ => Judged {
            least: expression(standing, tree, least),
            kind: standing.expression_type(tree),
        },
    }
}
