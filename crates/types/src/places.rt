// The places of first tokens.

ghost use Rattle.std.specs.Prelude.{◌≡◌};
ghost use Rattle.syntax.specs.View as v;
ghost use Rattle.types.specs.Typing as t;

use scanner::Place;
use syntax::{
    AllOf, AnyOf, Comparison, Conjunction, Expression, Factor, Product, Relation, Sum, Term, Total,
};

/// The place of the first token of a factor.
pub fn factor_place(factor: &Factor<'_>) -> Place
    ensures { result ≡ t.factor_place (v.factor_of factor.now) }
{
    match factor {
        Factor::Number(number) => number.place,
        Factor::Truth(truth) => truth.place,
        Factor::Name(name) => name.place,
        Factor::Element(element) => element.name.place,
        Factor::Group(place, _) | Factor::Minus(place, _) | Factor::Not(place, _) => *place,
    }
}

fn product_place(product: &Product<'_>) -> Place
    ensures { result ≡ t.term_place (v.product_of product.now) }
{
    factor_place(&product.first)
}

/// The place of the first token of a term.
pub fn term_place(term: &Term<'_>) -> Place
    ensures { result ≡ t.term_place (v.term_of term.now) }
{
    match term {
        Term::Factor(factor) => factor_place(factor),
        Term::Product(product) => product_place(product),
    }
}

fn total_place(total: &Total<'_>) -> Place
    ensures { result ≡ t.sum_place (v.total_of total.now) }
{
    term_place(&total.first)
}

/// The place of the first token of a sum.
pub fn sum_place(sum: &Sum<'_>) -> Place
    ensures { result ≡ t.sum_place (v.sum_of sum.now) }
{
    match sum {
        Sum::Factor(factor) => factor_place(factor),
        Sum::Product(product) => product_place(product),
        Sum::Total(total) => total_place(total),
    }
}

/// The place of the first token of a relation.
pub fn relation_place(relation: &Relation<'_>) -> Place
    ensures { result ≡ t.relation_place (v.relation_of relation.now) }
{
    match relation {
        Relation::Factor(factor) => factor_place(factor),
        Relation::Product(product) => product_place(product),
        Relation::Total(total) => total_place(total),
        Relation::Comparison(comparison) => sum_place(&comparison.left),
    }
}

/// The place of the first token of a conjunction.
pub fn conjunction_place(conjunction: &Conjunction<'_>) -> Place
    ensures { result ≡ t.conjunction_place (v.conjunction_of conjunction.now) }
{
    match conjunction {
        Conjunction::Factor(factor) => factor_place(factor),
        Conjunction::Product(product) => product_place(product),
        Conjunction::Total(total) => total_place(total),
        Conjunction::Comparison(comparison) => sum_place(&comparison.left),
        Conjunction::AllOf(all_of) => relation_place(&all_of.first),
    }
}

/// The place of the first token of an expression.
pub fn expression_place(expression: &Expression<'_>) -> Place
    ensures { result ≡ t.expression_place (v.expression_of expression.now) }
{
    match expression {
        Expression::Factor(factor) => factor_place(factor),
        Expression::Product(product) => product_place(product),
        Expression::Total(total) => total_place(total),
        Expression::Comparison(comparison) => sum_place(&comparison.left),
        Expression::AllOf(all_of) => relation_place(&all_of.first),
        Expression::AnyOf(any_of) => conjunction_place(&any_of.first),
    }
}
