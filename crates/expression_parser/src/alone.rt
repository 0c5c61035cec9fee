// Trees that are alone at a level: what they are at the level above.

ghost use Rattle.std.specs.Prelude.{◌≡◌};
ghost use Rattle.syntax.specs.Tree.{Reads};
ghost use Rattle.syntax.specs.View.{factor_of, term_of, sum_of, relation_of, conjunction_of, expression_of};
ghost use Rattle.syntax.specs.View.{lone_sum, lone_relation, lone_conjunction, lone_expression, variable_of};

use syntax::{Conjunction, Expression, Factor, Relation, Sum, Term, Variable};

/// A term that is a sum.
pub fn sum_alone(term: Term<'_>) -> Sum<'_>
    ensures { sum_of result ≡ lone_sum (term_of term.entry) }
{
    match term {
        Term::Factor(factor) => Sum::Factor(factor),
        Term::Product(product) => Sum::Product(product),
    }
}

/// A sum that is a relation.
pub fn relation_alone(sum: Sum<'_>) -> Relation<'_>
    ensures { relation_of result ≡ lone_relation (sum_of sum.entry) }
{
    match sum {
        Sum::Factor(factor) => Relation::Factor(factor),
        Sum::Product(product) => Relation::Product(product),
        Sum::Total(total) => Relation::Total(total),
    }
}

/// A relation that is a conjunction.
pub fn conjunction_alone(relation: Relation<'_>) -> Conjunction<'_>
    ensures { conjunction_of result ≡ lone_conjunction (relation_of relation.entry) }
{
    match relation {
        Relation::Factor(factor) => Conjunction::Factor(factor),
        Relation::Product(product) => Conjunction::Product(product),
        Relation::Total(total) => Conjunction::Total(total),
        Relation::Comparison(comparison) => Conjunction::Comparison(comparison),
    }
}

/// A conjunction that is an expression.
pub fn expression_alone(conjunction: Conjunction<'_>) -> Expression<'_>
    ensures { expression_of result ≡ lone_expression (conjunction_of conjunction.entry) }
{
    match conjunction {
        Conjunction::Factor(factor) => Expression::Factor(factor),
        Conjunction::Product(product) => Expression::Product(product),
        Conjunction::Total(total) => Expression::Total(total),
        Conjunction::Comparison(comparison) => Expression::Comparison(comparison),
        Conjunction::AllOf(all_of) => Expression::AllOf(all_of),
    }
}

/// A sum that is an expression.
pub fn expression_of_sum(sum: Sum<'_>) -> Expression<'_>
    ensures { expression_of result ≡ lone_expression
        (lone_conjunction (lone_relation (sum_of sum.entry))) }
{
    match sum {
        Sum::Factor(factor) => Expression::Factor(factor),
        Sum::Product(product) => Expression::Product(product),
        Sum::Total(total) => Expression::Total(total),
    }
}

/// A variable that is read.
pub fn reading(variable: Variable<'_>) -> Factor<'_>
    ensures { factor_of result ≡ Reads (variable_of variable.entry).name
        (variable_of variable.entry).index }
{
    match variable {
        Variable::Name(name) => Factor::Name(name),
        Variable::Element(element) => Factor::Element(element),
    }
}
