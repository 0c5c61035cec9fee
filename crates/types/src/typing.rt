// The types of expressions.

ghost use Rattle.std.specs.Prelude.{◌≡◌};
ghost use Rattle.syntax.specs.Tree.{ExpressionTree, NoIndex, At};
ghost use Rattle.syntax.specs.View as v;
ghost use Rattle.types.specs.Scope.{Scope};
ghost use Rattle.types.specs.Standings.{meaning_of, IsNameScope};
ghost use Rattle.types.specs.Typing as t;

use crate::standing::{Meaning, NameScope};
use program::{MemberType, ValueType};
use syntax::{Conjunction, Expression, Factor, Product, Relation, Sum, Term, Total};

/// The type of a name that is read or assigned.
pub fn variable_type(meaning: Meaning) -> Option<ValueType>
    ensures { result ≡ t.type_of_use (meaning_of meaning) NoIndex }
{
    match meaning {
        Meaning::Local(_, kind) | Meaning::Member(_, MemberType::Variable(kind)) => Some(kind),
        _ => None,
    }
}

/// The type of a name that is indexed.
pub fn element_type(meaning: Meaning) -> Option<ValueType>
    ensures { (e : ExpressionTree) → result ≡ t.type_of_use (meaning_of meaning) (At e) }
{
    match meaning {
        Meaning::Member(_, MemberType::Array(_)) => Some(ValueType::Integer),
        _ => None,
    }
}

// A product is INTEGER, and so is a total.
fn product_type(_product: &Product<'_>) -> Option<ValueType>
    ensures { (s : Scope) → result ≡ t.term_type s (v.product_of _product.now) }
{
    Some(ValueType::Integer)
}

fn total_type(_total: &Total<'_>) -> Option<ValueType>
    ensures { (s : Scope) → result ≡ t.sum_type s (v.total_of _total.now) }
{
    Some(ValueType::Integer)
}

impl NameScope<'_, '_> {
    /// The type of a factor, where it has one of its own.
    #[cycle(types)]
    pub fn factor_type(&self, factor: &Factor<'_>) -> Option<ValueType>
        ensures { (s : Scope) → IsNameScope s self.now
            → result ≡ t.factor_type s (v.factor_of factor.now) }
    {
        match factor {
            Factor::Number(_) | Factor::Minus(_, _) => Some(ValueType::Integer),
            Factor::Truth(_) | Factor::Not(_, _) => Some(ValueType::Boolean),
            Factor::Name(name) => variable_type(self.meaning(*name)),
            Factor::Element(element) => element_type(self.meaning(element.name)),
            Factor::Group(_, inner) => self.expression_type(inner),
        }
    }

    /// The type of an expression, where it has one of its own.
    #[cycle(types)]
    pub fn expression_type(&self, expression: &Expression<'_>) -> Option<ValueType>
        ensures { (s : Scope) → IsNameScope s self.now
            → result ≡ t.expression_type s (v.expression_of expression.now) }
    {
        match expression {
            Expression::Factor(factor) => self.factor_type(factor),
            Expression::Product(product) => product_type(product),
            Expression::Total(total) => total_type(total),
            Expression::Comparison(_) | Expression::AllOf(_) | Expression::AnyOf(_) => {
                Some(ValueType::Boolean)
            }
        }
    }

    /// The type of a term, where it has one of its own.
    pub fn term_type(&self, term: &Term<'_>) -> Option<ValueType>
        ensures { (s : Scope) → IsNameScope s self.now
            → result ≡ t.term_type s (v.term_of term.now) }
    {
        match term {
            Term::Factor(factor) => self.factor_type(factor),
            Term::Product(product) => product_type(product),
        }
    }

    /// The type of a sum, where it has one of its own.
    pub fn sum_type(&self, sum: &Sum<'_>) -> Option<ValueType>
        ensures { (s : Scope) → IsNameScope s self.now → result ≡ t.sum_type s (v.sum_of sum.now) }
    {
        match sum {
            Sum::Factor(factor) => self.factor_type(factor),
            Sum::Product(product) => product_type(product),
            Sum::Total(total) => total_type(total),
        }
    }

    /// The type of a relation, where it has one of its own.
    pub fn relation_type(&self, relation: &Relation<'_>) -> Option<ValueType>
        ensures { (s : Scope) → IsNameScope s self.now
            → result ≡ t.relation_type s (v.relation_of relation.now) }
    {
        match relation {
            Relation::Factor(factor) => self.factor_type(factor),
            Relation::Product(product) => product_type(product),
            Relation::Total(total) => total_type(total),
            Relation::Comparison(_) => Some(ValueType::Boolean),
        }
    }

    /// The type of a conjunction, where it has one of its own.
    pub fn conjunction_type(&self, conjunction: &Conjunction<'_>) -> Option<ValueType>
        ensures { (s : Scope) → IsNameScope s self.now
            → result ≡ t.conjunction_type s (v.conjunction_of conjunction.now) }
    {
        match conjunction {
            Conjunction::Factor(factor) => self.factor_type(factor),
            Conjunction::Product(product) => product_type(product),
            Conjunction::Total(total) => total_type(total),
            Conjunction::Comparison(_) | Conjunction::AllOf(_) => Some(ValueType::Boolean),
        }
    }
}
