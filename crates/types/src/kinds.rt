// The types and operators that trees name.

ghost use Rattle.std.specs.Prelude.{◌≡◌};
ghost use Rattle.types.specs.Kinds as k;
ghost use Rattle.types.specs.Expressions as x;

use program::{MemberType, Operator, ValueType};
use syntax::{Comparator, LocalType, ProductOperator, ResultType, SumOperator};

/// The type of a local variable or parameter.
pub fn local_kind(kind: LocalType) -> ValueType
    ensures { result ≡ k.local_kind kind }
{
    match kind {
        LocalType::Integer => ValueType::Integer,
        LocalType::Boolean => ValueType::Boolean,
        LocalType::Process => ValueType::Process,
    }
}

/// The type of a result.
pub fn result_kind(kind: ResultType) -> ValueType
    ensures { result ≡ k.result_kind kind }
{
    match kind {
        ResultType::Integer => ValueType::Integer,
        ResultType::Boolean => ValueType::Boolean,
    }
}

/// The type of a member of a monitor.
pub fn member_kind(kind: syntax::MemberType) -> MemberType
    ensures { result ≡ k.member_kind kind }
{
    match kind {
        syntax::MemberType::Integer => MemberType::Variable(ValueType::Integer),
        syntax::MemberType::Boolean => MemberType::Variable(ValueType::Boolean),
        syntax::MemberType::Process => MemberType::Variable(ValueType::Process),
        syntax::MemberType::Condition => MemberType::Condition,
        syntax::MemberType::Array(number) => MemberType::Array(number.value),
    }
}

/// The operator of a comparison's sign.
pub fn comparison_operator(sign: Comparator) -> Operator
    ensures { result ≡ x.comparison_operator sign }
{
    match sign {
        Comparator::Equal => Operator::Equal,
        Comparator::NotEqual => Operator::NotEqual,
        Comparator::Less => Operator::Less,
        Comparator::LessEqual => Operator::LessEqual,
        Comparator::Greater => Operator::Greater,
        Comparator::GreaterEqual => Operator::GreaterEqual,
    }
}

/// The operator of a sign between two terms.
pub fn sum_operator(sign: SumOperator) -> Operator
    ensures { result ≡ x.sum_operator sign }
{
    match sign {
        SumOperator::Plus => Operator::Add,
        SumOperator::Minus => Operator::Subtract,
    }
}

/// The operator between two factors.
pub fn product_operator(operator: ProductOperator) -> Operator
    ensures { result ≡ x.product_operator operator }
{
    match operator {
        ProductOperator::Times => Operator::Multiply,
        ProductOperator::Divide => Operator::Divide,
        ProductOperator::Mod => Operator::Modulo,
    }
}
