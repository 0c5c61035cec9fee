ghost use Rattle.std.specs.Prelude.{◌≡◌, FitsSigned, ℤ};
ghost use Rattle.std.specs.Option.{SomeIff};
ghost use Rattle.std.specs.Int.{w64};
ghost use Rattle.program.specs.declared.kinds.Operator.TheVariants.{Divide, Modulo};
ghost use Rattle.meaning.specs.Values.{both as both_of, integer as integer_of, unary as unary_of};
ghost use Rattle.source_offers.specs.Outcomes.{evaluation_of};

use program::{Operator, UnaryOperator};
use words::Fault;

// An INTEGER lies from -2147483648 to 2147483647.
fn integer(number: Option<i64>) -> Result<i64, Fault>
    ensures { (z : ℤ) → SomeIff number (FitsSigned w64 z) z → evaluation_of result ≡ integer_of z }
{
    match number {
        Some(z) if -2147483648 <= z && z <= 2147483647 => Ok(z),
        _ => Err(Fault::ResultOutOfRange),
    }
}

/// The value of an operator before its operand.
pub fn unary(operator: UnaryOperator, a: i64) -> Result<i64, Fault>
    ensures { evaluation_of result ≡ unary_of operator a }
{
    match operator {
        UnaryOperator::Negate => integer(a.checked_neg()),
        UnaryOperator::Not => Ok(i64::from(a == 0)),
    }
}

fn quotient(a: i64, b: i64) -> Result<i64, Fault>
    ensures { evaluation_of result ≡ both_of Divide a b }
{
    if b == 0 {
        return Err(Fault::DivisionByZero);
    }
    integer(a.checked_div(b))
}

fn remainder(a: i64, b: i64) -> Result<i64, Fault>
    ensures { evaluation_of result ≡ both_of Modulo a b }
{
    if b == 0 {
        return Err(Fault::DivisionByZero);
    }
    Ok(a.wrapping_rem(b))
}

/// The value of an operator between its operands.
pub fn both(operator: Operator, a: i64, b: i64) -> Result<i64, Fault>
    ensures { evaluation_of result ≡ both_of operator a b }
{
    match operator {
        Operator::Add => integer(a.checked_add(b)),
        Operator::Subtract => integer(a.checked_sub(b)),
        Operator::Multiply => integer(a.checked_mul(b)),
        Operator::Divide => quotient(a, b),
        Operator::Modulo => remainder(a, b),
        Operator::Equal => Ok(i64::from(a == b)),
        Operator::NotEqual => Ok(i64::from(a != b)),
        Operator::Less => Ok(i64::from(a < b)),
        Operator::LessEqual => Ok(i64::from(a <= b)),
        Operator::Greater => Ok(i64::from(b < a)),
        Operator::GreaterEqual => Ok(i64::from(b <= a)),
        Operator::And => Ok(i64::from(a != 0 && b != 0)),
        Operator::Or => Ok(i64::from(a != 0 || b != 0)),
    }
}
