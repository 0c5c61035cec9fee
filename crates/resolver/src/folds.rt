// Operators and their operands, on the heap.

ghost use Rattle.std.specs.Prelude.{◌≡◌, IfOk};
ghost use Rattle.program.specs.Trees as t;
ghost use Rattle.program.specs.Views.{expression_of};

use program::{Both, Expression, Operator, UnaryOperator};
use std::alloc::{AllocError, Global};

/// An operator between these operands.
pub fn both(
    alloc: Global,
    operator: Operator,
    left: Expression,
    right: Expression,
) -> Result<Expression, AllocError>
    ensures { IfOk result (λ e. expression_of e
        ≡ t.Both operator (expression_of left) (expression_of right)) }
{
    let both = Both {
        operator,
        left,
        right,
    };
    Ok(Expression::Both(Box::new(alloc, both)?))
}

/// An operator before this operand.
pub fn unary(
    alloc: Global,
    operator: UnaryOperator,
    operand: Expression,
) -> Result<Expression, AllocError>
    ensures { IfOk result (λ e. expression_of e ≡ t.Unary operator (expression_of operand)) }
{
    Ok(Expression::Unary(operator, Box::new(alloc, operand)?))
}
