ghost use Rattle.std.specs.Prelude.{◌≡◌, map, true};
ghost use Rattle.program.specs.Views.{expression_of, option_expression, target_of};

use program::{Expression, Target};

/// Whether two expressions are the same.
pub(crate) fn same_expression(a: &Expression, b: &Expression) -> bool
    ensures { result ≡ true → expression_of a.now ≡ expression_of b.now }
{
    match (a, b) {
        (Expression::Number(m), Expression::Number(n)) => *m == *n,
        (Expression::Truth(x), Expression::Truth(y)) => *x == *y,
        (Expression::Local(i), Expression::Local(j)) => *i == *j,
        (Expression::Member(m), Expression::Member(n)) => *m == *n,
        (Expression::Element(x), Expression::Element(y)) => {
            x.array == y.array && same_expression(&x.index, &y.index)
        }
        (Expression::Unary(o, x), Expression::Unary(q, y)) => *o == *q && same_expression(x, y),
        (Expression::Both(x), Expression::Both(y)) => {
            x.operator == y.operator
                && same_expression(&x.left, &y.left)
                && same_expression(&x.right, &y.right)
        }
        _ => false,
    }
}

/// Whether two expressions that may be left out are the same.
pub(crate) fn same_value(a: &Option<Expression>, b: &Option<Expression>) -> bool
    ensures { result ≡ true → option_expression a.now ≡ option_expression b.now }
{
    match (a, b) {
        (None, None) => true,
        (Some(a), Some(b)) => same_expression(a, b),
        _ => false,
    }
}

/// Whether two lists of arguments are the same.
pub(crate) fn same_arguments(a: &[Expression], b: &[Expression]) -> bool
    ensures { result ≡ true → map expression_of a.now ≡ map expression_of b.now }
{
    if a.len() != b.len() {
        return false;
    }
    for i in 0..a.len() {
        if !same_expression(&a[i], &b[i]) {
            return false;
        }
    }
    true
}

/// Whether two targets are the same.
pub(crate) fn same_target(a: &Target, b: &Target) -> bool
    ensures { result ≡ true → target_of a.now ≡ target_of b.now }
{
    match (a, b) {
        (Target::Local(i), Target::Local(j)) => *i == *j,
        (Target::Member(m), Target::Member(n)) => *m == *n,
        (Target::Element(x), Target::Element(y)) => {
            x.array == y.array && same_expression(&x.index, &y.index)
        }
        _ => false,
    }
}
