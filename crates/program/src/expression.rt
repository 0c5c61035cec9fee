// Expressions.

use crate::kinds::{Member, Operator, UnaryOperator};

/// An expression, whose chains of operators are folded to the left. Parentheses leave no trace.
#[derive(Drop)]
#[cycle(expression)]
pub enum Expression {
    /// A number from 0 to 2147483647.
    Number(u32),
    /// `TRUE` or `FALSE`.
    Truth(bool),
    /// A local of the procedure, parameters first, from 0.
    Local(u32),
    /// A variable of the own monitor.
    Member(Member),
    /// An element of an array of the own monitor.
    Element(Box<Element>),
    /// An operator before its operand.
    Unary(UnaryOperator, Box<Expression>),
    /// An operator between its operands.
    Both(Box<Both>),
}

/// An element of an array.
#[derive(Drop)]
#[cycle(expression)]
pub struct Element {
    /// The array.
    pub array: Member,
    /// The index, from 0.
    pub index: Expression,
}

/// Two operands, evaluated left to right, and what stands between them.
#[derive(Drop)]
#[cycle(expression)]
pub struct Both {
    /// The operator.
    pub operator: Operator,
    /// The left operand.
    pub left: Expression,
    /// The right operand.
    pub right: Expression,
}
