// The trees of expressions: one type for each level of the grammar, so that each tree is one of it.

use crate::leaf::{Name, Number, Truth};
use scanner::Place;

/// The sign of a comparison.
#[derive(Clone, Copy, PartialEq, Eq)]
pub enum Comparator {
    /// `=`
    Equal,
    /// `#`
    NotEqual,
    /// `<`
    Less,
    /// `<=`
    LessEqual,
    /// `>`
    Greater,
    /// `>=`
    GreaterEqual,
}

/// The sign between two terms.
#[derive(Clone, Copy, PartialEq, Eq)]
pub enum SumOperator {
    /// `+`
    Plus,
    /// `-`
    Minus,
}

/// What stands between two factors.
#[derive(Clone, Copy, PartialEq, Eq)]
pub enum ProductOperator {
    /// `*`
    Times,
    /// `/`
    Divide,
    /// `MOD`
    Mod,
}

/// An expression.
///
/// Here and at each level below, what has no operator of the level itself is what it is at the level below, so that a
/// tree is no larger than what it says.
#[derive(Drop)]
#[cycle(expression)]
pub enum Expression<'a> {
    /// A factor alone.
    Factor(Factor<'a>),
    /// A product alone.
    Product(Box<Product<'a>>),
    /// A total alone.
    Total(Box<Total<'a>>),
    /// A comparison alone.
    Comparison(Box<Comparison<'a>>),
    /// Relations with `AND` between them.
    AllOf(Box<AllOf<'a>>),
    /// Conjunctions with `OR` between them.
    AnyOf(Box<AnyOf<'a>>),
}

/// What stands before and behind `OR`.
#[derive(Drop)]
#[cycle(expression)]
pub enum Conjunction<'a> {
    /// A factor alone.
    Factor(Factor<'a>),
    /// A product alone.
    Product(Box<Product<'a>>),
    /// A total alone.
    Total(Box<Total<'a>>),
    /// A comparison alone.
    Comparison(Box<Comparison<'a>>),
    /// Relations with `AND` between them.
    AllOf(Box<AllOf<'a>>),
}

/// What stands before and behind `AND`.
#[derive(Drop)]
#[cycle(expression)]
pub enum Relation<'a> {
    /// A factor alone.
    Factor(Factor<'a>),
    /// A product alone.
    Product(Box<Product<'a>>),
    /// A total alone.
    Total(Box<Total<'a>>),
    /// Two sums with the sign of a comparison between them.
    Comparison(Box<Comparison<'a>>),
}

/// What stands before and behind the sign of a comparison.
#[derive(Drop)]
#[cycle(expression)]
pub enum Sum<'a> {
    /// A factor alone.
    Factor(Factor<'a>),
    /// A product alone.
    Product(Box<Product<'a>>),
    /// Terms with `+` or `-` between them.
    Total(Box<Total<'a>>),
}

/// What stands before and behind `+` or `-`.
#[derive(Drop)]
#[cycle(expression)]
pub enum Term<'a> {
    /// A factor alone.
    Factor(Factor<'a>),
    /// Factors with `*`, `/` or `MOD` between them.
    Product(Box<Product<'a>>),
}

/// Two conjunctions or more, with `OR` between them, from the left.
#[derive(Drop)]
#[cycle(expression)]
pub struct AnyOf<'a> {
    /// The first conjunction.
    pub first: Conjunction<'a>,
    /// The one behind the first `OR`.
    pub second: Conjunction<'a>,
    /// Those behind further ones, in their order.
    pub rest: Vec<Conjunction<'a>>,
}

/// Two relations or more, with `AND` between them, from the left.
#[derive(Drop)]
#[cycle(expression)]
pub struct AllOf<'a> {
    /// The first relation.
    pub first: Relation<'a>,
    /// The one behind the first `AND`.
    pub second: Relation<'a>,
    /// Those behind further ones, in their order.
    pub rest: Vec<Relation<'a>>,
}

/// A comparison of two sums.
#[derive(Drop)]
#[cycle(expression)]
pub struct Comparison<'a> {
    /// The sum before the sign.
    pub left: Sum<'a>,
    /// The sign.
    pub comparator: Comparator,
    /// The sum behind it.
    pub right: Sum<'a>,
}

/// Two terms or more, with `+` or `-` between them, from the left.
#[derive(Drop)]
#[cycle(expression)]
pub struct Total<'a> {
    /// The first term.
    pub first: Term<'a>,
    /// The next one, with its sign.
    pub second: Summand<'a>,
    /// Further ones, in their order.
    pub rest: Vec<Summand<'a>>,
}

/// A further term of a total, with the place of its sign.
#[derive(Drop)]
#[cycle(expression)]
pub struct Summand<'a> {
    /// The sign before the term.
    pub operator: SumOperator,
    /// The place of the sign.
    pub place: Place,
    /// The term.
    pub term: Term<'a>,
}

/// Two factors or more, with `*`, `/` or `MOD` between them, from the left.
#[derive(Drop)]
#[cycle(expression)]
pub struct Product<'a> {
    /// The first factor.
    pub first: Factor<'a>,
    /// The next one, with its operator.
    pub second: Multiplier<'a>,
    /// Further ones, in their order.
    pub rest: Vec<Multiplier<'a>>,
}

/// A further factor of a product.
#[derive(Drop)]
#[cycle(expression)]
pub struct Multiplier<'a> {
    /// The operator before the factor.
    pub operator: ProductOperator,
    /// The factor.
    pub factor: Factor<'a>,
}

/// A factor. The places are those of the opening parenthesis, of `-` and of `NOT`.
#[derive(Drop)]
#[cycle(expression)]
pub enum Factor<'a> {
    /// A number.
    Number(Number),
    /// `TRUE` or `FALSE`.
    Truth(Truth),
    /// A variable.
    Name(Name<'a>),
    /// An element of an array.
    Element(Box<Element<'a>>),
    /// An expression in parentheses, with the place of the opening one.
    Group(Place, Box<Expression<'a>>),
    /// `-` and its place, and what stands behind it.
    Minus(Place, Box<Factor<'a>>),
    /// `NOT` and its place, and what stands behind it.
    Not(Place, Box<Factor<'a>>),
}

/// An element of an array: its name, and its index in brackets.
#[derive(Drop)]
#[cycle(expression)]
pub struct Element<'a> {
    /// The name of the array.
    pub name: Name<'a>,
    /// What stands in brackets.
    pub index: Expression<'a>,
}

/// What is assigned to: a variable, or an element of an array.
#[derive(Drop)]
pub enum Variable<'a> {
    /// A variable by its name.
    Name(Name<'a>),
    /// An element of an array.
    Element(Box<Element<'a>>),
}
