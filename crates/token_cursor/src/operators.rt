ghost use Rattle.std.specs.Prelude.{◌≡◌, ◌<◌, List, ℕ, true, false, length, OnSome};
ghost use Rattle.scanner.specs.declared.token.Place.{Place as PlaceOf};
ghost use Rattle.syntax.specs.Lexeme.{lexeme};
ghost use Rattle.grammar.specs.Machine.{reply_multipliers, reply_summands, reply_comparison, factor_begin, NoFactor};
ghost use Rattle.grammar.specs.Reading.{lexeme_at, StartsFactor};
ghost use Rattle.token_cursor.specs.Ahead.{ahead};
ghost use Rattle.token_cursor.specs.Openers.{product_reply, sum_signed, sum_reply, comparison_reply, Starts};
ghost use Rattle.token_cursor.specs.Openers.{EndsExpression};

use crate::parser::Parser;
use scanner::{Keyword, Kind, Place, Sign};
use syntax::{Comparator, ProductOperator, SumOperator};

/// What a factor starts with.
#[derive(Clone, Copy)]
pub enum FactorStart {
    /// A number, with its value.
    Number(u32),
    /// `TRUE` or `FALSE`.
    Truth(bool),
    /// A name.
    Name,
    /// `(`
    Paren,
    /// `-`
    Minus,
    /// `NOT`
    Not,
}

// The operator between factors that a token is.
fn product_operator(kind: Kind) -> Option<ProductOperator>
    ensures { (text : List ℕ) (place : PlaceOf)
        → reply_multipliers (lexeme kind text place) ≡ product_reply result }
{
    match kind {
        Kind::Sign(Sign::Times) => Some(ProductOperator::Times),
        Kind::Sign(Sign::Divide) => Some(ProductOperator::Divide),
        Kind::Keyword(Keyword::Mod) => Some(ProductOperator::Mod),
        _ => None,
    }
}

// The operator between terms that a token is.
fn sum_operator(kind: Kind) -> Option<SumOperator>
    ensures { (text : List ℕ) (place : PlaceOf)
        → reply_summands (lexeme kind text place) ≡ sum_signed result place }
{
    match kind {
        Kind::Sign(Sign::Plus) => Some(SumOperator::Plus),
        Kind::Sign(Sign::Minus) => Some(SumOperator::Minus),
        _ => None,
    }
}

// The comparison that a token is.
fn comparison(kind: Kind) -> Option<Comparator>
    ensures { (text : List ℕ) (place : PlaceOf)
        → reply_comparison (lexeme kind text place) ≡ comparison_reply result }
{
    match kind {
        Kind::Sign(Sign::Equal) => Some(Comparator::Equal),
        Kind::Sign(Sign::NotEqual) => Some(Comparator::NotEqual),
        Kind::Sign(Sign::Less) => Some(Comparator::Less),
        Kind::Sign(Sign::LessEqual) => Some(Comparator::LessEqual),
        Kind::Sign(Sign::Greater) => Some(Comparator::Greater),
        Kind::Sign(Sign::GreaterEqual) => Some(Comparator::GreaterEqual),
        _ => None,
    }
}

/// What a factor starts with at a token, if one does.
pub fn start_of(kind: Kind) -> Option<FactorStart>
    ensures { (text : List ℕ) (place : PlaceOf)
        → Starts result text place (lexeme kind text place) }
{
    match kind {
        Kind::Number(value) => Some(FactorStart::Number(value)),
        Kind::Name => Some(FactorStart::Name),
        Kind::Keyword(Keyword::True) => Some(FactorStart::Truth(true)),
        Kind::Keyword(Keyword::False) => Some(FactorStart::Truth(false)),
        Kind::Keyword(Keyword::Not) => Some(FactorStart::Not),
        Kind::Sign(Sign::OpenParen) => Some(FactorStart::Paren),
        Kind::Sign(Sign::Minus) => Some(FactorStart::Minus),
        _ => None,
    }
}

// Whether a token stands between sums, relations or conjunctions.
fn is_relation(kind: Kind) -> bool
    ensures { result ≡ false → (text : List ℕ) (place : PlaceOf)
        → EndsExpression (lexeme kind text place) }
{
    match kind {
        Kind::Sign(
            Sign::Equal
            | Sign::NotEqual
            | Sign::Less
            | Sign::LessEqual
            | Sign::Greater
            | Sign::GreaterEqual,
        ) => true,
        Kind::Keyword(Keyword::And | Keyword::Or) => true,
        _ => false,
    }
}

impl<'a> Parser<'_, 'a> {
    /// The operator between factors that stands first.
    pub fn product_sign(&self) -> Option<ProductOperator>
        ensures reply { reply_multipliers (lexeme_at (ahead self.now)) ≡ product_reply result }
        ensures some { OnSome result (0 < length (ahead self.now)) }
    {
        product_operator(self.peek().kind)
    }

    /// The operator between terms that stands first, and its place.
    pub fn sum_sign(&self) -> Option<(SumOperator, Place)>
        ensures reply { reply_summands (lexeme_at (ahead self.now)) ≡ sum_reply result }
        ensures some { OnSome result (0 < length (ahead self.now)) }
    {
        let token = self.peek();
        let operator = sum_operator(token.kind)?;
        Some((operator, token.place))
    }

    /// Whether what stands first stands between sums, relations or conjunctions.
    pub fn relates(&self) -> bool
        ensures { result ≡ false → EndsExpression (lexeme_at (ahead self.now)) }
    {
        is_relation(self.peek().kind)
    }

    /// The comparison that stands first.
    pub fn comparator(&self) -> Option<Comparator>
        ensures reply { reply_comparison (lexeme_at (ahead self.now)) ≡ comparison_reply result }
        ensures some { OnSome result (0 < length (ahead self.now)) }
    {
        comparison(self.peek().kind)
    }

    /// Whether a factor starts with what stands first.
    pub fn starts_factor(&self) -> bool
        ensures yes { result ≡ true → StartsFactor (lexeme_at (ahead self.now)) }
        ensures no { result ≡ false → factor_begin (lexeme_at (ahead self.now)) ≡ NoFactor }
    {
        start_of(self.peek().kind).is_some()
    }
}
