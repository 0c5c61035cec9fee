// The levels of an expression, from the loosest to the tightest, and its factors.
//
// Each function reads its tree from the front of the tokens and passes it. Where it refuses, the tokens before the
// refused one may be passed already.

ghost use Rattle.std.specs.Prelude.{◌≡◌, ◌≤◌, ◌<◌, [], ◌∷◌, IfOk, IfErr, length, OnOk};
ghost use Rattle.scanner.specs.declared.token.Place.{Place as PlaceOf};
ghost use Rattle.syntax.specs.Lexeme.{sign_lexeme, Mark};
ghost use Rattle.syntax.specs.Limits.{most_nestings};
ghost use Rattle.syntax.specs.View.{factor_of, term_of, sum_of, relation_of, conjunction_of, expression_of};
ghost use Rattle.syntax.specs.View.{variable_of, name_of, multipliers_in, summands_in, relations_in, conjunctions_in};
ghost use Rattle.grammar.specs.Machine.{AFactor, AnIndex, AMark, AComparison, scales, adds};
ghost use Rattle.grammar.specs.Machine.{reply_multipliers, reply_summands};
ghost use Rattle.grammar.specs.Machine.{Multipliers, Summands, Relations, Conjunctions};
ghost use Rattle.grammar.specs.Machine.{term as a_term, sum as a_sum};
ghost use Rattle.grammar.specs.Machine.{relation as a_relation, conjunction as a_conjunction};
ghost use Rattle.grammar.specs.Machine.{expression as an_expression};
ghost use Rattle.grammar.specs.Reading.{lexeme_at, Passes, Fails};
ghost use Rattle.token_cursor.specs.Ahead.{ahead};
ghost use Rattle.expression_parser.specs.Levels.{term_trees, sum_trees, relation_trees, conjunction_trees};
ghost use Rattle.expression_parser.specs.Levels.{expression_trees, enclosed_trees};
ghost use Rattle.expression_parser.specs.Levels.{first_factor, first_term, left_sum, first_relation, first_conjunction};
ghost use Rattle.expression_parser.specs.Levels.{further_factors, further_terms, comparison_part};
ghost use Rattle.expression_parser.specs.Levels.{further_relations, further_conjunctions};

use crate::alone::{
    conjunction_alone, expression_alone, expression_of_sum, reading, relation_alone, sum_alone,
};
use scanner::{Keyword, Kind, Place, Refusal, RefusalKind, Sign};
use syntax::{
    AllOf, AnyOf, Comparison, Conjunction, Element, Expression, Factor, Multiplier, Name, Number,
    Product, ProductOperator, Relation, Sum, SumOperator, Summand, Term, Total, Truth, Variable,
};
use token_cursor::{FactorStart, Parser, refused, start_of};

/// Reads an expression, where `depth` nestings are open.
///
/// Where none stands first it is refused at the first token that can't be read: as Expected where no
/// expression goes on so, as a Limit where the token opens a nesting past `MOST_NESTINGS`. It is refused as Memory
/// where memory runs out. What was read before a refusal is passed then, and how much is not said.
#[cycle(expression)]
pub fn expression<'a>(parser: &mut Parser<'_, 'a>, depth: u8) -> Result<Expression<'a>, Refusal>
    requires { depth ≤ most_nestings }
    ensures ok { IfOk result
        (λ x. Passes depth (an_expression []) (expression_trees (expression_of x))
        (ahead parser.old) (ahead parser.new)) }
    ensures err { IfErr result (λ e. Fails depth (an_expression []) (ahead parser.old) e) }
    ensures shorter { OnOk result (length (ahead parser.new) < length (ahead parser.old)) }
{
    let sum = sum(parser, depth)?;
    // Most expressions end here, and needn't go through each level.
    if !parser.relates() {
        return Ok(expression_of_sum(sum));
    }
    let relation = relation_from(parser, sum, depth)?;
    let conjunction = conjunction_from(parser, relation, depth)?;
    expression_from(parser, conjunction, depth)
}

// What an expression is that begins with a conjunction, which was passed.
#[cycle(expression)]
fn expression_from<'a>(
    parser: &mut Parser<'_, 'a>,
    first: Conjunction<'a>,
    depth: u8,
) -> Result<Expression<'a>, Refusal>
    requires { depth ≤ most_nestings }
    ensures front { IfOk result (λ x. first_conjunction (expression_of x)
        ≡ conjunction_of first.entry) }
    ensures ok { IfOk result
        (λ x. Passes depth (Conjunctions ∷ []) (further_conjunctions (expression_of x), tt)
        (ahead parser.old) (ahead parser.new)) }
    ensures err { IfErr result (λ e. Fails depth (Conjunctions ∷ []) (ahead parser.old) e) }
    ensures within { OnOk result (length (ahead parser.new) ≤ length (ahead parser.old)) }
{
    if !parser.eat_keyword(Keyword::Or) {
        return Ok(expression_alone(first));
    }
    let second = match conjunction(parser, depth) {
        Ok(second) => second,
        Err(refusal) => return refused(first, refusal),
    };
    let rest = match conjunctions(parser, depth) {
        Ok(rest) => rest,
        Err(refusal) => return refused((first, second), refusal),
    };
    let any_of = AnyOf {
        first,
        second,
        rest,
    };
    Ok(Expression::AnyOf(Box::new(parser.alloc, any_of)?))
}

// Further conjunctions, each behind an OR.
#[cycle(expression)]
fn conjunctions<'a>(parser: &mut Parser<'_, 'a>, depth: u8) -> Result<Vec<Conjunction<'a>>, Refusal>
    requires { depth ≤ most_nestings }
    ensures ok { IfOk result (λ v. Passes depth (Conjunctions ∷ []) (conjunctions_in v.items, tt)
        (ahead parser.old) (ahead parser.new)) }
    ensures err { IfErr result (λ e. Fails depth (Conjunctions ∷ []) (ahead parser.old) e) }
    ensures within { OnOk result (length (ahead parser.new) ≤ length (ahead parser.old)) }
{
    let mut rest = Vec::new(parser.alloc);
    'conjunctions: while parser.eat_keyword(Keyword::Or) {
        let conjunction = conjunction(parser, depth)?;
        rest.push(conjunction)?;
    }
    Ok(rest)
}

// Relations with AND between them.
#[cycle(expression)]
fn conjunction<'a>(parser: &mut Parser<'_, 'a>, depth: u8) -> Result<Conjunction<'a>, Refusal>
    requires { depth ≤ most_nestings }
    ensures ok { IfOk result
        (λ x. Passes depth (a_conjunction []) (conjunction_trees (conjunction_of x))
        (ahead parser.old) (ahead parser.new)) }
    ensures err { IfErr result (λ e. Fails depth (a_conjunction []) (ahead parser.old) e) }
    ensures shorter { OnOk result (length (ahead parser.new) < length (ahead parser.old)) }
{
    let first = relation(parser, depth)?;
    conjunction_from(parser, first, depth)
}

// What a conjunction is that begins with a relation, which was passed.
#[cycle(expression)]
fn conjunction_from<'a>(
    parser: &mut Parser<'_, 'a>,
    first: Relation<'a>,
    depth: u8,
) -> Result<Conjunction<'a>, Refusal>
    requires { depth ≤ most_nestings }
    ensures front { IfOk result (λ x. first_relation (conjunction_of x) ≡ relation_of first.entry) }
    ensures ok { IfOk result
        (λ x. Passes depth (Relations ∷ []) (further_relations (conjunction_of x), tt)
        (ahead parser.old) (ahead parser.new)) }
    ensures err { IfErr result (λ e. Fails depth (Relations ∷ []) (ahead parser.old) e) }
    ensures within { OnOk result (length (ahead parser.new) ≤ length (ahead parser.old)) }
{
    if !parser.eat_keyword(Keyword::And) {
        return Ok(conjunction_alone(first));
    }
    let second = match relation(parser, depth) {
        Ok(second) => second,
        Err(refusal) => return refused(first, refusal),
    };
    let rest = match relations(parser, depth) {
        Ok(rest) => rest,
        Err(refusal) => return refused((first, second), refusal),
    };
    let all_of = AllOf {
        first,
        second,
        rest,
    };
    Ok(Conjunction::AllOf(Box::new(parser.alloc, all_of)?))
}

// Further relations, each behind an AND.
#[cycle(expression)]
fn relations<'a>(parser: &mut Parser<'_, 'a>, depth: u8) -> Result<Vec<Relation<'a>>, Refusal>
    requires { depth ≤ most_nestings }
    ensures ok { IfOk result (λ v. Passes depth (Relations ∷ []) (relations_in v.items, tt)
        (ahead parser.old) (ahead parser.new)) }
    ensures err { IfErr result (λ e. Fails depth (Relations ∷ []) (ahead parser.old) e) }
    ensures within { OnOk result (length (ahead parser.new) ≤ length (ahead parser.old)) }
{
    let mut rest = Vec::new(parser.alloc);
    'relations: while parser.eat_keyword(Keyword::And) {
        let relation = relation(parser, depth)?;
        rest.push(relation)?;
    }
    Ok(rest)
}

// A sum, or a comparison of two.
#[cycle(expression)]
fn relation<'a>(parser: &mut Parser<'_, 'a>, depth: u8) -> Result<Relation<'a>, Refusal>
    requires { depth ≤ most_nestings }
    ensures ok { IfOk result (λ x. Passes depth (a_relation []) (relation_trees (relation_of x))
        (ahead parser.old) (ahead parser.new)) }
    ensures err { IfErr result (λ e. Fails depth (a_relation []) (ahead parser.old) e) }
    ensures shorter { OnOk result (length (ahead parser.new) < length (ahead parser.old)) }
{
    let left = sum(parser, depth)?;
    relation_from(parser, left, depth)
}

// What a relation is that begins with a sum, which was passed.
#[cycle(expression)]
fn relation_from<'a>(
    parser: &mut Parser<'_, 'a>,
    left: Sum<'a>,
    depth: u8,
) -> Result<Relation<'a>, Refusal>
    requires { depth ≤ most_nestings }
    ensures front { IfOk result (λ x. left_sum (relation_of x) ≡ sum_of left.entry) }
    ensures ok { IfOk result
        (λ x. Passes depth (AComparison ∷ []) (comparison_part (relation_of x), tt)
        (ahead parser.old) (ahead parser.new)) }
    ensures err { IfErr result (λ e. Fails depth (AComparison ∷ []) (ahead parser.old) e) }
    ensures within { OnOk result (length (ahead parser.new) ≤ length (ahead parser.old)) }
{
    let Some(comparator) = parser.comparator() else {
        return Ok(relation_alone(left));
    };
    parser.pass();
    let right = match sum(parser, depth) {
        Ok(right) => right,
        Err(refusal) => return refused(left, refusal),
    };
    let comparison = Comparison {
        left,
        comparator,
        right,
    };
    Ok(Relation::Comparison(Box::new(parser.alloc, comparison)?))
}

// Terms with `+` or `-` between them.
#[cycle(expression)]
fn sum<'a>(parser: &mut Parser<'_, 'a>, depth: u8) -> Result<Sum<'a>, Refusal>
    requires { depth ≤ most_nestings }
    ensures ok { IfOk result (λ x. Passes depth (a_sum []) (sum_trees (sum_of x))
        (ahead parser.old) (ahead parser.new)) }
    ensures err { IfErr result (λ e. Fails depth (a_sum []) (ahead parser.old) e) }
    ensures shorter { OnOk result (length (ahead parser.new) < length (ahead parser.old)) }
{
    let first = term(parser, depth)?;
    match parser.sum_sign() {
        Some((operator, place)) => total(parser, first, operator, place, depth),
        None => Ok(sum_alone(first)),
    }
}

// A sum of two terms or more. The first was passed, and the sign behind it stands first.
#[cycle(expression)]
fn total<'a>(
    parser: &mut Parser<'_, 'a>,
    first: Term<'a>,
    operator: SumOperator,
    place: Place,
    depth: u8,
) -> Result<Sum<'a>, Refusal>
    requires depth { depth ≤ most_nestings }
    requires sign { reply_summands (lexeme_at (ahead parser.old)) ≡ adds operator place }
    requires some { 0 < length (ahead parser.old) }
    ensures front { IfOk result (λ x. first_term (sum_of x) ≡ term_of first.entry) }
    ensures ok { IfOk result (λ x. Passes depth (Summands ∷ []) (further_terms (sum_of x), tt)
        (ahead parser.old) (ahead parser.new)) }
    ensures err { IfErr result (λ e. Fails depth (Summands ∷ []) (ahead parser.old) e) }
    ensures shorter { OnOk result (length (ahead parser.new) < length (ahead parser.old)) }
{
    parser.pass();
    let term = match term(parser, depth) {
        Ok(term) => term,
        Err(refusal) => return refused(first, refusal),
    };
    let rest = match summands(parser, depth) {
        Ok(rest) => rest,
        Err(refusal) => return refused((first, term), refusal),
    };
    let second = Summand {
        operator,
        place,
        term,
    };
    let total = Total {
        first,
        second,
        rest,
    };
    Ok(Sum::Total(Box::new(parser.alloc, total)?))
}

// Further terms, each behind its sign.
#[cycle(expression)]
fn summands<'a>(parser: &mut Parser<'_, 'a>, depth: u8) -> Result<Vec<Summand<'a>>, Refusal>
    requires { depth ≤ most_nestings }
    ensures ok { IfOk result (λ v. Passes depth (Summands ∷ []) (summands_in v.items, tt)
        (ahead parser.old) (ahead parser.new)) }
    ensures err { IfErr result (λ e. Fails depth (Summands ∷ []) (ahead parser.old) e) }
    ensures within { OnOk result (length (ahead parser.new) ≤ length (ahead parser.old)) }
{
    let mut rest = Vec::new(parser.alloc);
    'summands: while let Some((operator, place)) = parser.sum_sign() {
        parser.pass();
        let term = term(parser, depth)?;
        rest.push(Summand {
            operator,
            place,
            term,
        })?;
    }
    Ok(rest)
}

// Factors with `*`, `/` or MOD between them.
#[cycle(expression)]
fn term<'a>(parser: &mut Parser<'_, 'a>, depth: u8) -> Result<Term<'a>, Refusal>
    requires { depth ≤ most_nestings }
    ensures ok { IfOk result (λ x. Passes depth (a_term []) (term_trees (term_of x))
        (ahead parser.old) (ahead parser.new)) }
    ensures err { IfErr result (λ e. Fails depth (a_term []) (ahead parser.old) e) }
    ensures shorter { OnOk result (length (ahead parser.new) < length (ahead parser.old)) }
{
    let first = factor(parser, depth)?;
    match parser.product_sign() {
        Some(operator) => product(parser, first, operator, depth),
        None => Ok(Term::Factor(first)),
    }
}

// A term of two factors or more. The first was passed, and the operator behind it stands first.
#[cycle(expression)]
fn product<'a>(
    parser: &mut Parser<'_, 'a>,
    first: Factor<'a>,
    operator: ProductOperator,
    depth: u8,
) -> Result<Term<'a>, Refusal>
    requires depth { depth ≤ most_nestings }
    requires operator { reply_multipliers (lexeme_at (ahead parser.old)) ≡ scales operator }
    requires some { 0 < length (ahead parser.old) }
    ensures front { IfOk result (λ x. first_factor (term_of x) ≡ factor_of first.entry) }
    ensures ok { IfOk result (λ x. Passes depth (Multipliers ∷ []) (further_factors (term_of x), tt)
        (ahead parser.old) (ahead parser.new)) }
    ensures err { IfErr result (λ e. Fails depth (Multipliers ∷ []) (ahead parser.old) e) }
    ensures shorter { OnOk result (length (ahead parser.new) < length (ahead parser.old)) }
{
    parser.pass();
    let factor = match factor(parser, depth) {
        Ok(factor) => factor,
        Err(refusal) => return refused(first, refusal),
    };
    let rest = match multipliers(parser, depth) {
        Ok(rest) => rest,
        Err(refusal) => return refused((first, factor), refusal),
    };
    let second = Multiplier { operator, factor };
    let product = Product {
        first,
        second,
        rest,
    };
    Ok(Term::Product(Box::new(parser.alloc, product)?))
}

// Further factors, each behind its operator.
#[cycle(expression)]
fn multipliers<'a>(parser: &mut Parser<'_, 'a>, depth: u8) -> Result<Vec<Multiplier<'a>>, Refusal>
    requires { depth ≤ most_nestings }
    ensures ok { IfOk result (λ v. Passes depth (Multipliers ∷ []) (multipliers_in v.items, tt)
        (ahead parser.old) (ahead parser.new)) }
    ensures err { IfErr result (λ e. Fails depth (Multipliers ∷ []) (ahead parser.old) e) }
    ensures within { OnOk result (length (ahead parser.new) ≤ length (ahead parser.old)) }
{
    let mut rest = Vec::new(parser.alloc);
    'multipliers: while let Some(operator) = parser.product_sign() {
        parser.pass();
        let factor = factor(parser, depth)?;
        rest.push(Multiplier { operator, factor })?;
    }
    Ok(rest)
}

#[cycle(expression)]
fn factor<'a>(parser: &mut Parser<'_, 'a>, depth: u8) -> Result<Factor<'a>, Refusal>
    requires { depth ≤ most_nestings }
    ensures ok { IfOk result (λ x. Passes depth (AFactor ∷ []) (factor_of x, tt)
        (ahead parser.old) (ahead parser.new)) }
    ensures err { IfErr result (λ e. Fails depth (AFactor ∷ []) (ahead parser.old) e) }
    ensures shorter { OnOk result (length (ahead parser.new) < length (ahead parser.old)) }
{
    let token = parser.peek();
    let Some(start) = start_of(token.kind) else {
        return Err(parser.refusal(RefusalKind::Expected));
    };
    let place = token.place;
    match start {
        FactorStart::Number(value) => {
            parser.pass();
            Ok(Factor::Number(Number { value, place }))
        }
        FactorStart::Truth(value) => {
            parser.pass();
            Ok(Factor::Truth(Truth { value, place }))
        }
        FactorStart::Name => {
            parser.pass();
            let name = Name {
                text: token.text,
                place,
            };
            Ok(reading(variable(parser, depth, name)?))
        }
        FactorStart::Paren => {
            let inner = parser.open(depth)?;
            let expression = expression_before(parser, inner, Sign::CloseParen)?;
            Ok(Factor::Group(place, Box::new(parser.alloc, expression)?))
        }
        FactorStart::Minus => {
            let inner = parser.open(depth)?;
            Ok(Factor::Minus(place, operand(parser, inner)?))
        }
        FactorStart::Not => {
            let inner = parser.open(depth)?;
            Ok(Factor::Not(place, operand(parser, inner)?))
        }
    }
}

// A factor, in a box.
#[cycle(expression)]
fn operand<'a>(parser: &mut Parser<'_, 'a>, depth: u8) -> Result<Box<Factor<'a>>, Refusal>
    requires { depth ≤ most_nestings }
    ensures ok { IfOk result (λ x. Passes depth (AFactor ∷ []) (factor_of x.value, tt)
        (ahead parser.old) (ahead parser.new)) }
    ensures err { IfErr result (λ e. Fails depth (AFactor ∷ []) (ahead parser.old) e) }
    ensures shorter { OnOk result (length (ahead parser.new) < length (ahead parser.old)) }
{
    let factor = factor(parser, depth)?;
    Ok(Box::new(parser.alloc, factor)?)
}

/// Reads an expression, and the sign that stands behind it.
///
/// Refuses as `expression` does, and where another sign stands there as Expected.
#[cycle(expression)]
pub fn expression_before<'a>(
    parser: &mut Parser<'_, 'a>,
    depth: u8,
    close: Sign,
) -> Result<Expression<'a>, Refusal>
    requires depth { depth ≤ most_nestings }
    requires close { (place : PlaceOf) → sign_lexeme close place ≡ Mark close }
    ensures ok { IfOk result (λ x. Passes depth (an_expression (AMark close ∷ []))
        (enclosed_trees close (expression_of x)) (ahead parser.old) (ahead parser.new)) }
    ensures err { IfErr result
        (λ e. Fails depth (an_expression (AMark close ∷ [])) (ahead parser.old) e) }
    ensures shorter { OnOk result (length (ahead parser.new) < length (ahead parser.old)) }
{
    let expression = expression(parser, depth)?;
    match parser.expect_sign(close) {
        Ok(()) => Ok(expression),
        Err(refusal) => refused(expression, refusal),
    }
}

/// Reads what stands behind a name that was passed: an index in brackets, or nothing where no bracket
/// stands first.
///
/// Refuses as `expression` does.
#[cycle(expression)]
pub fn variable<'a>(
    parser: &mut Parser<'_, 'a>,
    depth: u8,
    name: Name<'a>,
) -> Result<Variable<'a>, Refusal>
    requires { depth ≤ most_nestings }
    ensures name { IfOk result (λ v. (variable_of v).name ≡ name_of name.entry) }
    ensures ok { IfOk result (λ v. Passes depth (AnIndex ∷ []) ((variable_of v).index, tt)
        (ahead parser.old) (ahead parser.new)) }
    ensures err { IfErr result (λ e. Fails depth (AnIndex ∷ []) (ahead parser.old) e) }
    ensures within { OnOk result (length (ahead parser.new) ≤ length (ahead parser.old)) }
{
    if parser.peek().kind != Kind::Sign(Sign::OpenBracket) {
        return Ok(Variable::Name(name));
    }
    let inner = parser.open(depth)?;
    let index = expression_before(parser, inner, Sign::CloseBracket)?;
    let element = Box::new(parser.alloc, Element { name, index })?;
    Ok(Variable::Element(element))
}
