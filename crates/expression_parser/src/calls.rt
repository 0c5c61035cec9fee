// Expressions that may be left out, and what is called.

ghost use Rattle.std.specs.Prelude.{◌≡◌, ◌≤◌, ◌<◌, [], ◌∷◌, IfOk, IfErr, length, map, OnOk};
ghost use Rattle.syntax.specs.Limits.{most_nestings};
ghost use Rattle.syntax.specs.View.{expression_of, option_expression, option_name, name_of};
ghost use Rattle.syntax.specs.View.{callee_of, first_name, dotted_name};
ghost use Rattle.grammar.specs.Machine.{AValue, Arguments, ADottedName, callee as a_callee};
ghost use Rattle.grammar.specs.Reading.{Passes, Fails};
ghost use Rattle.token_cursor.specs.Ahead.{ahead};
ghost use Rattle.expression_parser.specs.Levels.{callee_trees};

use crate::levels::expression;
use scanner::{Refusal, Sign};
use syntax::{Callee, Expression, Name};
use token_cursor::Parser;

// The monitor and the procedure that the first name and the name behind a dot are.
fn callee_names<'a>(first: Name<'a>, dotted: Option<Name<'a>>) -> (Option<Name<'a>>, Name<'a>)
    ensures first { first_name result.0 result.1 ≡ name_of first.entry }
    ensures dotted { dotted_name result.0 result.1 ≡ option_name dotted.entry }
{
    match dotted {
        Some(procedure) => (Some(first), procedure),
        None => (None, first),
    }
}

/// Reads an expression, or nothing where none begins.
///
/// Refuses as `expression` does.
pub fn value<'a>(parser: &mut Parser<'_, 'a>, depth: u8) -> Result<Option<Expression<'a>>, Refusal>
    requires { depth ≤ most_nestings }
    ensures ok { IfOk result (λ x. Passes depth (AValue ∷ []) (option_expression x, tt)
        (ahead parser.old) (ahead parser.new)) }
    ensures err { IfErr result (λ e. Fails depth (AValue ∷ []) (ahead parser.old) e) }
    ensures within { OnOk result (length (ahead parser.new) ≤ length (ahead parser.old)) }
{
    if !parser.starts_factor() {
        return Ok(None);
    }
    Ok(Some(expression(parser, depth)?))
}

// The arguments of a call, which may be none.
fn arguments<'a>(parser: &mut Parser<'_, 'a>, depth: u8) -> Result<Vec<Expression<'a>>, Refusal>
    requires { depth ≤ most_nestings }
    ensures ok { IfOk result (λ x. Passes depth (Arguments ∷ []) (map expression_of x.items, tt)
        (ahead parser.old) (ahead parser.new)) }
    ensures err { IfErr result (λ e. Fails depth (Arguments ∷ []) (ahead parser.old) e) }
    ensures within { OnOk result (length (ahead parser.new) ≤ length (ahead parser.old)) }
{
    let mut arguments = Vec::new(parser.alloc);
    if !parser.starts_factor() {
        return Ok(arguments);
    }
    let first = expression(parser, depth)?;
    arguments.push(first)?;
    'more: while parser.eat_sign(Sign::Comma) {
        let argument = expression(parser, depth)?;
        arguments.push(argument)?;
    }
    Ok(arguments)
}

// The name behind a dot, if a dot stands first.
fn dotted_name<'a>(parser: &mut Parser<'_, 'a>, depth: u8) -> Result<Option<Name<'a>>, Refusal>
    requires { depth ≤ most_nestings }
    ensures ok { IfOk result (λ x. Passes depth (ADottedName ∷ []) (option_name x, tt)
        (ahead parser.old) (ahead parser.new)) }
    ensures err { IfErr result (λ e. Fails depth (ADottedName ∷ []) (ahead parser.old) e) }
    ensures within { OnOk result (length (ahead parser.new) ≤ length (ahead parser.old)) }
{
    if !parser.eat_sign(Sign::Dot) {
        return Ok(None);
    }
    Ok(Some(parser.expect_name()?))
}

/// Reads a callee: a procedure's name, or a monitor's and a procedure's with a dot between them, and the
/// arguments in parentheses.
///
/// Refuses as `expression` does.
pub fn callee<'a>(parser: &mut Parser<'_, 'a>, depth: u8) -> Result<Callee<'a>, Refusal>
    requires { depth ≤ most_nestings }
    ensures ok { IfOk result (λ x. Passes depth (a_callee []) (callee_trees (callee_of x))
        (ahead parser.old) (ahead parser.new)) }
    ensures err { IfErr result (λ e. Fails depth (a_callee []) (ahead parser.old) e) }
    ensures shorter { OnOk result (length (ahead parser.new) < length (ahead parser.old)) }
{
    let name = parser.expect_name()?;
    let dotted = dotted_name(parser, depth)?;
    let open_place = parser.expect_opening()?;
    let arguments = arguments(parser, depth)?;
    parser.expect_sign(Sign::CloseParen)?;
    let (monitor, procedure) = callee_names(name, dotted);
    Ok(Callee {
        monitor,
        procedure,
        open_place,
        arguments,
    })
}
