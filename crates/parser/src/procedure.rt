// Bodies, procedures, and the procedures of monitors.

ghost use Rattle.std.specs.Prelude.{◌≡◌, ◌≤◌, ◌<◌, length, map, [], ◌∷◌, IfOk, IfErr, OnOk, OnSome};
ghost use Rattle.syntax.specs.View.{body_of, procedure_of, monitor_procedure_of};
ghost use Rattle.grammar.specs.Machine.{body as a_body, procedure as a_procedure, Procedures, MonitorProcedures};
ghost use Rattle.grammar.specs.Reading.{Passes, Fails};
ghost use Rattle.token_cursor.specs.Ahead.{ahead};
ghost use Rattle.parser.specs.Steps.{ReadsNext, add_procedure, add_monitor_procedure, body_trees, procedure_trees};

use crate::declaration::{locals, parameters, returns};
use crate::kinds::access_of;
use crate::statement::statements;
use scanner::{Keyword, Place, Refusal, Sign};
use syntax::{Body, MonitorProcedure, Procedure};
use token_cursor::{Parser, refused};

/// Local variables, statements, and END.
pub fn body<'a>(parser: &mut Parser<'_, 'a>) -> Result<Body<'a>, Refusal>
    ensures ok { IfOk result (λ b.
        Passes 0 (a_body []) (body_trees (body_of b)) (ahead parser.old) (ahead parser.new)) }
    ensures err { IfErr result (λ e. Fails 0 (a_body []) (ahead parser.old) e) }
    ensures shorter { OnOk result (length (ahead parser.new) < length (ahead parser.old)) }
{
    let locals = locals(parser)?;
    let statements = statements(parser, 0)?;
    parser.expect_keyword(Keyword::End)?;
    Ok(Body { locals, statements })
}

// A procedure, behind its first word.
fn procedure<'a>(parser: &mut Parser<'_, 'a>, place: Place) -> Result<Procedure<'a>, Refusal>
    ensures ok { IfOk result (λ p.
        Passes 0 (a_procedure []) (procedure_trees (procedure_of p)) (ahead parser.old)
        (ahead parser.new)) }
    ensures place { IfOk result (λ p. p.place ≡ place) }
    ensures err { IfErr result (λ e. Fails 0 (a_procedure []) (ahead parser.old) e) }
    ensures shorter { OnOk result (length (ahead parser.new) < length (ahead parser.old)) }
{
    let name = parser.expect_name()?;
    let open_place = parser.expect_opening()?;
    let parameters = parameters(parser)?;
    match parser.expect_sign(Sign::CloseParen) {
        Ok(()) => {}
        Err(refusal) => return refused(parameters, refusal),
    }
    let returns = match returns(parser) {
        Ok(returns) => returns,
        Err(refusal) => return refused(parameters, refusal),
    };
    match parser.expect_sign(Sign::Semicolon) {
        Ok(()) => {}
        Err(refusal) => return refused(parameters, refusal),
    }
    let body = match body(parser) {
        Ok(body) => body,
        Err(refusal) => return refused(parameters, refusal),
    };
    let procedure = Procedure {
        place,
        name,
        open_place,
        parameters,
        returns,
        body,
    };
    match parser.expect_sign(Sign::Semicolon) {
        Ok(()) => Ok(procedure),
        Err(refusal) => refused(procedure, refusal),
    }
}

// An external procedure, if one begins.
fn external_procedure<'a>(parser: &mut Parser<'_, 'a>) -> Result<Option<Procedure<'a>>, Refusal>
    ensures ok { IfOk result
        (λ p. ReadsNext 0 Procedures add_procedure [] p (ahead parser.old) (ahead parser.new)) }
    ensures err { IfErr result (λ e. Fails 0 (Procedures ∷ []) (ahead parser.old) e) }
    ensures within { OnOk result (length (ahead parser.new) ≤ length (ahead parser.old)) }
    ensures shorter { IfOk result
        (λ p. OnSome p (length (ahead parser.new) < length (ahead parser.old))) }
{
    let Some(place) = parser.eat_placed(Keyword::Procedure) else {
        return Ok(None);
    };
    let procedure = procedure(parser, place)?;
    Ok(Some(procedure))
}

/// External procedures, as many as there are.
pub fn procedures<'a>(parser: &mut Parser<'_, 'a>) -> Result<Vec<Procedure<'a>>, Refusal>
    ensures ok { IfOk result (λ v.
        Passes 0 (Procedures ∷ []) (map procedure_of v.items, tt) (ahead parser.old)
        (ahead parser.new)) }
    ensures err { IfErr result (λ e. Fails 0 (Procedures ∷ []) (ahead parser.old) e) }
    ensures within { OnOk result (length (ahead parser.new) ≤ length (ahead parser.old)) }
{
    let mut procedures = Vec::new(parser.alloc);
    'procedures: while let Some(procedure) = external_procedure(parser)? {
        procedures.push(procedure)?;
    }
    Ok(procedures)
}

// A procedure of a monitor, if one begins.
fn monitor_procedure<'a>(
    parser: &mut Parser<'_, 'a>,
) -> Result<Option<MonitorProcedure<'a>>, Refusal>
    ensures ok { IfOk result (λ p.
        ReadsNext 0 MonitorProcedures add_monitor_procedure [] p (ahead parser.old)
        (ahead parser.new)) }
    ensures err { IfErr result (λ e. Fails 0 (MonitorProcedures ∷ []) (ahead parser.old) e) }
    ensures within { OnOk result (length (ahead parser.new) ≤ length (ahead parser.old)) }
    ensures shorter { IfOk result
        (λ p. OnSome p (length (ahead parser.new) < length (ahead parser.old))) }
{
    let Some(access) = access_of(parser.peek().kind) else {
        return Ok(None);
    };
    parser.pass();
    let place = parser.expect_placed(Keyword::Procedure)?;
    let procedure = procedure(parser, place)?;
    Ok(Some(MonitorProcedure { access, procedure }))
}

/// Procedures of a monitor, as many as there are.
pub fn monitor_procedures<'a>(
    parser: &mut Parser<'_, 'a>,
) -> Result<Vec<MonitorProcedure<'a>>, Refusal>
    ensures ok { IfOk result (λ v.
        Passes 0 (MonitorProcedures ∷ []) (map monitor_procedure_of v.items, tt)
        (ahead parser.old) (ahead parser.new)) }
    ensures err { IfErr result (λ e. Fails 0 (MonitorProcedures ∷ []) (ahead parser.old) e) }
    ensures within { OnOk result (length (ahead parser.new) ≤ length (ahead parser.old)) }
{
    let mut procedures = Vec::new(parser.alloc);
    'procedures: while let Some(procedure) = monitor_procedure(parser)? {
        procedures.push(procedure)?;
    }
    Ok(procedures)
}
