// Types, local variables, parameters, and members of monitors.

ghost use Rattle.std.specs.Prelude.{◌≤◌, ◌<◌, length, map, [], ◌∷◌, IfOk, IfErr, OnOk, OnSome};
ghost use Rattle.syntax.specs.View.{local_of, member_of, parameter_of, name_of};
ghost use Rattle.grammar.specs.Machine.{AMark, AName, ALocalType, AMemberType, AReturns, AResultType};
ghost use Rattle.grammar.specs.Machine.{Locals, Members, Parameters, MoreParameters};
ghost use Rattle.grammar.specs.Reading.{Passes, Fails};
ghost use Rattle.scanner.specs.declared.token.Sign.TheVariants.{Colon};
ghost use Rattle.token_cursor.specs.Ahead.{ahead};
ghost use Rattle.parser.specs.Steps.{ReadsNext, add_local, add_member, add_parameter};

use crate::kinds::{local_type_of, plain_type_of, result_type_of};
use scanner::{Keyword, Kind, Refusal, RefusalKind, Sign};
use syntax::{Local, LocalType, Member, MemberType, Parameter, ResultType};
use token_cursor::Parser;

/// The type of a local variable.
pub fn local_type(parser: &mut Parser<'_, '_>) -> Result<LocalType, Refusal>
    ensures ok { IfOk result
        (λ t. Passes 0 (ALocalType ∷ []) (t, tt) (ahead parser.old) (ahead parser.new)) }
    ensures err { IfErr result (λ e. Fails 0 (ALocalType ∷ []) (ahead parser.old) e) }
    ensures within { OnOk result (length (ahead parser.new) ≤ length (ahead parser.old)) }
{
    let Some(kind) = local_type_of(parser.peek().kind) else {
        return Err(parser.refusal(RefusalKind::Expected));
    };
    parser.pass();
    Ok(kind)
}

/// The type of a member.
pub fn member_type(parser: &mut Parser<'_, '_>) -> Result<MemberType, Refusal>
    ensures ok { IfOk result
        (λ t. Passes 0 (AMemberType ∷ []) (t, tt) (ahead parser.old) (ahead parser.new)) }
    ensures err { IfErr result (λ e. Fails 0 (AMemberType ∷ []) (ahead parser.old) e) }
    ensures within { OnOk result (length (ahead parser.new) ≤ length (ahead parser.old)) }
{
    let kind = parser.peek().kind;
    if let Some(plain) = plain_type_of(kind) {
        parser.pass();
        return Ok(plain);
    }
    if kind != Kind::Keyword(Keyword::Array) {
        return Err(parser.refusal(RefusalKind::Expected));
    }
    parser.pass();
    let number = parser.expect_number()?;
    parser.expect_keyword(Keyword::Of)?;
    parser.expect_keyword(Keyword::Integer)?;
    Ok(MemberType::Array(number))
}

// The type of a result.
fn result_type(parser: &mut Parser<'_, '_>) -> Result<ResultType, Refusal>
    ensures ok { IfOk result
        (λ t. Passes 0 (AResultType ∷ []) (t, tt) (ahead parser.old) (ahead parser.new)) }
    ensures err { IfErr result (λ e. Fails 0 (AResultType ∷ []) (ahead parser.old) e) }
    ensures within { OnOk result (length (ahead parser.new) ≤ length (ahead parser.old)) }
{
    let Some(kind) = result_type_of(parser.peek().kind) else {
        return Err(parser.refusal(RefusalKind::Expected));
    };
    parser.pass();
    Ok(kind)
}

/// The type of a result behind its colon, if there is one.
pub fn returns(parser: &mut Parser<'_, '_>) -> Result<Option<ResultType>, Refusal>
    ensures ok { IfOk result
        (λ t. Passes 0 (AReturns ∷ []) (t, tt) (ahead parser.old) (ahead parser.new)) }
    ensures err { IfErr result (λ e. Fails 0 (AReturns ∷ []) (ahead parser.old) e) }
    ensures within { OnOk result (length (ahead parser.new) ≤ length (ahead parser.old)) }
{
    if !parser.eat_sign(Sign::Colon) {
        return Ok(None);
    }
    let kind = result_type(parser)?;
    Ok(Some(kind))
}

// A local variable, if one begins.
fn local<'a>(parser: &mut Parser<'_, 'a>) -> Result<Option<Local<'a>>, Refusal>
    ensures ok { IfOk result
        (λ x. ReadsNext 0 Locals add_local [] x (ahead parser.old) (ahead parser.new)) }
    ensures err { IfErr result (λ e. Fails 0 (Locals ∷ []) (ahead parser.old) e) }
    ensures within { OnOk result (length (ahead parser.new) ≤ length (ahead parser.old)) }
    ensures shorter { IfOk result
        (λ x. OnSome x (length (ahead parser.new) < length (ahead parser.old))) }
{
    let Some(place) = parser.eat_placed(Keyword::Var) else {
        return Ok(None);
    };
    let name = parser.expect_name()?;
    parser.expect_sign(Sign::Colon)?;
    let kind = local_type(parser)?;
    parser.expect_sign(Sign::Semicolon)?;
    Ok(Some(Local { place, name, kind }))
}

/// Local variables, as many as there are.
pub fn locals<'a>(parser: &mut Parser<'_, 'a>) -> Result<Vec<Local<'a>>, Refusal>
    ensures ok { IfOk result (λ v.
        Passes 0 (Locals ∷ []) (map local_of v.items, tt) (ahead parser.old) (ahead parser.new)) }
    ensures err { IfErr result (λ e. Fails 0 (Locals ∷ []) (ahead parser.old) e) }
    ensures within { OnOk result (length (ahead parser.new) ≤ length (ahead parser.old)) }
{
    let mut locals = Vec::new(parser.alloc);
    'locals: while let Some(local) = local(parser)? {
        locals.push(local)?;
    }
    Ok(locals)
}

// A member, if one begins.
fn member<'a>(parser: &mut Parser<'_, 'a>) -> Result<Option<Member<'a>>, Refusal>
    ensures ok { IfOk result
        (λ x. ReadsNext 0 Members add_member [] x (ahead parser.old) (ahead parser.new)) }
    ensures err { IfErr result (λ e. Fails 0 (Members ∷ []) (ahead parser.old) e) }
    ensures within { OnOk result (length (ahead parser.new) ≤ length (ahead parser.old)) }
    ensures shorter { IfOk result
        (λ x. OnSome x (length (ahead parser.new) < length (ahead parser.old))) }
{
    let Some(place) = parser.eat_placed(Keyword::Var) else {
        return Ok(None);
    };
    let name = parser.expect_name()?;
    parser.expect_sign(Sign::Colon)?;
    let kind = member_type(parser)?;
    parser.expect_sign(Sign::Semicolon)?;
    Ok(Some(Member { place, name, kind }))
}

/// Members, as many as there are.
pub fn members<'a>(parser: &mut Parser<'_, 'a>) -> Result<Vec<Member<'a>>, Refusal>
    ensures ok { IfOk result (λ v.
        Passes 0 (Members ∷ []) (map member_of v.items, tt) (ahead parser.old) (ahead parser.new)) }
    ensures err { IfErr result (λ e. Fails 0 (Members ∷ []) (ahead parser.old) e) }
    ensures within { OnOk result (length (ahead parser.new) ≤ length (ahead parser.old)) }
{
    let mut members = Vec::new(parser.alloc);
    'members: while let Some(member) = member(parser)? {
        members.push(member)?;
    }
    Ok(members)
}

// A parameter, with its type.
fn parameter<'a>(parser: &mut Parser<'_, 'a>) -> Result<Parameter<'a>, Refusal>
    ensures ok { IfOk result (λ p.
        Passes 0 (AName ∷ AMark Colon ∷ ALocalType ∷ []) (name_of p.name, (tt, (p.kind, tt)))
        (ahead parser.old) (ahead parser.new)) }
    ensures err { IfErr result
        (λ e. Fails 0 (AName ∷ AMark Colon ∷ ALocalType ∷ []) (ahead parser.old) e) }
    ensures shorter { OnOk result (length (ahead parser.new) < length (ahead parser.old)) }
{
    let name = parser.expect_name()?;
    parser.expect_sign(Sign::Colon)?;
    let kind = local_type(parser)?;
    Ok(Parameter { name, kind })
}

// A further parameter behind a comma, if there is one.
fn further_parameter<'a>(parser: &mut Parser<'_, 'a>) -> Result<Option<Parameter<'a>>, Refusal>
    ensures ok { IfOk result (λ x.
        ReadsNext 0 MoreParameters add_parameter [] x (ahead parser.old) (ahead parser.new)) }
    ensures err { IfErr result (λ e. Fails 0 (MoreParameters ∷ []) (ahead parser.old) e) }
    ensures within { OnOk result (length (ahead parser.new) ≤ length (ahead parser.old)) }
    ensures shorter { IfOk result
        (λ x. OnSome x (length (ahead parser.new) < length (ahead parser.old))) }
{
    if !parser.eat_sign(Sign::Comma) {
        return Ok(None);
    }
    let next = parameter(parser)?;
    Ok(Some(next))
}

/// Parameters, with commas between them, if there are any.
pub fn parameters<'a>(parser: &mut Parser<'_, 'a>) -> Result<Vec<Parameter<'a>>, Refusal>
    ensures ok { IfOk result (λ v.
        Passes 0 (Parameters ∷ []) (map parameter_of v.items, tt) (ahead parser.old)
        (ahead parser.new)) }
    ensures err { IfErr result (λ e. Fails 0 (Parameters ∷ []) (ahead parser.old) e) }
    ensures within { OnOk result (length (ahead parser.new) ≤ length (ahead parser.old)) }
{
    let mut parameters = Vec::new(parser.alloc);
    if parser.peek().kind != Kind::Name {
        return Ok(parameters);
    }
    let first = parameter(parser)?;
    parameters.push(first)?;
    'parameters: while let Some(next) = further_parameter(parser)? {
        parameters.push(next)?;
    }
    Ok(parameters)
}
