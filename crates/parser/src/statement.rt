// Statements, and those that hold others.

ghost use Rattle.std.specs.Prelude.{◌≡◌, ◌≤◌, ◌<◌, length, [], ◌∷◌, IfOk, IfErr, OnOk, OnSome};
ghost use Rattle.scanner.specs.declared.token.Keyword.TheVariants as K;
ghost use Rattle.scanner.specs.declared.token.Sign.TheVariants as S;
ghost use Rattle.syntax.specs.Lexeme.{WordAt};
ghost use Rattle.syntax.specs.Limits.{most_nestings};
ghost use Rattle.syntax.specs.Tree.{NoStatements};
ghost use Rattle.syntax.specs.View.{option_name, statements_in, part_in};
ghost use Rattle.grammar.specs.Machine.{AWord, AMark, AnInto, AnElse, AnAborted, Statements, Closed};
ghost use Rattle.grammar.specs.Reading.{lexeme_at, Passes, Fails};
ghost use Rattle.token_cursor.specs.Ahead.{ahead};
ghost use Rattle.parser.specs.Starts.{start_lexeme};
ghost use Rattle.parser.specs.Steps.{ReadsNext, ReadsStatement, add_statement};

use crate::condition::condition;
use crate::simple::{
    abort, assignment, broadcast, call, ending, fork, into_name, notify, print, return_statement,
    wait,
};
use crate::start::{StatementStart, start_of};
use expression_parser::expression;
use scanner::{Keyword, Kind, Place, Refusal, Sign};
use syntax::{Name, Statement};
use token_cursor::{Parser, refused};

/// Statements, as many as there are.
#[cycle(statements)]
pub fn statements<'a>(parser: &mut Parser<'_, 'a>, depth: u8) -> Result<Vec<Statement<'a>>, Refusal>
    requires { depth ≤ most_nestings }
    ensures ok { IfOk result (λ v.
        Passes depth (Statements ∷ []) (statements_in v.items, tt) (ahead parser.old)
        (ahead parser.new)) }
    ensures err { IfErr result (λ e. Fails depth (Statements ∷ []) (ahead parser.old) e) }
    ensures within { OnOk result (length (ahead parser.new) ≤ length (ahead parser.old)) }
{
    let mut statements = Vec::new(parser.alloc);
    'statements: while let Some(next) = statement(parser, depth)? {
        statements.push(next)?;
    }
    Ok(statements)
}

// A statement, if one begins.
#[cycle(statements)]
fn statement<'a>(parser: &mut Parser<'_, 'a>, depth: u8) -> Result<Option<Statement<'a>>, Refusal>
    requires { depth ≤ most_nestings }
    ensures ok { IfOk result (λ s.
        ReadsNext depth Statements add_statement NoStatements s (ahead parser.old)
        (ahead parser.new)) }
    ensures err { IfErr result (λ e. Fails depth (Statements ∷ []) (ahead parser.old) e) }
    ensures within { OnOk result (length (ahead parser.new) ≤ length (ahead parser.old)) }
    ensures shorter { IfOk result
        (λ s. OnSome s (length (ahead parser.new) < length (ahead parser.old))) }
{
    let Some(start) = start_of(parser.peek()) else {
        return Ok(None);
    };
    let next = statement_from(parser, depth, start)?;
    Ok(Some(next))
}

// The statement that begins with the token that stands first.
#[cycle(statements)]
fn statement_from<'a>(
    parser: &mut Parser<'_, 'a>,
    depth: u8,
    start: StatementStart<'a>,
) -> Result<Statement<'a>, Refusal>
    requires depth { depth ≤ most_nestings }
    requires first { lexeme_at (ahead parser.old) ≡ start_lexeme start }
    ensures ok { IfOk result (λ s. ReadsStatement depth s (ahead parser.old) (ahead parser.new)) }
    ensures err { IfErr result (λ e. Fails depth (Statements ∷ []) (ahead parser.old) e) }
    ensures shorter { OnOk result (length (ahead parser.new) < length (ahead parser.old)) }
{
    match start {
        StatementStart::Assign(name) => assignment(parser, depth, name),
        StatementStart::If(place) => if_statement(parser, depth, place),
        StatementStart::While(place) => while_statement(parser, depth, place),
        StatementStart::Call(place) => call(parser, depth, place),
        StatementStart::Fork(place) => fork(parser, depth, place),
        StatementStart::Join(place) => join(parser, depth, place),
        StatementStart::Return(place) => return_statement(parser, depth, place),
        StatementStart::Wait(place) => wait(parser, depth, place),
        StatementStart::Notify(place) => notify(parser, depth, place),
        StatementStart::Broadcast(place) => broadcast(parser, depth, place),
        StatementStart::Print(place) => print(parser, depth, place),
        StatementStart::Abort(place) => abort(parser, depth, place),
    }
}

// An IF.
#[cycle(statements)]
fn if_statement<'a>(
    parser: &mut Parser<'_, 'a>,
    depth: u8,
    place: Place,
) -> Result<Statement<'a>, Refusal>
    requires depth { depth ≤ most_nestings }
    requires first { lexeme_at (ahead parser.old) ≡ WordAt K.If place }
    ensures ok { IfOk result (λ s. ReadsStatement depth s (ahead parser.old) (ahead parser.new)) }
    ensures err { IfErr result (λ e. Fails depth (Statements ∷ []) (ahead parser.old) e) }
    ensures shorter { OnOk result (length (ahead parser.new) < length (ahead parser.old)) }
{
    let inner = parser.open(depth)?;
    let condition = condition(parser, inner, Keyword::Then)?;
    let parts = match branches(parser, depth) {
        Ok(parts) => parts,
        Err(refusal) => return refused(condition, refusal),
    };
    let (then_part, else_part) = parts;
    Ok(Statement::If {
        place,
        condition,
        then_part,
        else_part,
    })
}

// The statements behind THEN and ELSE, and the end of the IF.
#[cycle(statements)]
fn branches<'a>(
    parser: &mut Parser<'_, 'a>,
    depth: u8,
) -> Result<(Vec<Statement<'a>>, Option<Vec<Statement<'a>>>), Refusal>
    requires { depth < most_nestings }
    ensures ok { IfOk result
        (λ p. Passes depth (Statements ∷ AnElse ∷ AWord K.Endif ∷ Closed ∷ AMark S.Semicolon ∷ [])
        (statements_in p.0.items, (part_in p.1, (tt, (tt, (tt, tt))))) (ahead parser.old)
        (ahead parser.new)) }
    ensures err { IfErr result (λ e.
        Fails depth (Statements ∷ AnElse ∷ AWord K.Endif ∷ Closed ∷ AMark S.Semicolon ∷ [])
        (ahead parser.old) e) }
    ensures within { OnOk result (length (ahead parser.new) ≤ length (ahead parser.old)) }
{
    let inner = depth + 1;
    let then_part = statements(parser, inner)?;
    let else_part = match else_statements(parser, inner) {
        Ok(else_part) => else_part,
        Err(refusal) => return refused(then_part, refusal),
    };
    let parts = (then_part, else_part);
    match ending(parser, depth, Keyword::Endif) {
        Ok(()) => Ok(parts),
        Err(refusal) => refused(parts, refusal),
    }
}

// A WHILE.
#[cycle(statements)]
fn while_statement<'a>(
    parser: &mut Parser<'_, 'a>,
    depth: u8,
    place: Place,
) -> Result<Statement<'a>, Refusal>
    requires depth { depth ≤ most_nestings }
    requires first { lexeme_at (ahead parser.old) ≡ WordAt K.While place }
    ensures ok { IfOk result (λ s. ReadsStatement depth s (ahead parser.old) (ahead parser.new)) }
    ensures err { IfErr result (λ e. Fails depth (Statements ∷ []) (ahead parser.old) e) }
    ensures shorter { OnOk result (length (ahead parser.new) < length (ahead parser.old)) }
{
    let inner = parser.open(depth)?;
    let condition = condition(parser, inner, Keyword::Do)?;
    let body = match statements(parser, inner) {
        Ok(body) => body,
        Err(refusal) => return refused(condition, refusal),
    };
    match ending(parser, depth, Keyword::Endloop) {
        Ok(()) => Ok(Statement::While {
            place,
            condition,
            body,
        }),
        Err(refusal) => refused((condition, body), refusal),
    }
}

// A JOIN.
#[cycle(statements)]
fn join<'a>(parser: &mut Parser<'_, 'a>, depth: u8, place: Place) -> Result<Statement<'a>, Refusal>
    requires depth { depth ≤ most_nestings }
    requires first { lexeme_at (ahead parser.old) ≡ WordAt K.Join place }
    ensures ok { IfOk result (λ s. ReadsStatement depth s (ahead parser.old) (ahead parser.new)) }
    ensures err { IfErr result (λ e. Fails depth (Statements ∷ []) (ahead parser.old) e) }
    ensures shorter { OnOk result (length (ahead parser.new) < length (ahead parser.old)) }
{
    parser.pass();
    let process = expression(parser, depth)?;
    let parts = match join_parts(parser, depth) {
        Ok(parts) => parts,
        Err(refusal) => return refused(process, refusal),
    };
    let (into, aborted) = parts;
    Ok(Statement::Join {
        place,
        process,
        into,
        aborted,
    })
}

// What stands behind the process of a JOIN, and its end.
#[cycle(statements)]
fn join_parts<'a>(
    parser: &mut Parser<'_, 'a>,
    depth: u8,
) -> Result<(Option<Name<'a>>, Option<Vec<Statement<'a>>>), Refusal>
    requires { depth ≤ most_nestings }
    ensures ok { IfOk result (λ p. Passes depth (AnInto ∷ AnAborted ∷ AMark S.Semicolon ∷ [])
        (option_name p.0, (part_in p.1, (tt, tt))) (ahead parser.old) (ahead parser.new)) }
    ensures err { IfErr result (λ e.
        Fails depth (AnInto ∷ AnAborted ∷ AMark S.Semicolon ∷ []) (ahead parser.old) e) }
    ensures within { OnOk result (length (ahead parser.new) ≤ length (ahead parser.old)) }
{
    let into = into_name(parser, depth)?;
    let aborted = aborted_statements(parser, depth)?;
    parser.expect_sign(Sign::Semicolon)?;
    Ok((into, aborted))
}

// The statements behind ELSE, if there is one.
#[cycle(statements)]
fn else_statements<'a>(
    parser: &mut Parser<'_, 'a>,
    depth: u8,
) -> Result<Option<Vec<Statement<'a>>>, Refusal>
    requires { depth ≤ most_nestings }
    ensures ok { IfOk result
        (λ p. Passes depth (AnElse ∷ []) (part_in p, tt) (ahead parser.old) (ahead parser.new)) }
    ensures err { IfErr result (λ e. Fails depth (AnElse ∷ []) (ahead parser.old) e) }
    ensures within { OnOk result (length (ahead parser.new) ≤ length (ahead parser.old)) }
{
    if !parser.eat_keyword(Keyword::Else) {
        return Ok(None);
    }
    let part = statements(parser, depth)?;
    Ok(Some(part))
}

// The statements behind ABORTED, if there is one.
#[cycle(statements)]
fn aborted_statements<'a>(
    parser: &mut Parser<'_, 'a>,
    depth: u8,
) -> Result<Option<Vec<Statement<'a>>>, Refusal>
    requires { depth ≤ most_nestings }
    ensures ok { IfOk result (λ p.
        Passes depth (AnAborted ∷ []) (part_in p, tt) (ahead parser.old) (ahead parser.new)) }
    ensures err { IfErr result (λ e. Fails depth (AnAborted ∷ []) (ahead parser.old) e) }
    ensures within { OnOk result (length (ahead parser.new) ≤ length (ahead parser.old)) }
{
    if parser.peek().kind != Kind::Keyword(Keyword::Aborted) {
        return Ok(None);
    }
    let inner = parser.open(depth)?;
    let part = statements(parser, inner)?;
    match parser.expect_keyword(Keyword::End) {
        Ok(()) => Ok(Some(part)),
        Err(refusal) => refused(part, refusal),
    }
}
