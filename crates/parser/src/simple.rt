// Statements that hold no others.

ghost use Rattle.std.specs.Prelude.{◌≡◌, ◌≤◌, ◌<◌, length, [], ◌∷◌, IfOk, IfErr, OnOk};
ghost use Rattle.scanner.specs.declared.token.Keyword.TheVariants as K;
ghost use Rattle.scanner.specs.declared.token.Place.{Place as PlaceOf};
ghost use Rattle.scanner.specs.declared.token.Sign.TheVariants as S;
ghost use Rattle.syntax.specs.Lexeme.{keyword_lexeme, Named, Word, WordAt};
ghost use Rattle.syntax.specs.Limits.{most_nestings};
ghost use Rattle.syntax.specs.View.{name_of, option_name};
ghost use Rattle.grammar.specs.Machine.{AWord, AMark, AnInto, Statements, Closed};
ghost use Rattle.grammar.specs.Reading.{lexeme_at, Passes, Fails};
ghost use Rattle.token_cursor.specs.Ahead.{ahead};
ghost use Rattle.parser.specs.Steps.{ReadsStatement};

use expression_parser::{callee, expression_before, value, variable};
use scanner::{Keyword, Place, Refusal, Sign};
use syntax::{Name, Statement};
use token_cursor::{Parser, refused};

/// The name behind INTO, if there is one.
pub fn into_name<'a>(parser: &mut Parser<'_, 'a>, depth: u8) -> Result<Option<Name<'a>>, Refusal>
    requires { depth ≤ most_nestings }
    ensures ok { IfOk result (λ n.
        Passes depth (AnInto ∷ []) (option_name n, tt) (ahead parser.old) (ahead parser.new)) }
    ensures err { IfErr result (λ e. Fails depth (AnInto ∷ []) (ahead parser.old) e) }
    ensures within { OnOk result (length (ahead parser.new) ≤ length (ahead parser.old)) }
{
    if !parser.eat_keyword(Keyword::Into) {
        return Ok(None);
    }
    let name = parser.expect_name()?;
    Ok(Some(name))
}

/// The keyword that ends a nesting, and the semicolon behind it.
pub fn ending(parser: &mut Parser<'_, '_>, depth: u8, word: Keyword) -> Result<(), Refusal>
    requires depth { depth < most_nestings }
    requires word { (place : PlaceOf) → keyword_lexeme word place ≡ Word word }
    ensures ok { OnOk result
        (Passes depth (AWord word ∷ Closed ∷ AMark S.Semicolon ∷ []) (tt, (tt, (tt, tt)))
        (ahead parser.old) (ahead parser.new)) }
    ensures err { IfErr result (λ e.
        Fails depth (AWord word ∷ Closed ∷ AMark S.Semicolon ∷ []) (ahead parser.old) e) }
    ensures within { OnOk result (length (ahead parser.new) ≤ length (ahead parser.old)) }
{
    parser.expect_keyword(word)?;
    parser.expect_sign(Sign::Semicolon)?;
    Ok(())
}

/// An assignment.
pub fn assignment<'a>(
    parser: &mut Parser<'_, 'a>,
    depth: u8,
    name: Name<'a>,
) -> Result<Statement<'a>, Refusal>
    requires depth { depth ≤ most_nestings }
    requires first { lexeme_at (ahead parser.old) ≡ Named (name_of name) }
    ensures ok { IfOk result (λ s. ReadsStatement depth s (ahead parser.old) (ahead parser.new)) }
    ensures err { IfErr result (λ e. Fails depth (Statements ∷ []) (ahead parser.old) e) }
    ensures shorter { OnOk result (length (ahead parser.new) < length (ahead parser.old)) }
{
    parser.pass();
    let variable = variable(parser, depth, name)?;
    match parser.expect_sign(Sign::Assign) {
        Ok(()) => {}
        Err(refusal) => return refused(variable, refusal),
    }
    match expression_before(parser, depth, Sign::Semicolon) {
        Ok(value) => Ok(Statement::Assign(variable, value)),
        Err(refusal) => refused(variable, refusal),
    }
}

/// A call.
pub fn call<'a>(
    parser: &mut Parser<'_, 'a>,
    depth: u8,
    place: Place,
) -> Result<Statement<'a>, Refusal>
    requires depth { depth ≤ most_nestings }
    requires first { lexeme_at (ahead parser.old) ≡ WordAt K.Call place }
    ensures ok { IfOk result (λ s. ReadsStatement depth s (ahead parser.old) (ahead parser.new)) }
    ensures err { IfErr result (λ e. Fails depth (Statements ∷ []) (ahead parser.old) e) }
    ensures shorter { OnOk result (length (ahead parser.new) < length (ahead parser.old)) }
{
    parser.pass();
    let callee = callee(parser, depth)?;
    let into = match into_name(parser, depth) {
        Ok(into) => into,
        Err(refusal) => return refused(callee, refusal),
    };
    let call = Statement::Call {
        place,
        callee,
        into,
    };
    match parser.expect_sign(Sign::Semicolon) {
        Ok(()) => Ok(call),
        Err(refusal) => refused(call, refusal),
    }
}

/// A fork.
pub fn fork<'a>(
    parser: &mut Parser<'_, 'a>,
    depth: u8,
    place: Place,
) -> Result<Statement<'a>, Refusal>
    requires depth { depth ≤ most_nestings }
    requires first { lexeme_at (ahead parser.old) ≡ WordAt K.Fork place }
    ensures ok { IfOk result (λ s. ReadsStatement depth s (ahead parser.old) (ahead parser.new)) }
    ensures err { IfErr result (λ e. Fails depth (Statements ∷ []) (ahead parser.old) e) }
    ensures shorter { OnOk result (length (ahead parser.new) < length (ahead parser.old)) }
{
    parser.pass();
    let callee = callee(parser, depth)?;
    match parser.expect_keyword(Keyword::Into) {
        Ok(()) => {}
        Err(refusal) => return refused(callee, refusal),
    }
    let into = match parser.expect_name() {
        Ok(into) => into,
        Err(refusal) => return refused(callee, refusal),
    };
    let fork = Statement::Fork {
        place,
        callee,
        into,
    };
    match parser.expect_sign(Sign::Semicolon) {
        Ok(()) => Ok(fork),
        Err(refusal) => refused(fork, refusal),
    }
}

/// A return.
pub fn return_statement<'a>(
    parser: &mut Parser<'_, 'a>,
    depth: u8,
    place: Place,
) -> Result<Statement<'a>, Refusal>
    requires depth { depth ≤ most_nestings }
    requires first { lexeme_at (ahead parser.old) ≡ WordAt K.Return place }
    ensures ok { IfOk result (λ s. ReadsStatement depth s (ahead parser.old) (ahead parser.new)) }
    ensures err { IfErr result (λ e. Fails depth (Statements ∷ []) (ahead parser.old) e) }
    ensures shorter { OnOk result (length (ahead parser.new) < length (ahead parser.old)) }
{
    parser.pass();
    let value = value(parser, depth)?;
    parser.expect_sign(Sign::Semicolon)?;
    Ok(Statement::Return { place, value })
}

/// A wait.
pub fn wait<'a>(
    parser: &mut Parser<'_, 'a>,
    depth: u8,
    place: Place,
) -> Result<Statement<'a>, Refusal>
    requires depth { depth ≤ most_nestings }
    requires first { lexeme_at (ahead parser.old) ≡ WordAt K.Wait place }
    ensures ok { IfOk result (λ s. ReadsStatement depth s (ahead parser.old) (ahead parser.new)) }
    ensures err { IfErr result (λ e. Fails depth (Statements ∷ []) (ahead parser.old) e) }
    ensures shorter { OnOk result (length (ahead parser.new) < length (ahead parser.old)) }
{
    parser.pass();
    let condition = parser.expect_name()?;
    parser.expect_sign(Sign::Semicolon)?;
    Ok(Statement::Wait { place, condition })
}

/// A notify.
pub fn notify<'a>(
    parser: &mut Parser<'_, 'a>,
    depth: u8,
    place: Place,
) -> Result<Statement<'a>, Refusal>
    requires depth { depth ≤ most_nestings }
    requires first { lexeme_at (ahead parser.old) ≡ WordAt K.Notify place }
    ensures ok { IfOk result (λ s. ReadsStatement depth s (ahead parser.old) (ahead parser.new)) }
    ensures err { IfErr result (λ e. Fails depth (Statements ∷ []) (ahead parser.old) e) }
    ensures shorter { OnOk result (length (ahead parser.new) < length (ahead parser.old)) }
{
    parser.pass();
    let condition = parser.expect_name()?;
    parser.expect_sign(Sign::Semicolon)?;
    Ok(Statement::Notify { place, condition })
}

/// A broadcast.
pub fn broadcast<'a>(
    parser: &mut Parser<'_, 'a>,
    depth: u8,
    place: Place,
) -> Result<Statement<'a>, Refusal>
    requires depth { depth ≤ most_nestings }
    requires first { lexeme_at (ahead parser.old) ≡ WordAt K.Broadcast place }
    ensures ok { IfOk result (λ s. ReadsStatement depth s (ahead parser.old) (ahead parser.new)) }
    ensures err { IfErr result (λ e. Fails depth (Statements ∷ []) (ahead parser.old) e) }
    ensures shorter { OnOk result (length (ahead parser.new) < length (ahead parser.old)) }
{
    parser.pass();
    let condition = parser.expect_name()?;
    parser.expect_sign(Sign::Semicolon)?;
    Ok(Statement::Broadcast { place, condition })
}

/// A print.
pub fn print<'a>(
    parser: &mut Parser<'_, 'a>,
    depth: u8,
    place: Place,
) -> Result<Statement<'a>, Refusal>
    requires depth { depth ≤ most_nestings }
    requires first { lexeme_at (ahead parser.old) ≡ WordAt K.Print place }
    ensures ok { IfOk result (λ s. ReadsStatement depth s (ahead parser.old) (ahead parser.new)) }
    ensures err { IfErr result (λ e. Fails depth (Statements ∷ []) (ahead parser.old) e) }
    ensures shorter { OnOk result (length (ahead parser.new) < length (ahead parser.old)) }
{
    parser.pass();
    let value = expression_before(parser, depth, Sign::Semicolon)?;
    Ok(Statement::Print { place, value })
}

/// An abort.
pub fn abort<'a>(
    parser: &mut Parser<'_, 'a>,
    depth: u8,
    place: Place,
) -> Result<Statement<'a>, Refusal>
    requires depth { depth ≤ most_nestings }
    requires first { lexeme_at (ahead parser.old) ≡ WordAt K.Abort place }
    ensures ok { IfOk result (λ s. ReadsStatement depth s (ahead parser.old) (ahead parser.new)) }
    ensures err { IfErr result (λ e. Fails depth (Statements ∷ []) (ahead parser.old) e) }
    ensures shorter { OnOk result (length (ahead parser.new) < length (ahead parser.old)) }
{
    parser.pass();
    parser.expect_sign(Sign::Semicolon)?;
    Ok(Statement::Abort { place })
}
