ghost use Rattle.std.specs.Prelude.{◌≡◌, ◌<◌, ◌+◌, ◌++◌, MatchResult, length, slice_set};
ghost use Rattle.program.specs.Views.{expression_of, statement_of, block_in};
ghost use Rattle.isa.specs.declared.instr.Instr.TheVariants.{Jump as JumpOf};
ghost use Rattle.lowering.specs.Marks.{plain};
ghost use Rattle.codegen.specs.Halves.{then_code};
ghost use Rattle.lowering.specs.Expressions.{expression_code};
ghost use Rattle.lowering.specs.Statements as lowered;
ghost use Rattle.codegen.specs.Failures.{Fails};
ghost use Rattle.codegen.specs.Sites.{said_at, setting_at, IsLaidOut};

use crate::expression::expression;
use crate::flat::{
    broadcast_statement, fork_statement, join_first, join_statement, lift, print, return_statement,
    wait_statement,
};
use crate::room::room;
use crate::simple::{assignment, call};
use crate::site::Site;
use condlower::notify;
use isa::Instr;
use lowering::{Mark, Marked, append};
use proclower::fault;
use program::{Expression, Statement};
use scanner::Refusal;
use words::Fault;

// A test, and what is done where it holds.
#[cycle(statements)]
fn if_then(
    then_part: &[Statement],
    condition: &Expression,
    site: &Site,
    code: &mut Vec<Marked>,
) -> Result<(), Refusal>
    requires { IsLaidOut site.now }
    ensures { let made = lowered.if_code
        (expression_code (said_at site.now) (expression_of condition.now))
        (lowered.block_code (setting_at site.now) (block_in then_part.now)) (length code.old.items)
        in
        MatchResult result (λ _. code.new.items ≡ code.old.items ++ made)
        (λ e. Fails e (length code.old.items + length made)) }
{
    expression(condition, site, code)?;
    let test = code.len();
    append(code, Mark::Test, Instr::JumpIfZero(0))?;
    block(then_part, site, code)?;
    let end = room(code)?;
    code[test] = Marked {
        instruction: Instr::JumpIfZero(end),
        mark: Mark::Test,
    };
    Ok(())
}

// A test, what is done where it holds, and a jump that isn't written yet, past what is done where it doesn't hold. The
// answer is the place of that jump.
#[cycle(statements)]
fn then_passed(
    then_part: &[Statement],
    condition: &Expression,
    site: &Site,
    code: &mut Vec<Marked>,
) -> Result<usize, Refusal>
    requires { IsLaidOut site.now }
    ensures { let made = then_code
        (expression_code (said_at site.now) (expression_of condition.now))
        (lowered.block_code (setting_at site.now) (block_in then_part.now)) (length code.old.items)
        in
        MatchResult result (λ passed. (code.new.items ≡ code.old.items ++ made)
        × (passed + 1 ≡ length code.old.items + length made))
        (λ e. Fails e (length code.old.items + length made)) }
{
    expression(condition, site, code)?;
    let test = code.len();
    append(code, Mark::Test, Instr::JumpIfZero(0))?;
    block(then_part, site, code)?;
    let passed = code.len();
    append(code, Mark::Plain, Instr::Jump(0))?;
    let other = room(code)?;
    code[test] = Marked {
        instruction: Instr::JumpIfZero(other),
        mark: Mark::Test,
    };
    Ok(passed)
}

// What is done where a test doesn't hold, with the jump past it at this place.
#[cycle(statements)]
fn else_passed(
    else_part: &[Statement],
    passed: usize,
    site: &Site,
    code: &mut Vec<Marked>,
) -> Result<(), Refusal>
    requires laid_out { IsLaidOut site.now }
    requires there { passed < length code.old.items }
    ensures { let made = lowered.block_code (setting_at site.now) (block_in else_part.now)
        (length code.old.items) in
        MatchResult result (λ _. code.new.items
        ≡ slice_set code.old.items passed (plain (JumpOf (length code.old.items + length made)))
        ++ made)
        (λ e. Fails e (length code.old.items + length made)) }
{
    block(else_part, site, code)?;
    let behind = room(code)?;
    code[passed] = Marked {
        instruction: Instr::Jump(behind),
        mark: Mark::Plain,
    };
    Ok(())
}

// A loop.
#[cycle(statements)]
fn while_do(
    body: &[Statement],
    condition: &Expression,
    site: &Site,
    code: &mut Vec<Marked>,
) -> Result<(), Refusal>
    requires { IsLaidOut site.now }
    ensures { let made = lowered.while_code
        (expression_code (said_at site.now) (expression_of condition.now))
        (lowered.block_code (setting_at site.now) (block_in body.now)) (length code.old.items) in
        MatchResult result (λ _. code.new.items ≡ code.old.items ++ made)
        (λ e. Fails e (length code.old.items + length made)) }
{
    let start = room(code)?;
    expression(condition, site, code)?;
    let test = code.len();
    append(code, Mark::Test, Instr::JumpIfZero(0))?;
    block(body, site, code)?;
    append(code, Mark::Plain, Instr::Jump(start))?;
    let end = room(code)?;
    code[test] = Marked {
        instruction: Instr::JumpIfZero(end),
        mark: Mark::Test,
    };
    Ok(())
}

// A JOIN with an ABORTED part.
#[cycle(statements)]
fn join_aborted(
    aborted: &[Statement],
    handle: &Expression,
    into: Option<u32>,
    site: &Site,
    code: &mut Vec<Marked>,
) -> Result<(), Refusal>
    requires { IsLaidOut site.now }
    ensures { let made = lowered.join_all_code
        (expression_code (said_at site.now) (expression_of handle.now)) into
        (lowered.block_code (setting_at site.now) (block_in aborted.now)) (length code.old.items) in
        MatchResult result (λ _. code.new.items ≡ code.old.items ++ made)
        (λ e. Fails e (length code.old.items + length made)) }
{
    join_first(handle, into, site, code)?;
    let passed = code.len();
    append(code, Mark::Plain, Instr::Jump(0))?;
    block(aborted, site, code)?;
    let end = room(code)?;
    code[passed] = Marked {
        instruction: Instr::Jump(end),
        mark: Mark::Plain,
    };
    Ok(())
}

// A statement.
#[cycle(statements)]
fn statement(s: &Statement, site: &Site, code: &mut Vec<Marked>) -> Result<(), Refusal>
    requires { IsLaidOut site.now }
    ensures { let made = lowered.statement_code (setting_at site.now) (statement_of s.now)
        (length code.old.items) in
        MatchResult result (λ _. code.new.items ≡ code.old.items ++ made)
        (λ e. Fails e (length code.old.items + length made)) }
{
    match s {
        Statement::Assign(target, e) => lift(assignment(target, e, site, code)),
        Statement::If {
            condition,
            then_part,
            else_part,
        } => match else_part {
            Some(else_part) => {
                let passed = then_passed(then_part, condition, site, code)?;
                else_passed(else_part, passed, site, code)
            }
            None => if_then(then_part, condition, site, code),
        },
        Statement::While { condition, body } => while_do(body, condition, site, code),
        Statement::Call {
            procedure,
            arguments,
            into,
        } => lift(call(*procedure, arguments, *into, site, code)),
        Statement::Fork {
            procedure,
            arguments,
            into,
        } => fork_statement(*procedure, arguments, *into, site, code),
        Statement::Join {
            handle,
            into,
            aborted,
        } => match aborted {
            Some(aborted) => join_aborted(aborted, handle, *into, site, code),
            None => join_statement(handle, *into, site, code),
        },
        Statement::Return(value) => return_statement(value, site, code),
        Statement::Wait(c) => wait_statement(*c, site, code),
        Statement::Notify(c) => lift(notify(code, *c, site.layout.address(*c))),
        Statement::Broadcast(c) => broadcast_statement(*c, site, code),
        Statement::Print(e) => lift(print(e, site, code)),
        Statement::Abort => lift(fault(code, Fault::AbortStatement)),
    }
}

// Statements, one after another.
#[cycle(statements)]
pub(crate) fn block(
    statements: &[Statement],
    site: &Site,
    code: &mut Vec<Marked>,
) -> Result<(), Refusal>
    requires { IsLaidOut site.now }
    ensures { let made = lowered.block_code (setting_at site.now) (block_in statements.now)
        (length code.old.items) in
        MatchResult result (λ _. code.new.items ≡ code.old.items ++ made)
        (λ e. Fails e (length code.old.items + length made)) }
{
    for s in statements {
        // Code that is too long for an image is made no longer.
        room(code)?;
        statement(s, site, code)?;
    }
    Ok(())
}
