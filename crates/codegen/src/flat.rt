ghost use Rattle.std.specs.Prelude.{◌≡◌, ◌+◌, [], ◌∷◌, ◌++◌, Ok, OnOk, MatchResult, map, length};
ghost use Rattle.isa.specs.declared.instr.Instr.TheVariants.{Print as PrintOf};
ghost use Rattle.lowering.specs.declared.mark.Mark.TheVariants.{Print as Prints};
ghost use Rattle.scanner.specs.Refusals.{out_of_memory};
ghost use Rattle.program.specs.Trees as trees;
ghost use Rattle.program.specs.Scope.{recover_of as recovering};
ghost use Rattle.program.specs.Views.{expression_of, option_expression, program_of};
ghost use Rattle.lowering.specs.Marks.{with_mark, rebase_all};
ghost use Rattle.lowering.specs.Processes.{join_code};
ghost use Rattle.lowering.specs.Expressions.{expression_code};
ghost use Rattle.lowering.specs.Statements as lowered;
ghost use Rattle.codegen.specs.Failures.{Fails};
ghost use Rattle.codegen.specs.Sites.{said_at, setting_at, IsLaidOut};

use crate::expression::expression;
use crate::room::{count, room};
use crate::simple::{ending, fork, value};
use crate::site::Site;
use condlower::{broadcast, wait};
use isa::Instr;
use lowering::{Mark, Marked, append};
use proclower::{fault, join};
use program::{Expression, Member, Program};
use scanner::Refusal;
use std::alloc::AllocError;
use words::Fault;

// A want of memory as a refusal.
pub(crate) fn lift(outcome: Result<(), AllocError>) -> Result<(), Refusal>
    ensures { MatchResult result (λ u. outcome ≡ Ok u) (λ e. e ≡ out_of_memory) }
{
    outcome?;
    Ok(())
}

// The piece of a monitor's RECOVER part.
pub(crate) fn recover_of(program: &Program, monitor: u32) -> Option<u32>
    ensures { result ≡ recovering (program_of program.now) monitor }
{
    program.monitors.get(monitor as usize)?.recover
}

// The code of a PRINT.
pub(crate) fn print(e: &Expression, site: &Site, code: &mut Vec<Marked>) -> Result<(), AllocError>
    requires { IsLaidOut site.now }
    ensures { OnOk result (code.new.items ≡ code.old.items
        ++ (expression_code (said_at site.now) (expression_of e.now)
        ++ with_mark Prints PrintOf ∷ [])) }
{
    expression(e, site, code)?;
    append(code, Mark::Print, Instr::Print)
}

// The code of a FORK.
pub(crate) fn fork_statement(
    procedure: u32,
    es: &[Expression],
    into: u32,
    site: &Site,
    code: &mut Vec<Marked>,
) -> Result<(), Refusal>
    requires { IsLaidOut site.now }
    ensures { let made = lowered.statement_code (setting_at site.now)
        (trees.Fork procedure (map expression_of es.now) into) (length code.old.items) in
        MatchResult result (λ _. code.new.items ≡ code.old.items ++ made)
        (λ e. Fails e (length code.old.items + length made)) }
{
    count(es.len())?;
    fork(procedure, es, into, site, code)?;
    Ok(())
}

// The code of a WAIT.
pub(crate) fn wait_statement(
    condition: Member,
    site: &Site,
    code: &mut Vec<Marked>,
) -> Result<(), Refusal>
    requires { IsLaidOut site.now }
    ensures { let made = lowered.statement_code (setting_at site.now)
        (trees.Wait condition) (length code.old.items) in
        MatchResult result (λ _. code.new.items ≡ code.old.items ++ made)
        (λ e. Fails e (length code.old.items + length made)) }
{
    room(code)?;
    let link = site.layout.link(condition.monitor);
    let sequence = site.layout.address(condition);
    let recover = recover_of(site.program, condition.monitor);
    wait(
        code,
        site.layout.version(),
        condition,
        link,
        sequence,
        recover,
    )?;
    Ok(())
}

// The code of a RETURN.
pub(crate) fn return_statement(
    outcome: &Option<Expression>,
    site: &Site,
    code: &mut Vec<Marked>,
) -> Result<(), Refusal>
    requires { IsLaidOut site.now }
    ensures { let made = lowered.statement_code (setting_at site.now)
        (trees.Return (option_expression outcome.now)) (length code.old.items) in
        MatchResult result (λ _. code.new.items ≡ code.old.items ++ made)
        (λ e. Fails e (length code.old.items + length made)) }
{
    value(outcome, site, code)?;
    room(code)?;
    ending(site, code)?;
    Ok(())
}

// The code of a JOIN up to where the result is taken.
pub(crate) fn join_first(
    handle: &Expression,
    into: Option<u32>,
    site: &Site,
    code: &mut Vec<Marked>,
) -> Result<(), Refusal>
    requires { IsLaidOut site.now }
    ensures { let test = expression_code (said_at site.now) (expression_of handle.now) in
        let made = test ++ rebase_all (length code.old.items + length test) (join_code into) in
        MatchResult result (λ _. code.new.items ≡ code.old.items ++ made)
        (λ e. Fails e (length code.old.items + length made)) }
{
    expression(handle, site, code)?;
    room(code)?;
    join(code, into)?;
    Ok(())
}

// The code of a JOIN without an ABORTED part.
pub(crate) fn join_statement(
    handle: &Expression,
    into: Option<u32>,
    site: &Site,
    code: &mut Vec<Marked>,
) -> Result<(), Refusal>
    requires { IsLaidOut site.now }
    ensures { let made = lowered.join_all_code
        (expression_code (said_at site.now) (expression_of handle.now)) into
        (lowered.aborted_code (setting_at site.now) trees.NoPart) (length code.old.items) in
        MatchResult result (λ _. code.new.items ≡ code.old.items ++ made)
        (λ e. Fails e (length code.old.items + length made)) }
{
    join_first(handle, into, site, code)?;
    let passed = room(code)?;
    append(code, Mark::Plain, Instr::Jump(passed + 2))?;
    fault(code, Fault::JoinedAborted)?;
    Ok(())
}

// The code of a BROADCAST.
pub(crate) fn broadcast_statement(
    condition: Member,
    site: &Site,
    code: &mut Vec<Marked>,
) -> Result<(), Refusal>
    requires { IsLaidOut site.now }
    ensures { let made = lowered.statement_code (setting_at site.now)
        (trees.Broadcast condition) (length code.old.items) in
        MatchResult result (λ _. code.new.items ≡ code.old.items ++ made)
        (λ e. Fails e (length code.old.items + length made)) }
{
    let link = site.layout.link(condition.monitor);
    let sequence = site.layout.address(condition);
    broadcast(code, condition, link, sequence)?;
    Ok(())
}
