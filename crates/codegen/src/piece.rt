ghost use Rattle.std.specs.Prelude.{◌≡◌, ◌≤◌, ◌+◌, ◌++◌, OnOk, MatchResult, length};
ghost use Rattle.isa.specs.Limits.{most_instructions};
ghost use Rattle.program.specs.Trees.{as_version};
ghost use Rattle.program.specs.Views.{program_of, procedure_of};
ghost use Rattle.lowering.specs.Layout.{layout_of};
ghost use Rattle.lowering.specs.Pieces as pieces;
ghost use Rattle.codegen.specs.Failures.{Fails};
ghost use Rattle.codegen.specs.Halves.{beginning_code, end_code};
ghost use Rattle.codegen.specs.Sites.{setting_at, IsLaidOut};

use crate::flat::recover_of;
use crate::room::{count, room};
use crate::simple::ending;
use crate::site::Site;
use crate::statement::block;
use isa::{Instr, MOST_INSTRUCTIONS};
use layout::Layout;
use locklower::enter;
use lowering::{Mark, Marked, append};
use proclower::parameters;
use program::{Procedure, Program, Role, Statement, ValueType};
use scanner::Refusal;
use std::alloc::{AllocError, Global};

// For so many instructions of each statement of a procedure's own block there is room before its code is made, so that the
// code seldom moves as it grows. What is left is given back.
const FOR_A_STATEMENT: usize = 32;

// The lock is taken at the beginning of an ENTRY procedure.
fn entering(site: &Site, code: &mut Vec<Marked>) -> Result<(), AllocError>
    requires laid_out { IsLaidOut site.now }
    requires room { length code.old.items ≤ most_instructions }
    ensures { OnOk result (code.new.items
        ≡ code.old.items ++ pieces.entering_code (setting_at site.now) site.now.role
        (length code.old.items)) }
{
    if let Role::Entry(monitor) = site.role {
        let recover = recover_of(site.program, monitor);
        enter(code, monitor, site.layout.link(monitor), recover)?;
    }
    Ok(())
}

// The result of a procedure whose text ends without a RETURN.
fn default_value(outcome: Option<ValueType>, code: &mut Vec<Marked>) -> Result<(), AllocError>
    ensures { OnOk result (code.new.items ≡ code.old.items ++ pieces.default_code outcome) }
{
    match outcome {
        Some(_) => append(code, Mark::Plain, Instr::Push(0)),
        None => Ok(()),
    }
}

// The beginning of a procedure: its parameters, and the lock of an ENTRY procedure.
fn beginning(procedure: &Procedure, site: &Site, code: &mut Vec<Marked>) -> Result<(), Refusal>
    requires { IsLaidOut site.now }
    ensures { let made = beginning_code (setting_at site.now)
        (length procedure.now.parameters.items)
        (length code.old.items) in
        MatchResult result (λ _. code.new.items ≡ code.old.items ++ made)
        (λ e. Fails e (length code.old.items + length made)) }
{
    let parameter_count = count(procedure.parameters.len())?;
    parameters(parameter_count, code)?;
    room(code)?;
    entering(site, code)?;
    Ok(())
}

// The end of a procedure's text.
fn text_end(site: &Site, code: &mut Vec<Marked>) -> Result<(), Refusal>
    requires { IsLaidOut site.now }
    ensures { let made = end_code (setting_at site.now) (length code.old.items) in
        MatchResult result (λ _. code.new.items ≡ code.old.items ++ made)
        (λ e. Fails e (length code.old.items + length made)) }
{
    default_value(site.outcome, code)?;
    room(code)?;
    ending(site, code)?;
    Ok(())
}

// How many instructions there is to be room for: at most those of an image, and as many for the statement that is too much.
fn room_for(body: &[Statement]) -> usize {
    body.len()
        .saturating_mul(FOR_A_STATEMENT)
        .min(2 * MOST_INSTRUCTIONS)
}

/// The code of a procedure of this program, before it is linked, for an image of the layout's version. Places count from its first instruction, and calls name
/// pieces by their numbers.
///
/// Code of more instructions than an image may have is `Limit` at 1:1.
pub fn procedure_code(
    alloc: Global,
    procedure: &Procedure,
    program: &Program,
    layout: &Layout,
) -> Result<Vec<Marked>, Refusal>
    requires { layout.now ≡ layout_of (as_version layout.now.version (program_of program.now)) }
    ensures { let made = pieces.unlinked_code
        (as_version layout.now.version (program_of program.now)) (procedure_of procedure.now) in
        MatchResult result (λ v. v.items ≡ made) (λ e. Fails e (length made)) }
{
    let site = Site {
        program,
        layout,
        role: procedure.role,
        outcome: procedure.result,
    };
    let body = procedure.body.as_slice();
    let mut code = Vec::with_capacity(alloc, room_for(body))?;
    beginning(procedure, &site, &mut code)?;
    block(body, &site, &mut code)?;
    text_end(&site, &mut code)?;
    code.shrink_to_fit();
    Ok(code)
}
