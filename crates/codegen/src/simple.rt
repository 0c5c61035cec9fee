ghost use Rattle.std.specs.Prelude.{◌≡◌, ◌≤◌, ◌++◌, OnOk, map, length};
ghost use Rattle.isa.specs.Limits.{most_instructions};
ghost use Rattle.program.specs.Views.{expression_of, target_of, option_expression, program_of};
ghost use Rattle.lowering.specs.Expressions.{arguments_code, value_code};
ghost use Rattle.lowering.specs.Processes as processes;
ghost use Rattle.lowering.specs.Statements as statements;
ghost use Rattle.codegen.specs.Sites.{said_at, setting_at, IsLaidOut};

use crate::expression::{arguments, expression, index};
use crate::site::Site;
use isa::{Instr, Slot};
use locklower::exit;
use lowering::{Mark, Marked, append};
use program::{Expression, Program, Role, Target, ValueType};
use std::alloc::AllocError;

// The code of an assignment.
pub(crate) fn assignment(
    target: &Target,
    e: &Expression,
    site: &Site,
    code: &mut Vec<Marked>,
) -> Result<(), AllocError>
    requires { IsLaidOut site.now }
    ensures { OnOk result (code.new.items ≡ code.old.items
        ++ statements.assignment_code (said_at site.now) (target_of target.now)
        (expression_of e.now)) }
{
    match target {
        Target::Local(slot) => {
            expression(e, site, code)?;
            append(code, Mark::AssignLocal, Instr::SetLocal(Slot::Local(*slot)))
        }
        Target::Member(member) => {
            append(code, Mark::Plain, Instr::Push(site.layout.address(*member)))?;
            expression(e, site, code)?;
            append(code, Mark::AssignMember, Instr::Store)
        }
        Target::Element(element) => {
            expression(&element.index, site, code)?;
            append(code, Mark::Plain, index(site, element.array))?;
            expression(e, site, code)?;
            append(code, Mark::AssignMember, Instr::Store)
        }
    }
}

// The type of a procedure's result.
fn outcome_of(program: &Program, procedure: u32) -> Option<ValueType>
    ensures { result ≡ statements.result_of (program_of program.now) procedure }
{
    program.procedures.get(procedure as usize)?.result
}

// The code of a CALL.
pub(crate) fn call(
    procedure: u32,
    es: &[Expression],
    into: Option<u32>,
    site: &Site,
    code: &mut Vec<Marked>,
) -> Result<(), AllocError>
    requires { IsLaidOut site.now }
    ensures { OnOk result (code.new.items ≡ code.old.items
        ++ (arguments_code (said_at site.now) (map expression_of es.now)
        ++ processes.call_code procedure into (statements.result_of (said_at site.now) procedure))) }
{
    arguments(es, site, code)?;
    proclower::call(code, procedure, into, outcome_of(site.program, procedure))
}

// The code of a FORK.
pub(crate) fn fork(
    procedure: u32,
    es: &[Expression],
    into: u32,
    site: &Site,
    code: &mut Vec<Marked>,
) -> Result<(), AllocError>
    requires few { length es.now ≤ most_instructions }
    requires laid_out { IsLaidOut site.now }
    ensures { OnOk result (code.new.items ≡ code.old.items
        ++ (arguments_code (said_at site.now) (map expression_of es.now)
        ++ processes.fork_code procedure (length es.now) into)) }
{
    arguments(es, site, code)?;
    proclower::fork(code, procedure, es.len() as u32, into)
}

// The value of a RETURN, if there is one.
pub(crate) fn value(
    value: &Option<Expression>,
    site: &Site,
    code: &mut Vec<Marked>,
) -> Result<(), AllocError>
    requires { IsLaidOut site.now }
    ensures { OnOk result (code.new.items ≡ code.old.items
        ++ value_code (said_at site.now) (option_expression value.now)) }
{
    match value {
        Some(e) => expression(e, site, code),
        None => Ok(()),
    }
}

// The end of a procedure: an ENTRY procedure gives up the lock.
pub(crate) fn ending(site: &Site, code: &mut Vec<Marked>) -> Result<(), AllocError>
    requires laid_out { IsLaidOut site.now }
    requires room { length code.old.items ≤ most_instructions }
    ensures { OnOk result (code.new.items ≡ code.old.items
        ++ statements.ending_code (setting_at site.now) (length code.old.items)) }
{
    if let Role::Entry(monitor) = site.role {
        exit(
            code,
            site.layout.version(),
            monitor,
            site.layout.link(monitor),
        )?;
    }
    proclower::ret(code, site.role, site.outcome)
}
