ghost use Rattle.std.specs.Prelude.{◌≡◌, IfOk, map};
ghost use Rattle.program.specs.Scope.{array_size as array_size_of};
ghost use Rattle.program.specs.Views.{expression_of, program_of};
ghost use Rattle.meaning.specs.Values.{evaluate as evaluate_of, evaluate_all as evaluate_all_of};
ghost use Rattle.source_offers.specs.Stores.{variables_of};
ghost use Rattle.source_offers.specs.Outcomes.{evaluation_of, evaluated_all, element_of};

use crate::operators::{both, unary};
use crate::variables::{Place, Variables};
use program::{Expression, Member, MemberType, Program};
use std::alloc::{AllocError, Global};
use words::Fault;

/// How many elements an array has; 0 where the member is no array.
pub fn array_size(program: &Program, array: Member) -> u32
    ensures { result ≡ array_size_of (program_of program.now) array }
{
    let Some(monitor) = program.monitors.get(array.monitor as usize) else {
        return 0;
    };
    match monitor.members.get(array.number as usize) {
        Some(MemberType::Array(size)) => *size,
        _ => 0,
    }
}

/// The element of this index, where the array has it.
pub fn element(program: &Program, array: Member, index: i64) -> Result<Place, Fault>
    ensures { element_of (array_size_of (program_of program.now) array) array index result }
{
    let size = array_size(program, array);
    match u32::try_from(index) {
        Ok(index) if index < size => Ok(Place {
            monitor: array.monitor,
            member: array.number,
            index,
        }),
        _ => Err(Fault::IndexOutOfRange),
    }
}

// The value of an operand: mostly a number or a local, which takes no call.
#[inline(always)]
#[cycle(values)]
fn operand(
    program: &Program,
    variables: &Variables,
    locals: &[i64],
    expression: &Expression,
) -> Result<i64, Fault>
    ensures { evaluation_of result
        ≡ evaluate_of (program_of program.now) (variables_of variables.now) locals.now
        (expression_of expression.now) }
{
    match expression {
        Expression::Number(n) => Ok(i64::from(*n)),
        Expression::Local(slot) => Ok(locals.get(*slot as usize).copied().unwrap_or(0)),
        _ => evaluate(program, variables, locals, expression),
    }
}

/// The value of an expression over the variables and the locals as they stand, or the first fault.
#[cycle(values)]
pub fn evaluate(
    program: &Program,
    variables: &Variables,
    locals: &[i64],
    expression: &Expression,
) -> Result<i64, Fault>
    ensures { evaluation_of result
        ≡ evaluate_of (program_of program.now) (variables_of variables.now) locals.now
        (expression_of expression.now) }
{
    match expression {
        Expression::Number(n) => Ok(i64::from(*n)),
        Expression::Truth(b) => Ok(i64::from(*b)),
        Expression::Local(slot) => Ok(locals.get(*slot as usize).copied().unwrap_or(0)),
        Expression::Member(m) => Ok(variables.get(Place {
            monitor: m.monitor,
            member: m.number,
            index: 0,
        })),
        Expression::Element(e) => {
            let index = operand(program, variables, locals, &e.index)?;
            Ok(variables.get(element(program, e.array, index)?))
        }
        Expression::Unary(operator, e) => {
            unary(*operator, operand(program, variables, locals, e)?)
        }
        Expression::Both(e) => {
            let left = operand(program, variables, locals, &e.left)?;
            let right = operand(program, variables, locals, &e.right)?;
            both(e.operator, left, right)
        }
    }
}

/// The values of arguments, from the left, or the first fault.
pub fn evaluate_all(
    alloc: Global,
    program: &Program,
    variables: &Variables,
    locals: &[i64],
    arguments: &[Expression],
) -> Result<Result<Vec<i64>, Fault>, AllocError>
    ensures { IfOk result (λ r. evaluated_all r
        ≡ evaluate_all_of (program_of program.now) (variables_of variables.now) locals.now
        (map expression_of arguments.now)) }
{
    let mut values = Vec::new(alloc);
    for argument in arguments {
        match evaluate(program, variables, locals, argument) {
            Ok(value) => values.push(value)?,
            Err(fault) => return Ok(Err(fault)),
        }
    }
    Ok(Ok(values))
}
