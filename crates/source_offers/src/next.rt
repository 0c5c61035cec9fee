ghost use Rattle.std.specs.Prelude.{◌≡◌, IfOk, None};
ghost use Rattle.program.specs.Trees.{Done, Then};
ghost use Rattle.program.specs.Views.{block_in, part_in, program_of, statement_of};
ghost use Rattle.meaning.specs.Offers.{rest_offer, statement_offer};
ghost use Rattle.source_offers.specs.Rests.{rest_in};
ghost use Rattle.source_offers.specs.Frames.{callers_of, frame_of};
ghost use Rattle.source_offers.specs.Stages.{part_at};
ghost use Rattle.source_offers.specs.Stores.{variables_of};
ghost use Rattle.source_offers.specs.Offered.{offer_with};

use crate::offers::{Offered, answer, assign, broadcast, fault, notify, print, return_value, wait};
use crate::process::Process;
use crate::rest::take_first;
use crate::statements::{branch, call, fork, join, repeat_while};
use crate::variables::Variables;
use program::{Program, Statement};
use std::alloc::{AllocError, Global};
use words::Fault;

// The statements of a part.
fn part_slice<'a>(part: &'a Option<Vec<Statement>>) -> Option<&'a [Statement]>
    ensures { part_at result ≡ part_in part.now }
{
    match part {
        None => None,
        Some(block) => Some(block.as_slice()),
    }
}

/// The statement that is the one of `this`.
pub fn statement<'a>(
    alloc: Global,
    program: &'a Program,
    variables: &Variables,
    process: &mut Process<'a>,
    next: &'a Statement,
    this: &'a [Statement],
) -> Result<Offered<'a>, AllocError>
    requires { block_in this.now ≡ Then (statement_of next.now) Done }
    ensures { IfOk result (λ o. offer_with o process.new
        ≡ statement_offer (program_of program.now) (variables_of variables.now)
        (frame_of process.old.frame)
        (callers_of process.old.callers.items) (statement_of next.now)) }
{
    match next {
        Statement::Assign(target, value) => {
            assign(alloc, program, variables, process, target, value)
        }
        Statement::If {
            condition,
            then_part,
            else_part,
        } => {
            let then_part = then_part.as_slice();
            let else_part = part_slice(else_part);
            branch(
                alloc, program, variables, process, condition, then_part, else_part,
            )
        }
        Statement::While { condition, body } => {
            let body = body.as_slice();
            repeat_while(alloc, program, variables, process, condition, body, this)
        }
        Statement::Call {
            procedure,
            arguments,
            into,
        } => {
            let arguments = arguments.as_slice();
            call(
                alloc, program, variables, process, *procedure, arguments, *into,
            )
        }
        Statement::Fork {
            procedure,
            arguments,
            into,
        } => {
            let arguments = arguments.as_slice();
            fork(
                alloc, program, variables, process, *procedure, arguments, *into,
            )
        }
        Statement::Join {
            handle,
            into,
            aborted,
        } => {
            let aborted = part_slice(aborted);
            join(alloc, program, variables, process, handle, *into, aborted)
        }
        Statement::Return(value) => return_value(alloc, program, variables, process, value),
        Statement::Wait(condition) => Ok(wait(process, *condition)),
        Statement::Notify(condition) => Ok(notify(process, *condition)),
        Statement::Broadcast(condition) => Ok(broadcast(process, *condition)),
        Statement::Print(value) => print(alloc, program, variables, process, value),
        Statement::Abort => fault(alloc, process, Fault::AbortStatement),
    }
}

/// What is offered before the next statement, or at the end of a body.
pub fn before<'a>(
    alloc: Global,
    program: &'a Program,
    variables: &Variables,
    process: &mut Process<'a>,
) -> Result<Offered<'a>, AllocError>
    ensures { IfOk result (λ o. offer_with o process.new
        ≡ rest_offer (program_of program.now) (variables_of variables.now)
        (frame_of process.old.frame)
        (callers_of process.old.callers.items) (rest_in process.old.frame.rest.items)) }
{
    let Some(position) = take_first(&mut process.frame.rest) else {
        return Ok(answer(process, 0));
    };
    match position {
        [] => Ok(Offered::Rests),
        [next, ..] => {
            let this = &position[..1];
            statement(alloc, program, variables, process, next, this)
        }
    }
}
