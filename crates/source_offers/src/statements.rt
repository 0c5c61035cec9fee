ghost use Rattle.std.specs.Prelude.{◌≡◌, ◌∷◌, IfOk, None, map};
ghost use Rattle.program.specs.Trees.{Call, Done, Fork, If, Join, Then, While, followed_by};
ghost use Rattle.program.specs.Views.{block_in, expression_of, program_of};
ghost use Rattle.meaning.specs.Labels.{Alone, Call as CallKind, Test};
ghost use Rattle.meaning.specs.Processes.{begins, goes_on};
ghost use Rattle.meaning.specs.Offers.{Does, Nothing, statement_offer};
ghost use Rattle.source_offers.specs.Frames.{callers_of, frame_of};
ghost use Rattle.source_offers.specs.Rests.{rest_in};
ghost use Rattle.source_offers.specs.Stages.{part_at};
ghost use Rattle.source_offers.specs.Stores.{variables_of};
ghost use Rattle.source_offers.specs.Offered.{offer_with};

use crate::evaluation::{evaluate, evaluate_all};
use crate::frame::Frame;
use crate::offers::{Effect, Label, Offered, claim, fault};
use crate::process::{Process, Stage};
use crate::variables::Variables;
use meaning::tested;
use program::{Expression, Program, Statement};
use std::alloc::{AllocError, Global};
use std::mem;

// A test after which these statements come first.
fn precede<'a>(process: &mut Process<'a>, block: &'a [Statement]) -> Result<Offered<'a>, AllocError>
    ensures { IfOk result (λ o. offer_with o process.new ≡ Does (Alone Test) Nothing (goes_on None
        (record (frame_of process.old.frame) {
          rest = followed_by (block_in block.now)
              (rest_in process.old.frame.rest.items);
        })
        (callers_of process.old.callers.items))) }
{
    process.frame.rest.push(block)?;
    process.go_on(None);
    Ok(Offered::Does(Label::Tests, Effect::Nothing))
}

// A test after which what is left goes on.
fn pass<'a>(process: &mut Process<'a>) -> Offered<'a>
    ensures { offer_with result process.new ≡ Does (Alone Test) Nothing
        (goes_on None (frame_of process.old.frame) (callers_of process.old.callers.items)) }
{
    process.go_on(None);
    Offered::Does(Label::Tests, Effect::Nothing)
}

/// An IF.
pub fn branch<'a>(
    alloc: Global,
    program: &Program,
    variables: &Variables,
    process: &mut Process<'a>,
    condition: &Expression,
    then_part: &'a [Statement],
    else_part: Option<&'a [Statement]>,
) -> Result<Offered<'a>, AllocError>
    ensures { IfOk result (λ o. offer_with o process.new
        ≡ statement_offer (program_of program.now) (variables_of variables.now)
        (frame_of process.old.frame)
        (callers_of process.old.callers.items)
        (If (expression_of condition.now) (block_in then_part.now) (part_at else_part.entry))) }
{
    let locals = process.frame.locals.as_slice();
    match tested(evaluate(program, variables, locals, condition)) {
        Err(reason) => fault(alloc, process, reason),
        Ok(true) => precede(process, then_part),
        Ok(false) => match else_part {
            None => Ok(pass(process)),
            Some(block) => precede(process, block),
        },
    }
}

// The body of a loop, and the loop again.
fn repeat<'a>(
    process: &mut Process<'a>,
    body: &'a [Statement],
    this: &'a [Statement],
) -> Result<Offered<'a>, AllocError>
    ensures { IfOk result (λ o. offer_with o process.new ≡ Does (Alone Test) Nothing (goes_on None
        (record (frame_of process.old.frame) {
          rest = followed_by (block_in body.now) (followed_by (block_in this.now)
              (rest_in process.old.frame.rest.items));
        })
        (callers_of process.old.callers.items))) }
{
    process.frame.rest.push(this)?;
    process.frame.rest.push(body)?;
    process.go_on(None);
    Ok(Offered::Does(Label::Tests, Effect::Nothing))
}

/// A WHILE, which is the one statement of `this`.
pub fn repeat_while<'a>(
    alloc: Global,
    program: &Program,
    variables: &Variables,
    process: &mut Process<'a>,
    condition: &Expression,
    body: &'a [Statement],
    this: &'a [Statement],
) -> Result<Offered<'a>, AllocError>
    requires { block_in this.now ≡ Then (While (expression_of condition.now) (block_in body.now))
        Done }
    ensures { IfOk result (λ o. offer_with o process.new
        ≡ statement_offer (program_of program.now) (variables_of variables.now)
        (frame_of process.old.frame)
        (callers_of process.old.callers.items)
        (While (expression_of condition.now) (block_in body.now))) }
{
    let locals = process.frame.locals.as_slice();
    match tested(evaluate(program, variables, locals, condition)) {
        Err(reason) => fault(alloc, process, reason),
        Ok(true) => repeat(process, body, this),
        Ok(false) => Ok(pass(process)),
    }
}

// A procedure is called, and its caller waits.
fn begin_call<'a>(
    process: &mut Process<'a>,
    frame: Frame<'a>,
    into: Option<u32>,
) -> Result<Offered<'a>, AllocError>
    ensures { IfOk result (λ o. offer_with o process.new
        ≡ Does (Alone CallKind) Nothing (begins (frame_of frame.entry)
        (record { into = into; frame = frame_of process.old.frame } ∷ callers_of process.old.callers.items))) }
{
    let mut caller = mem::replace(&mut process.frame, frame);
    caller.into = into;
    process.callers.push(caller)?;
    process.begin();
    Ok(Offered::Does(Label::Calls, Effect::Nothing))
}

/// A CALL.
pub fn call<'a>(
    alloc: Global,
    program: &'a Program,
    variables: &Variables,
    process: &mut Process<'a>,
    procedure: u32,
    arguments: &[Expression],
    into: Option<u32>,
) -> Result<Offered<'a>, AllocError>
    ensures { IfOk result (λ o. offer_with o process.new
        ≡ statement_offer (program_of program.now) (variables_of variables.now)
        (frame_of process.old.frame)
        (callers_of process.old.callers.items)
        (Call procedure (map expression_of arguments.now) into)) }
{
    let locals = process.frame.locals.as_slice();
    match evaluate_all(alloc, program, variables, locals, arguments)? {
        Err(reason) => fault(alloc, process, reason),
        Ok(values) => {
            let frame = Frame::new(alloc, program, procedure, values)?;
            begin_call(process, frame, into)
        }
    }
}

/// A FORK.
pub fn fork<'a>(
    alloc: Global,
    program: &'a Program,
    variables: &Variables,
    process: &mut Process<'a>,
    procedure: u32,
    arguments: &[Expression],
    into: u32,
) -> Result<Offered<'a>, AllocError>
    ensures { IfOk result (λ o. offer_with o process.new
        ≡ statement_offer (program_of program.now) (variables_of variables.now)
        (frame_of process.old.frame)
        (callers_of process.old.callers.items)
        (Fork procedure (map expression_of arguments.now) into)) }
{
    let locals = process.frame.locals.as_slice();
    match evaluate_all(alloc, program, variables, locals, arguments)? {
        Err(reason) => fault(alloc, process, reason),
        Ok(values) => {
            let mut child = Process {
                frame: Frame::new(alloc, program, procedure, values)?,
                callers: Vec::new(alloc),
                stage: Stage::Before(None),
            };
            child.begin();
            Ok(Offered::Makes(Box::new(alloc, child)?, into))
        }
    }
}

/// A JOIN.
pub fn join<'a>(
    alloc: Global,
    program: &Program,
    variables: &Variables,
    process: &mut Process<'a>,
    handle: &Expression,
    into: Option<u32>,
    aborted: Option<&'a [Statement]>,
) -> Result<Offered<'a>, AllocError>
    ensures { IfOk result (λ o. offer_with o process.new
        ≡ statement_offer (program_of program.now) (variables_of variables.now)
        (frame_of process.old.frame)
        (callers_of process.old.callers.items)
        (Join (expression_of handle.now) into (part_at aborted.entry))) }
{
    match evaluate(program, variables, process.frame.locals.as_slice(), handle) {
        Err(reason) => fault(alloc, process, reason),
        Ok(handle) => claim(alloc, process, handle, into, aborted),
    }
}
