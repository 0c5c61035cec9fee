ghost use Rattle.std.specs.Prelude.{◌≡◌, List, map, ℤ};
ghost use Rattle.program.specs.Trees.{Block};
ghost use Rattle.program.specs.Views.{expression_of, program_of, statement_of, target_of};
ghost use Rattle.meaning.specs.Processes.{Caller, Frame as FrameOf};
ghost use Rattle.meaning.specs.Offers.{answers, assigns, offer as offer_by, statement_offer};
ghost use Rattle.meaning.specs.Values.{evaluate_all as evaluate_all_of};
ghost use Rattle.source_offers.specs.Ahead.{ahead_of, fork_ahead};
ghost use Rattle.source_offers.specs.Frames.{frame_of};
ghost use Rattle.source_offers.specs.Stages.{process_of};
ghost use Rattle.source_offers.specs.Stores.{variables_of};

use crate::evaluation::{element, evaluate};
use crate::frame::Frame;
use crate::process::{Process, Stage};
use crate::rest::upcoming;
use crate::variables::Variables;
use program::{Expression, Program, Role, Statement, Target};

/// Whether what a process does next is internal: no other process sees it.
#[derive(Clone, Copy)]
pub enum Ahead {
    /// It is internal.
    Internal,
    /// It isn't, or nothing comes next.
    Visible,
    /// A process is made; where no more can be made, a fault comes in its place, which is internal.
    Makes,
    /// This child is claimed; where it was claimed before, a fault comes in its place, which is internal.
    Claims(u64),
}

// An assignment.
fn assignment_ahead(
    program: &Program,
    variables: &Variables,
    locals: &[i64],
    target: &Target,
    value: &Expression,
) -> Ahead
    ensures { (f : FrameOf) (callers : List Caller) → f.locals ≡ locals.now → result
        ≡ ahead_of (assigns (program_of program.now) (variables_of variables.now) f callers
        (target_of target.now) (expression_of value.now)) }
{
    match target {
        Target::Local(_) => return Ahead::Internal,
        Target::Member(_) => {}
        Target::Element(e) => {
            let Ok(index) = evaluate(program, variables, locals, &e.index) else {
                return Ahead::Internal;
            };
            if element(program, e.array, index).is_err() {
                return Ahead::Internal;
            }
        }
    }
    match evaluate(program, variables, locals, value) {
        Ok(_) => Ahead::Visible,
        Err(_) => Ahead::Internal,
    }
}

// A FORK.
fn fork_with(
    program: &Program,
    variables: &Variables,
    locals: &[i64],
    arguments: &[Expression],
) -> Ahead
    ensures { result ≡ fork_ahead
        (evaluate_all_of (program_of program.now) (variables_of variables.now) locals.now
        (map expression_of arguments.now)) }
{
    match arguments {
        [] => Ahead::Makes,
        [first, later @ ..] => match evaluate(program, variables, locals, first) {
            Ok(_) => fork_with(program, variables, locals, later),
            Err(_) => Ahead::Internal,
        },
    }
}

// At the end of a body, or at a RETURN.
fn answer_ahead(role: Role) -> Ahead
    ensures { (z : ℤ) (callers : List Caller) → result ≡ ahead_of (answers role z callers) }
{
    match role {
        Role::Internal(_) | Role::External => Ahead::Internal,
        Role::Entry(_) | Role::Recover(_) | Role::Main => Ahead::Visible,
    }
}

// The next statement of a frame.
fn statement_ahead(
    program: &Program,
    variables: &Variables,
    frame: &Frame,
    next: &Statement,
) -> Ahead
    ensures { (rest : Block) (callers : List Caller) → result
        ≡ ahead_of (statement_offer (program_of program.now) (variables_of variables.now)
        (record (frame_of frame.now) { rest = rest }) callers (statement_of next.now)) }
{
    let locals = frame.locals.as_slice();
    let (value, ahead) = match next {
        Statement::Assign(target, value) => {
            return assignment_ahead(program, variables, locals, target, value);
        }
        Statement::Fork { arguments, .. } => {
            return fork_with(program, variables, locals, arguments.as_slice());
        }
        Statement::Join { handle, .. } => {
            return match evaluate(program, variables, locals, handle) {
                Ok(handle) if handle > 0 => Ahead::Claims(handle as u64),
                _ => Ahead::Internal,
            };
        }
        Statement::Return(None) => return answer_ahead(frame.role),
        Statement::Return(Some(value)) => (value, answer_ahead(frame.role)),
        Statement::Print(value) => (value, Ahead::Visible),
        Statement::Wait(_) | Statement::Notify(_) | Statement::Broadcast(_) => {
            return Ahead::Visible;
        }
        Statement::If { .. }
        | Statement::While { .. }
        | Statement::Call { .. }
        | Statement::Abort => {
            return Ahead::Internal;
        }
    };
    match evaluate(program, variables, locals, value) {
        Ok(_) => ahead,
        Err(_) => Ahead::Internal,
    }
}

/// Whether what a process does next is internal, known before anything is done.
pub fn look_ahead(program: &Program, variables: &Variables, process: &Process) -> Ahead
    ensures { result
        ≡ ahead_of (offer_by (program_of program.now) (variables_of variables.now)
        (process_of process.now)) }
{
    match &process.stage {
        Stage::Returning(_) | Stage::Failing(_, _) => Ahead::Internal,
        Stage::Before(_) => match upcoming(process.frame.rest.as_slice()) {
            Some(next) => statement_ahead(program, variables, &process.frame, next),
            None => answer_ahead(process.frame.role),
        },
        _ => Ahead::Visible,
    }
}
