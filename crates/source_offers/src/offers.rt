ghost use Rattle.std.specs.Prelude.{◌≡◌, IfOk, None};
ghost use Rattle.program.specs.Views.{expression_of, option_expression, program_of, target_of};
ghost use Rattle.program.specs.Trees.{Broadcast, Notify, Print, Program as ProgramOf, Return, Wait};
ghost use Rattle.meaning.specs.Labels.{Alone, Assign, Stores};
ghost use Rattle.meaning.specs.Values.{Variables as VariablesOf};
ghost use Rattle.meaning.specs.Processes.{goes_on, with_local};
ghost use Rattle.meaning.specs.Offers.{Does, Nothing, Puts, answers, assigns, claims, faults, statement_offer};
ghost use Rattle.source_offers.specs.Frames.{callers_of, frame_of};
ghost use Rattle.source_offers.specs.Stages.{part_at};
ghost use Rattle.source_offers.specs.Stores.{variables_of};
ghost use Rattle.source_offers.specs.Offered.{offer_with};

use crate::evaluation::{element, evaluate};
use crate::process::{End, Process, Stage};
use crate::variables::{Place, Variables};
use program::{Expression, Member, Program, Role, Statement, Target};
use std::alloc::{AllocError, Global};
use words::{Cause, Fault};

/// What an action is to monitors, conditions and the process table.
#[derive(Clone, Copy)]
pub enum Label {
    /// An assignment to a local.
    Assigns,
    /// A test.
    Tests,
    /// A call.
    Calls,
    /// A result is handed over.
    Returns,
    /// A number is printed.
    Prints(i64),
    /// A fault.
    Fails(Fault),
    /// An assignment to a variable of this monitor.
    Stores(u32),
    /// Gives up the monitor at the end of an ENTRY procedure.
    Exits(u32),
    /// Gives up the monitor and waits.
    Waits(Member),
    /// Gives up the monitor, dying.
    Abandons(u32),
    /// Is over.
    Ends(End),
}

/// What an action does to variables and output.
#[derive(Clone, Copy)]
pub enum Effect {
    /// Nothing.
    Nothing,
    /// Puts a value into a variable.
    Puts(Place, i64),
    /// Prints a number.
    Writes(i64),
}

/// What a process offers to do. Where it does something for itself alone, the process stands after it already.
#[derive(Drop)]
pub enum Offered<'a> {
    /// Nothing.
    Rests,
    /// One action.
    Does(Label, Effect),
    /// Makes this process, unless no more can be made; the local takes its handle. The box keeps all offers short.
    Makes(Box<Process<'a>>, u32),
    /// Claims the child, unless it is claimed.
    Claims {
        /// The child.
        child: u64,
        /// The local that takes the result.
        into: Option<u32>,
        /// What stands behind ABORTED, where there is one.
        aborted: Option<&'a [Statement]>,
    },
    /// Resumes processes that wait, one at least where any waits.
    NotifiesSome(Member),
    /// Resumes all that wait.
    NotifiesAll(Member),
}

/// A fault comes in place of what would be done.
pub fn fault<'a>(
    alloc: Global,
    process: &mut Process<'a>,
    fault: Fault,
) -> Result<Offered<'a>, AllocError>
    ensures { IfOk result (λ o. offer_with o process.new
        ≡ faults fault (frame_of process.old.frame) (callers_of process.old.callers.items)) }
{
    process.die(alloc, Cause::Faulted(fault))?;
    Ok(Offered::Does(Label::Fails(fault), Effect::Nothing))
}

/// At the end of a body, or at a RETURN.
pub fn answer<'a>(process: &mut Process<'a>, value: i64) -> Offered<'a>
    ensures { offer_with result process.new
        ≡ answers process.old.frame.role value (callers_of process.old.callers.items) }
{
    match process.frame.role {
        Role::Entry(monitor) => {
            process.stage = Stage::Returning(value);
            Offered::Does(Label::Exits(monitor), Effect::Nothing)
        }
        Role::Internal(_) | Role::External => {
            process.hand_over(value);
            Offered::Does(Label::Returns, Effect::Nothing)
        }
        Role::Recover(_) | Role::Main => Offered::Rests,
    }
}

// Puts a value into a local.
fn assign_local<'a>(process: &mut Process<'a>, slot: u32, value: i64) -> Offered<'a>
    ensures { offer_with result process.new ≡ Does (Alone Assign) Nothing
        (goes_on None (with_local (frame_of process.old.frame) slot value)
        (callers_of process.old.callers.items)) }
{
    process.frame.put(Some(slot), value);
    process.go_on(None);
    Offered::Does(Label::Assigns, Effect::Nothing)
}

// Puts a value into a variable.
fn assign_variable<'a>(process: &mut Process<'a>, place: Place, value: i64) -> Offered<'a>
    ensures { offer_with result process.new ≡ Does (Stores place.monitor)
        (Puts place.monitor place.member place.index value)
        (goes_on None (frame_of process.old.frame) (callers_of process.old.callers.items)) }
{
    process.go_on(None);
    Offered::Does(Label::Stores(place.monitor), Effect::Puts(place, value))
}

/// An assignment.
pub fn assign<'a>(
    alloc: Global,
    program: &Program,
    variables: &Variables,
    process: &mut Process<'a>,
    target: &Target,
    value: &Expression,
) -> Result<Offered<'a>, AllocError>
    ensures { IfOk result (λ o. offer_with o process.new
        ≡ assigns (program_of program.now) (variables_of variables.now) (frame_of process.old.frame)
        (callers_of process.old.callers.items) (target_of target.now) (expression_of value.now)) }
{
    let locals = process.frame.locals.as_slice();
    let place = match target {
        Target::Local(slot) => {
            return match evaluate(program, variables, locals, value) {
                Err(reason) => fault(alloc, process, reason),
                Ok(value) => Ok(assign_local(process, *slot, value)),
            };
        }
        Target::Member(m) => Place {
            monitor: m.monitor,
            member: m.number,
            index: 0,
        },
        Target::Element(e) => {
            let index = match evaluate(program, variables, locals, &e.index) {
                Err(reason) => return fault(alloc, process, reason),
                Ok(index) => index,
            };
            match element(program, e.array, index) {
                Err(reason) => return fault(alloc, process, reason),
                Ok(place) => place,
            }
        }
    };
    match evaluate(program, variables, locals, value) {
        Err(reason) => fault(alloc, process, reason),
        Ok(value) => Ok(assign_variable(process, place, value)),
    }
}

/// A PRINT.
pub fn print<'a>(
    alloc: Global,
    program: &Program,
    variables: &Variables,
    process: &mut Process<'a>,
    value: &Expression,
) -> Result<Offered<'a>, AllocError>
    ensures { IfOk result (λ o. offer_with o process.new
        ≡ statement_offer (program_of program.now) (variables_of variables.now)
        (frame_of process.old.frame)
        (callers_of process.old.callers.items) (Print (expression_of value.now))) }
{
    match evaluate(program, variables, process.frame.locals.as_slice(), value) {
        Err(reason) => fault(alloc, process, reason),
        Ok(value) => {
            process.go_on(None);
            Ok(Offered::Does(Label::Prints(value), Effect::Writes(value)))
        }
    }
}

/// A RETURN.
pub fn return_value<'a>(
    alloc: Global,
    program: &Program,
    variables: &Variables,
    process: &mut Process<'a>,
    value: &Option<Expression>,
) -> Result<Offered<'a>, AllocError>
    ensures { IfOk result (λ o. offer_with o process.new
        ≡ statement_offer (program_of program.now) (variables_of variables.now)
        (frame_of process.old.frame)
        (callers_of process.old.callers.items) (Return (option_expression value.now))) }
{
    let Some(value) = value else {
        return Ok(answer(process, 0));
    };
    match evaluate(program, variables, process.frame.locals.as_slice(), value) {
        Err(reason) => fault(alloc, process, reason),
        Ok(value) => Ok(answer(process, value)),
    }
}

/// What a JOIN of this handle claims.
pub fn claim<'a>(
    alloc: Global,
    process: &mut Process<'a>,
    handle: i64,
    into: Option<u32>,
    aborted: Option<&'a [Statement]>,
) -> Result<Offered<'a>, AllocError>
    ensures { IfOk result (λ o. offer_with o process.new
        ≡ claims handle into (part_at aborted.entry) (frame_of process.old.frame)
        (callers_of process.old.callers.items)) }
{
    if handle <= 0 {
        return fault(alloc, process, Fault::HandleNotJoinable);
    }
    Ok(Offered::Claims {
        child: handle as u64,
        into,
        aborted,
    })
}

/// A WAIT.
pub fn wait<'a>(process: &mut Process<'a>, condition: Member) -> Offered<'a>
    ensures { (p : ProgramOf) (v : VariablesOf) → offer_with result process.new
        ≡ statement_offer p v (frame_of process.old.frame) (callers_of process.old.callers.items)
        (Wait condition) }
{
    process.stage = Stage::Suspended(condition);
    Offered::Does(Label::Waits(condition), Effect::Nothing)
}

/// A NOTIFY.
pub fn notify<'a>(process: &mut Process<'a>, condition: Member) -> Offered<'a>
    ensures { (p : ProgramOf) (v : VariablesOf) → offer_with result process.new
        ≡ statement_offer p v (frame_of process.old.frame) (callers_of process.old.callers.items)
        (Notify condition) }
{
    process.go_on(None);
    Offered::NotifiesSome(condition)
}

/// A BROADCAST.
pub fn broadcast<'a>(process: &mut Process<'a>, condition: Member) -> Offered<'a>
    ensures { (p : ProgramOf) (v : VariablesOf) → offer_with result process.new
        ≡ statement_offer p v (frame_of process.old.frame)
        (callers_of process.old.callers.items) (Broadcast condition) }
{
    process.go_on(None);
    Offered::NotifiesAll(condition)
}
