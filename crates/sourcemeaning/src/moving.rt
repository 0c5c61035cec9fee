ghost use Rattle.std.specs.Prelude.{◌≡◌, ◌↔◌, Contains, IfOk, MatchBool, None, OnOk, Some, ℕ, ℤ};
ghost use Rattle.std.specs.List.Sorted.{IsStrictlyIncreasing};
ghost use Rattle.program.specs.Views.{option_expression, program_of};
ghost use Rattle.meaning.specs.Labels.{End};
ghost use Rattle.meaning.specs.Offers.{Rests, offer as offer_by, rest_offer, return_value};
ghost use Rattle.meaning.specs.Runs.{CanMove};
ghost use Rattle.meaning.specs.Values.{Fails, Value};
ghost use Rattle.words.specs.declared.outcome.Fault.{Fault as FaultOf};
ghost use Rattle.source_offers.specs.Frames.{callers_of, frame_of};
ghost use Rattle.source_offers.specs.Rests.{rest_in};
ghost use Rattle.source_offers.specs.Stages.{process_of};
ghost use Rattle.source_states.specs.States.{state_of};
ghost use Rattle.sourcemeaning.specs.Moving.{CanBeTakenUp, IsAdded, IsEnterable};
ghost use Rattle.sourcemeaning.specs.Free.{IsFree};

use program::{Checked, Expression, Program, Role, Statement};
use source_offers::{Frame, Process, Stage, evaluate, upcoming};
use source_states::SourceState;
use source_table::Hold;
use std::alloc::{AllocError, Global};

// Whether a monitor is free or abandoned.
fn is_enterable(state: &SourceState, monitor: u32) -> bool
    ensures { MatchBool result (IsEnterable (state_of state.now).table monitor)
        (IsEnterable (state_of state.now).table monitor → ⊥) }
{
    !matches!(state.hold(monitor), Hold::HeldBy(_))
}

// Whether a process waits no longer, and its monitor is free or abandoned.
fn is_resumable(state: &SourceState, number: u64, monitor: u32) -> bool
    ensures { MatchBool result
        (((state_of state.now).table.waits number ≡ None)
        × IsEnterable (state_of state.now).table monitor)
        (((state_of state.now).table.waits number ≡ None)
        × IsEnterable (state_of state.now).table monitor → ⊥) }
{
    state.waits(number).is_none() && is_enterable(state, monitor)
}

// Whether a process is over.
fn is_over(state: &SourceState, number: u64) -> bool
    ensures { MatchBool result ((end : End) × ((state_of state.now).table.over number ≡ Some end))
        ((end : End) × ((state_of state.now).table.over number ≡ Some end) → ⊥) }
{
    state.over(number).is_some()
}

// Whether a RETURN has a value, and doesn't fault.
fn has_value(
    state: &SourceState,
    program: &Program,
    frame: &Frame,
    value: &Option<Expression>,
) -> bool
    ensures { MatchBool result
        ((z : ℤ) × (return_value (program_of program.now) (state_of state.now).variable
        (frame_of frame.now)
        (option_expression value.now) ≡ Value z))
        ((fault : FaultOf) ×
        (return_value (program_of program.now) (state_of state.now).variable (frame_of frame.now)
        (option_expression value.now) ≡ Fails fault)) }
{
    match value {
        None => true,
        Some(value) => {
            let locals = frame.locals.as_slice();
            evaluate(program, state.variables(), locals, value).is_ok()
        }
    }
}

// Whether a RECOVER part or the main part has nothing left to do.
fn rests(state: &SourceState, program: &Program, process: &Process) -> bool
    ensures { MatchBool result
        (rest_offer (program_of program.now) (state_of state.now).variable
        (frame_of process.now.frame)
        (callers_of process.now.callers.items) (rest_in process.now.frame.rest.items) ≡ Rests)
        (IsFree (rest_offer (program_of program.now) (state_of state.now).variable
        (frame_of process.now.frame)
        (callers_of process.now.callers.items) (rest_in process.now.frame.rest.items))) }
{
    match process.frame.role {
        Role::Recover(_) | Role::Main => match upcoming(process.frame.rest.as_slice()) {
            None => true,
            Some(Statement::Return(value)) => has_value(state, program, &process.frame, value),
            Some(_) => false,
        },
        _ => false,
    }
}

// Whether a process that stands so can do what it offers.
fn is_ready(state: &SourceState, program: &Program, number: u64, process: &Process) -> bool
    ensures { MatchBool result
        (CanBeTakenUp number (state_of state.now).table
        (offer_by (program_of program.now) (state_of state.now).variable (process_of process.now)))
        (CanBeTakenUp number (state_of state.now).table
        (offer_by (program_of program.now) (state_of state.now).variable (process_of process.now))
        → ⊥) }
{
    match &process.stage {
        Stage::Entering(monitor) => is_enterable(state, *monitor),
        Stage::Suspended(condition) => is_resumable(state, number, condition.monitor),
        Stage::Joining { child, .. } => is_over(state, *child),
        Stage::Before(_) => !rests(state, program, process),
        Stage::Over(_) => false,
        Stage::Returning(_) => true,
        Stage::Failing(_, _) => true,
        Stage::Dying(_, _) => true,
        Stage::Leaving(_) => true,
    }
}

/// Whether some action of the process's own is possible; stray wake-ups and kills don't count.
pub fn can_move(state: &SourceState, checked: &Checked, number: u64) -> bool
    ensures { MatchBool result (CanMove (program_of checked.now.tree) (state_of state.now) number)
        (CanMove (program_of checked.now.tree) (state_of state.now) number → ⊥) }
{
    match state.process(number) {
        None => false,
        Some(process) => is_ready(state, checked.program(), number, process),
    }
}

// Adds a process that can move.
fn add_mover(
    state: &SourceState,
    checked: &Checked,
    number: u64,
    movers: &mut Vec<u64>,
) -> Result<(), AllocError>
    ensures { OnOk result
        (IsAdded (CanMove (program_of checked.now.tree) (state_of state.now) number) number
        movers.old.items movers.new.items) }
{
    if can_move(state, checked, number) {
        movers.push(number)?;
    }
    Ok(())
}

/// The processes of which some action of their own is possible, rising; stray wake-ups and kills don't count.
pub fn movers(alloc: Global, checked: &Checked, state: &SourceState) -> Result<Vec<u64>, AllocError>
    ensures rising { IfOk result (λ v. IsStrictlyIncreasing v.items) }
    ensures all { IfOk result (λ v. (q : ℕ)
        → Contains v.items q ↔ CanMove (program_of checked.now.tree) (state_of state.now) q) }
{
    let all = state.numbers(alloc)?;
    let numbers = all.as_slice();
    let mut movers = Vec::new(alloc);
    for number in numbers {
        add_mover(state, checked, *number, &mut movers)?;
    }
    Ok(movers)
}
