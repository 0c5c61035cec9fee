ghost use Rattle.std.specs.Prelude.{◌≡◌};
ghost use Rattle.proof_thread.specs.Deferrals.{last_mark, deferred_by_mark, mark_of};
ghost use Rattle.log_simulation.specs.Deferred.{deferral_of, deferred_by_next_step};

use locals::{Local, NextStep, Request};
use lowering::Mark;
use words::Cause;

/// What a step adds to the deferred actions of its process, which come before its next visible one.
#[derive(Clone, Copy, PartialEq, Eq, Debug)]
pub enum Deferral {
    /// Nothing.
    Nothing,
    /// A fault.
    Fault,
    /// Another action.
    Action,
}

/// The mark of the instruction that a thread stands at.
pub fn mark_at(marks: &[Mark], here: &Local) -> Option<Mark>
    ensures { result ≡ mark_of marks.now here.now }
{
    let place = here.place()?;
    marks.get(place as usize).copied()
}

/// What a local step at this mark adds.
pub fn at_mark(mark: Option<Mark>) -> Deferral
    ensures { result ≡ deferral_of (deferred_by_mark mark) }
{
    match mark {
        Some(Mark::AssignLocal | Mark::Test | Mark::Call | Mark::Return) => Deferral::Action,
        _ => Deferral::Nothing,
    }
}

// What the return of a last frame adds.
fn at_last(mark: Option<Mark>) -> Deferral
    ensures { result ≡ deferral_of (last_mark mark) }
{
    match mark {
        Some(Mark::Return | Mark::LastReturn) => Deferral::Action,
        _ => Deferral::Nothing,
    }
}

/// What a step at this mark adds that comes to this, with this value in its event: a fault is deferred, where it is
/// written, and where no process can be made; and so is a last return.
pub fn at_step(mark: Option<Mark>, step: NextStep, value: u32) -> Deferral
    ensures { result ≡ deferral_of (deferred_by_next_step mark step value) }
{
    match step {
        NextStep::Local => at_mark(mark),
        NextStep::Shared(Request::Return | Request::ReturnValue(_)) => at_last(mark),
        NextStep::Shared(Request::Fault(Cause::Faulted(_))) => Deferral::Fault,
        NextStep::Fork { .. } if value == 0 => Deferral::Fault,
        _ => Deferral::Nothing,
    }
}
