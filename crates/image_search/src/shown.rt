ghost use Rattle.std.specs.Prelude.{◌≡◌, ◌<◌, ◌≤◌, IfOk, false, length, true};
ghost use Rattle.machine.specs.States.{state_of};
ghost use Rattle.machine.specs.Views.{concrete};
ghost use Rattle.proof_image_search.specs.Searching.{HasFailed};
ghost use Rattle.image_states.specs.Nexts.{may_of};
ghost use Rattle.image_search.specs.Found.{EndsFailed, EndsStuck, IsFault, LeadsTo, LeadsToBroken};
ghost use Rattle.runner.specs.declared.report.Verdict.TheVariants.{Stuck};
ghost use Rattle.runner.specs.declared.schedule.ScheduleFault.TheVariants.{Broken};

use crate::turns::are_from;
use image_states::Outside;
use isa::Image;
use locals::{NextStep, Request};
use machine::Machine;
use runner::{Report, ScheduleFault, Turn, Verdict, follow};
use std::alloc::{AllocError, Global};
use words::Cause;

// Whether this step writes that its thread dies of a fault.
fn is_fault(next: NextStep) -> bool
    ensures { result ≡ true → IsFault next }
{
    match next {
        NextStep::Shared(Request::Fault(cause)) => matches!(cause, Cause::Faulted(_)),
        _ => false,
    }
}

// Whether thread `t` is dying of a fault.
fn is_failing(machine: &Machine, t: u32) -> bool
    requires { (0 < t) × (t ≤ length machine.now.threads) }
    ensures { result ≡ true → HasFailed (state_of (concrete machine.now)) }
{
    machine.local(t).is_dying() && is_fault(machine.next_step(t))
}

// Whether some thread is dying of a fault where a run has come to.
fn has_failed(report: &Report) -> bool
    ensures { result ≡ true → EndsFailed report.now }
{
    let machine = report.last.machine();
    for before in 0..machine.threads() {
        if is_failing(machine, before + 1) {
            return true;
        }
    }
    false
}

// Whether it is that no thread can move and not all have ended.
fn is_stuck(verdict: Verdict) -> bool
    ensures { result ≡ true → verdict ≡ Stuck }
{
    matches!(verdict, Verdict::Stuck)
}

/// No run, where a turn was refused.
pub(crate) fn no_run(fault: ScheduleFault) -> Result<bool, AllocError>
    ensures { IfOk result (λ is. is ≡ false) }
{
    match fault {
        ScheduleFault::Memory => Err(AllocError),
        _ => Ok(false),
    }
}

// Whether the turn of this number, the last one, was refused as a step that may not be.
fn is_refused(fault: ScheduleFault, last: usize) -> Result<bool, AllocError>
    ensures { IfOk result (λ is. is ≡ true → fault ≡ Broken last) }
{
    match fault {
        ScheduleFault::BadEntry(_) => Ok(false),
        ScheduleFault::Broken(number) => Ok(number == last as u64),
        ScheduleFault::Memory => Err(AllocError),
    }
}

/// Whether a schedule in which no more comes from outside than may be is followed to where no thread can move and not all
/// have ended.
pub(crate) fn is_stuck_run(
    alloc: Global,
    image: &Image,
    turns: &[Turn],
    outside: Outside,
) -> Result<bool, AllocError>
    ensures { IfOk result (λ is. is ≡ true
        → LeadsTo image.now (may_of outside) EndsStuck turns.now) }
{
    if !are_from(turns, outside) {
        return Ok(false);
    }
    match follow(alloc, image, turns) {
        Ok(report) => Ok(is_stuck(report.verdict)),
        Err(fault) => no_run(fault),
    }
}

/// Whether one is followed to where a thread dies of a fault.
pub(crate) fn is_failed_run(
    alloc: Global,
    image: &Image,
    turns: &[Turn],
    outside: Outside,
) -> Result<bool, AllocError>
    ensures { IfOk result (λ is. is ≡ true
        → LeadsTo image.now (may_of outside) EndsFailed turns.now) }
{
    if !are_from(turns, outside) {
        return Ok(false);
    }
    match follow(alloc, image, turns) {
        Ok(report) => Ok(has_failed(&report)),
        Err(fault) => no_run(fault),
    }
}

/// Whether the last turn of one is a step that may not be.
pub(crate) fn is_broken_run(
    alloc: Global,
    image: &Image,
    turns: &[Turn],
    outside: Outside,
) -> Result<bool, AllocError>
    ensures { IfOk result (λ is. is ≡ true → LeadsToBroken image.now (may_of outside) turns.now) }
{
    if !are_from(turns, outside) {
        return Ok(false);
    }
    match follow(alloc, image, turns) {
        Ok(_) => Ok(false),
        Err(fault) => is_refused(fault, turns.len()),
    }
}
