ghost use Rattle.std.specs.Prelude.{◌≡◌, ◌↔◌, ◌⊎◌, IfOk, MatchBool, Some, option_map};
ghost use Rattle.program.specs.Trees.{Program as ProgramOf};
ghost use Rattle.program.specs.declared.kinds.Member.{Member as MemberOf};
ghost use Rattle.meaning.specs.Processes.{holds, without_monitor};
ghost use Rattle.meaning.specs.Runs.{Enters, GivesUp, IsKillable, IsNotifying};
ghost use Rattle.source_offers.specs.NextAction.{offer_of};
ghost use Rattle.source_offers.specs.Stages.{process_of};
ghost use Rattle.source_offers.specs.declared.process.Process.{Process as ProcessOf};
ghost use Rattle.source_states.specs.Killed.{IsLeftAnswer, IsLeftOf, IsTheOne};

use program::Member;
use source_offers::{Label, Offer, Offered, Process, Stage, add_monitor, add_monitors};
use std::alloc::{AllocError, Global};

/// These monitors without one of them.
pub(crate) fn without(alloc: Global, monitors: &[u32], monitor: u32) -> Result<Vec<u32>, AllocError>
    ensures { IfOk result (λ v. v.items ≡ without_monitor monitor monitors.now) }
{
    let mut others = Vec::new(alloc);
    for other in monitors {
        if *other != monitor {
            others.push(*other)?;
        }
    }
    Ok(others)
}

/// The monitors that a process holds, innermost first.
pub(crate) fn held(alloc: Global, process: &Process) -> Result<Vec<u32>, AllocError>
    ensures { IfOk result (λ v. v.items ≡ holds (process_of process.now)) }
{
    let mut monitors = Vec::new(alloc);
    match &process.stage {
        Stage::Dying(_, left) => {
            monitors.extend_from_slice(left.as_slice())?;
            return Ok(monitors);
        }
        Stage::Leaving(_) | Stage::Over(_) => return Ok(monitors),
        Stage::Entering(_) | Stage::Returning(_) => {}
        _ => add_monitor(&mut monitors, process.frame.role)?,
    }
    add_monitors(&mut monitors, process.callers.as_slice())?;
    if let Stage::Suspended(condition) = process.stage {
        return without(alloc, monitors.as_slice(), condition.monitor);
    }
    Ok(monitors)
}

/// Whether a process can be killed: it isn't dying and isn't over.
pub(crate) fn is_killable(process: &Process) -> bool
    ensures { MatchBool result (IsKillable (process_of process.now))
        (IsKillable (process_of process.now) → ⊥) }
{
    !matches!(process.stage, Stage::Dying(_, _) | Stage::Over(_))
}

/// The monitor that a process has just entered, or would enter next.
pub(crate) fn entered(process: &Process) -> Option<u32>
    ensures { IsTheOne result (Enters (process_of process.now)) }
{
    match &process.stage {
        Stage::Entering(monitor) => Some(*monitor),
        Stage::Before(entered) => *entered,
        Stage::Failing(_, entered) => *entered,
        _ => None,
    }
}

/// The monitor that an offer gives up.
pub(crate) fn given_up(offer: &Offer) -> Option<u32>
    ensures { (p : ProgramOf) (q : ProcessOf) → IsTheOne result (GivesUp (offer_of p offer.now q)) }
{
    match offer {
        Offer::Own(Offered::Does(label, _)) => match label {
            Label::Exits(monitor) => Some(*monitor),
            Label::Waits(condition) => Some(condition.monitor),
            _ => None,
        },
        _ => None,
    }
}

/// The condition that an offer notifies or broadcasts.
pub(crate) fn notified(offer: &Offer) -> Option<Member>
    ensures { (p : ProgramOf) (q : ProcessOf) (c : MemberOf)
        → IsNotifying (offer_of p offer.now q) (Some c) ↔ (result ≡ Some c) }
{
    match offer {
        Offer::Own(Offered::NotifiesSome(condition)) => Some(*condition),
        Offer::Own(Offered::NotifiesAll(condition)) => Some(*condition),
        _ => None,
    }
}

/// What a killed process that held these monitors abandons, in order; None where the last can't come last.
pub(crate) fn left(
    alloc: Global,
    held: Vec<u32>,
    entered: Option<u32>,
    given_up: Option<u32>,
    last: Option<u32>,
) -> Result<Option<Vec<u32>>, AllocError>
    ensures { IfOk result (λ o. IsLeftAnswer (option_map (λ v. v.items) o)
        (IsLeftOf held.items (λ m. (entered ≡ Some m) ⊎ (given_up ≡ Some m)) last)) }
{
    let Some(monitor) = last else {
        return Ok(Some(held));
    };
    if entered != Some(monitor) && given_up != Some(monitor) {
        return Ok(None);
    }
    if !held.contains(&monitor) {
        return Ok(None);
    }
    let mut monitors = without(alloc, held.as_slice(), monitor)?;
    monitors.push(monitor)?;
    Ok(Some(monitors))
}
