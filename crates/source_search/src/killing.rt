ghost use Rattle.std.specs.Prelude.{◌≡◌, ◌++◌, ◌∷◌, [], IfOk, IfSome, OnOk, Some, map};
ghost use Rattle.std.specs.List.{flat_map};
ghost use Rattle.program.specs.Trees.{Program as ProgramOf};
ghost use Rattle.program.specs.Views.{program_of};
ghost use Rattle.program.specs.declared.kinds.Member.{Member as MemberOf};
ghost use Rattle.meaning.specs.Labels.{Kill};
ghost use Rattle.meaning.specs.Runs.{IsNotifying};
ghost use Rattle.source_offers.specs.NextAction.{offer_of};
ghost use Rattle.source_offers.specs.Stages.{process_of};
ghost use Rattle.source_offers.specs.declared.process.Process.{Process as ProcessOf};
ghost use Rattle.source_states.specs.Actions.{action_of};
ghost use Rattle.source_states.specs.States.{state_of};
ghost use Rattle.source_reaching.specs.Choices.{by, lists_in};
ghost use Rattle.source_search.specs.Choices.{AreHeld, AreKills, AreResumable, WouldNotify, kills_with};

use program::{Checked, Member};
use source_offers::{Offer, Offered, Process, add_monitor, add_monitors};
use source_reaching::sets;
use source_states::{Action, ActionKind, SourceState};
use std::alloc::{AllocError, Global};

// The condition that an offer notifies or broadcasts.
fn notified(offer: &Offer) -> Option<Member>
    ensures { (p : ProgramOf) (q : ProcessOf) (c : MemberOf)
        → IsNotifying (offer_of p offer.now q) (Some c) → result ≡ Some c }
{
    match offer {
        Offer::Own(Offered::NotifiesSome(condition)) => Some(*condition),
        Offer::Own(Offered::NotifiesAll(condition)) => Some(*condition),
        _ => None,
    }
}

// A list for nobody.
fn nobody(alloc: Global) -> Result<Vec<Vec<u64>>, AllocError>
    ensures { IfOk result (λ v. lists_in v.items ≡ [] ∷ []) }
{
    let mut lists = Vec::new(alloc);
    lists.push(Vec::new(alloc))?;
    Ok(lists)
}

// The condition that a process would notify or broadcast next.
fn condition_of<'a>(
    alloc: Global,
    checked: &'a Checked,
    state: &SourceState<'a>,
    process: u64,
) -> Result<Option<Member>, AllocError>
    ensures { IfOk result (WouldNotify (program_of checked.now.tree) (state_of state.now) process) }
{
    match state.offered(alloc, checked, process)? {
        None => Ok(None),
        Some((offer, _)) => Ok(notified(&offer)),
    }
}

// A list for each set of processes that a kill of a process may resume; None where there are too many.
fn resumable<'a>(
    alloc: Global,
    checked: &'a Checked,
    state: &SourceState<'a>,
    process: u64,
) -> Result<Option<Vec<Vec<u64>>>, AllocError>
    ensures { IfOk result (λ o. IfSome o (λ v. AreResumable (program_of checked.now.tree)
        (state_of state.now) process (lists_in v.items))) }
{
    let Some(condition) = condition_of(alloc, checked, state, process)? else {
        return Ok(Some(nobody(alloc)?));
    };
    let waiting = state.table().waiting(alloc, condition)?;
    sets(alloc, waiting.as_slice())
}

// The monitors of a process's ENTRY procedures: those that it holds are among them, as long as it can be killed.
fn monitors_of(alloc: Global, process: &Process) -> Result<Vec<u32>, AllocError>
    ensures { IfOk result (λ v. AreHeld (process_of process.now) v.items) }
{
    let mut monitors = Vec::new(alloc);
    add_monitor(&mut monitors, process.frame.role)?;
    add_monitors(&mut monitors, process.callers.as_slice())?;
    Ok(monitors)
}

// Appends the kill of a process that resumes these, with this monitor as the last that it abandons.
fn add_kill(
    alloc: Global,
    actions: &mut Vec<Action>,
    process: u64,
    resumed: &[u64],
    last: Option<u32>,
) -> Result<(), AllocError>
    ensures { OnOk result (map action_of actions.new.items
        ≡ map action_of actions.old.items ++ by process (Kill resumed.now last) ∷ []) }
{
    let resumed = Vec::from_slice(alloc, resumed)?;
    actions.push(Action {
        process,
        kind: ActionKind::Kill(resumed, last),
    })?;
    Ok(())
}

// Appends the kills of a process that resume these, with each of these monitors as the last, and with none.
fn add_kills(
    alloc: Global,
    actions: &mut Vec<Action>,
    process: u64,
    resumed: &[u64],
    monitors: &[u32],
) -> Result<(), AllocError>
    ensures { OnOk result (map action_of actions.new.items
        ≡ map action_of actions.old.items ++ kills_with process monitors.now resumed.now) }
{
    add_kill(alloc, actions, process, resumed, None)?;
    for monitor in monitors {
        add_kill(alloc, actions, process, resumed, Some(*monitor))?;
    }
    Ok(())
}

// The kills of a process that resume one of these lists of processes, with each of these monitors as the last, and with
// none.
fn each_kill(
    alloc: Global,
    process: u64,
    lists: &[Vec<u64>],
    monitors: &[u32],
) -> Result<Vec<Action>, AllocError>
    ensures { IfOk result (λ v. map action_of v.items
        ≡ flat_map (kills_with process monitors.now) (lists_in lists.now)) }
{
    let mut actions = Vec::new(alloc);
    for list in lists {
        add_kills(alloc, &mut actions, process, list.as_slice(), monitors)?;
    }
    Ok(actions)
}

/// The kills of a process: whatever a kill of it leads to, one of these does too. None where there are too many.
pub(crate) fn kills_of<'a>(
    alloc: Global,
    checked: &'a Checked,
    state: &SourceState<'a>,
    process: u64,
) -> Result<Option<Vec<Action>>, AllocError>
    ensures { IfOk result (λ o. IfSome o (λ v. AreKills (program_of checked.now.tree) (state_of state.now)
        process (map action_of v.items))) }
{
    let Some(found) = state.process(process) else {
        return Ok(Some(Vec::new(alloc)));
    };
    let Some(lists) = resumable(alloc, checked, state, process)? else {
        return Ok(None);
    };
    let monitors = monitors_of(alloc, found)?;
    let kills = each_kill(alloc, process, lists.as_slice(), monitors.as_slice())?;
    Ok(Some(kills))
}
