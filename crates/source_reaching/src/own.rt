ghost use Rattle.std.specs.Prelude.{◌≡◌, ◌∷◌, [], IfOk, IfSome, map, ℕ};
ghost use Rattle.program.specs.Trees.{Program as ProgramOf};
ghost use Rattle.program.specs.Views.{program_of};
ghost use Rattle.meaning.specs.Labels.{Notify};
ghost use Rattle.meaning.specs.Offers.{ClaimsOne, MakesOne, NotifiesAll, NotifiesSome, offer as offer_by};
ghost use Rattle.meaning.specs.Values.{Variables};
ghost use Rattle.meaning.specs.Processes.{Process as ProcessIn};
ghost use Rattle.source_offers.specs.NextAction.{offer_of};
ghost use Rattle.source_offers.specs.Offered.{offer_with};
ghost use Rattle.source_offers.specs.Stages.{process_of};
ghost use Rattle.source_offers.specs.declared.process.Process.{Process as ProcessOf};
ghost use Rattle.source_states.specs.Actions.{action_of, kind_of};
ghost use Rattle.source_states.specs.States.{state_of};
ghost use Rattle.source_reaching.specs.Choices.{AllTakeUp, AreOwnChoices, by, lists_in};

use crate::each_set::sets;
use program::{Checked, Member};
use source_offers::{Offer, Offered, Process, Stage};
use source_states::{Action, ActionKind, SourceState, named};
use std::alloc::{AllocError, Global};
use words::Fault;

// One action.
fn one(alloc: Global, process: u64, kind: ActionKind) -> Result<Option<Vec<Action>>, AllocError>
    ensures { IfOk result (λ o. IfSome o
        (λ v. map action_of v.items ≡ by process (kind_of kind) ∷ [])) }
{
    let mut actions = Vec::new(alloc);
    actions.push(Action { process, kind })?;
    Ok(Some(actions))
}

// The notify of a condition that resumes these.
fn notify_of(
    alloc: Global,
    process: u64,
    condition: Member,
    resumed: &[u64],
) -> Result<Action, AllocError>
    ensures { IfOk result (λ a. action_of a ≡ by process (Notify condition resumed.now)) }
{
    let resumed = Vec::from_slice(alloc, resumed)?;
    Ok(Action {
        process,
        kind: ActionKind::Notify(condition, resumed),
    })
}

// The notifies of a condition, one for each of these lists of processes that are resumed.
fn notifies_of(
    alloc: Global,
    process: u64,
    condition: Member,
    lists: &[Vec<u64>],
) -> Result<Vec<Action>, AllocError>
    ensures { IfOk result (λ v. map action_of v.items
        ≡ map (λ list. by process (Notify condition list)) (lists_in lists.now)) }
{
    let mut actions = Vec::new(alloc);
    for list in lists {
        actions.push(notify_of(alloc, process, condition, list.as_slice())?)?;
    }
    Ok(actions)
}

// The notifies of a condition, one for each set of processes that may be resumed.
fn notifies(
    alloc: Global,
    state: &SourceState,
    process: u64,
    condition: Member,
) -> Result<Option<Vec<Action>>, AllocError>
    ensures { IfOk result (λ o. IfSome o (λ v. (after : ProcessIn)
        → AllTakeUp process (NotifiesSome condition after) (state_of state.now).table
        (map action_of v.items))) }
{
    let waiting = state.table().waiting(alloc, condition)?;
    if waiting.len() <= 1 {
        return one(alloc, process, ActionKind::Notify(condition, waiting));
    }
    let Some(lists) = sets(alloc, waiting.as_slice())? else {
        return Ok(None);
    };
    let actions = notifies_of(alloc, process, condition, lists.as_slice())?;
    Ok(Some(actions))
}

// The broadcast of a condition.
fn broadcast(
    alloc: Global,
    state: &SourceState,
    process: u64,
    condition: Member,
) -> Result<Option<Vec<Action>>, AllocError>
    ensures { IfOk result (λ o. IfSome o (λ v. (after : ProcessIn)
        → AllTakeUp process (NotifiesAll condition after) (state_of state.now).table
        (map action_of v.items))) }
{
    let waiting = state.table().waiting(alloc, condition)?;
    one(alloc, process, ActionKind::Broadcast(condition, waiting))
}

// What a process may do that makes another.
fn forks(
    alloc: Global,
    state: &SourceState,
    process: u64,
) -> Result<Option<Vec<Action>>, AllocError>
    ensures { IfOk result (λ o. IfSome o
        (λ v. (child : ProcessIn) (after : ℕ → ProcessIn) (full : ProcessIn)
        → AllTakeUp process (MakesOne child after full) (state_of state.now).table
        (map action_of v.items))) }
{
    let made = state.made();
    if made >= state.most() {
        return one(alloc, process, ActionKind::Fails(Fault::ProcessTableFull));
    }
    one(alloc, process, ActionKind::Fork(made + 1))
}

// What a process may do that claims another.
fn claims(
    alloc: Global,
    state: &SourceState,
    process: u64,
    child: u64,
) -> Result<Option<Vec<Action>>, AllocError>
    ensures { IfOk result (λ o. IfSome o (λ v. (after : ProcessIn) (refused : ProcessIn)
        → AllTakeUp process (ClaimsOne child after refused) (state_of state.now).table
        (map action_of v.items))) }
{
    if state.claimed(child) {
        return one(alloc, process, ActionKind::Fails(Fault::HandleNotJoinable));
    }
    one(alloc, process, ActionKind::Claim(child))
}

// What a process may do that offers something for itself.
fn own_choices<'a>(
    alloc: Global,
    state: &SourceState<'a>,
    process: u64,
    own: Offered<'a>,
) -> Result<Option<Vec<Action>>, AllocError>
    ensures { IfOk result (λ o. IfSome o (λ v. (q : ProcessOf)
        → AllTakeUp process (offer_with own.entry q) (state_of state.now).table
        (map action_of v.items))) }
{
    match own {
        Offered::Rests => Ok(Some(Vec::new(alloc))),
        Offered::Does(label, _) => one(alloc, process, named(label)),
        Offered::Makes(_, _) => forks(alloc, state, process),
        Offered::Claims { child, .. } => claims(alloc, state, process, child),
        Offered::NotifiesSome(condition) => notifies(alloc, state, process, condition),
        Offered::NotifiesAll(condition) => broadcast(alloc, state, process, condition),
    }
}

// What a process may do that offers this.
fn choices_of<'a>(
    alloc: Global,
    state: &SourceState<'a>,
    process: u64,
    offer: Offer<'a>,
) -> Result<Option<Vec<Action>>, AllocError>
    ensures { IfOk result (λ o. IfSome o (λ v. (p : ProgramOf) (q : ProcessOf)
        → AllTakeUp process (offer_of p offer.entry q) (state_of state.now).table
        (map action_of v.items))) }
{
    match offer {
        Offer::Own(own) => own_choices(alloc, state, process, own),
        Offer::Enters(monitor) => one(alloc, process, ActionKind::Enter(monitor)),
        Offer::Resumes(monitor) => one(alloc, process, ActionKind::Resume(monitor)),
        Offer::Joins { child, .. } => one(alloc, process, ActionKind::Join(child)),
    }
}

// What a process offers that enters a monitor, takes one again or joins. So it is told without a copy of the process.
fn standing_offer<'a>(process: &Process<'a>) -> Option<Offer<'a>>
    ensures { IfSome result (λ o. (p : ProgramOf) (values : Variables)
        → offer_of p o process.now ≡ offer_by p values (process_of process.now)) }
{
    match &process.stage {
        Stage::Entering(monitor) => Some(Offer::Enters(*monitor)),
        Stage::Suspended(condition) => Some(Offer::Resumes(condition.monitor)),
        Stage::Joining {
            child,
            into,
            aborted,
        } => Some(Offer::Joins {
            child: *child,
            into: *into,
            aborted: *aborted,
        }),
        _ => None,
    }
}

/// What a process may do next of its own: whatever it does, one of these leads to the same state. Of a notify there is
/// one for each set of processes that it may resume. Not all of them are possible. None where there are too many.
pub fn own_actions<'a>(
    alloc: Global,
    checked: &'a Checked,
    state: &SourceState<'a>,
    process: u64,
) -> Result<Option<Vec<Action>>, AllocError>
    ensures { IfOk result (λ o. IfSome o (λ v. AreOwnChoices (program_of checked.now.tree)
        (state_of state.now) process (map action_of v.items))) }
{
    let Some(found) = state.process(process) else {
        return Ok(Some(Vec::new(alloc)));
    };
    if let Some(offer) = standing_offer(found) {
        return choices_of(alloc, state, process, offer);
    }
    let Some((offer, _)) = state.offered(alloc, checked, process)? else {
        return Ok(Some(Vec::new(alloc)));
    };
    choices_of(alloc, state, process, offer)
}
