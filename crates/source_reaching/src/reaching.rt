ghost use Rattle.std.specs.Prelude.{◌≡◌, All, IfOk, IfSome, MatchOption, OnOk, map, true};
ghost use Rattle.program.specs.Views.{program_of};
ghost use Rattle.meaning.specs.Labels.{Action as ActionOf};
ghost use Rattle.meaning.specs.Runs.{IsStep};
ghost use Rattle.meaning.specs.States.{SourceState as SourceStateOf};
ghost use Rattle.source_states.specs.Actions.{action_of};
ghost use Rattle.source_states.specs.States.{state_of};
ghost use Rattle.source_reaching.specs.Among.{AreEnds, LeadsToEnds};
ghost use Rattle.source_reaching.specs.Ends.{IsLonger, IsReachedBy, LeadsTo, ends_in};

use crate::follow::{Followed, follow_own, is_lost};
use crate::next::{next_of, next_state};
use crate::own::own_actions;
use crate::trail::Unread;
use program::Checked;
use source_states::{Action, SourceState};
use std::alloc::{AllocError, Global};

/// A state that a process reaches by an action of its own, and by calm ones behind it.
#[derive(Drop)]
pub struct End<'a> {
    /// The state.
    pub state: SourceState<'a>,
    /// The place of the action among the process's own actions.
    pub choice: usize,
    /// The place of a calm action among those that were come to behind it, where there were several; else 0.
    pub later: usize,
}

// What came of an action.
#[derive(Drop)]
struct Reached<'a> {
    // The state behind it, and behind calm actions that were followed.
    state: SourceState<'a>,
    // What came of following them.
    followed: Followed,
}

// What comes of following calm actions behind an action of a process that leads to this state, if it is possible.
fn behind<'a>(
    alloc: Global,
    checked: &'a Checked,
    next: Option<SourceState<'a>>,
    process: u64,
) -> Result<Option<Reached<'a>>, AllocError>
    ensures { let p = program_of checked.now.tree in IfOk result (λ o. (s : SourceStateOf) (a : ActionOf)
        → a.process ≡ process → LeadsTo p s a next.entry
        → MatchOption o ((u : SourceStateOf) → IsStep p s a u → ⊥) (IsReachedBy p process s a)) }
{
    let Some(mut after) = next else {
        return Ok(None);
    };
    let followed = follow_own(alloc, checked, &mut after, process, &mut Unread)?;
    Ok(Some(Reached {
        state: after,
        followed,
    }))
}

// What a process reaches by an action of its own, and by calm ones behind it; None where the action isn't possible.
fn reach<'a>(
    alloc: Global,
    checked: &'a Checked,
    state: &SourceState<'a>,
    process: u64,
    action: &Action,
) -> Result<Option<Reached<'a>>, AllocError>
    requires { action.now.process ≡ process }
    ensures { IfOk result (λ o. MatchOption o
        ((u : SourceStateOf) → IsStep (program_of checked.now.tree) (state_of state.now) (action_of action.now) u → ⊥)
        (λ r. IsReachedBy (program_of checked.now.tree) process (state_of state.now) (action_of action.now) r)) }
{
    let next = next_state(alloc, checked, state, action)?;
    behind(alloc, checked, next, process)
}

// The same from a state that isn't needed any more.
fn reach_from<'a>(
    alloc: Global,
    checked: &'a Checked,
    state: SourceState<'a>,
    process: u64,
    action: &Action,
) -> Result<Option<Reached<'a>>, AllocError>
    requires { action.now.process ≡ process }
    ensures { IfOk result (λ o. MatchOption o
        ((u : SourceStateOf) → IsStep (program_of checked.now.tree) (state_of state.entry) (action_of action.now) u → ⊥)
        (λ r. IsReachedBy (program_of checked.now.tree) process (state_of state.entry) (action_of action.now) r)) }
{
    let next = next_of(alloc, checked, state, action)?;
    behind(alloc, checked, next, process)
}

// Adds what a later action of a process reaches; false where it can't be told.
fn add_later<'a>(
    alloc: Global,
    checked: &'a Checked,
    state: &SourceState<'a>,
    process: u64,
    action: &Action,
    choice: usize,
    later: usize,
    ends: &mut Vec<End<'a>>,
) -> Result<bool, AllocError>
    ensures longer { OnOk result (IsLonger (ends_in ends.old.items) (ends_in ends.new.items)) }
    ensures leads { IfOk result (λ b. b ≡ true → LeadsToEnds (program_of checked.now.tree) process
        (state_of state.now) (ends_in ends.new.items) (action_of action.now)) }
{
    if action.process != process {
        return Ok(false);
    }
    let Some(reached) = reach(alloc, checked, state, process, action)? else {
        return Ok(true);
    };
    let Reached { state, followed } = reached;
    if is_lost(&followed) {
        return Ok(false);
    }
    ends.push(End {
        state,
        choice,
        later,
    })?;
    Ok(true)
}

// Adds what each of several later actions reaches; false where it can't be told.
fn add_choices<'a>(
    alloc: Global,
    checked: &'a Checked,
    state: &SourceState<'a>,
    process: u64,
    actions: &[Action],
    choice: usize,
    ends: &mut Vec<End<'a>>,
) -> Result<bool, AllocError>
    ensures longer { OnOk result (IsLonger (ends_in ends.old.items) (ends_in ends.new.items)) }
    ensures leads { IfOk result (λ b. b ≡ true → All (LeadsToEnds (program_of checked.now.tree) process
        (state_of state.now) (ends_in ends.new.items)) (map action_of actions.now)) }
{
    for later in 0..actions.len() {
        let action = &actions[later];
        if !add_later(alloc, checked, state, process, action, choice, later, ends)? {
            return Ok(false);
        }
    }
    Ok(true)
}

// Adds what an action of a process reached, or what each of several calm ones reaches behind it; false where it can't be
// told.
fn add_reached<'a>(
    alloc: Global,
    checked: &'a Checked,
    process: u64,
    reached: Reached<'a>,
    choice: usize,
    ends: &mut Vec<End<'a>>,
) -> Result<bool, AllocError>
    ensures longer { OnOk result (IsLonger (ends_in ends.old.items) (ends_in ends.new.items)) }
    ensures leads { let p = program_of checked.now.tree in IfOk result (λ b. b ≡ true
        → (s : SourceStateOf) (a : ActionOf)
        → IsReachedBy p process s a reached.entry
        → LeadsToEnds p process s (ends_in ends.new.items) a) }
{
    let Reached { state, followed } = reached;
    if is_lost(&followed) {
        return Ok(false);
    }
    let Followed::Choices(actions) = followed else {
        let later = 0;
        ends.push(End {
            state,
            choice,
            later,
        })?;
        return Ok(true);
    };
    let listed = actions.as_slice();
    add_choices(alloc, checked, &state, process, listed, choice, ends)
}

// Adds what an action of a process reaches; false where it can't be told.
fn add_end<'a>(
    alloc: Global,
    checked: &'a Checked,
    state: &SourceState<'a>,
    process: u64,
    action: &Action,
    choice: usize,
    ends: &mut Vec<End<'a>>,
) -> Result<bool, AllocError>
    ensures longer { OnOk result (IsLonger (ends_in ends.old.items) (ends_in ends.new.items)) }
    ensures leads { IfOk result (λ b. b ≡ true → LeadsToEnds (program_of checked.now.tree) process
        (state_of state.now) (ends_in ends.new.items) (action_of action.now)) }
{
    if action.process != process {
        return Ok(false);
    }
    let Some(reached) = reach(alloc, checked, state, process, action)? else {
        return Ok(true);
    };
    add_reached(alloc, checked, process, reached, choice, ends)
}

// Adds what each of these actions reaches; false where it can't be told.
fn add_ends<'a>(
    alloc: Global,
    checked: &'a Checked,
    state: &SourceState<'a>,
    process: u64,
    actions: &[Action],
    ends: &mut Vec<End<'a>>,
) -> Result<bool, AllocError>
    ensures { IfOk result (λ b. b ≡ true → All (LeadsToEnds (program_of checked.now.tree) process
        (state_of state.now) (ends_in ends.new.items)) (map action_of actions.now)) }
{
    for choice in 0..actions.len() {
        let action = &actions[choice];
        if !add_end(alloc, checked, state, process, action, choice, ends)? {
            return Ok(false);
        }
    }
    Ok(true)
}

// Adds what the only action of a process reaches, from a state that isn't needed any more; false where it can't be told.
fn add_only_end<'a>(
    alloc: Global,
    checked: &'a Checked,
    state: SourceState<'a>,
    process: u64,
    action: &Action,
    ends: &mut Vec<End<'a>>,
) -> Result<bool, AllocError>
    ensures { IfOk result (λ b. b ≡ true → LeadsToEnds (program_of checked.now.tree) process
        (state_of state.entry) (ends_in ends.new.items) (action_of action.now)) }
{
    if action.process != process {
        return Ok(false);
    }
    let Some(reached) = reach_from(alloc, checked, state, process, action)? else {
        return Ok(true);
    };
    add_reached(alloc, checked, process, reached, 0, ends)
}

// Adds what each of these actions reaches from a state that isn't needed any more; false where it can't be told. Mostly
// there is one action, and then nothing is copied.
fn add_all_ends<'a>(
    alloc: Global,
    checked: &'a Checked,
    state: SourceState<'a>,
    process: u64,
    actions: &[Action],
    ends: &mut Vec<End<'a>>,
) -> Result<bool, AllocError>
    ensures { IfOk result (λ b. b ≡ true → All (LeadsToEnds (program_of checked.now.tree) process
        (state_of state.entry) (ends_in ends.new.items)) (map action_of actions.now)) }
{
    match actions {
        [action] => add_only_end(alloc, checked, state, process, action, ends),
        _ => add_ends(alloc, checked, &state, process, actions, ends),
    }
}

/// The states that a process reaches by an action of its own that is possible, and by calm ones behind it: whatever the
/// other processes are, where all of these are covered, so is what each action of the process's own leads to. The state
/// can have the others, or the process alone. None where it can't be told.
pub fn ends<'a>(
    alloc: Global,
    checked: &'a Checked,
    state: SourceState<'a>,
    process: u64,
) -> Result<Option<Vec<End<'a>>>, AllocError>
    ensures { IfOk result (λ o. IfSome o (λ v. AreEnds (program_of checked.now.tree) process (state_of state.entry)
        (ends_in v.items))) }
{
    let mut ends = Vec::new(alloc);
    let Some(actions) = own_actions(alloc, checked, &state, process)? else {
        return Ok(None);
    };
    let listed = actions.as_slice();
    if !add_all_ends(alloc, checked, state, process, listed, &mut ends)? {
        return Ok(None);
    }
    Ok(Some(ends))
}
