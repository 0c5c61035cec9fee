ghost use Rattle.std.specs.Prelude.{IfOk, IfSome, map};
ghost use Rattle.program.specs.Views.{program_of};
ghost use Rattle.source_states.specs.Actions.{action_of};
ghost use Rattle.source_states.specs.States.{state_of};
ghost use Rattle.source_search.specs.Choices.{AreChoices, HasKills, HasStray};

use crate::killing::kills_of;
use crate::outside::{Outside, killed_in};
use program::Checked;
use source_reaching::own_actions;
use source_states::{Action, ActionKind, SourceState};
use std::alloc::{AllocError, Global};

// What a process may do next of its own, and with `strays` its stray wake-up, where it waits.
fn with_stray(
    state: &SourceState,
    process: u64,
    strays: bool,
    own: Vec<Action>,
) -> Result<Vec<Action>, AllocError>
    ensures { IfOk result (λ v. HasStray strays (state_of state.now).table process
        (map action_of own.items) (map action_of v.items)) }
{
    if !strays {
        return Ok(own);
    }
    let Some(condition) = state.waits(process) else {
        return Ok(own);
    };
    let mut actions = own;
    actions.push(Action {
        process,
        kind: ActionKind::Stray(condition),
    })?;
    Ok(actions)
}

// The same, and its kills, where there may be one more.
fn with_kills<'a>(
    alloc: Global,
    checked: &'a Checked,
    state: &SourceState<'a>,
    process: u64,
    kills: u32,
    others: Vec<Action>,
) -> Result<Option<Vec<Action>>, AllocError>
    ensures { IfOk result (λ o. IfSome o (λ v. HasKills (program_of checked.now.tree) kills (state_of state.now)
        process (map action_of others.items) (map action_of v.items))) }
{
    if kills == 0 {
        return Ok(Some(others));
    }
    if killed_in(state) >= u64::from(kills) {
        return Ok(Some(others));
    }
    let Some(mut kills) = kills_of(alloc, checked, state, process)? else {
        return Ok(None);
    };
    let mut actions = others;
    actions.append(&mut kills)?;
    Ok(Some(actions))
}

/// What a process may do next, or what may be done to it from outside: whatever it is, one of these is possible and
/// leads to the same state. Of a notify there is one for each set of processes that it may resume, and so there is of a
/// kill. Not all of them are possible. None where there are too many.
pub(crate) fn choices<'a>(
    alloc: Global,
    checked: &'a Checked,
    state: &SourceState<'a>,
    process: u64,
    outside: Outside,
) -> Result<Option<Vec<Action>>, AllocError>
    ensures { IfOk result (λ o. IfSome o (λ v. AreChoices (program_of checked.now.tree) outside
        (state_of state.now) process (map action_of v.items))) }
{
    let Some(own) = own_actions(alloc, checked, state, process)? else {
        return Ok(None);
    };
    let actions = with_stray(state, process, outside.strays, own)?;
    with_kills(alloc, checked, state, process, outside.kills, actions)
}
