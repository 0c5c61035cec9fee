ghost use Rattle.std.specs.Prelude.{OnOk};
ghost use Rattle.source_search.specs.Packed.{IsGrown};

use crate::choices::choices;
use crate::kept::{Kept, Way};
use crate::making::follow_made;
use crate::outside::Outside;
use crate::packed::Packed;
use crate::parts::Parts;
use crate::waking::wake;
use program::Checked;
use source_reaching::{Followed, follow_own, own_actions};
use source_states::{Action, ActionKind, SourceState};
use std::alloc::{AllocError, Global};
use words::ImageVersion;

/// How the first state is come to.
pub(crate) const OPENING: Way = Way {
    before: 0,
    process: 1,
    choice: 0,
    later: 0,
};

// The places by which a place is come to from the first state, that one last and the first one left out.
fn places_back(alloc: Global, ways: &[Way], place: usize) -> Result<Vec<usize>, AllocError> {
    let mut back = Vec::new(alloc);
    let mut at = place;
    for _ in 0..ways.len() {
        if at == 0 {
            break;
        }
        let Some(way) = ways.get(at) else {
            break;
        };
        back.push(at)?;
        at = way.before as usize;
    }
    Ok(back)
}

// Takes the one of these actions at a place, and notes it; false where there is none, or it isn't possible.
fn take_nth<'a>(
    alloc: Global,
    checked: &'a Checked,
    state: &mut SourceState<'a>,
    listed: Vec<Action>,
    place: u32,
    actions: &mut Vec<Action>,
) -> Result<bool, AllocError> {
    let Some(action) = listed.into_iter().nth(place as usize) else {
        return Ok(false);
    };
    if !state.advance(alloc, checked.program(), &action)? {
        return Ok(false);
    }
    actions.push(action)?;
    Ok(true)
}

// Takes the action of a way from a state with one process, and follows calm actions of the process as the search did;
// false where it can't.
fn go_way<'a>(
    alloc: Global,
    checked: &'a Checked,
    state: &mut SourceState<'a>,
    way: Way,
    actions: &mut Vec<Action>,
) -> Result<bool, AllocError> {
    let process = u64::from(way.process);
    let Some(own) = own_actions(alloc, checked, state, process)? else {
        return Ok(false);
    };
    if !take_nth(alloc, checked, state, own, way.choice, actions)? {
        return Ok(false);
    }
    let Followed::Choices(later) = follow_own(alloc, checked, state, process, actions)? else {
        return Ok(true);
    };
    if !take_nth(alloc, checked, state, later, way.later, actions)? {
        return Ok(false);
    }
    let _followed = follow_own(alloc, checked, state, process, actions)?;
    Ok(true)
}

/// The actions of a way from a kept state to another, as far as they are possible.
pub(crate) fn go_between<'a>(
    alloc: Global,
    checked: &'a Checked,
    parts: &mut Parts<'a>,
    before: &Packed,
    after: &Packed,
    way: Way,
) -> Result<Vec<Action>, AllocError>
    ensures { OnOk result (IsGrown parts.old parts.new) }
{
    let mut actions = Vec::new(alloc);
    append_between(alloc, checked, parts, before, after, way, &mut actions)?;
    Ok(actions)
}

// Appends them.
fn append_between<'a>(
    alloc: Global,
    checked: &'a Checked,
    parts: &mut Parts<'a>,
    before: &Packed,
    after: &Packed,
    way: Way,
    actions: &mut Vec<Action>,
) -> Result<(), AllocError>
    ensures { OnOk result (IsGrown parts.old parts.new) }
{
    let Some(spot) = before.spot((way.process as usize).saturating_sub(1)) else {
        return Ok(());
    };
    match parts.small(alloc, spot)? {
        None => Ok(()),
        Some(mut small) => go_from(
            alloc, checked, parts, before, after, way, &mut small, actions,
        ),
    }
}

// The same, where the process stands so, alone.
fn go_from<'a>(
    alloc: Global,
    checked: &'a Checked,
    parts: &mut Parts<'a>,
    before: &Packed,
    after: &Packed,
    way: Way,
    small: &mut SourceState<'a>,
    actions: &mut Vec<Action>,
) -> Result<(), AllocError>
    ensures { OnOk result (IsGrown parts.old parts.new) }
{
    let made = before.processes.len();
    if !go_through(alloc, checked, small, way, made, actions)? {
        return Ok(());
    }
    settle_behind(alloc, checked, parts, before, after, small, actions)
}

// Wakes a process that waits, though nobody notified it, and notes that.
fn go_awake(
    small: &mut SourceState,
    process: u64,
    actions: &mut Vec<Action>,
) -> Result<(), AllocError> {
    if let Some(condition) = wake(small, process) {
        let kind = ActionKind::Stray(condition);
        actions.push(Action { process, kind })?;
    }
    Ok(())
}

// Appends the actions of a way, and those of the processes that it makes; says whether it is possible.
fn go_through<'a>(
    alloc: Global,
    checked: &'a Checked,
    small: &mut SourceState<'a>,
    way: Way,
    made: usize,
    actions: &mut Vec<Action>,
) -> Result<bool, AllocError> {
    go_awake(small, u64::from(way.process), actions)?;
    if !go_way(alloc, checked, small, way, actions)? {
        return Ok(false);
    }
    let process = u64::from(way.process);
    let _known = follow_made(alloc, checked, small, process, made, actions)?;
    Ok(true)
}

// Appends the actions from what a way led to up to the kept state.
fn settle_behind<'a>(
    alloc: Global,
    checked: &'a Checked,
    parts: &mut Parts<'a>,
    before: &Packed,
    after: &Packed,
    small: &SourceState<'a>,
    actions: &mut Vec<Action>,
) -> Result<(), AllocError>
    ensures { OnOk result (IsGrown parts.old parts.new) }
{
    let Some(next) = parts.merge(alloc, checked.program(), before, small)? else {
        return Ok(());
    };
    if next.is_same(after) {
        return Ok(());
    }
    let _settled = parts.settle(alloc, checked, next, actions)?;
    Ok(())
}

// The actions that lead to a place, as the search followed them.
fn followed_to<'a>(
    alloc: Global,
    checked: &'a Checked,
    kept: &mut Kept<'a>,
    place: usize,
) -> Result<Vec<Action>, AllocError> {
    let back = places_back(alloc, kept.ways.as_slice(), place)?;
    let mut actions = Vec::new(alloc);
    follow_ways(alloc, checked, kept, back.as_slice(), &mut actions)?;
    Ok(actions)
}

// Appends the actions of the ways to these places, the last place first, up to the first that isn't possible.
fn follow_ways<'a>(
    alloc: Global,
    checked: &'a Checked,
    kept: &mut Kept<'a>,
    back: &[usize],
    actions: &mut Vec<Action>,
) -> Result<(), AllocError> {
    settle_opening(alloc, checked, &mut kept.parts, actions)?;
    for at in back.iter().rev() {
        if !follow_way(alloc, checked, kept, *at, actions)? {
            break;
        }
    }
    Ok(())
}

// Appends the actions to the first state that is kept.
fn settle_opening<'a>(
    alloc: Global,
    checked: &'a Checked,
    parts: &mut Parts<'a>,
    actions: &mut Vec<Action>,
) -> Result<(), AllocError> {
    let opening = SourceState::opening(alloc, checked, ImageVersion::Two)?;
    settle_from(alloc, checked, parts, &opening, actions)
}

// The same, where every run begins in this state.
fn settle_from<'a>(
    alloc: Global,
    checked: &'a Checked,
    parts: &mut Parts<'a>,
    opening: &SourceState<'a>,
    actions: &mut Vec<Action>,
) -> Result<(), AllocError> {
    if let Some(packed) = parts.pack(alloc, checked.program(), opening, 0, 0)? {
        let _settled = parts.settle(alloc, checked, packed, actions)?;
    }
    Ok(())
}

// Follows the way to the kept state at a place, and says whether that is possible.
fn follow_way<'a>(
    alloc: Global,
    checked: &'a Checked,
    kept: &mut Kept<'a>,
    at: usize,
    actions: &mut Vec<Action>,
) -> Result<bool, AllocError> {
    let Some(way) = kept.ways.get(at).copied() else {
        return Ok(false);
    };
    let Some(before) = kept.packed_at(alloc, way.before as usize)? else {
        return Ok(false);
    };
    let Some(after) = kept.packed_at(alloc, at)? else {
        return Ok(false);
    };
    append_between(
        alloc,
        checked,
        &mut kept.parts,
        &before,
        &after,
        way,
        actions,
    )?;
    Ok(true)
}

// The actions that lead to a place, where all that may come next was interleaved.
fn interleaved_to<'a>(
    alloc: Global,
    checked: &'a Checked,
    ways: &[Way],
    place: usize,
    outside: Outside,
) -> Result<Vec<Action>, AllocError> {
    let back = places_back(alloc, ways, place)?;
    let mut actions = Vec::new(alloc);
    interleave(alloc, checked, ways, back.as_slice(), outside, &mut actions)?;
    Ok(actions)
}

// Appends the actions of the ways at these places, the last place first, up to the first that isn't possible.
fn interleave<'a>(
    alloc: Global,
    checked: &'a Checked,
    ways: &[Way],
    back: &[usize],
    outside: Outside,
    actions: &mut Vec<Action>,
) -> Result<(), AllocError> {
    let mut state = SourceState::opening(alloc, checked, ImageVersion::Two)?;
    take_ways(alloc, checked, ways, back, outside, &mut state, actions)
}

// The same from a state.
fn take_ways<'a>(
    alloc: Global,
    checked: &'a Checked,
    ways: &[Way],
    back: &[usize],
    outside: Outside,
    state: &mut SourceState<'a>,
    actions: &mut Vec<Action>,
) -> Result<(), AllocError> {
    for at in back.iter().rev() {
        let way = ways.get(*at).copied();
        if !take_way(alloc, checked, way, outside, state, actions)? {
            break;
        }
    }
    Ok(())
}

// Takes a way, and says whether that is possible.
fn take_way<'a>(
    alloc: Global,
    checked: &'a Checked,
    way: Option<Way>,
    outside: Outside,
    state: &mut SourceState<'a>,
    actions: &mut Vec<Action>,
) -> Result<bool, AllocError> {
    let Some(way) = way else {
        return Ok(false);
    };
    let process = u64::from(way.process);
    let Some(listed) = choices(alloc, checked, state, process, outside)? else {
        return Ok(false);
    };
    take_nth(alloc, checked, state, listed, way.choice, actions)
}

/// The actions that lead to the kept state at a place, by the ways that lead to each.
pub(crate) fn actions_to<'a>(
    alloc: Global,
    checked: &'a Checked,
    kept: &mut Kept<'a>,
    place: usize,
    outside: Outside,
) -> Result<Vec<Action>, AllocError> {
    if outside.interleaves() {
        return interleaved_to(alloc, checked, kept.ways.as_slice(), place, outside);
    }
    followed_to(alloc, checked, kept, place)
}
