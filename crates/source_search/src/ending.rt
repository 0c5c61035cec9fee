ghost use Rattle.std.specs.Prelude.{◌≡◌, Bool, IfOk, MatchOption, OnOk, false, true};
ghost use Rattle.program.specs.Views.{program_of};
ghost use Rattle.source_search.specs.Ending.{EachMayEnd, HasUnended, IsEndLookedFor, IsEndTold, IsLostRun};
ghost use Rattle.source_search.specs.Found.{is_any};
ghost use Rattle.source_search.specs.Kept.{IsSound, states_of};

use crate::kept::Kept;
use crate::lost::is_lost;
use crate::memo::Memo;
use crate::outside::{Outside, are_from};
use crate::replay::actions_to;
use program::Checked;
use source_states::{Action, accepts};
use std::alloc::{AllocError, Global};
use std::mem;

/// What a search tells of runs that can't end any more: whatever the processes do behind one, they are never all over. A
/// run that gets stuck is one, so is one in which a process is blocked for good, and so is one behind which processes go
/// on for ever in vain.
#[derive(Drop)]
pub enum Ending {
    /// A run that can't end any more.
    Found(Vec<Action>),
    /// There is none: from each state that a run leads to, a run leads to one in which every process is over.
    Never,
    /// It isn't asked for.
    NotAsked,
    /// It isn't looked for: the search wasn't complete, or something from outside is searched.
    NotLookedFor,
    /// In some kept state a process isn't over, and it couldn't be told whether all may come to be over.
    NotTold,
}

// The place of the first of the states that a search keeps from which no run is found to end; none comes from outside.
fn lost_in<'a>(
    alloc: Global,
    checked: &'a Checked,
    kept: &mut Kept<'a>,
) -> Result<Option<usize>, AllocError>
    requires sound { IsSound kept.old }
    ensures sound { OnOk result (IsSound kept.new) }
    ensures same { OnOk result (states_of kept.new ≡ states_of kept.old) }
    ensures found { IfOk result (IsEndLookedFor (program_of checked.now.tree) (states_of kept.old)) }
{
    let mut memo = Memo::new(alloc);
    memo.fit(alloc, kept.states.len())?;
    let states = mem::replace(&mut kept.states, Vec::new(alloc));
    let found = kept.look_for_lost(alloc, checked, &mut memo, states.as_slice())?;
    kept.states = states;
    Ok(found)
}

/// The place of the first kept state from which no run is found to end; where that is asked for, the search was complete,
/// and nothing from outside is searched.
pub(crate) fn look_for_lost<'a>(
    alloc: Global,
    checked: &'a Checked,
    kept: &mut Kept<'a>,
    asked: bool,
    complete: bool,
    outside: Outside,
) -> Result<Option<usize>, AllocError>
    requires sound { IsSound kept.old }
    ensures sound { OnOk result (IsSound kept.new) }
    ensures same { OnOk result (states_of kept.new ≡ states_of kept.old) }
    ensures found { asked ≡ true → complete ≡ true → is_any outside ≡ false
        → IfOk result (IsEndLookedFor (program_of checked.now.tree) (states_of kept.old)) }
{
    if !asked {
        return Ok(None);
    }
    if !complete {
        return Ok(None);
    }
    if outside.is_any() {
        return Ok(None);
    }
    lost_in(alloc, checked, kept)
}

// Whether these actions are a run of those that are searched, and it can't end any more.
fn is_lost_run(
    alloc: Global,
    checked: &Checked,
    most: usize,
    actions: &[Action],
    outside: Outside,
) -> Result<bool, AllocError>
    ensures { IfOk result (λ is. is ≡ true
        → IsLostRun (program_of checked.now.tree) outside actions.now) }
{
    if !are_from(actions, outside) {
        return Ok(false);
    }
    let walked = accepts(alloc, checked, actions)?;
    match walked {
        None => Ok(false),
        Some(state) => {
            let lost = is_lost(alloc, checked, most, &state)?;
            Ok(lost)
        }
    }
}

// Takes away what stands behind the first so many actions of a run that can't end any more, where behind these it can't
// either; says whether it did.
fn cut_to(
    alloc: Global,
    checked: &Checked,
    most: usize,
    run: &mut Vec<Action>,
    count: usize,
    outside: Outside,
) -> Result<bool, AllocError>
    requires lost { IsLostRun (program_of checked.now.tree) outside run.old.items }
    ensures lost { OnOk result (IsLostRun (program_of checked.now.tree) outside run.new.items) }
{
    let actions = run.as_slice();
    if count >= actions.len() {
        return Ok(false);
    }
    if !is_lost_run(alloc, checked, most, &actions[..count], outside)? {
        return Ok(false);
    }
    run.truncate(count);
    Ok(true)
}

// How many actions of a run are needed at least, where so many were, and by these the run was cut, or couldn't be.
fn least_behind(least: usize, count: usize, cut: bool) -> usize {
    if cut { least } else { count.saturating_add(1) }
}

// Cuts a run that can't end any more behind the first action behind which it can't. That is found by halves, since what
// can't end doesn't later on.
fn shorten(
    alloc: Global,
    checked: &Checked,
    most: usize,
    run: &mut Vec<Action>,
    outside: Outside,
) -> Result<(), AllocError>
    requires lost { IsLostRun (program_of checked.now.tree) outside run.old.items }
    ensures lost { OnOk result (IsLostRun (program_of checked.now.tree) outside run.new.items) }
{
    let mut least: usize = 0;
    for _ in 0..run.len() {
        let half = run.len().saturating_sub(least) / 2;
        let count = least.saturating_add(half);
        let cut = cut_to(alloc, checked, most, run, count, outside)?;
        least = least_behind(least, count, cut);
    }
    Ok(())
}

// A run to the kept state at this place, as far as it can't end any more.
fn lost_at<'a>(
    alloc: Global,
    checked: &'a Checked,
    kept: &mut Kept<'a>,
    place: usize,
    most: usize,
    outside: Outside,
) -> Result<Ending, AllocError>
    ensures { HasUnended (program_of checked.now.tree) outside → IfOk result
        (λ e. (asked complete : Bool) → IsEndTold (program_of checked.now.tree) outside asked complete e) }
{
    let mut run = actions_to(alloc, checked, kept, place, outside)?;
    if !is_lost_run(alloc, checked, most, run.as_slice(), outside)? {
        return Ok(Ending::NotTold);
    }
    shorten(alloc, checked, most, &mut run, outside)?;
    Ok(Ending::Found(run))
}

/// What is told of runs that can't end any more, where the kept state at this place was found.
pub(crate) fn told_ending<'a>(
    alloc: Global,
    checked: &'a Checked,
    kept: &mut Kept<'a>,
    found: Option<usize>,
    asked: bool,
    complete: bool,
    most: usize,
    outside: Outside,
) -> Result<Ending, AllocError>
    ensures { (asked ≡ true → complete ≡ true → is_any outside ≡ false → MatchOption found
        (EachMayEnd (program_of checked.now.tree) outside)
        (λ place. HasUnended (program_of checked.now.tree) outside))
        → IfOk result (IsEndTold (program_of checked.now.tree) outside asked complete) }
{
    if !asked {
        return Ok(Ending::NotAsked);
    }
    if !complete {
        return Ok(Ending::NotLookedFor);
    }
    if outside.is_any() {
        return Ok(Ending::NotLookedFor);
    }
    match found {
        None => Ok(Ending::Never),
        Some(place) => lost_at(alloc, checked, kept, place, most, outside),
    }
}
