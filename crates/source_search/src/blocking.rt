ghost use Rattle.std.specs.Prelude.{◌≡◌, ◌<◌, Bool, IfOk, MatchOption, false, length, true};
ghost use Rattle.program.specs.Views.{program_of};
ghost use Rattle.proof_exploration.specs.Blocking.{HasBlocked};
ghost use Rattle.source_search.specs.Blocking.{AreBlocked, HasResting, IsTold};
ghost use Rattle.source_search.specs.Found.{LeadsNowhere, LeadsTo, is_any};
ghost use Rattle.source_search.specs.Kept.{IsSound, states_of};
ghost use Rattle.source_search.specs.Living.{IsLookedFor};

use crate::holding::blocked_in;
use crate::kept::Kept;
use crate::living::Resting;
use crate::memo::Memo;
use crate::outside::{Outside, are_from};
use crate::replay::actions_to;
use program::Checked;
use source_states::{Action, accepts};
use std::alloc::{AllocError, Global};
use std::mem;

/// What a search tells of processes that are blocked for good: one that isn't over, and that can do nothing any more,
/// whatever the processes do.
#[derive(Drop)]
pub enum Blocked {
    /// Some are blocked for good.
    Found {
        /// Their numbers, rising.
        processes: Vec<u64>,
        /// A run at whose end they are.
        run: Vec<Action>,
    },
    /// In no run is any.
    Never,
    /// It isn't looked for: the search wasn't complete, or something from outside is searched.
    NotLookedFor,
    /// A process is held up in some state, and it couldn't be told whether it is for good.
    NotTold,
}

// A process that rests in one of the states that a search keeps, of which none comes from outside; the same is kept behind.
fn resting_in<'a>(
    alloc: Global,
    checked: &'a Checked,
    kept: &mut Kept<'a>,
) -> Result<Option<Resting>, AllocError>
    requires sound { IsSound kept.old }
    ensures { IfOk result (IsLookedFor (program_of checked.now.tree) (states_of kept.old)) }
{
    let mut memo = Memo::new(alloc);
    memo.fit(alloc, kept.states.len())?;
    let states = mem::replace(&mut kept.states, Vec::new(alloc));
    let found = kept.look_for_resting(alloc, checked, &mut memo, states.as_slice());
    kept.states = states;
    found
}

/// A process that isn't over, and isn't found to do anything any more behind a kept state in which it can't move; where the
/// search was complete, and nothing from outside is searched.
pub(crate) fn look_for_resting<'a>(
    alloc: Global,
    checked: &'a Checked,
    kept: &mut Kept<'a>,
    complete: bool,
    outside: Outside,
) -> Result<Option<Resting>, AllocError>
    requires sound { IsSound kept.old }
    ensures { complete ≡ true → is_any outside ≡ false
        → IfOk result (IsLookedFor (program_of checked.now.tree) (states_of kept.old)) }
{
    if !complete {
        return Ok(None);
    }
    if outside.is_any() {
        return Ok(None);
    }
    resting_in(alloc, checked, kept)
}

// Which processes are blocked for good at the end of these actions, where they are a run of those that are searched.
fn blocked_behind(
    alloc: Global,
    checked: &Checked,
    most: usize,
    actions: &[Action],
    outside: Outside,
) -> Result<Vec<u64>, AllocError>
    ensures { IfOk result (λ v. 0 < length v.items → LeadsTo (program_of checked.now.tree) outside
        (AreBlocked (program_of checked.now.tree) v.items) actions.now) }
{
    if !are_from(actions, outside) {
        return Ok(Vec::new(alloc));
    }
    let walked = accepts(alloc, checked, actions)?;
    match walked {
        None => Ok(Vec::new(alloc)),
        Some(state) => {
            let processes = blocked_in(alloc, checked, most, &state)?;
            Ok(processes)
        }
    }
}

// A run to the kept state in which this process rests, and which processes are blocked for good there.
fn blocked_at<'a>(
    alloc: Global,
    checked: &'a Checked,
    kept: &mut Kept<'a>,
    resting: Resting,
    most: usize,
    outside: Outside,
) -> Result<Blocked, AllocError>
    ensures { HasResting (program_of checked.now.tree) outside
        → IfOk result (λ b. (complete : Bool) → IsTold (program_of checked.now.tree) outside complete b) }
{
    let run = actions_to(alloc, checked, kept, resting.place, outside)?;
    let processes = blocked_behind(alloc, checked, most, run.as_slice(), outside)?;
    if processes.len() == 0 {
        return Ok(Blocked::NotTold);
    }
    Ok(Blocked::Found { processes, run })
}

/// What is told of processes that are blocked for good, where this process was found.
pub(crate) fn told_blocked<'a>(
    alloc: Global,
    checked: &'a Checked,
    kept: &mut Kept<'a>,
    found: Option<Resting>,
    complete: bool,
    most: usize,
    outside: Outside,
) -> Result<Blocked, AllocError>
    ensures { (complete ≡ true → is_any outside ≡ false → MatchOption found
        (LeadsNowhere (program_of checked.now.tree) outside (HasBlocked (program_of checked.now.tree)))
        (λ r. HasResting (program_of checked.now.tree) outside))
        → IfOk result (IsTold (program_of checked.now.tree) outside complete) }
{
    if !complete {
        return Ok(Blocked::NotLookedFor);
    }
    if outside.is_any() {
        return Ok(Blocked::NotLookedFor);
    }
    match found {
        None => Ok(Blocked::Never),
        Some(resting) => blocked_at(alloc, checked, kept, resting, most, outside),
    }
}
