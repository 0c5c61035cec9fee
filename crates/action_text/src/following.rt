ghost use Rattle.std.specs.Prelude.{◌≡◌, IfOk, MatchOption, MatchResult, map};
ghost use Rattle.program.specs.Names.{said_by};
ghost use Rattle.meaning.specs.Runs.{IsRun};
ghost use Rattle.meaning.specs.States.{SourceState};
ghost use Rattle.source_states.specs.Actions.{action_of};
ghost use Rattle.action_text.specs.Following.{EndsSo, IsRefusedText, IsToldRun, OfReading, StopsAfter};
ghost use Rattle.action_text.specs.declared.following.FollowFault.TheVariants.{Memory};

use crate::ends::{RunEnd, end_of};
use crate::reading::{ReadActionsFault, read_actions};
use program::Checked;
use source_states::Action;
use sourcemeaning::{accepts, run_length};
use std::alloc::{AllocError, Global};
use thiserror::Error;

/// A run that a text tells.
#[derive(Drop)]
pub struct ToldRun {
    /// Its actions.
    pub actions: Vec<Action>,
    /// How it ends.
    pub end: RunEnd,
}

/// Why a text tells no run of a program. Lines and actions are numbered from 1.
#[derive(Clone, Copy, PartialEq, Eq, Debug, Error)]
pub enum FollowFault {
    /// The line of this number is the first that is no action's, or that has no end.
    #[error("action line {0}")]
    Line(u64),
    /// The action of this number is the first that can't come next.
    #[error("action {0} is none that can come next")]
    Action(u64),
    /// There is no memory for the run.
    #[error("memory")]
    Memory,
}

impl From<AllocError> for FollowFault {
    ghost from_gives = { λ _ f. f ≡ Memory };

    fn from(_error: AllocError) -> FollowFault {
        FollowFault::Memory
    }
}

impl From<ReadActionsFault> for FollowFault {
    ghost from_gives = { OfReading };

    fn from(fault: ReadActionsFault) -> FollowFault {
        match fault {
            ReadActionsFault::Line(number) => FollowFault::Line(number),
            ReadActionsFault::Memory => FollowFault::Memory,
        }
    }
}

/// The run of a program that a text tells, as `read_actions` reads it. It is followed by the meaning of the source: whoever
/// wrote it, it is tested and not trusted.
///
/// # Errors
///
/// The first line that is no action's; else the first action that can't come next. `Memory` may come at any point.
pub fn follow_text(alloc: Global, checked: &Checked, text: &[u8]) -> Result<ToldRun, FollowFault>
    ensures { MatchResult result (IsToldRun checked.now text.now) (IsRefusedText checked.now text.now) }
{
    let actions = read_actions(alloc, checked.names(), text)?;
    let end = end_of_actions(alloc, checked, actions.as_slice())?;
    Ok(ToldRun { actions, end })
}

// How the run ends that these actions are.
fn end_of_actions(
    alloc: Global,
    checked: &Checked,
    actions: &[Action],
) -> Result<RunEnd, FollowFault>
    ensures { MatchResult result
        (λ end. (s : SourceState) × IsRun (said_by checked.now) (map action_of actions.now) s
        × EndsSo end (said_by checked.now) s)
        (StopsAfter (said_by checked.now) actions.now) }
{
    match end_of_run(alloc, checked, actions)? {
        Some(end) => Ok(end),
        None => Err(first_refused(alloc, checked, actions)?),
    }
}

// The same; None where they are no run.
fn end_of_run(
    alloc: Global,
    checked: &Checked,
    actions: &[Action],
) -> Result<Option<RunEnd>, AllocError>
    ensures { IfOk result (λ o. MatchOption o
        ((s : SourceState) → IsRun (said_by checked.now) (map action_of actions.now) s → ⊥)
        (λ end. (s : SourceState) × IsRun (said_by checked.now) (map action_of actions.now) s
        × EndsSo end (said_by checked.now) s)) }
{
    match accepts(alloc, checked, actions)? {
        Some(state) => Ok(Some(end_of(alloc, checked, &state)?)),
        None => Ok(None),
    }
}

// The first of these actions that can't come next, where they are no run.
fn first_refused(
    alloc: Global,
    checked: &Checked,
    actions: &[Action],
) -> Result<FollowFault, AllocError>
    requires { (s : SourceState) → IsRun (said_by checked.now) (map action_of actions.now) s → ⊥ }
    ensures { IfOk result (StopsAfter (said_by checked.now) actions.now) }
{
    let count = run_length(alloc, checked, actions)?;
    Ok(FollowFault::Action(count as u64 + 1))
}
