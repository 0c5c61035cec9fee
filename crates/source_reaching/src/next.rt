ghost use Rattle.std.specs.Prelude.{IfOk, IfSome, IsSome, MatchOption, ℕ};
ghost use Rattle.program.specs.Views.{program_of};
ghost use Rattle.meaning.specs.Runs.{IsStep};
ghost use Rattle.meaning.specs.States.{SourceState as SourceStateOf};
ghost use Rattle.proof_exploration.specs.Exploring.{IsLike};
ghost use Rattle.source_states.specs.Actions.{action_of};
ghost use Rattle.source_states.specs.States.{state_of};

use program::Checked;
use source_states::{Action, SourceState};
use std::alloc::{AllocError, Global};

/// The state to which an action leads, but for what was printed before; None where the action isn't possible. A process
/// that was there is there still.
pub fn next_state<'a>(
    alloc: Global,
    checked: &'a Checked,
    state: &SourceState<'a>,
    action: &Action,
) -> Result<Option<SourceState<'a>>, AllocError>
    ensures next { IfOk result (λ o. MatchOption o
        ((s : SourceStateOf)
        → IsStep (program_of checked.now.tree) (state_of state.now) (action_of action.now) s → ⊥)
        (λ next. (s : SourceStateOf)
        → IsStep (program_of checked.now.tree) (state_of state.now) (action_of action.now) s
        → IsLike (state_of next) s)) }
    ensures stays { IfOk result (λ o. IfSome o (λ next. (t : ℕ) → IsSome ((state_of state.now).process t)
        → IsSome ((state_of next).process t))) }
{
    let mut next = state.copy(alloc)?;
    if !next.advance(alloc, checked.program(), action)? {
        return Ok(None);
    }
    Ok(Some(next))
}

/// The same of a state that isn't needed any more, so that nothing is copied.
pub fn next_of<'a>(
    alloc: Global,
    checked: &'a Checked,
    state: SourceState<'a>,
    action: &Action,
) -> Result<Option<SourceState<'a>>, AllocError>
    ensures next { IfOk result (λ o. MatchOption o
        ((s : SourceStateOf)
        → IsStep (program_of checked.now.tree) (state_of state.entry) (action_of action.now) s → ⊥)
        (λ next. (s : SourceStateOf)
        → IsStep (program_of checked.now.tree) (state_of state.entry) (action_of action.now) s
        → IsLike (state_of next) s)) }
    ensures stays { IfOk result (λ o. IfSome o (λ next. (t : ℕ) → IsSome ((state_of state.entry).process t)
        → IsSome ((state_of next).process t))) }
{
    let mut next = state;
    if !next.advance(alloc, checked.program(), action)? {
        return Ok(None);
    }
    Ok(Some(next))
}
