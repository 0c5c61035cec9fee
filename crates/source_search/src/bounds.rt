ghost use Rattle.std.specs.Prelude.{◌≡◌, ◌<◌, Contains, IfOk, List, length, true, ℕ};
ghost use Rattle.program.specs.Trees.{Program as ProgramOf};
ghost use Rattle.meaning.specs.States.{SourceState as SourceStateOf};
ghost use Rattle.source_states.specs.States.{state_of};
ghost use Rattle.source_search.specs.Bounds.{IsCrowded, IsMet};
ghost use Rattle.source_search.specs.declared.outside.Outside.{Outside as OutsideOf};

use source_states::SourceState;
use std::alloc::{AllocError, Global};

/// Why a search ended before all was kept, or doesn't tell what it found.
#[derive(Clone, Copy)]
pub enum Bound {
    /// As many states are kept as may be.
    States,
    /// More than twelve processes wait on one condition: so many sets of them might be resumed that they aren't tried.
    Waiters,
    /// What comes next of a kept state isn't known: a part or a choice has a number that is too great.
    Lost,
    /// A state was found in which no process can move, or one has aborted, but no run to it.
    Run,
}

// Of how many processes that wait on a condition each set is tried, at most.
const MOST_WAITERS: usize = 12;

// Whether a process waits on a condition with more others than those of which each set is tried.
fn waits_in_crowd(alloc: Global, state: &SourceState, process: u64) -> Result<bool, AllocError>
    ensures { IfOk result (λ b. b ≡ true → IsCrowded (state_of state.now)) }
{
    let Some(condition) = state.waits(process) else {
        return Ok(false);
    };
    let waiting = state.table().waiting(alloc, condition)?;
    Ok(waiting.len() > MOST_WAITERS)
}

// Whether so many wait on some condition.
fn is_crowded(alloc: Global, state: &SourceState) -> Result<bool, AllocError>
    ensures { IfOk result (λ b. b ≡ true → IsCrowded (state_of state.now)) }
{
    for before in 0..state.made() {
        if waits_in_crowd(alloc, state, before + 1)? {
            return Ok(true);
        }
    }
    Ok(false)
}

/// Why a search ended that couldn't keep all that comes next of this state, though it may keep more.
pub(crate) fn bound_at(alloc: Global, state: &SourceState) -> Result<Bound, AllocError>
    ensures { IfOk result (λ b. (p : ProgramOf) (may : OutsideOf) (most : ℕ) (kept : List SourceStateOf)
        → Contains kept (state_of state.now) → length kept < most → IsMet p may most kept b) }
{
    if is_crowded(alloc, state)? {
        return Ok(Bound::Waiters);
    }
    Ok(Bound::Lost)
}
