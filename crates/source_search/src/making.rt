ghost use Rattle.std.specs.Prelude.{◌≡◌, IfOk, IfSome, true};
ghost use Rattle.program.specs.Views.{program_of};
ghost use Rattle.source_states.specs.States.{state_of};
ghost use Rattle.source_search.specs.Covered.{IsAheadBeside};
ghost use Rattle.source_search.specs.Known.{AreOnly};

use program::Checked;
use source_reaching::{Trail, follow_own, is_lost, looks_calm};
use source_states::SourceState;
use std::alloc::{AllocError, Global};

/// The number of the process that stands beside this one, of which these are all; 0 where there is none, and None where
/// there are others.
pub(crate) fn other_of(numbers: &[u64], process: u64) -> Option<u64>
    ensures { IfSome result (AreOnly numbers.now process) }
{
    if numbers.len() == 1 {
        return Some(0);
    }
    if numbers.len() != 2 {
        return None;
    }
    if numbers[0] != process || numbers[1] == 0 {
        return None;
    }
    Some(numbers[1])
}

/// Whether the next action of a process of this number doesn't look calm, and nobody was waiting for its end. Nothing is
/// promised of it.
pub(crate) fn is_quiet(state: &SourceState, number: u64) -> bool {
    let Some(process) = state.process(number) else {
        return false;
    };
    state.over(number).is_none() && !looks_calm(process, state.table())
}

// Whether the next action of a process of this number looks calm.
fn is_calm_at(state: &SourceState, number: u64) -> bool {
    match state.process(number) {
        None => false,
        Some(process) => looks_calm(process, state.table()),
    }
}

/// Follows the process that was made last, where one was and there had been so many before, as long as its next action is
/// calm and there is no choice; but first the one that made it, of this number, was to be followed, so nothing is done
/// while its own next action looks calm. False where nothing is known of the state.
pub(crate) fn follow_made<'a, T: Trail>(
    alloc: Global,
    checked: &'a Checked,
    state: &mut SourceState<'a>,
    process: u64,
    before: usize,
    trail: &mut T,
) -> Result<bool, AllocError>
    ensures { IfOk result (λ known. known ≡ true
        → IsAheadBeside (program_of checked.now.tree) (state_of state.old) (state_of state.new)) }
{
    let child = state.made();
    if child == before as u64 || is_calm_at(state, process) {
        return Ok(true);
    }
    let Some(_) = state.process(child) else {
        return Ok(true);
    };
    let followed = follow_own(alloc, checked, state, child, trail)?;
    Ok(!is_lost(&followed))
}
