ghost use Rattle.std.specs.Prelude.{◌≡◌, All, IfOk, true};
ghost use Rattle.program.specs.Views.{program_of};
ghost use Rattle.source_search.specs.Ends.{IsEnded, IsLostAt};
ghost use Rattle.source_search.specs.Kept.{IsSound, states_in};
ghost use Rattle.source_states.specs.States.{state_of};

use crate::digest::digest_packed;
use crate::ends::are_over;
use crate::holding::search_from;
use crate::kept::Kept;
use crate::living::Aim;
use crate::memo::Memo;
use crate::packed::Packed;
use crate::parts::Parts;
use program::Checked;
use source_states::SourceState;
use std::alloc::{AllocError, Global};

/// Those kept states from which no run is found to end are the ones that aren't live where every process is to be over.
impl<'a> Kept<'a> {
    ghost use Rattle.std.specs.Prelude.{◌⊎◌, MatchOption, OnOk, false};
    ghost use Rattle.source_search.specs.Ending.{IsEndLookedFor};
    ghost use Rattle.source_search.specs.Ends.{GoesOnInOne};
    ghost use Rattle.source_search.specs.Known.{AreKnown};
    ghost use Rattle.source_search.specs.Packed.{HasKey, IsGrown, IsWithin, unpacked};

    // Whether a kept state is among the live ones, or every process is over in it.
    fn is_endable(&self, packed: &Packed) -> bool
        ensures endable { result ≡ true
            → HasKey self.now.states.items packed.now ⊎ IsEnded (unpacked self.now.parts packed.now) }
        ensures goes_on { result ≡ false → IsEnded (unpacked self.now.parts packed.now) → ⊥ }
    {
        if self.is_noted(digest_packed(packed), packed) {
            return true;
        }
        are_over(&self.parts, packed)
    }

    // The place of the first of these states that isn't.
    fn first_lost(&self, states: &[Packed]) -> Option<usize>
        ensures { MatchOption result
            (All (λ x. HasKey self.now.states.items x ⊎ IsEnded (unpacked self.now.parts x)) states.now)
            (λ place. GoesOnInOne (states_in self.now.parts states.now)) }
    {
        for place in 0..states.len() {
            if !self.is_endable(&states[place]) {
                return Some(place);
            }
        }
        None
    }

    /// The place of the first of these states from which no run is found to end; none where from each of them one ends.
    pub fn look_for_lost(
        &mut self,
        alloc: Global,
        checked: &'a Checked,
        memo: &mut Memo,
        states: &[Packed],
    ) -> Result<Option<usize>, AllocError>
        requires within { All (IsWithin self.old.parts) states.now }
        requires known { AreKnown (program_of checked.now.tree) self.old.parts memo.old }
        ensures grown { OnOk result (IsGrown self.old.parts self.new.parts) }
        ensures found { IfOk result
            (IsEndLookedFor (program_of checked.now.tree) (states_in self.old.parts states.now)) }
    {
        self.find_live(alloc, checked, memo, states, Aim::End)?;
        Ok(self.first_lost(states))
    }
}

// Whether in each of these states some process isn't over.
fn none_ended(parts: &Parts, states: &[Packed]) -> bool
    ensures { result ≡ true → All (λ s. IsEnded s → ⊥) (states_in parts.now states.now) }
{
    for packed in states {
        if are_over(parts, packed) {
            return false;
        }
    }
    true
}

// Whether no run from a state ends, where none is kept yet; false too where not all that it leads to could be kept.
fn is_lost_from<'a>(
    alloc: Global,
    checked: &'a Checked,
    kept: &mut Kept<'a>,
    most: usize,
    state: &SourceState<'a>,
) -> Result<bool, AllocError>
    requires sound { IsSound kept.old }
    ensures { IfOk result (λ lost. lost ≡ true
        → IsLostAt (program_of checked.now.tree) (state_of state.now)) }
{
    let _program = checked.program();
    let copied = state.copy(alloc)?;
    if !search_from(alloc, checked, kept, most, copied)? {
        return Ok(false);
    }
    Ok(none_ended(&kept.parts, kept.states.as_slice()))
}

/// Whether a state, where a run leads to it, can't end any more; false too where that can't be told with so many states
/// kept.
pub(crate) fn is_lost<'a>(
    alloc: Global,
    checked: &'a Checked,
    most: usize,
    state: &SourceState<'a>,
) -> Result<bool, AllocError>
    ensures { IfOk result (λ lost. lost ≡ true
        → IsLostAt (program_of checked.now.tree) (state_of state.now)) }
{
    let mut kept = Kept::new(alloc, most);
    is_lost_from(alloc, checked, &mut kept, most, state)
}
