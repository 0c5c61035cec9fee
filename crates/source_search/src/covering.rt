use crate::kept::{Kept, Way};
use crate::outside::Outside;
use crate::packed::Packed;
use crate::parts::Parts;
use crate::replay::OPENING;
use crate::spot::Spot;
use program::Checked;
use source_reaching::{Trail, Unread, follow_own, is_lost, looks_calm};
use source_states::SourceState;
use std::alloc::{AllocError, Global};

// How many times a process is followed at most before a state is kept.
const MOST: usize = 1000;

impl<'a> Parts<'a> {
    ghost use Rattle.std.specs.Prelude.{IfOk, IfSome, OnOk};
    ghost use Rattle.program.specs.Views.{program_of};
    ghost use Rattle.source_search.specs.Covered.{IsAheadOf};
    ghost use Rattle.source_search.specs.Packed.{IsGrown, IsWithin};
    ghost use Rattle.source_search.specs.Spots.{IsAlone, IsSpotOf};
    ghost use Rattle.source_states.specs.States.{state_of};

    // The place of the first process of a kept state whose next action looks calm. Nothing is promised of it.
    fn calm_in(&self, packed: &Packed) -> Option<usize> {
        let table = self.tables.get(packed.table as usize)?;
        for place in 0..packed.processes.len() {
            let part = self.processes.get(packed.processes[place] as usize)?;
            if looks_calm(part, table) {
                return Some(place);
            }
        }
        None
    }

    // What the calm actions of the process at this place lead to from a kept state, and notes them; None where nothing is
    // known of it.
    fn follow_at<T: Trail>(
        &mut self,
        alloc: Global,
        checked: &'a Checked,
        packed: &Packed,
        place: usize,
        trail: &mut T,
    ) -> Result<Option<Packed>, AllocError>
        ensures grown { OnOk result (IsGrown self.old self.new) }
        ensures ahead { IsWithin self.old packed.now → IfOk result (λ o. IfSome o
            (λ x. IsAheadOf (program_of checked.now.tree) self.old self.new packed.now x)) }
    {
        let Some(spot) = packed.spot(place) else {
            return Ok(None);
        };
        let Some(mut small) = self.small(alloc, spot)? else {
            return Ok(None);
        };
        self.follow_from(alloc, checked, packed, place, spot, &mut small, trail)
    }

    // The same, where the process is alone at its spot.
    fn follow_from<T: Trail>(
        &mut self,
        alloc: Global,
        checked: &'a Checked,
        packed: &Packed,
        place: usize,
        spot: Spot,
        small: &mut SourceState<'a>,
        trail: &mut T,
    ) -> Result<Option<Packed>, AllocError>
        requires spot { IsSpotOf packed.now place spot }
        requires alone { IsAlone self.old spot (state_of small.old) }
        ensures grown { OnOk result (IsGrown self.old self.new) }
        ensures ahead { IsWithin self.old packed.now → IfOk result (λ o. IfSome o
            (λ x. IsAheadOf (program_of checked.now.tree) self.old self.new packed.now x)) }
    {
        let followed = follow_own(alloc, checked, small, u64::from(spot.process), trail)?;
        if is_lost(&followed) {
            return Ok(None);
        }
        self.merge(alloc, checked.program(), packed, small)
    }

    /// What calm actions of one process at a time lead to from a kept state, and notes them; None where nothing is known
    /// of it. Where it is covered, the state itself is.
    pub fn settle<T: Trail>(
        &mut self,
        alloc: Global,
        checked: &'a Checked,
        packed: Packed,
        trail: &mut T,
    ) -> Result<Option<Packed>, AllocError>
        ensures grown { OnOk result (IsGrown self.old self.new) }
        ensures ahead { IsWithin self.old packed → IfOk result (λ o. IfSome o
            (λ x. IsAheadOf (program_of checked.now.tree) self.old self.new packed x)) }
    {
        let mut settled = packed;
        for _ in 0..MOST {
            let Some(place) = self.calm_in(&settled) else {
                return Ok(Some(settled));
            };
            let Some(next) = self.follow_at(alloc, checked, &settled, place, trail)? else {
                return Ok(None);
            };
            if next.is_same(&settled) {
                return Ok(Some(settled));
            }
            settled = next;
        }
        Ok(Some(settled))
    }
}

impl<'a> Kept<'a> {
    ghost use Rattle.std.specs.Prelude.{◌≡◌, IfOk, OnOk, true};
    ghost use Rattle.program.specs.Views.{program_of};
    ghost use Rattle.source_states.specs.States.{state_of};
    ghost use Rattle.source_search.specs.Covered.{IsCoveredSo};
    ghost use Rattle.source_search.specs.Found.{interleaves};
    ghost use Rattle.source_search.specs.Kept.{IsLonger, IsSeen, IsSound, states_of};
    ghost use Rattle.source_search.specs.Packed.{IsGrown, IsWithin, unpacked};

    /// Keeps a state, or the one that calm actions lead to from it; false where no more can be kept.
    pub fn cover(
        &mut self,
        alloc: Global,
        checked: &'a Checked,
        packed: Packed,
        way: Way,
    ) -> Result<bool, AllocError>
        requires sound { IsSound self.old }
        requires within { IsWithin self.old.parts packed }
        ensures sound { OnOk result (IsSound self.new) }
        ensures grown { OnOk result (IsGrown self.old.parts self.new.parts) }
        ensures longer { OnOk result (IsLonger (states_of self.old) (states_of self.new)) }
        ensures covered { IfOk result (λ kept. kept ≡ true → IsCoveredSo (program_of checked.now.tree)
            (states_of self.new) (unpacked self.old.parts packed)) }
    {
        let Some(settled) = self.parts.settle(alloc, checked, packed, &mut Unread)? else {
            return Ok(false);
        };
        let kept = self.keep_packed(alloc, settled, way)?;
        Ok(kept)
    }

    /// Keeps the state in which every run begins, or the one that calm actions lead to from it.
    pub fn open(
        &mut self,
        alloc: Global,
        checked: &'a Checked,
        state: SourceState<'a>,
        outside: Outside,
    ) -> Result<bool, AllocError>
        requires sound { IsSound self.old }
        ensures sound { OnOk result (IsSound self.new) }
        ensures seen { IfOk result (λ kept. kept ≡ true → IsSeen (program_of checked.now.tree) (interleaves outside)
            (states_of self.new) (state_of state.entry)) }
    {
        if outside.interleaves() {
            return self.keep(alloc, checked, state, OPENING);
        }
        let Some(packed) = self.parts.pack(alloc, checked.program(), &state, 0, 0)? else {
            return Ok(false);
        };
        self.cover(alloc, checked, packed, OPENING)
    }
}
