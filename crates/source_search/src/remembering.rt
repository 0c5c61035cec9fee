use crate::digest::digest_moved;
use crate::kept::{Kept, Origin, Way};
use crate::memo::{Known, Memo, Outcome, resting};
use crate::packed::Packed;
use crate::spot::Spot;
use program::Checked;
use source_reaching::{End, ends};
use sourcemeaning::can_move;
use std::alloc::{AllocError, Global};

impl<'a> Kept<'a> {
    ghost use Rattle.std.specs.Prelude.{◌≡◌, IfOk, IfSome, OnOk, suc, true, ℕ};
    ghost use Rattle.program.specs.Views.{program_of};
    ghost use Rattle.meaning.specs.Runs.{CanMove};
    ghost use Rattle.proof_exploration.specs.Searching.{IsKept};
    ghost use Rattle.source_reaching.specs.Among.{AreCovered, AreEnds, among};
    ghost use Rattle.source_reaching.specs.Ends.{ends_in};
    ghost use Rattle.source_search.specs.Covered.{IsCoveredSo, IsFollowedOwn};
    ghost use Rattle.source_search.specs.Kept.{IsLonger, IsSound, states_of};
    ghost use Rattle.source_search.specs.Known.{AreKnown, AreWithin, IsKnownAt, IsThere, behind, behind_all};
    ghost use Rattle.source_search.specs.Packed.{IsGrown, IsWithin, unpacked};
    ghost use Rattle.source_search.specs.Spots.{IsSpotOf, alone};

    // Keeps the state in which the process at this place of a kept one stands behind an outcome, and the one that it made,
    // unless it is kept; false where no more can be kept.
    fn keep_moved(
        &mut self,
        alloc: Global,
        packed: &Packed,
        place: usize,
        outcome: Outcome,
        origin: Origin,
        way: Way,
    ) -> Result<bool, AllocError>
        requires sound { IsSound self.old }
        requires within { IsWithin self.old.parts packed.now }
        requires there { IsThere self.old.parts (suc place) outcome }
        ensures sound { OnOk result (IsSound self.new) }
        ensures parts { OnOk result (self.new.parts ≡ self.old.parts) }
        ensures longer { OnOk result (IsLonger (states_of self.old) (states_of self.new)) }
        ensures kept { IfOk result (λ kept. kept ≡ true → IsKept (states_of self.new)
            (among (unpacked self.old.parts packed.now).process (behind self.old.parts (suc place) outcome))) }
    {
        let digest = digest_moved(packed, origin.digest, place, outcome);
        if self.has_moved(digest, packed, place, outcome) {
            return Ok(true);
        }
        let Some(next) = packed.moved(alloc, place, outcome)? else {
            return Ok(false);
        };
        let kept = self.add(alloc, next, digest, way)?;
        Ok(kept)
    }

    // Covers the state in which the process at this place of a kept one stands behind an outcome, and the one that it made;
    // false where no more can be kept.
    fn cover_outcome(
        &mut self,
        alloc: Global,
        checked: &'a Checked,
        packed: &Packed,
        place: usize,
        outcome: &Outcome,
        origin: Origin,
    ) -> Result<bool, AllocError>
        requires sound { IsSound self.old }
        requires within { IsWithin self.old.parts packed.now }
        requires there { IsThere self.old.parts (suc place) outcome.now }
        ensures sound { OnOk result (IsSound self.new) }
        ensures grown { OnOk result (IsGrown self.old.parts self.new.parts) }
        ensures longer { OnOk result (IsLonger (states_of self.old) (states_of self.new)) }
        ensures covered { IfOk result (λ kept. kept ≡ true
            → IsCoveredSo (program_of checked.now.tree) (states_of self.new)
            (among (unpacked self.old.parts packed.now).process (behind self.old.parts (suc place) outcome.now))) }
    {
        let process = (place as u64).saturating_add(1);
        let way = origin
            .way(process)
            .with(usize::from(outcome.choice), usize::from(outcome.later));
        if outcome.quiet {
            let kept = self.keep_moved(alloc, packed, place, *outcome, origin, way)?;
            return Ok(kept);
        }
        let Some(next) = packed.moved(alloc, place, *outcome)? else {
            return Ok(false);
        };
        let covered = self.cover(alloc, checked, next, way)?;
        Ok(covered)
    }

    // The same of each outcome.
    fn cover_known(
        &mut self,
        alloc: Global,
        checked: &'a Checked,
        packed: &Packed,
        place: usize,
        outcomes: &[Outcome],
        origin: Origin,
    ) -> Result<bool, AllocError>
        requires sound { IsSound self.old }
        requires within { IsWithin self.old.parts packed.now }
        requires there { AreWithin self.old.parts (suc place) outcomes.now }
        ensures sound { OnOk result (IsSound self.new) }
        ensures grown { OnOk result (IsGrown self.old.parts self.new.parts) }
        ensures longer { OnOk result (IsLonger (states_of self.old) (states_of self.new)) }
        ensures covered { IfOk result (λ kept. kept ≡ true → (n : ℕ) × AreCovered (program_of checked.now.tree)
            (states_of self.new) n (unpacked self.old.parts packed.now).process
            (behind_all self.old.parts (suc place) outcomes.now)) }
    {
        for k in 0..outcomes.len() {
            if !self.cover_outcome(alloc, checked, packed, place, &outcomes[k], origin)? {
                return Ok(false);
            }
        }
        Ok(true)
    }

    // Covers what the process at this place of a kept state, of which this is known, may do next of its own, and tells
    // whether it can move; None where no more can be kept.
    fn follow_known(
        &mut self,
        alloc: Global,
        checked: &'a Checked,
        packed: &Packed,
        origin: Origin,
        place: usize,
        spot: Spot,
        known: &Known,
    ) -> Result<Option<bool>, AllocError>
        requires sound { IsSound self.old }
        requires within { IsWithin self.old.parts packed.now }
        requires spot { IsSpotOf packed.now place spot }
        requires known { IsKnownAt (program_of checked.now.tree) self.old.parts spot known.now }
        ensures sound { OnOk result (IsSound self.new) }
        ensures grown { OnOk result (IsGrown self.old.parts self.new.parts) }
        ensures longer { OnOk result (IsLonger (states_of self.old) (states_of self.new)) }
        ensures followed { IfOk result (λ o. IfSome o (λ moves. IsFollowedOwn (program_of checked.now.tree)
            (states_of self.new) (unpacked self.old.parts packed.now) (suc place))) }
        ensures moves { IfOk result (λ o. IfSome o (λ moves. moves ≡ true
            → CanMove (program_of checked.now.tree) (unpacked self.old.parts packed.now) (suc place))) }
    {
        let outcomes = known.outcomes();
        if !self.cover_known(alloc, checked, packed, place, outcomes, origin)? {
            return Ok(None);
        }
        Ok(Some(outcomes.len() > 0))
    }

    // The same of one that can move, and reaches these, which is remembered.
    fn follow_ends(
        &mut self,
        alloc: Global,
        checked: &'a Checked,
        memo: &mut Memo,
        packed: &Packed,
        origin: Origin,
        place: usize,
        spot: Spot,
        ends: &[End<'a>],
    ) -> Result<bool, AllocError>
        requires sound { IsSound self.old }
        requires within { IsWithin self.old.parts packed.now }
        requires known { AreKnown (program_of checked.now.tree) self.old.parts memo.old }
        requires spot { IsSpotOf packed.now place spot }
        requires ends { AreEnds (program_of checked.now.tree) spot.process (alone self.old.parts spot)
            (ends_in ends.now) }
        requires moves { CanMove (program_of checked.now.tree) (alone self.old.parts spot) spot.process }
        ensures sound { OnOk result (IsSound self.new) }
        ensures grown { OnOk result (IsGrown self.old.parts self.new.parts) }
        ensures longer { OnOk result (IsLonger (states_of self.old) (states_of self.new)) }
        ensures known { OnOk result (AreKnown (program_of checked.now.tree) self.new.parts memo.new) }
        ensures followed { IfOk result (λ kept. kept ≡ true → IsFollowedOwn (program_of checked.now.tree)
            (states_of self.new) (unpacked self.old.parts packed.now) (suc place)) }
    {
        let before = packed.processes.len();
        let Some(known) = self.parts.learn(alloc, checked, spot, before, ends)? else {
            return Ok(false);
        };
        let outcomes = known.outcomes();
        let kept = self.cover_known(alloc, checked, packed, place, outcomes, origin)?;
        memo.keep(known);
        Ok(kept)
    }

    // The same of one of which nothing is remembered, and tells whether it can move; None where no more can be kept.
    fn follow_new(
        &mut self,
        alloc: Global,
        checked: &'a Checked,
        memo: &mut Memo,
        packed: &Packed,
        origin: Origin,
        place: usize,
        spot: Spot,
    ) -> Result<Option<bool>, AllocError>
        requires sound { IsSound self.old }
        requires within { IsWithin self.old.parts packed.now }
        requires known { AreKnown (program_of checked.now.tree) self.old.parts memo.old }
        requires spot { IsSpotOf packed.now place spot }
        ensures sound { OnOk result (IsSound self.new) }
        ensures grown { OnOk result (IsGrown self.old.parts self.new.parts) }
        ensures longer { OnOk result (IsLonger (states_of self.old) (states_of self.new)) }
        ensures known { OnOk result (AreKnown (program_of checked.now.tree) self.new.parts memo.new) }
        ensures followed { IfOk result (λ o. IfSome o (λ moves. IsFollowedOwn (program_of checked.now.tree)
            (states_of self.new) (unpacked self.old.parts packed.now) (suc place))) }
        ensures moves { IfOk result (λ o. IfSome o (λ moves. moves ≡ true
            → CanMove (program_of checked.now.tree) (unpacked self.old.parts packed.now) (suc place))) }
    {
        let Some(small) = self.parts.small(alloc, spot)? else {
            return Ok(None);
        };
        let process = u64::from(spot.process);
        if !can_move(&small, checked, process) {
            memo.keep(resting(spot));
            return Ok(Some(false));
        }
        let Some(ends) = ends(alloc, checked, small, process)? else {
            return Ok(None);
        };
        let listed = ends.as_slice();
        if !self.follow_ends(alloc, checked, memo, packed, origin, place, spot, listed)? {
            return Ok(None);
        }
        Ok(Some(true))
    }

    /// Covers what the process at this place of a kept state may do next of its own, as it is remembered or as it is found
    /// out, and tells whether it can move; None where no more can be kept.
    pub fn follow_spot(
        &mut self,
        alloc: Global,
        checked: &'a Checked,
        memo: &mut Memo,
        packed: &Packed,
        origin: Origin,
        place: usize,
    ) -> Result<Option<bool>, AllocError>
        requires sound { IsSound self.old }
        requires within { IsWithin self.old.parts packed.now }
        requires known { AreKnown (program_of checked.now.tree) self.old.parts memo.old }
        ensures sound { OnOk result (IsSound self.new) }
        ensures grown { OnOk result (IsGrown self.old.parts self.new.parts) }
        ensures longer { OnOk result (IsLonger (states_of self.old) (states_of self.new)) }
        ensures known { OnOk result (AreKnown (program_of checked.now.tree) self.new.parts memo.new) }
        ensures followed { IfOk result (λ o. IfSome o (λ moves. IsFollowedOwn (program_of checked.now.tree)
            (states_of self.new) (unpacked self.old.parts packed.now) (suc place))) }
        ensures moves { IfOk result (λ o. IfSome o (λ moves. moves ≡ true
            → CanMove (program_of checked.now.tree) (unpacked self.old.parts packed.now) (suc place))) }
    {
        let Some(spot) = packed.spot(place) else {
            return Ok(None);
        };
        if self.parts.is_held_up(spot) {
            return Ok(Some(false));
        }
        let Some(known) = memo.find(spot) else {
            return self.follow_new(alloc, checked, memo, packed, origin, place, spot);
        };
        let moves = self.follow_known(alloc, checked, packed, origin, place, spot, known)?;
        Ok(moves)
    }
}
