ghost use Rattle.std.specs.Prelude.{◌≡◌, IfOk, IfSome, None, OnOk, false, suc, true};
ghost use Rattle.meaning.specs.Runs.{IsStray};
ghost use Rattle.source_states.specs.States.{state_of};

use crate::digest::digest_packed;
use crate::kept::{Kept, Origin};
use crate::memo::Memo;
use crate::packed::Packed;
use crate::parts::Parts;
use crate::spot::Spot;
use program::{Checked, Member, Program};
use source_states::SourceState;
use std::alloc::{AllocError, Global};

/// Wakes a process that waits, though nobody notified it, and answers its condition; None where it doesn't wait.
pub(crate) fn wake(state: &mut SourceState, process: u64) -> Option<Member>
    ensures { IfSome result (λ c. IsStray (state_of state.old) process c (state_of state.new)) }
{
    let condition = state.waits(process)?;
    if !state.stray(process, condition) {
        return None;
    }
    Some(condition)
}

impl<'a> Parts<'a> {
    ghost use Rattle.source_search.specs.Packed.{IsGrown, some_table, table_in};
    ghost use Rattle.source_search.specs.Spots.{IsAlone, IsSpotOf};
    ghost use Rattle.source_search.specs.Waking.{IsAwakeAt, IsWokenOf};

    // Whether the process of this spot waits; so it is where a part isn't there.
    fn is_waiting(&self, spot: Spot) -> bool
        ensures { result ≡ false
            → (some_table (table_in self.now.tables.items spot.table)).waits spot.process ≡ None }
    {
        match self.tables.get(spot.table as usize) {
            None => true,
            Some(table) => table.waits(u64::from(spot.process)).is_some(),
        }
    }

    // Whether the process of this spot waits, and stray wake-ups are searched.
    fn is_woken(&self, spot: Spot, strays: bool) -> bool
        ensures awake { result ≡ false → IsAwakeAt self.now spot strays }
        ensures strays { result ≡ true → strays ≡ true }
    {
        strays && self.is_waiting(spot)
    }

    // A kept state in which the process at this place, which waits at this spot, was woken though nobody notified it; None
    // where there are too many parts.
    fn wake_at(
        &mut self,
        alloc: Global,
        program: &Program,
        packed: &Packed,
        place: usize,
        spot: Spot,
    ) -> Result<Option<Packed>, AllocError>
        requires spot { IsSpotOf packed.now place spot }
        ensures grown { OnOk result (IsGrown self.old self.new) }
        ensures woken { IfOk result (λ o. IfSome o (IsWokenOf self.old self.new packed.now (suc place))) }
    {
        match self.small(alloc, spot)? {
            None => Ok(None),
            Some(mut small) => self.wake_from(alloc, program, packed, place, spot, &mut small),
        }
    }

    // The same, where the process is alone at its spot.
    fn wake_from(
        &mut self,
        alloc: Global,
        program: &Program,
        packed: &Packed,
        place: usize,
        spot: Spot,
        small: &mut SourceState<'a>,
    ) -> Result<Option<Packed>, AllocError>
        requires spot { IsSpotOf packed.now place spot }
        requires alone { IsAlone self.old spot (state_of small.old) }
        ensures grown { OnOk result (IsGrown self.old self.new) }
        ensures woken { IfOk result (λ o. IfSome o (IsWokenOf self.old self.new packed.now (suc place))) }
    {
        let Some(_condition) = wake(small, u64::from(spot.process)) else {
            return Ok(None);
        };
        let Some(table) = self.table_number(alloc, program, small, small.made(), spot.table)? else {
            return Ok(None);
        };
        let mut woken = packed.copy(alloc)?;
        woken.table = table;
        Ok(Some(woken))
    }
}

impl<'a> Kept<'a> {
    ghost use Rattle.std.specs.Prelude.{ℕ};
    ghost use Rattle.program.specs.Views.{program_of};
    ghost use Rattle.meaning.specs.Runs.{CanMove};
    ghost use Rattle.proof_exploration.specs.Exploring.{awake};
    ghost use Rattle.source_search.specs.Covered.{IsFollowedOwn};
    ghost use Rattle.source_search.specs.Kept.{IsLonger, IsSound, states_of};
    ghost use Rattle.source_search.specs.Known.{AreKnown};
    ghost use Rattle.source_search.specs.Packed.{IsGrown, IsWithin, unpacked};
    ghost use Rattle.source_search.specs.Spots.{IsSpotOf};

    // Covers what the process at this place of a kept state, which waits at this spot, may do once a stray wake-up came; false
    // where no more can be kept.
    fn follow_woken(
        &mut self,
        alloc: Global,
        checked: &'a Checked,
        memo: &mut Memo,
        packed: &Packed,
        origin: Origin,
        place: usize,
        spot: Spot,
    ) -> Result<bool, AllocError>
        requires sound { IsSound self.old }
        requires within { IsWithin self.old.parts packed.now }
        requires known { AreKnown (program_of checked.now.tree) self.old.parts memo.old }
        requires spot { IsSpotOf packed.now place spot }
        ensures sound { OnOk result (IsSound self.new) }
        ensures grown { OnOk result (IsGrown self.old.parts self.new.parts) }
        ensures longer { OnOk result (IsLonger (states_of self.old) (states_of self.new)) }
        ensures known { OnOk result (AreKnown (program_of checked.now.tree) self.new.parts memo.new) }
        ensures followed { IfOk result (λ all. all ≡ true → IsFollowedOwn (program_of checked.now.tree)
            (states_of self.new) (awake true (suc place) (unpacked self.old.parts packed.now)) (suc place)) }
    {
        let program = checked.program();
        let Some(woken) = self.parts.wake_at(alloc, program, packed, place, spot)? else {
            return Ok(false);
        };
        let from = Origin {
            place: origin.place,
            digest: digest_packed(&woken),
        };
        let followed = self.follow_spot(alloc, checked, memo, &woken, from, place)?;
        Ok(followed.is_some())
    }

    /// Covers what a turn of the process at this place of a kept state may lead to: an action of its own, with strays behind a
    /// stray wake-up. Tells whether it can move of its own; None where no more can be kept.
    pub fn follow_turn(
        &mut self,
        alloc: Global,
        checked: &'a Checked,
        memo: &mut Memo,
        packed: &Packed,
        origin: Origin,
        place: usize,
        strays: bool,
    ) -> Result<Option<bool>, AllocError>
        requires sound { IsSound self.old }
        requires within { IsWithin self.old.parts packed.now }
        requires known { AreKnown (program_of checked.now.tree) self.old.parts memo.old }
        ensures sound { OnOk result (IsSound self.new) }
        ensures grown { OnOk result (IsGrown self.old.parts self.new.parts) }
        ensures longer { OnOk result (IsLonger (states_of self.old) (states_of self.new)) }
        ensures known { OnOk result (AreKnown (program_of checked.now.tree) self.new.parts memo.new) }
        ensures followed { IfOk result (λ o. IfSome o (λ moves. IsFollowedOwn (program_of checked.now.tree)
            (states_of self.new) (awake strays (suc place) (unpacked self.old.parts packed.now)) (suc place))) }
        ensures moves { IfOk result (λ o. IfSome o (λ moves. moves ≡ true
            → CanMove (program_of checked.now.tree) (unpacked self.old.parts packed.now) (suc place))) }
    {
        let Some(spot) = packed.spot(place) else {
            return Ok(None);
        };
        if !self.parts.is_woken(spot, strays) {
            return self.follow_spot(alloc, checked, memo, packed, origin, place);
        }
        if !self.follow_woken(alloc, checked, memo, packed, origin, place, spot)? {
            return Ok(None);
        }
        Ok(Some(false))
    }
}
