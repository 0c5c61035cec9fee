ghost use Rattle.std.specs.Prelude.{◌≡◌, IfOk, map, true};
ghost use Rattle.program.specs.Views.{program_of};
ghost use Rattle.meaning.specs.Runs.{Leads};
ghost use Rattle.source_states.specs.Actions.{action_of};
ghost use Rattle.source_states.specs.States.{state_of};

use crate::digest::digest_packed;
use crate::holding::NOTHING;
use crate::kept::{Kept, Way};
use crate::memo::{Memo, Outcome};
use crate::outside::are_from;
use crate::packed::Packed;
use crate::replay::go_between;
use program::Checked;
use source_reaching::Unread;
use source_states::{Action, SourceState};
use std::alloc::{AllocError, Global};

// Does these actions in a state, one after another; false where one isn't possible.
fn walk<'a>(
    alloc: Global,
    checked: &'a Checked,
    actions: &[Action],
    state: &mut SourceState<'a>,
) -> Result<bool, AllocError>
    ensures { IfOk result (λ b. b ≡ true → Leads (program_of checked.now.tree) (state_of state.old)
        (map action_of actions.now) (state_of state.new)) }
{
    for action in actions {
        if !state.advance(alloc, checked.program(), action)? {
            return Ok(false);
        }
    }
    Ok(true)
}

/// Where a process has several choices, each of them by itself.
impl<'a> Kept<'a> {
    ghost use Rattle.std.specs.Prelude.{IfSome, OnOk};
    ghost use Rattle.source_search.specs.Kept.{IsSound, states_of};
    ghost use Rattle.source_search.specs.Known.{AreKnown};
    ghost use Rattle.source_search.specs.Living.{ComesToOne};
    ghost use Rattle.source_search.specs.Packed.{IsGrown, IsWithin, unpacked};

    // Whether these actions are processes' own, and lead from a state to a live one.
    fn is_walked(
        &mut self,
        alloc: Global,
        checked: &'a Checked,
        actions: &[Action],
        state: &mut SourceState<'a>,
    ) -> Result<bool, AllocError>
        requires sound { IsSound self.old }
        ensures grown { OnOk result (IsGrown self.old.parts self.new.parts) }
        ensures states { OnOk result (self.new.states ≡ self.old.states) }
        ensures comes { IfOk result (λ b. b ≡ true
            → ComesToOne (program_of checked.now.tree) (states_of self.old) (state_of state.old)) }
    {
        if !are_from(actions, NOTHING) {
            return Ok(false);
        }
        if !walk(alloc, checked, actions, state)? {
            return Ok(false);
        }
        let Some(packed) = self.parts.pack(alloc, checked.program(), state, 0, 0)? else {
            return Ok(false);
        };
        Ok(self.is_noted(digest_packed(&packed), &packed))
    }

    // The same from a kept state.
    fn is_led(
        &mut self,
        alloc: Global,
        checked: &'a Checked,
        packed: &Packed,
        actions: &[Action],
    ) -> Result<bool, AllocError>
        requires sound { IsSound self.old }
        ensures grown { OnOk result (IsGrown self.old.parts self.new.parts) }
        ensures states { OnOk result (self.new.states ≡ self.old.states) }
        ensures comes { IfOk result (λ b. b ≡ true → ComesToOne (program_of checked.now.tree)
            (states_of self.old) (unpacked self.old.parts packed.now)) }
    {
        match self.parts.unpack(alloc, packed)? {
            None => Ok(false),
            Some(mut state) => self.is_walked(alloc, checked, actions, &mut state),
        }
    }

    // The actions by which the process at this place of a kept state comes to an outcome, where that leads to a live state.
    fn way_by(
        &mut self,
        alloc: Global,
        checked: &'a Checked,
        packed: &Packed,
        place: usize,
        outcome: Outcome,
    ) -> Result<Option<Vec<Action>>, AllocError>
        ensures grown { OnOk result (IsGrown self.old.parts self.new.parts) }
        ensures states { OnOk result (self.new.states ≡ self.old.states) }
    {
        let Some(next) = packed.moved(alloc, place, outcome)? else {
            return Ok(None);
        };
        let Some(settled) = self.parts.settle(alloc, checked, next, &mut Unread)? else {
            return Ok(None);
        };
        if !self.is_noted(digest_packed(&settled), &settled) {
            return Ok(None);
        }
        let process = (place as u64).saturating_add(1);
        let way = Way::new(0, process, usize::from(outcome.choice)).with(
            usize::from(outcome.choice),
            usize::from(outcome.later),
        );
        let actions = go_between(alloc, checked, &mut self.parts, packed, &settled, way)?;
        Ok(Some(actions))
    }

    // Whether an outcome of the process at this place of a kept state leads to a live state.
    fn leads_by(
        &mut self,
        alloc: Global,
        checked: &'a Checked,
        packed: &Packed,
        place: usize,
        outcome: Outcome,
    ) -> Result<bool, AllocError>
        requires sound { IsSound self.old }
        requires within { IsWithin self.old.parts packed.now }
        ensures sound { OnOk result (IsSound self.new) }
        ensures grown { OnOk result (IsGrown self.old.parts self.new.parts) }
        ensures same { OnOk result (states_of self.new ≡ states_of self.old) }
        ensures comes { IfOk result (λ b. b ≡ true → ComesToOne (program_of checked.now.tree)
            (states_of self.old) (unpacked self.old.parts packed.now)) }
    {
        match self.way_by(alloc, checked, packed, place, outcome)? {
            None => Ok(false),
            Some(actions) => {
                let led = self.is_led(alloc, checked, packed, actions.as_slice())?;
                Ok(led)
            }
        }
    }

    // Whether one of these does.
    fn leads_by_one(
        &mut self,
        alloc: Global,
        checked: &'a Checked,
        packed: &Packed,
        place: usize,
        outcomes: &[Outcome],
    ) -> Result<bool, AllocError>
        requires sound { IsSound self.old }
        requires within { IsWithin self.old.parts packed.now }
        ensures sound { OnOk result (IsSound self.new) }
        ensures grown { OnOk result (IsGrown self.old.parts self.new.parts) }
        ensures same { OnOk result (states_of self.new ≡ states_of self.old) }
        ensures comes { IfOk result (λ b. b ≡ true → ComesToOne (program_of checked.now.tree)
            (states_of self.old) (unpacked self.old.parts packed.now)) }
    {
        for k in 0..outcomes.len() {
            if self.leads_by(alloc, checked, packed, place, outcomes[k])? {
                return Ok(true);
            }
        }
        Ok(false)
    }

    // Whether one of the several that are remembered of the process at this place does.
    fn chooses(
        &mut self,
        alloc: Global,
        checked: &'a Checked,
        memo: &Memo,
        packed: &Packed,
        place: usize,
    ) -> Result<bool, AllocError>
        requires sound { IsSound self.old }
        requires within { IsWithin self.old.parts packed.now }
        ensures sound { OnOk result (IsSound self.new) }
        ensures grown { OnOk result (IsGrown self.old.parts self.new.parts) }
        ensures same { OnOk result (states_of self.new ≡ states_of self.old) }
        ensures comes { IfOk result (λ b. b ≡ true → ComesToOne (program_of checked.now.tree)
            (states_of self.old) (unpacked self.old.parts packed.now)) }
    {
        let Some(spot) = packed.spot(place) else {
            return Ok(false);
        };
        let Some(known) = memo.find(spot) else {
            return Ok(false);
        };
        let outcomes = known.outcomes();
        if outcomes.len() < 2 {
            return Ok(false);
        }
        self.leads_by_one(alloc, checked, packed, place, outcomes)
    }

    /// Whether some process of a kept state has several choices that are remembered, and by one of them it leads to a live
    /// state.
    pub fn goes_by_choice(
        &mut self,
        alloc: Global,
        checked: &'a Checked,
        memo: &Memo,
        packed: &Packed,
    ) -> Result<bool, AllocError>
        requires sound { IsSound self.old }
        requires within { IsWithin self.old.parts packed.now }
        ensures sound { OnOk result (IsSound self.new) }
        ensures grown { OnOk result (IsGrown self.old.parts self.new.parts) }
        ensures same { OnOk result (states_of self.new ≡ states_of self.old) }
        ensures comes { IfOk result (λ b. b ≡ true → ComesToOne (program_of checked.now.tree)
            (states_of self.old) (unpacked self.old.parts packed.now)) }
    {
        for place in 0..packed.processes.len() {
            if self.chooses(alloc, checked, memo, packed, place)? {
                return Ok(true);
            }
        }
        Ok(false)
    }
}
