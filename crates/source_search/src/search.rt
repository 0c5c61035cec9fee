ghost use Rattle.std.specs.Prelude.{◌≡◌, All, IfOk, IfSome, None, OnOk, false, true, ℕ};
ghost use Rattle.program.specs.Views.{program_of};
ghost use Rattle.meaning.specs.Runs.{CanMove};
ghost use Rattle.proof_exploration.specs.Exploring.{IsStuck};
ghost use Rattle.source_search.specs.Found.{HasFailed, interleaves};
ghost use Rattle.source_search.specs.Packed.{unpacked};
ghost use Rattle.source_states.specs.Actions.{action_of};
ghost use Rattle.source_states.specs.States.{state_of};
ghost use Rattle.source_search.specs.Bounds.{IsMet};
ghost use Rattle.source_search.specs.Kept.{IsExpanded, IsLonger, IsSound, NoneIs, states_of};
ghost use Rattle.source_search.specs.Known.{AreKnown};

use crate::bounds::{Bound, bound_at};
use crate::choices::choices;
use crate::digest::digest_packed;
use crate::ends::{has_failed, is_stuck, some_part_failed};
use crate::kept::{Kept, Origin, Way};
use crate::memo::Memo;
use crate::outside::Outside;
use crate::packed::Packed;
use crate::parts::Parts;
use crate::progress::Progress;
use program::Checked;
use source_reaching::{are_all_looked_at, next_state};
use source_states::{Action, SourceState};
use std::alloc::{AllocError, Global};

/// Where the ends that are looked for were found first, and whether all that may come next was kept.
#[derive(Clone, Copy)]
pub(crate) struct Findings {
    /// Whether the search came to its end.
    pub complete: bool,
    /// Why it ended, where it didn't.
    pub bound: Bound,
    /// The place of a state in which no process can move.
    pub stuck: Option<usize>,
    /// The place of a state in which some process has aborted.
    pub aborted: Option<usize>,
}

impl Findings {
    // Looks at a kept state.
    fn look(
        &mut self,
        alloc: Global,
        checked: &Checked,
        state: &SourceState,
        place: usize,
        outside: Outside,
    ) -> Result<(), AllocError>
        ensures complete { OnOk result (self.new.complete ≡ self.old.complete) }
        ensures stuck { OnOk result (self.new.stuck ≡ None → (self.old.stuck ≡ None)
            × (IsStuck (program_of checked.now.tree) (state_of state.now) → ⊥)) }
        ensures aborted { OnOk result (self.new.aborted ≡ None → (self.old.aborted ≡ None)
            × (HasFailed outside (state_of state.now) → ⊥)) }
    {
        if self.stuck.is_none() && is_stuck(alloc, checked, state)? {
            self.stuck = Some(place);
        }
        if self.aborted.is_none() && has_failed(alloc, state, outside)? {
            self.aborted = Some(place);
        }
        Ok(())
    }
}

impl<'a> Kept<'a> {
    ghost use Rattle.std.specs.Prelude.{map};
    ghost use Rattle.source_states.specs.Actions.{action_of};
    ghost use Rattle.source_states.specs.States.{state_of};
    ghost use Rattle.source_search.specs.Kept.{IsFollowed, IsInterleaved, IsLonger, IsSound, LeadsToKept, states_of};

    // Keeps what the state leads to that an action leads to, where it is possible; false where no more can be kept.
    fn take(
        &mut self,
        alloc: Global,
        checked: &'a Checked,
        state: &SourceState<'a>,
        action: &Action,
        way: Way,
    ) -> Result<bool, AllocError>
        requires sound { IsSound self.old }
        ensures sound { OnOk result (IsSound self.new) }
        ensures longer { OnOk result (IsLonger (states_of self.old) (states_of self.new)) }
        ensures kept { IfOk result (λ kept. kept ≡ true
            → LeadsToKept (program_of checked.now.tree) (states_of self.new)
            (state_of state.now) (action_of action.now)) }
    {
        let found = next_state(alloc, checked, state, action)?;
        match found {
            None => Ok(true),
            Some(next) => self.keep(alloc, checked, next, way),
        }
    }

    // Keeps the states to which these actions lead, those that are possible; false where no more can be kept.
    fn take_all(
        &mut self,
        alloc: Global,
        checked: &'a Checked,
        state: &SourceState<'a>,
        before: usize,
        process: u64,
        actions: &[Action],
    ) -> Result<bool, AllocError>
        requires sound { IsSound self.old }
        ensures sound { OnOk result (IsSound self.new) }
        ensures longer { OnOk result (IsLonger (states_of self.old) (states_of self.new)) }
        ensures kept { IfOk result (λ kept. kept ≡ true
            → All (LeadsToKept (program_of checked.now.tree) (states_of self.new)
            (state_of state.now)) (map action_of actions.now)) }
    {
        for choice in 0..actions.len() {
            let way = Way::new(before, process, choice);
            if !self.take(alloc, checked, state, &actions[choice], way)? {
                return Ok(false);
            }
        }
        Ok(true)
    }

    // Keeps the states to which the actions of a process lead; false where no more can be kept.
    fn follow(
        &mut self,
        alloc: Global,
        checked: &'a Checked,
        state: &SourceState<'a>,
        before: usize,
        process: u64,
        outside: Outside,
    ) -> Result<bool, AllocError>
        requires sound { IsSound self.old }
        ensures sound { OnOk result (IsSound self.new) }
        ensures longer { OnOk result (IsLonger (states_of self.old) (states_of self.new)) }
        ensures kept { IfOk result (λ kept. kept ≡ true
            → IsFollowed (program_of checked.now.tree) outside (states_of self.new)
            (state_of state.now) process) }
    {
        let Some(actions) = choices(alloc, checked, state, process, outside)? else {
            return Ok(false);
        };
        let listed = actions.as_slice();
        let all = self.take_all(alloc, checked, state, before, process, listed)?;
        Ok(all)
    }

    // Keeps the states that may come next; false where no more can be kept.
    fn expand(
        &mut self,
        alloc: Global,
        checked: &'a Checked,
        state: &SourceState<'a>,
        before: usize,
        outside: Outside,
    ) -> Result<bool, AllocError>
        requires sound { IsSound self.old }
        ensures sound { OnOk result (IsSound self.new) }
        ensures longer { OnOk result (IsLonger (states_of self.old) (states_of self.new)) }
        ensures kept { IfOk result (λ kept. kept ≡ true
            → IsInterleaved (program_of checked.now.tree) outside (states_of self.new)
            (state_of state.now)) }
    {
        let all = state.numbers(alloc)?;
        let numbers = all.as_slice();
        for number in numbers {
            if !self.follow(alloc, checked, state, before, *number, outside)? {
                return Ok(false);
            }
        }
        Ok(true)
    }
}

// Whether no process can move, and some process isn't over.
fn told_stuck(
    alloc: Global,
    checked: &Checked,
    state: &SourceState,
) -> Result<Option<bool>, AllocError>
    ensures { IfOk result (λ o. IfSome o (λ stuck. stuck ≡ false
        → IsStuck (program_of checked.now.tree) (state_of state.now) → ⊥)) }
{
    let stuck = is_stuck(alloc, checked, state)?;
    Ok(Some(stuck))
}

// Whether no process can move in a kept state of which it is known whether one was seen to, and some process isn't over;
// None where it can't be told.
fn is_stuck_at<'a>(
    alloc: Global,
    checked: &'a Checked,
    parts: &Parts<'a>,
    packed: &Packed,
    moves: bool,
) -> Result<Option<bool>, AllocError>
    requires { moves ≡ true → (t : ℕ) × CanMove (program_of checked.now.tree) (unpacked parts.now packed.now) t }
    ensures { IfOk result (λ o. IfSome o (λ stuck. stuck ≡ false
        → IsStuck (program_of checked.now.tree) (unpacked parts.now packed.now) → ⊥)) }
{
    if moves {
        return Ok(Some(false));
    }
    let Some(state) = parts.unpack(alloc, packed)? else {
        return Ok(None);
    };
    told_stuck(alloc, checked, &state)
}

// Whether one of these holds.
fn either(first: bool, second: bool) -> bool
    ensures { result ≡ true → first ≡ false → second ≡ true }
{
    first || second
}

impl<'a> Kept<'a> {
    ghost use Rattle.std.specs.Prelude.{IfSome, ◌<◌, length, suc, ℕ};
    ghost use Rattle.meaning.specs.Runs.{CanMove};
    ghost use Rattle.proof_exploration.specs.Exploring.{awake};
    ghost use Rattle.source_search.specs.Covered.{IsFollowedOwn};
    ghost use Rattle.source_search.specs.Known.{AreKnown};
    ghost use Rattle.source_search.specs.Packed.{IsGrown, IsWithin, unpacked};

    // Covers what turns of each process of a kept state lead to, and tells whether one can move; None where no more can be
    // kept.
    fn expand_turns(
        &mut self,
        alloc: Global,
        checked: &'a Checked,
        memo: &mut Memo,
        packed: &Packed,
        before: usize,
        strays: bool,
    ) -> Result<Option<bool>, AllocError>
        requires sound { IsSound self.old }
        requires within { IsWithin self.old.parts packed.now }
        requires known { AreKnown (program_of checked.now.tree) self.old.parts memo.old }
        ensures sound { OnOk result (IsSound self.new) }
        ensures grown { OnOk result (IsGrown self.old.parts self.new.parts) }
        ensures longer { OnOk result (IsLonger (states_of self.old) (states_of self.new)) }
        ensures known { OnOk result (AreKnown (program_of checked.now.tree) self.new.parts memo.new) }
        ensures followed { IfOk result (λ o. IfSome o (λ moves. (place : ℕ)
            → place < length packed.now.processes.items → IsFollowedOwn (program_of checked.now.tree)
            (states_of self.new) (awake strays (suc place) (unpacked self.old.parts packed.now)) (suc place))) }
        ensures moves { IfOk result (λ o. IfSome o (λ moves. moves ≡ true
            → (t : ℕ) × CanMove (program_of checked.now.tree) (unpacked self.old.parts packed.now) t)) }
    {
        let origin = Origin {
            place: before,
            digest: digest_packed(packed),
        };
        let mut moves = false;
        for place in 0..packed.processes.len() {
            let Some(able) = self.follow_turn(alloc, checked, memo, packed, origin, place, strays)?
            else {
                return Ok(None);
            };
            moves = either(moves, able);
        }
        Ok(Some(moves))
    }
}

impl Findings {
    ghost use Rattle.source_search.specs.Kept.{IsLookedAt};
    ghost use Rattle.source_search.specs.Known.{AreKnown};

    // Looks at the state that is kept at a place, and keeps what may come next; false where no more can be kept.
    fn look_whole<'a>(
        &mut self,
        alloc: Global,
        checked: &'a Checked,
        kept: &mut Kept<'a>,
        place: usize,
        outside: Outside,
    ) -> Result<bool, AllocError>
        requires interleaved { interleaves outside ≡ true }
        requires sound { IsSound kept.old }
        ensures sound { OnOk result (IsSound kept.new) }
        ensures longer { OnOk result (IsLonger (states_of kept.old) (states_of kept.new)) }
        ensures complete { OnOk result (self.new.complete ≡ self.old.complete) }
        ensures looked { IfOk result (λ all. all ≡ true → IsLookedAt (program_of checked.now.tree) outside
            (states_of kept.old) (states_of kept.new) place self.old self.new) }
    {
        let Some(state) = kept.state(alloc, place)? else {
            return Ok(false);
        };
        self.look(alloc, checked, &state, place, outside)?;
        let all = kept.expand(alloc, checked, &state, place, outside)?;
        Ok(all)
    }

    // Notes a kept state in which a process has aborted.
    fn note_failed(&mut self, parts: &Parts, packed: &Packed, place: usize, outside: Outside)
        ensures complete { self.new.complete ≡ self.old.complete }
        ensures stuck { self.new.stuck ≡ self.old.stuck }
        ensures aborted { self.new.aborted ≡ None → (self.old.aborted ≡ None)
            × (HasFailed outside (unpacked parts.now packed.now) → ⊥) }
    {
        if self.aborted.is_none() && some_part_failed(parts, packed, outside) {
            self.aborted = Some(place);
        }
    }

    // Notes one in which no process can move, and some process isn't over, where it is known whether one was seen to
    // move; false where it can't be told.
    fn note_stuck<'a>(
        &mut self,
        alloc: Global,
        checked: &'a Checked,
        parts: &Parts<'a>,
        packed: &Packed,
        place: usize,
        moves: bool,
    ) -> Result<bool, AllocError>
        requires { moves ≡ true → (t : ℕ) × CanMove (program_of checked.now.tree) (unpacked parts.now packed.now) t }
        ensures complete { OnOk result (self.new.complete ≡ self.old.complete) }
        ensures aborted { OnOk result (self.new.aborted ≡ self.old.aborted) }
        ensures stuck { IfOk result (λ told. told ≡ true → self.new.stuck ≡ None → (self.old.stuck ≡ None)
            × (IsStuck (program_of checked.now.tree) (unpacked parts.now packed.now) → ⊥)) }
    {
        if self.stuck.is_some() {
            return Ok(true);
        }
        let Some(stuck) = is_stuck_at(alloc, checked, parts, packed, moves)? else {
            return Ok(false);
        };
        if stuck {
            self.stuck = Some(place);
        }
        Ok(true)
    }

    // The same of turns, by the parts of the state.
    fn look_turns<'a>(
        &mut self,
        alloc: Global,
        checked: &'a Checked,
        kept: &mut Kept<'a>,
        memo: &mut Memo,
        place: usize,
        outside: Outside,
    ) -> Result<bool, AllocError>
        requires sound { IsSound kept.old }
        requires known { AreKnown (program_of checked.now.tree) kept.old.parts memo.old }
        requires turns { interleaves outside ≡ false }
        ensures known { OnOk result (AreKnown (program_of checked.now.tree) kept.new.parts memo.new) }
        ensures sound { OnOk result (IsSound kept.new) }
        ensures longer { OnOk result (IsLonger (states_of kept.old) (states_of kept.new)) }
        ensures complete { OnOk result (self.new.complete ≡ self.old.complete) }
        ensures looked { IfOk result (λ all. all ≡ true → IsLookedAt (program_of checked.now.tree) outside
            (states_of kept.old) (states_of kept.new) place self.old self.new) }
    {
        let Some(packed) = kept.packed_at(alloc, place)? else {
            return Ok(false);
        };
        self.note_failed(&kept.parts, &packed, place, outside);
        let Some(moves) = kept.expand_turns(alloc, checked, memo, &packed, place, outside.strays)?
        else {
            return Ok(false);
        };
        let told = self.note_stuck(alloc, checked, &kept.parts, &packed, place, moves)?;
        Ok(told)
    }

    // Looks at the state that is kept at a place, and keeps what may come next, or covers it; false where no more can be
    // kept.
    fn look_at<'a>(
        &mut self,
        alloc: Global,
        checked: &'a Checked,
        kept: &mut Kept<'a>,
        memo: &mut Memo,
        place: usize,
        outside: Outside,
    ) -> Result<bool, AllocError>
        requires sound { IsSound kept.old }
        requires known { interleaves outside ≡ false → AreKnown (program_of checked.now.tree) kept.old.parts memo.old }
        ensures known { OnOk result (interleaves outside ≡ false
            → AreKnown (program_of checked.now.tree) kept.new.parts memo.new) }
        ensures sound { OnOk result (IsSound kept.new) }
        ensures longer { OnOk result (IsLonger (states_of kept.old) (states_of kept.new)) }
        ensures complete { OnOk result (self.new.complete ≡ self.old.complete) }
        ensures looked { IfOk result (λ all. all ≡ true → IsLookedAt (program_of checked.now.tree) outside
            (states_of kept.old) (states_of kept.new) place self.old self.new) }
    {
        if outside.interleaves() {
            return self.look_whole(alloc, checked, kept, place, outside);
        }
        memo.fit(alloc, kept.states.len())?;
        self.look_turns(alloc, checked, kept, memo, place, outside)
    }
}

impl<'a> Kept<'a> {
    ghost use Rattle.program.specs.Trees.{Program as ProgramOf};
    ghost use Rattle.source_search.specs.Bounds.{IsMet};
    ghost use Rattle.source_search.specs.declared.outside.Outside.{Outside as OutsideOf};

    // Why a search ended that may keep so many states, and couldn't keep all that comes next of the state at a place.
    fn bound_met(&self, alloc: Global, place: usize, most: usize) -> Result<Bound, AllocError>
        ensures { IfOk result (λ b. (p : ProgramOf) (may : OutsideOf) → IsMet p may most (states_of self.now) b) }
    {
        if self.states.len() >= most {
            return Ok(Bound::States);
        }
        match self.state(alloc, place)? {
            None => Ok(Bound::Lost),
            Some(state) => bound_at(alloc, &state),
        }
    }
}

/// Keeps all states that a run leads to, breadth first, as far as there is room, and tells how far it has come.
pub(crate) fn search<'a, P: Progress>(
    alloc: Global,
    checked: &'a Checked,
    kept: &mut Kept<'a>,
    most: usize,
    outside: Outside,
    progress: &mut P,
) -> Result<Findings, AllocError>
    requires sound { IsSound kept.old }
    ensures sound { OnOk result (IsSound kept.new) }
    ensures longer { OnOk result (IsLonger (states_of kept.old) (states_of kept.new)) }
    ensures bound { IfOk result (λ f. f.complete ≡ false
        → IsMet (program_of checked.now.tree) outside most (states_of kept.new) f.bound) }
    ensures expanded { IfOk result (λ f. f.complete ≡ true
        → All (IsExpanded (program_of checked.now.tree) outside (states_of kept.new))
        (states_of kept.new)) }
    ensures stuck { IfOk result (λ f. f.complete ≡ true
        → NoneIs (IsStuck (program_of checked.now.tree)) (states_of kept.new) f.stuck) }
    ensures aborted { IfOk result (λ f. f.complete ≡ true
        → NoneIs (HasFailed outside) (states_of kept.new) f.aborted) }
{
    let mut findings = Findings {
        complete: false,
        bound: Bound::Lost,
        stuck: None,
        aborted: None,
    };
    let mut memo = Memo::new(alloc);
    for place in 0..most {
        let known = kept.states.as_slice();
        if place >= known.len() {
            findings.complete = true;
            return Ok(findings);
        }
        if !findings.look_at(alloc, checked, kept, &mut memo, place, outside)? {
            findings.bound = kept.bound_met(alloc, place, most)?;
            return Ok(findings);
        }
        progress.looked_at(kept.states.len(), place + 1);
    }
    let all = kept.states.as_slice();
    findings.complete = are_all_looked_at(all.len(), most);
    findings.bound = Bound::States;
    Ok(findings)
}
