ghost use Rattle.std.specs.Prelude.{◌≡◌, ◌≤◌, All, IfOk, MatchBool, Some, length, true};
ghost use Rattle.program.specs.Views.{program_of};
ghost use Rattle.proof_exploration.specs.Blocking.{IsLive};
ghost use Rattle.proof_exploration.specs.Exploring.{IsOver};
ghost use Rattle.source_offers.specs.Stages.{process_of};
ghost use Rattle.source_search.specs.Living.{IsAsked, IsResting};
ghost use Rattle.source_search.specs.Packed.{IsWithin, process_in, unpacked};

use crate::digest::digest_packed;
use crate::ends::{are_over, goes_on_at, is_over};
use crate::kept::{Kept, Origin};
use crate::memo::Memo;
use crate::packed::Packed;
use crate::parts::Parts;
use crate::spot::Spot;
use program::Checked;
use sourcemeaning::can_move;
use std::alloc::{AllocError, Global};

/// A process that isn't over and can't move in a kept state.
#[derive(Clone, Copy)]
pub(crate) struct Resting {
    /// Its number.
    pub process: u64,
    /// The place of the state.
    pub place: usize,
}

/// What states are searched for from which it may still come about: they are the live ones.
#[derive(Clone, Copy)]
pub(crate) enum Aim {
    /// The process of this number, or each where none is named, does something, or is over.
    Act(Option<u64>),
    /// Every process is over.
    End,
}

// Whether a process is asked for: where none is named, each is.
fn is_asked(who: Option<u64>, process: u64) -> bool
    ensures { MatchBool result (IsAsked who process) (IsAsked who process → ⊥) }
{
    match who {
        None => true,
        Some(number) => number == process,
    }
}

// The greater one of two numbers.
fn greater(first: usize, second: usize) -> usize
    ensures first { first ≤ result }
    ensures second { second ≤ result }
{
    if first < second { second } else { first }
}

/// How many processes there are at most in one of these states.
pub(crate) fn most_made(states: &[Packed]) -> usize
    ensures { All (λ x. length x.processes.items ≤ result) states.now }
{
    let mut most = 0;
    for packed in states {
        most = greater(most, packed.processes.len());
    }
    most
}

// Whether a process of a kept state isn't over, and can't move.
fn rests<'a>(
    alloc: Global,
    checked: &'a Checked,
    parts: &Parts<'a>,
    packed: &Packed,
    process: u64,
) -> Result<bool, AllocError>
    requires { IsWithin parts.now packed.now }
    ensures { IfOk result (λ b. MatchBool b
        (IsResting (program_of checked.now.tree) (unpacked parts.now packed.now) process)
        (IsLive (program_of checked.now.tree) (unpacked parts.now packed.now) process)) }
{
    let Some(state) = parts.unpack(alloc, packed)? else {
        return Ok(false);
    };
    if !goes_on_at(&state, process) {
        return Ok(false);
    }
    Ok(!can_move(&state, checked, process))
}

impl<'a> Parts<'a> {
    ghost use Rattle.source_offers.specs.declared.process.Process.{Process as ProcessOf};
    ghost use Rattle.meaning.specs.Processes.{Process as ProcessIn};
    ghost use Rattle.meaning.specs.Runs.{CanMove};
    ghost use Rattle.source_search.specs.Spots.{IsSpotWithin, alone};

    // Whether the process of this spot is over.
    fn is_over(&self, spot: Spot) -> bool
        ensures { result ≡ true → (q : ProcessIn) → process_in self.now.processes.items spot.part ≡ Some q → IsOver q }
    {
        match self.processes.get(spot.part as usize) {
            None => false,
            Some(process) => is_over(process),
        }
    }

    // Whether the process of this spot can move.
    fn can_move(&self, alloc: Global, checked: &'a Checked, spot: Spot) -> Result<bool, AllocError>
        ensures { IfOk result (λ b. b ≡ true
            → CanMove (program_of checked.now.tree) (alone self.now spot) spot.process) }
    {
        let Some(small) = self.small(alloc, spot)? else {
            return Ok(false);
        };
        Ok(can_move(&small, checked, u64::from(spot.process)))
    }
}

/// The states that are found to be live are kept as those of a search are, but their ways aren't.
impl<'a> Kept<'a> {
    ghost use Rattle.std.specs.Prelude.{◌++◌, ◌∷◌, [], Contains, MatchOption, None, OnOk, Option, ℕ, suc};
    ghost use Rattle.source_search.specs.Kept.{IsSound, states_in, states_of};
    ghost use Rattle.source_search.specs.Known.{AreKnown};
    ghost use Rattle.source_search.specs.Living.{AreLiveFor, AreLiveTo, ComesToOne, IsLiveFor, IsLiveTo, IsLookedFor};
    ghost use Rattle.source_search.specs.Living.{RestsInOne};
    ghost use Rattle.source_search.specs.declared.living.Aim.TheVariants.{Act};
    ghost use Rattle.source_search.specs.Packed.{HasKey, IsGrown};

    // Whether the process at this place of a kept state may do something, or is over.
    fn is_able(
        &self,
        alloc: Global,
        checked: &'a Checked,
        memo: &Memo,
        packed: &Packed,
        place: usize,
    ) -> Result<bool, AllocError>
        requires within { IsWithin self.now.parts packed.now }
        requires known { AreKnown (program_of checked.now.tree) self.now.parts memo.now }
        ensures { IfOk result (λ b. b ≡ true
            → IsLive (program_of checked.now.tree) (unpacked self.now.parts packed.now) (suc place)) }
    {
        let Some(spot) = packed.spot(place) else {
            return Ok(false);
        };
        if self.parts.is_over(spot) {
            return Ok(true);
        }
        if self.parts.is_held_up(spot) {
            return Ok(false);
        }
        match memo.find(spot) {
            None => self.parts.can_move(alloc, checked, spot),
            Some(known) => Ok(known.outcomes().len() > 0),
        }
    }

    // The same of one of this number, where it is asked for; else true.
    fn is_able_or_not_asked(
        &self,
        alloc: Global,
        checked: &'a Checked,
        memo: &Memo,
        packed: &Packed,
        who: Option<u64>,
        place: usize,
        process: u64,
    ) -> Result<bool, AllocError>
        requires number { process ≡ suc place }
        requires within { IsWithin self.now.parts packed.now }
        requires known { AreKnown (program_of checked.now.tree) self.now.parts memo.now }
        ensures { IfOk result (λ b. b ≡ true → IsAsked who (suc place)
            → IsLive (program_of checked.now.tree) (unpacked self.now.parts packed.now) (suc place)) }
    {
        if !is_asked(who, process) {
            return Ok(true);
        }
        self.is_able(alloc, checked, memo, packed, place)
    }

    // Whether each process that is asked for may.
    fn are_able(
        &self,
        alloc: Global,
        checked: &'a Checked,
        memo: &Memo,
        packed: &Packed,
        who: Option<u64>,
    ) -> Result<bool, AllocError>
        requires within { IsWithin self.now.parts packed.now }
        requires known { AreKnown (program_of checked.now.tree) self.now.parts memo.now }
        ensures { IfOk result (λ b. b ≡ true
            → IsLiveFor (program_of checked.now.tree) who (unpacked self.now.parts packed.now)) }
    {
        for place in 0..packed.processes.len() {
            let process = place as u64 + 1;
            if !self.is_able_or_not_asked(alloc, checked, memo, packed, who, place, process)? {
                return Ok(false);
            }
        }
        Ok(true)
    }

    // Whether the process at this place of a kept state can move, and all that it leads to is covered by live states.
    fn leads_on(
        &mut self,
        alloc: Global,
        checked: &'a Checked,
        memo: &mut Memo,
        packed: &Packed,
        origin: Origin,
        place: usize,
    ) -> Result<bool, AllocError>
        requires sound { IsSound self.old }
        requires within { IsWithin self.old.parts packed.now }
        requires known { AreKnown (program_of checked.now.tree) self.old.parts memo.old }
        ensures sound { OnOk result (IsSound self.new) }
        ensures grown { OnOk result (IsGrown self.old.parts self.new.parts) }
        ensures known { OnOk result (AreKnown (program_of checked.now.tree) self.new.parts memo.new) }
        ensures same { OnOk result (states_of self.new ≡ states_of self.old) }
        ensures comes { IfOk result (λ b. b ≡ true → ComesToOne (program_of checked.now.tree)
            (states_of self.old) (unpacked self.old.parts packed.now)) }
    {
        let before = self.states.len();
        let moves = self.follow_spot(alloc, checked, memo, packed, origin, place)?;
        if self.states.len() != before {
            // None is, since none may be kept by a search any more.
            self.states.truncate(before);
            return Ok(false);
        }
        match moves {
            None => Ok(false),
            Some(able) => Ok(able),
        }
    }

    // Whether one of its processes does.
    fn goes_on(
        &mut self,
        alloc: Global,
        checked: &'a Checked,
        memo: &mut Memo,
        packed: &Packed,
        origin: Origin,
    ) -> Result<bool, AllocError>
        requires sound { IsSound self.old }
        requires within { IsWithin self.old.parts packed.now }
        requires known { AreKnown (program_of checked.now.tree) self.old.parts memo.old }
        ensures sound { OnOk result (IsSound self.new) }
        ensures grown { OnOk result (IsGrown self.old.parts self.new.parts) }
        ensures known { OnOk result (AreKnown (program_of checked.now.tree) self.new.parts memo.new) }
        ensures same { OnOk result (states_of self.new ≡ states_of self.old) }
        ensures comes { IfOk result (λ b. b ≡ true → ComesToOne (program_of checked.now.tree)
            (states_of self.old) (unpacked self.old.parts packed.now)) }
    {
        for place in 0..packed.processes.len() {
            if self.leads_on(alloc, checked, memo, packed, origin, place)? {
                return Ok(true);
            }
        }
        Ok(false)
    }

    // Whether what is aimed at has come about in a kept state already.
    fn is_there(
        &self,
        alloc: Global,
        checked: &'a Checked,
        memo: &Memo,
        packed: &Packed,
        aim: Aim,
    ) -> Result<bool, AllocError>
        requires within { IsWithin self.now.parts packed.now }
        requires known { AreKnown (program_of checked.now.tree) self.now.parts memo.now }
        ensures { IfOk result (λ b. b ≡ true
            → IsLiveTo (program_of checked.now.tree) aim (unpacked self.now.parts packed.now)) }
    {
        match aim {
            Aim::Act(who) => self.are_able(alloc, checked, memo, packed, who),
            Aim::End => Ok(are_over(&self.parts, packed)),
        }
    }

    // Whether a kept state is live: what is aimed at has come about in it, or it comes to a live one.
    fn is_live(
        &mut self,
        alloc: Global,
        checked: &'a Checked,
        memo: &mut Memo,
        packed: &Packed,
        origin: Origin,
        aim: Aim,
    ) -> Result<bool, AllocError>
        requires sound { IsSound self.old }
        requires within { IsWithin self.old.parts packed.now }
        requires known { AreKnown (program_of checked.now.tree) self.old.parts memo.old }
        requires live { AreLiveTo (program_of checked.now.tree) aim (states_of self.old) }
        ensures sound { OnOk result (IsSound self.new) }
        ensures grown { OnOk result (IsGrown self.old.parts self.new.parts) }
        ensures known { OnOk result (AreKnown (program_of checked.now.tree) self.new.parts memo.new) }
        ensures same { OnOk result (states_of self.new ≡ states_of self.old) }
        ensures live { IfOk result (λ b. b ≡ true
            → IsLiveTo (program_of checked.now.tree) aim (unpacked self.old.parts packed.now)) }
    {
        if self.is_there(alloc, checked, memo, packed, aim)? {
            return Ok(true);
        }
        if self.goes_on(alloc, checked, memo, packed, origin)? {
            return Ok(true);
        }
        let live = self.goes_by_choice(alloc, checked, memo, packed)?;
        Ok(live)
    }

    // Notes a live state.
    fn note_live(&mut self, alloc: Global, packed: Packed, digest: u64) -> Result<(), AllocError>
        ensures parts { OnOk result (self.new.parts ≡ self.old.parts) }
        ensures states { OnOk result (self.new.states.items ≡ self.old.states.items ++ packed ∷ []) }
    {
        self.note_place(alloc, digest)?;
        self.states.push(packed)?;
        Ok(())
    }

    // Looks at a kept state, and notes it where it is live, unless it is noted.
    fn look_again(
        &mut self,
        alloc: Global,
        checked: &'a Checked,
        memo: &mut Memo,
        packed: &Packed,
        aim: Aim,
    ) -> Result<(), AllocError>
        requires sound { IsSound self.old }
        requires within { IsWithin self.old.parts packed.now }
        requires known { AreKnown (program_of checked.now.tree) self.old.parts memo.old }
        requires live { AreLiveTo (program_of checked.now.tree) aim (states_of self.old) }
        ensures sound { OnOk result (IsSound self.new) }
        ensures grown { OnOk result (IsGrown self.old.parts self.new.parts) }
        ensures known { OnOk result (AreKnown (program_of checked.now.tree) self.new.parts memo.new) }
        ensures live { OnOk result (AreLiveTo (program_of checked.now.tree) aim (states_of self.new)) }
    {
        let digest = digest_packed(packed);
        if self.is_noted(digest, packed) {
            return Ok(());
        }
        let copied = packed.copy(alloc)?;
        let origin = Origin { place: 0, digest };
        if !self.is_live(alloc, checked, memo, packed, origin, aim)? {
            return Ok(());
        }
        self.note_live(alloc, copied, digest)?;
        Ok(())
    }

    // The same of each of these states, the last one first, since most actions lead to one further behind.
    fn look_back(
        &mut self,
        alloc: Global,
        checked: &'a Checked,
        memo: &mut Memo,
        states: &[Packed],
        aim: Aim,
    ) -> Result<(), AllocError>
        requires sound { IsSound self.old }
        requires within { All (IsWithin self.old.parts) states.now }
        requires known { AreKnown (program_of checked.now.tree) self.old.parts memo.old }
        requires live { AreLiveTo (program_of checked.now.tree) aim (states_of self.old) }
        ensures sound { OnOk result (IsSound self.new) }
        ensures grown { OnOk result (IsGrown self.old.parts self.new.parts) }
        ensures known { OnOk result (AreKnown (program_of checked.now.tree) self.new.parts memo.new) }
        ensures live { OnOk result (AreLiveTo (program_of checked.now.tree) aim (states_of self.new)) }
    {
        for behind in 0..states.len() {
            let packed = &states[states.len() - 1 - behind];
            self.look_again(alloc, checked, memo, packed, aim)?;
        }
        Ok(())
    }

    // The same until no more are found.
    fn spread(
        &mut self,
        alloc: Global,
        checked: &'a Checked,
        memo: &mut Memo,
        states: &[Packed],
        aim: Aim,
    ) -> Result<(), AllocError>
        requires sound { IsSound self.old }
        requires within { All (IsWithin self.old.parts) states.now }
        requires known { AreKnown (program_of checked.now.tree) self.old.parts memo.old }
        requires live { AreLiveTo (program_of checked.now.tree) aim (states_of self.old) }
        ensures sound { OnOk result (IsSound self.new) }
        ensures grown { OnOk result (IsGrown self.old.parts self.new.parts) }
        ensures known { OnOk result (AreKnown (program_of checked.now.tree) self.new.parts memo.new) }
        ensures live { OnOk result (AreLiveTo (program_of checked.now.tree) aim (states_of self.new)) }
    {
        for _ in 0..states.len() {
            let before = self.states.len();
            self.look_back(alloc, checked, memo, states, aim)?;
            if self.states.len() == before {
                return Ok(());
            }
        }
        Ok(())
    }

    /// Finds those of these states that are live, and keeps them in place of what was kept.
    pub fn find_live(
        &mut self,
        alloc: Global,
        checked: &'a Checked,
        memo: &mut Memo,
        states: &[Packed],
        aim: Aim,
    ) -> Result<(), AllocError>
        requires within { All (IsWithin self.old.parts) states.now }
        requires known { AreKnown (program_of checked.now.tree) self.old.parts memo.old }
        ensures grown { OnOk result (IsGrown self.old.parts self.new.parts) }
        ensures known { OnOk result (AreKnown (program_of checked.now.tree) self.new.parts memo.new) }
        ensures live { OnOk result (AreLiveTo (program_of checked.now.tree) aim (states_of self.new)) }
    {
        self.begin(alloc);
        self.spread(alloc, checked, memo, states, aim)?;
        Ok(())
    }

    // Whether all of these states are among the live ones.
    fn has_all(&self, states: &[Packed]) -> bool
        ensures { result ≡ true → All (HasKey self.now.states.items) states.now }
    {
        for packed in states {
            if !self.is_noted(digest_packed(packed), packed) {
                return false;
            }
        }
        true
    }

    // Whether this process isn't over and can't move in a state that isn't among the live ones.
    fn rests_in(
        &self,
        alloc: Global,
        checked: &'a Checked,
        packed: &Packed,
        process: u64,
    ) -> Result<bool, AllocError>
        requires within { IsWithin self.now.parts packed.now }
        requires live { AreLiveTo (program_of checked.now.tree) (Act (Some process)) (states_of self.now) }
        ensures { IfOk result (λ b. MatchBool b
            (IsResting (program_of checked.now.tree) (unpacked self.now.parts packed.now) process)
            (IsLive (program_of checked.now.tree) (unpacked self.now.parts packed.now) process)) }
    {
        if self.is_noted(digest_packed(packed), packed) {
            return Ok(false);
        }
        rests(alloc, checked, &self.parts, packed, process)
    }

    // The place of the first of these states in which it is so.
    fn first_rest(
        &self,
        alloc: Global,
        checked: &'a Checked,
        states: &[Packed],
        process: u64,
    ) -> Result<Option<usize>, AllocError>
        requires within { All (IsWithin self.now.parts) states.now }
        requires live { AreLiveTo (program_of checked.now.tree) (Act (Some process)) (states_of self.now) }
        ensures { IfOk result (λ o. MatchOption o
            (AreLiveFor (program_of checked.now.tree) (Some process) (states_in self.now.parts states.now))
            (λ place. RestsInOne (program_of checked.now.tree) (states_in self.now.parts states.now) process)) }
    {
        for place in 0..states.len() {
            if self.rests_in(alloc, checked, &states[place], process)? {
                return Ok(Some(place));
            }
        }
        Ok(None)
    }

    // The same for a process by itself.
    fn rests_of(
        &mut self,
        alloc: Global,
        checked: &'a Checked,
        memo: &mut Memo,
        states: &[Packed],
        process: u64,
    ) -> Result<Option<usize>, AllocError>
        requires within { All (IsWithin self.old.parts) states.now }
        requires known { AreKnown (program_of checked.now.tree) self.old.parts memo.old }
        ensures grown { OnOk result (IsGrown self.old.parts self.new.parts) }
        ensures known { OnOk result (AreKnown (program_of checked.now.tree) self.new.parts memo.new) }
        ensures found { IfOk result (λ o. MatchOption o
            (AreLiveFor (program_of checked.now.tree) (Some process) (states_in self.old.parts states.now))
            (λ place. RestsInOne (program_of checked.now.tree) (states_in self.old.parts states.now) process)) }
    {
        self.find_live(alloc, checked, memo, states, Aim::Act(Some(process)))?;
        self.first_rest(alloc, checked, states, process)
    }

    // A process that rests in one of these states, one after another, where not each may do something still in each.
    fn first_resting(
        &mut self,
        alloc: Global,
        checked: &'a Checked,
        memo: &mut Memo,
        states: &[Packed],
    ) -> Result<Option<Resting>, AllocError>
        requires within { All (IsWithin self.old.parts) states.now }
        requires known { AreKnown (program_of checked.now.tree) self.old.parts memo.old }
        ensures grown { OnOk result (IsGrown self.old.parts self.new.parts) }
        ensures found { IfOk result (IsLookedFor (program_of checked.now.tree) (states_in self.old.parts states.now)) }
    {
        for before in 0..most_made(states) {
            let process = before as u64 + 1;
            let found = self.rests_of(alloc, checked, memo, states, process)?;
            if let Some(place) = found {
                return Ok(Some(Resting { process, place }));
            }
        }
        Ok(None)
    }

    /// The first of these states in which a process isn't over and can't move, and isn't found to come to one in which it
    /// can; none where each process may do something still in each. First all are asked for at once, which is faster.
    pub fn look_for_resting(
        &mut self,
        alloc: Global,
        checked: &'a Checked,
        memo: &mut Memo,
        states: &[Packed],
    ) -> Result<Option<Resting>, AllocError>
        requires within { All (IsWithin self.old.parts) states.now }
        requires known { AreKnown (program_of checked.now.tree) self.old.parts memo.old }
        ensures grown { OnOk result (IsGrown self.old.parts self.new.parts) }
        ensures found { IfOk result (IsLookedFor (program_of checked.now.tree) (states_in self.old.parts states.now)) }
    {
        self.find_live(alloc, checked, memo, states, Aim::Act(None))?;
        if self.has_all(states) {
            return Ok(None);
        }
        let resting = self.first_resting(alloc, checked, memo, states)?;
        Ok(resting)
    }
}
