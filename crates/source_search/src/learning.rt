use crate::making::follow_made;
use crate::memo::{Known, Outcome, Outcomes};
use crate::parts::Parts;
use crate::spot::Spot;
use program::Checked;
use source_reaching::{End, Unread};
use source_states::SourceState;
use std::alloc::{AllocError, Global};

impl<'a> Parts<'a> {
    ghost use Rattle.std.specs.Prelude.{IfOk, IfSome, OnOk};
    ghost use Rattle.program.specs.Views.{program_of};
    ghost use Rattle.meaning.specs.Runs.{CanMove};
    ghost use Rattle.source_reaching.specs.Among.{AreEnds};
    ghost use Rattle.source_reaching.specs.Ends.{ends_in};
    ghost use Rattle.source_states.specs.States.{state_of};
    ghost use Rattle.source_search.specs.Covered.{IsAheadBeside};
    ghost use Rattle.source_search.specs.Known.{AreOutcomes, IsKnownAt, IsNumbered, IsOutcome, listed_in};
    ghost use Rattle.source_search.specs.Packed.{IsGrown};
    ghost use Rattle.source_search.specs.Spots.{IsSpotWithin, alone};

    // What a process of a kept state with so many processes comes to from its spot, in numbers, where another that it
    // made was followed; None where there are too many parts, or nothing is known.
    fn outcome(
        &mut self,
        alloc: Global,
        checked: &'a Checked,
        spot: Spot,
        before: usize,
        end: &End<'a>,
    ) -> Result<Option<Outcome>, AllocError>
        ensures grown { OnOk result (IsGrown self.old self.new) }
        ensures numbered { IfOk result (λ o. IfSome o
            (IsOutcome (program_of checked.now.tree) self.new spot.process (state_of end.now.state))) }
    {
        let program = checked.program();
        if end.state.made() == before as u64 {
            return self.number(alloc, program, spot, &end.state, end.choice, end.later);
        }
        let mut state = end.state.copy(alloc)?;
        self.outcome_behind(
            alloc, checked, spot, before, &mut state, end.choice, end.later,
        )
    }

    // The same of a state by these choices, in which the other is followed.
    fn outcome_behind(
        &mut self,
        alloc: Global,
        checked: &'a Checked,
        spot: Spot,
        before: usize,
        state: &mut SourceState<'a>,
        choice: usize,
        later: usize,
    ) -> Result<Option<Outcome>, AllocError>
        ensures grown { OnOk result (IsGrown self.old self.new) }
        ensures numbered { IfOk result (λ o. IfSome o (λ x. IsAheadBeside (program_of checked.now.tree)
            (state_of state.old) (state_of state.new)
            × IsNumbered self.new spot.process (state_of state.new) x)) }
    {
        let process = u64::from(spot.process);
        if !follow_made(alloc, checked, state, process, before, &mut Unread)? {
            return Ok(None);
        }
        self.number(alloc, checked.program(), spot, state, choice, later)
    }

    // The same of all that it comes to.
    fn outcomes(
        &mut self,
        alloc: Global,
        checked: &'a Checked,
        spot: Spot,
        before: usize,
        ends: &[End<'a>],
    ) -> Result<Option<Vec<Outcome>>, AllocError>
        ensures grown { OnOk result (IsGrown self.old self.new) }
        ensures numbered { IfOk result (λ o. IfSome o (λ v. AreOutcomes (program_of checked.now.tree) self.new
            spot.process (ends_in ends.now) v.items)) }
    {
        let mut outcomes = Vec::with_capacity(alloc, ends.len())?;
        for k in 0..ends.len() {
            let Some(outcome) = self.outcome(alloc, checked, spot, before, &ends[k])? else {
                return Ok(None);
            };
            outcomes.push(outcome)?;
        }
        Ok(Some(outcomes))
    }

    // The same, and of one nothing is allocated.
    fn listed(
        &mut self,
        alloc: Global,
        checked: &'a Checked,
        spot: Spot,
        before: usize,
        ends: &[End<'a>],
    ) -> Result<Option<Outcomes>, AllocError>
        ensures grown { OnOk result (IsGrown self.old self.new) }
        ensures numbered { IfOk result (λ o. IfSome o (λ x. AreOutcomes (program_of checked.now.tree) self.new
            spot.process (ends_in ends.now) (listed_in x))) }
    {
        if ends.len() != 1 {
            let Some(several) = self.outcomes(alloc, checked, spot, before, ends)? else {
                return Ok(None);
            };
            return Ok(Some(Outcomes::Several(several)));
        }
        let Some(one) = self.outcome(alloc, checked, spot, before, &ends[0])? else {
            return Ok(None);
        };
        Ok(Some(Outcomes::One(one)))
    }

    /// What is known of a process that comes to these from its spot, in a kept state with so many processes; None where
    /// there are too many parts, or nothing is known.
    pub fn learn(
        &mut self,
        alloc: Global,
        checked: &'a Checked,
        spot: Spot,
        before: usize,
        ends: &[End<'a>],
    ) -> Result<Option<Known>, AllocError>
        ensures grown { OnOk result (IsGrown self.old self.new) }
        ensures known { IfOk result (λ o. IfSome o (λ k. IsSpotWithin self.old spot
            → AreEnds (program_of checked.now.tree) spot.process (alone self.old spot) (ends_in ends.now)
            → CanMove (program_of checked.now.tree) (alone self.old spot) spot.process
            → IsKnownAt (program_of checked.now.tree) self.new spot k)) }
    {
        let Some(outcomes) = self.listed(alloc, checked, spot, before, ends)? else {
            return Ok(None);
        };
        Ok(Some(Known { spot, outcomes }))
    }
}
