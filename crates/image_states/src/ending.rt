ghost use Rattle.std.specs.Prelude.{◌≡◌, ◌≤◌, ◌<◌, ℕ, List, suc, None, Some, IfNone, IfOk, IfSome, OnOk, length, slice_index, slice_set};
ghost use Rattle.locals.specs.Looks.{look};
ghost use Rattle.locals.specs.Requests.{after_answer, next_step_of, CanBeAnswered};
ghost use Rattle.locals.specs.declared.request.NextStep.TheVariants as step;
ghost use Rattle.image_states.specs.Packed.{asleep_at, words_in, IsGrown, IsOutOfNumbers, IsWithin};
ghost use Rattle.image_states.specs.Nexts.{IsMore, MovesTo, ReachesAt};
ghost use Rattle.words.specs.Process.{process_word};
ghost use Rattle.futexcalls.specs.Answers.{word_of};
ghost use Rattle.futexcalls.specs.FutexCalls.{Wakes};
ghost use Rattle.robustexit.specs.ExitRules.{exit_of};
ghost use Rattle.robustexit.specs.declared.phase.ExitPhase.{ExitPhase as ExitPhaseOf};
ghost use Rattle.std.specs.Prelude.{Option as OptionOf};
ghost use Rattle.image_states.specs.Exits.{IsAddressIn, IsMarkIn, IsPlanIn, IsPlanOf, WakesAt};
ghost use Rattle.image_states.specs.Reasons.{IsWhy};
ghost use Rattle.image_states.specs.Packed.{IsMarked};
ghost use Rattle.image_states.specs.Choosing.{AreSleepers};
ghost use Rattle.image_states.specs.Nexts.{LeavesTo};

use crate::bound::Bound;
use crate::exits::{ExitPlan, exit_plan};
use crate::next::Next;
use crate::packed::Packed;
use crate::parts::Parts;
use crate::running::Scratch;
use crate::waking::chosen_of;
use isa::Image;
use locals::Request;
use robustexit::{ExitPhase, ExitRule};
use std::alloc::{AllocError, Global};
use words::{Addr, Cause, ENDED, ProcessWord, block};

impl Parts {
    // The thread's outcome is written, and it is answered by the first entry of its robust list, with the memory of this number.
    fn end_by(
        &mut self,
        alloc: Global,
        image: &Image,
        packed: &Packed,
        k: usize,
        t: u32,
        memory: u32,
        outcome: u32,
        scratch: &mut Scratch,
        found: &mut Vec<Next>,
    ) -> Result<Option<Bound>, AllocError>
        requires number { t ≡ suc k }
        requires made { k < length packed.now.parts.items }
        requires within { IsWithin self.old packed.now }
        requires memory { memory < length self.old.memories.items }
        requires answers { (answer : ℕ) → CanBeAnswered (look image.now t scratch.old.here) answer }
        ensures more { OnOk result (IsMore self.old found.old.items self.new found.new.items) }
        ensures why { IfOk result (λ o. IfSome o (IsWhy self.new packed.now)) }
        ensures reaches { IfOk result (λ o. o ≡ None
            → (process_word t 5 < length (words_in self.new.memories.items memory))
            × ReachesAt image.now self.new packed.now found.new.items t
            (slice_set (words_in self.new.memories.items memory) (process_word t 5) outcome)
            (asleep_at packed.now.places.items)
            (after_answer (look image.now t scratch.old.here)
            (slice_index (words_in self.new.memories.items packed.now.memory)
            (process_word t 0)) scratch.old.here)) }
    {
        let Some(head) = self.word(packed.memory, block(t, ProcessWord::Head)) else {
            unreachable!()
        };
        match self.stored(alloc, memory, block(t, ProcessWord::Outcome), outcome)? {
            None => Ok(Some(Bound::Parts)),
            Some(after) => self.push_end(alloc, image, packed, k, t, after, head, scratch, found),
        }
    }

    // The step of a thread that returns from its last frame.
    pub(crate) fn end(
        &mut self,
        alloc: Global,
        image: &Image,
        packed: &Packed,
        k: usize,
        t: u32,
        scratch: &mut Scratch,
        found: &mut Vec<Next>,
    ) -> Result<Option<Bound>, AllocError>
        requires number { t ≡ suc k }
        requires made { k < length packed.now.parts.items }
        requires within { IsWithin self.old packed.now }
        requires asks { next_step_of (look image.now t scratch.old.here)
            ≡ step.Shared Request.Return }
        ensures more { OnOk result (IsMore self.old found.old.items self.new found.new.items) }
        ensures why { IfOk result (λ o. IfSome o (IsWhy self.new packed.now)) }
        ensures moves { IfOk result (λ o. o ≡ None
            → MovesTo image.now self.new packed.now found.new.items t scratch.old.here) }
    {
        self.end_by(
            alloc,
            image,
            packed,
            k,
            t,
            packed.memory,
            ENDED,
            scratch,
            found,
        )
    }

    // The same with a value.
    pub(crate) fn end_with(
        &mut self,
        alloc: Global,
        image: &Image,
        packed: &Packed,
        k: usize,
        t: u32,
        value: u32,
        scratch: &mut Scratch,
        found: &mut Vec<Next>,
    ) -> Result<Option<Bound>, AllocError>
        requires number { t ≡ suc k }
        requires made { k < length packed.now.parts.items }
        requires within { IsWithin self.old packed.now }
        requires asks { next_step_of (look image.now t scratch.old.here)
            ≡ step.Shared (Request.ReturnValue value) }
        ensures more { OnOk result (IsMore self.old found.old.items self.new found.new.items) }
        ensures why { IfOk result (λ o. IfSome o (IsWhy self.new packed.now)) }
        ensures moves { IfOk result (λ o. o ≡ None
            → MovesTo image.now self.new packed.now found.new.items t scratch.old.here) }
    {
        match self.stored(alloc, packed.memory, block(t, ProcessWord::Result), value)? {
            None => Ok(Some(Bound::Parts)),
            Some(memory) => self.end_by(alloc, image, packed, k, t, memory, ENDED, scratch, found),
        }
    }

    // The step of a thread that writes why it dies.
    pub(crate) fn die(
        &mut self,
        alloc: Global,
        image: &Image,
        packed: &Packed,
        k: usize,
        t: u32,
        cause: Cause,
        scratch: &mut Scratch,
        found: &mut Vec<Next>,
    ) -> Result<Option<Bound>, AllocError>
        requires number { t ≡ suc k }
        requires made { k < length packed.now.parts.items }
        requires within { IsWithin self.old packed.now }
        requires asks { next_step_of (look image.now t scratch.old.here)
            ≡ step.Shared (Request.Fault cause) }
        ensures more { OnOk result (IsMore self.old found.old.items self.new found.new.items) }
        ensures why { IfOk result (λ o. IfSome o (IsWhy self.new packed.now)) }
        ensures moves { IfOk result (λ o. o ≡ None
            → MovesTo image.now self.new packed.now found.new.items t scratch.old.here) }
    {
        self.end_by(
            alloc,
            image,
            packed,
            k,
            t,
            packed.memory,
            cause.number(),
            scratch,
            found,
        )
    }

    // The step of a thread's exit in this phase, by the rule of the image's version.
    pub(crate) fn leave(
        &mut self,
        alloc: Global,
        image: &Image,
        packed: &Packed,
        k: usize,
        t: u32,
        phase: ExitPhase,
        scratch: &mut Scratch,
        found: &mut Vec<Next>,
    ) -> Result<Option<Bound>, AllocError>
        requires number { t ≡ suc k }
        requires made { k < length packed.now.parts.items }
        requires within { IsWithin self.old packed.now }
        requires asks { next_step_of (look image.now t scratch.old.here) ≡ step.Exit phase }
        ensures more { OnOk result (IsMore self.old found.old.items self.new found.new.items) }
        ensures why { IfOk result (λ o. IfSome o (IsWhy self.new packed.now)) }
        ensures moves { IfOk result (λ o. o ≡ None
            → MovesTo image.now self.new packed.now found.new.items t scratch.old.here) }
    {
        let rule = ExitRule::of(image.version());
        let step = self.plan(rule, packed.memory, t, phase);
        self.leave_by(alloc, image, packed, k, t, step, scratch, found)
    }

    // What the step of thread `t`'s exit by this rule does in the memory of this number.
    fn plan(&self, rule: ExitRule, memory: u32, t: u32, phase: ExitPhase) -> ExitPlan
        requires thread { (0 < t) × (t ≤ self.now.most) }
        requires memory { memory < length self.now.memories.items }
        ensures plan { IsPlanOf rule (length (words_in self.now.memories.items memory)) t phase
            (word_of (words_in self.now.memories.items memory)) result }
        ensures lies { IsPlanIn (length (words_in self.now.memories.items memory)) result }
    {
        match self.memory(memory) {
            None => unreachable!(),
            Some(words) => exit_plan(rule, words, t, phase),
        }
    }

    // The number of the memory with what is marked; None where there are too many.
    fn marked(
        &mut self,
        alloc: Global,
        memory: u32,
        marks: Option<(Addr, u32)>,
    ) -> Result<Option<u32>, AllocError>
        requires memory { memory < length self.old.memories.items }
        requires lies { IsMarkIn (length (words_in self.old.memories.items memory)) marks }
        ensures grown { OnOk result (IsGrown self.old self.new) }
        ensures full { IfOk result (λ o. IfNone o (IsOutOfNumbers self.new)) }
        ensures marked { IfOk result (λ o. IfSome o (IsMarked self.new memory marks)) }
    {
        match marks {
            None => Ok(Some(memory)),
            Some((a, v)) => self.stored(alloc, memory, a, v),
        }
    }

    // The thread stands where it is looked at, with the memory of this number, and one sleeper is woken on this address, if
    // there is one.
    fn stand_by(
        &mut self,
        alloc: Global,
        image: &Image,
        packed: &Packed,
        k: usize,
        t: u32,
        memory: u32,
        wakes: Option<Addr>,
        scratch: &mut Scratch,
        found: &mut Vec<Next>,
    ) -> Result<Option<Bound>, AllocError>
        requires number { t ≡ suc k }
        requires made { k < length packed.now.parts.items }
        requires within { IsWithin self.old packed.now }
        requires memory { memory < length self.old.memories.items }
        requires address { IsAddressIn 4294967295 wakes }
        ensures more { OnOk result (IsMore self.old found.old.items self.new found.new.items) }
        ensures why { IfOk result (λ o. IfSome o (IsWhy self.new packed.now)) }
        ensures reaches { IfOk result (λ o. o ≡ None → (woken : List ℕ) (after : ℕ → OptionOf ℕ)
            → WakesAt wakes (asleep_at packed.now.places.items) woken after
            → ReachesAt image.now self.new packed.now found.new.items t
            (words_in self.new.memories.items memory) after
            scratch.old.here) }
    {
        match wakes {
            None => self.push_leaving(alloc, image, packed, k, t, memory, scratch, found),
            Some(a) => self.stand_one(alloc, image, packed, k, t, memory, a, scratch, found),
        }
    }

    // The same where there is an address.
    fn stand_one(
        &mut self,
        alloc: Global,
        image: &Image,
        packed: &Packed,
        k: usize,
        t: u32,
        memory: u32,
        a: Addr,
        scratch: &mut Scratch,
        found: &mut Vec<Next>,
    ) -> Result<Option<Bound>, AllocError>
        requires number { t ≡ suc k }
        requires made { k < length packed.now.parts.items }
        requires within { IsWithin self.old packed.now }
        requires memory { memory < length self.old.memories.items }
        requires address { a.0 < 4294967295 }
        ensures more { OnOk result (IsMore self.old found.old.items self.new found.new.items) }
        ensures why { IfOk result (λ o. IfSome o (IsWhy self.new packed.now)) }
        ensures reaches { IfOk result (λ o. o ≡ None → (woken : List ℕ) (after : ℕ → OptionOf ℕ)
            → Wakes (asleep_at packed.now.places.items) a.0 1 woken after
            → ReachesAt image.now self.new packed.now found.new.items t
            (words_in self.new.memories.items memory) after
            scratch.old.here) }
    {
        let sleepers = packed.sleepers_on(alloc, a)?;
        self.stand_among(
            alloc,
            image,
            packed,
            k,
            t,
            memory,
            a,
            sleepers.as_slice(),
            scratch,
            found,
        )
    }

    // The same where these sleep there.
    fn stand_among(
        &mut self,
        alloc: Global,
        image: &Image,
        packed: &Packed,
        k: usize,
        t: u32,
        memory: u32,
        a: Addr,
        sleepers: &[u32],
        scratch: &mut Scratch,
        found: &mut Vec<Next>,
    ) -> Result<Option<Bound>, AllocError>
        requires number { t ≡ suc k }
        requires made { k < length packed.now.parts.items }
        requires within { IsWithin self.old packed.now }
        requires memory { memory < length self.old.memories.items }
        requires sleepers { AreSleepers packed.now.places.items (suc a.0) sleepers.now }
        ensures more { OnOk result (IsMore self.old found.old.items self.new found.new.items) }
        ensures why { IfOk result (λ o. IfSome o (IsWhy self.new packed.now)) }
        ensures reaches { IfOk result (λ o. o ≡ None → (woken : List ℕ) (after : ℕ → OptionOf ℕ)
            → Wakes (asleep_at packed.now.places.items) a.0 1 woken after
            → ReachesAt image.now self.new packed.now found.new.items t
            (words_in self.new.memories.items memory) after
            scratch.old.here) }
    {
        let size = chosen_of(1, sleepers.len());
        self.stand_waking(
            alloc, image, packed, k, t, memory, sleepers, size, 0, scratch, found,
        )
    }

    // The same with what it does.
    fn leave_by(
        &mut self,
        alloc: Global,
        image: &Image,
        packed: &Packed,
        k: usize,
        t: u32,
        plan: ExitPlan,
        scratch: &mut Scratch,
        found: &mut Vec<Next>,
    ) -> Result<Option<Bound>, AllocError>
        requires number { t ≡ suc k }
        requires made { k < length packed.now.parts.items }
        requires within { IsWithin self.old packed.now }
        requires lies { IsPlanIn (length (words_in self.old.memories.items packed.now.memory)) plan }
        ensures more { OnOk result (IsMore self.old found.old.items self.new found.new.items) }
        ensures why { IfOk result (λ o. IfSome o (IsWhy self.new packed.now)) }
        ensures leaves { IfOk result (λ o. o ≡ None → (phase : ExitPhaseOf)
            → IsPlanOf (exit_of image.now.version)
            (length (words_in self.new.memories.items packed.now.memory)) t phase
            (word_of (words_in self.new.memories.items packed.now.memory)) plan
            → LeavesTo image.now self.new packed.now found.new.items t phase) }
    {
        let Some(memory) = self.marked(alloc, packed.memory, plan.marks)? else {
            return Ok(Some(Bound::Parts));
        };
        scratch.here.enter_phase(plan.next);
        self.stand_by(
            alloc, image, packed, k, t, memory, plan.wakes, scratch, found,
        )
    }
}
