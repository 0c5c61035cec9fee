ghost use Rattle.std.specs.Prelude.{◌≡◌, ◌<◌, ◌∷◌, [], ℕ, List, suc, None, Some, IfOk, IfSome, OnOk, length};
ghost use Rattle.locals.specs.Looks.{look};
ghost use Rattle.locals.specs.Requests.{after_answer, next_step_of, CanBeAnswered};
ghost use Rattle.locals.specs.declared.request.NextStep.TheVariants as step;
ghost use Rattle.image_states.specs.Packed.{asleep_at, words_in, IsWithin};
ghost use Rattle.image_states.specs.Nexts.{IsMore, MovesTo, ReachesAt};
ghost use Rattle.buckets.specs.Places.{with_place};
ghost use Rattle.image_states.specs.Packed.{place_of};
ghost use Rattle.image_states.specs.Choosing.{AreChosen, AreSleepers};
ghost use Rattle.image_states.specs.Reasons.{IsWhy, IsWhyAmong};
ghost use Rattle.image_states.specs.Room.{AreThreads};

use crate::bound::Bound;
use crate::next::{Doing, Next};
use crate::packed::Packed;
use crate::parts::Parts;
use crate::running::Scratch;
use crate::waking::{chosen_of, push_choices, push_placed};
use isa::Image;
use locals::Request;
use std::alloc::{AllocError, Global};
use words::Addr;

impl Parts {
    // The step of a thread that waits.
    pub(crate) fn wait(
        &mut self,
        alloc: Global,
        image: &Image,
        packed: &Packed,
        k: usize,
        t: u32,
        address: Addr,
        expected: u32,
        scratch: &mut Scratch,
        found: &mut Vec<Next>,
    ) -> Result<Option<Bound>, AllocError>
        requires number { t ≡ suc k }
        requires made { k < length packed.now.parts.items }
        requires within { IsWithin self.old packed.now }
        requires asks { next_step_of (look image.now t scratch.old.here)
            ≡ step.Shared (Request.Wait address expected) }
        ensures more { OnOk result (IsMore self.old found.old.items self.new found.new.items) }
        ensures why { IfOk result (λ o. IfSome o (IsWhy self.new packed.now)) }
        ensures moves { IfOk result (λ o. o ≡ None
            → MovesTo image.now self.new packed.now found.new.items t scratch.old.here) }
    {
        match self.word(packed.memory, address) {
            None => Ok(None),
            Some(w) => {
                if w == expected {
                    self.sleep(alloc, image, packed, k, t, address, scratch, found)
                } else {
                    self.push_answer(alloc, image, packed, k, t, packed.memory, 1, scratch, found)
                }
            }
        }
    }

    // The thread is answered by 0, and sleeps.
    fn sleep(
        &mut self,
        alloc: Global,
        image: &Image,
        packed: &Packed,
        k: usize,
        t: u32,
        address: Addr,
        scratch: &mut Scratch,
        found: &mut Vec<Next>,
    ) -> Result<Option<Bound>, AllocError>
        requires number { t ≡ suc k }
        requires made { k < length packed.now.parts.items }
        requires within { IsWithin self.old packed.now }
        requires answers { CanBeAnswered (look image.now t scratch.old.here) 0 }
        requires lies { address.0 < 4294967295 }
        ensures more { OnOk result (IsMore self.old found.old.items self.new found.new.items) }
        ensures why { IfOk result (λ o. IfSome o (IsWhy self.new packed.now)) }
        ensures reaches { IfOk result (λ o. o ≡ None
            → ReachesAt image.now self.new packed.now found.new.items t
            (words_in self.new.memories.items packed.now.memory)
            (with_place (asleep_at packed.now.places.items) (t ∷ []) (Some address.0))
            (after_answer (look image.now t scratch.old.here) 0 scratch.old.here)) }
    {
        let place = address.0 + 1;
        scratch.here.go_on(image, t, 0);
        match self.stand(alloc, image, packed, k, t, packed.memory, scratch)? {
            None => Ok(Some(Bound::Parts)),
            Some(state) => {
                push_placed(alloc, &state, &[t], place, t, Doing::Own, found)?;
                Ok(None)
            }
        }
    }

    // The thread stands where it is looked at, with the memory of this number, and so many of these sleepers are woken: each set
    // of them comes next.
    pub(crate) fn stand_waking(
        &mut self,
        alloc: Global,
        image: &Image,
        packed: &Packed,
        k: usize,
        t: u32,
        memory: u32,
        sleepers: &[u32],
        size: usize,
        to: u32,
        scratch: &mut Scratch,
        found: &mut Vec<Next>,
    ) -> Result<Option<Bound>, AllocError>
        requires number { t ≡ suc k }
        requires made { k < length packed.now.parts.items }
        requires within { IsWithin self.old packed.now }
        requires memory { memory < length self.old.memories.items }
        requires threads { AreThreads (length packed.now.places.items) sleepers.now }
        ensures more { OnOk result (IsMore self.old found.old.items self.new found.new.items) }
        ensures why { IfOk result (λ o. IfSome o (IsWhyAmong self.new sleepers.now)) }
        ensures reaches { IfOk result (λ o. o ≡ None → (place : ℕ)
            → AreSleepers packed.now.places.items place sleepers.now
            → (woken : List ℕ) → AreChosen packed.now.places.items place size woken
            → ReachesAt image.now self.new packed.now found.new.items t
            (words_in self.new.memories.items memory)
            (with_place (asleep_at packed.now.places.items) woken (place_of to)) scratch.old.here) }
    {
        match self.stand(alloc, image, packed, k, t, memory, scratch)? {
            None => Ok(Some(Bound::Parts)),
            Some(state) => push_choices(alloc, &state, sleepers, size, to, t, found),
        }
    }

    // The step of a thread that wakes.
    pub(crate) fn wake(
        &mut self,
        alloc: Global,
        image: &Image,
        packed: &Packed,
        k: usize,
        t: u32,
        address: Addr,
        count: u32,
        scratch: &mut Scratch,
        found: &mut Vec<Next>,
    ) -> Result<Option<Bound>, AllocError>
        requires number { t ≡ suc k }
        requires made { k < length packed.now.parts.items }
        requires within { IsWithin self.old packed.now }
        requires asks { next_step_of (look image.now t scratch.old.here)
            ≡ step.Shared (Request.Wake address count) }
        ensures more { OnOk result (IsMore self.old found.old.items self.new found.new.items) }
        ensures why { IfOk result (λ o. IfSome o (IsWhy self.new packed.now)) }
        ensures moves { IfOk result (λ o. o ≡ None
            → MovesTo image.now self.new packed.now found.new.items t scratch.old.here) }
    {
        match self.word(packed.memory, address) {
            None => Ok(None),
            Some(_) => self.wake_at(alloc, image, packed, k, t, address, count, scratch, found),
        }
    }

    // The same where the address lies in the memory.
    fn wake_at(
        &mut self,
        alloc: Global,
        image: &Image,
        packed: &Packed,
        k: usize,
        t: u32,
        address: Addr,
        count: u32,
        scratch: &mut Scratch,
        found: &mut Vec<Next>,
    ) -> Result<Option<Bound>, AllocError>
        requires number { t ≡ suc k }
        requires made { k < length packed.now.parts.items }
        requires within { IsWithin self.old packed.now }
        requires lies { address.0 < 4294967295 }
        requires asks { next_step_of (look image.now t scratch.old.here)
            ≡ step.Shared (Request.Wake address count) }
        ensures more { OnOk result (IsMore self.old found.old.items self.new found.new.items) }
        ensures why { IfOk result (λ o. IfSome o (IsWhy self.new packed.now)) }
        ensures moves { IfOk result (λ o. o ≡ None
            → MovesTo image.now self.new packed.now found.new.items t scratch.old.here) }
    {
        let sleepers = packed.sleepers_on(alloc, address)?;
        self.wake_of(
            alloc,
            image,
            packed,
            k,
            t,
            address,
            count,
            sleepers.as_slice(),
            scratch,
            found,
        )
    }

    // The same where these sleep there.
    fn wake_of(
        &mut self,
        alloc: Global,
        image: &Image,
        packed: &Packed,
        k: usize,
        t: u32,
        address: Addr,
        count: u32,
        sleepers: &[u32],
        scratch: &mut Scratch,
        found: &mut Vec<Next>,
    ) -> Result<Option<Bound>, AllocError>
        requires number { t ≡ suc k }
        requires made { k < length packed.now.parts.items }
        requires within { IsWithin self.old packed.now }
        requires sleepers { AreSleepers packed.now.places.items (suc address.0) sleepers.now }
        requires asks { next_step_of (look image.now t scratch.old.here)
            ≡ step.Shared (Request.Wake address count) }
        ensures more { OnOk result (IsMore self.old found.old.items self.new found.new.items) }
        ensures why { IfOk result (λ o. IfSome o (IsWhy self.new packed.now)) }
        ensures moves { IfOk result (λ o. o ≡ None
            → MovesTo image.now self.new packed.now found.new.items t scratch.old.here) }
    {
        let size = chosen_of(count, sleepers.len());
        scratch.here.go_on(image, t, size as u32);
        self.stand_waking(
            alloc,
            image,
            packed,
            k,
            t,
            packed.memory,
            sleepers,
            size,
            0,
            scratch,
            found,
        )
    }
}
