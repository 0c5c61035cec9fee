ghost use Rattle.std.specs.Prelude.{◌≡◌, ◌≤◌, ◌<◌, suc, None, Some, IfOk, IfSome, OnOk, length, true, ℕ};
ghost use Rattle.locals.specs.Looks.{look};
ghost use Rattle.locals.specs.Requests.{after_answer, CanBeAnswered};
ghost use Rattle.robustexit.specs.declared.phase.ExitPhase.TheVariants.{Pending};
ghost use Rattle.locals.specs.Threads.{Exits};
ghost use Rattle.image_states.specs.Exits.{CanLeave};
ghost use Rattle.image_states.specs.Packed.{asleep_at, words_in, IsWithin};
ghost use Rattle.image_states.specs.Nexts.{IsMore, ReachesAt};
ghost use Rattle.image_states.specs.Reasons.{IsWhy};

use crate::bound::Bound;
use crate::next::Next;
use crate::packed::Packed;
use crate::parts::Parts;
use crate::running::Scratch;
use isa::Image;
use locals::Local;
use robustexit::ExitPhase;
use std::alloc::{AllocError, Global};
use words::{Addr, ProcessWord, block};

// Whether a thread is past its robust list in its exit. A caller in which it stood would have room for a local state made at
// each call.
#[inline(never)]
fn is_pending(local: &Local) -> bool
    ensures { result ≡ true → local.now ≡ Exits Pending }
{
    let pending = Local::exiting(ExitPhase::Pending);
    local.equals(&pending)
}

impl Packed {
    // Whether nobody sleeps on an address.
    fn has_nobody_on(&self, alloc: Global, a: Addr) -> Result<bool, AllocError>
        requires few { length self.now.places.items ≤ 1000 }
        requires address { a.0 < 4294967295 }
        ensures { IfOk result (λ none. none ≡ true
            → (u : ℕ) → asleep_at self.now.places.items u ≡ Some a.0 → ⊥) }
    {
        let sleepers = self.sleepers_on(alloc, a)?;
        Ok(sleepers.len() == 0)
    }
}

impl Parts {
    // Whether the rest of the exit of the thread behind `k` others may be taken at once, where it stands here, with the memory of
    // this number.
    fn can_leave(
        &self,
        alloc: Global,
        packed: &Packed,
        k: usize,
        t: u32,
        memory: u32,
        local: &Local,
    ) -> Result<bool, AllocError>
        requires number { t ≡ suc k }
        requires few { t ≤ 1000 }
        requires places { length packed.now.places.items ≤ 1000 }
        ensures { IfOk result
            (λ can. can ≡ true → CanLeave self.now packed.now t memory local.now) }
    {
        if !self.follows_exits() || !local.is_dying() || packed.place(k) != 0 {
            return Ok(false);
        }
        if !is_pending(local) {
            return Ok(false);
        }
        match self.word(memory, block(t, ProcessWord::Pending)) {
            Some(0) => packed.has_nobody_on(alloc, block(t, ProcessWord::Id)),
            _ => Ok(false),
        }
    }

    // The thread has ended, with the memory of this number but for its id.
    fn push_ended(
        &mut self,
        alloc: Global,
        image: &Image,
        packed: &Packed,
        k: usize,
        t: u32,
        memory: u32,
        scratch: &mut Scratch,
        found: &mut Vec<Next>,
    ) -> Result<Option<Bound>, AllocError>
        requires number { t ≡ suc k }
        requires made { k < length packed.now.parts.items }
        requires within { IsWithin self.old packed.now }
        requires memory { memory < length self.old.memories.items }
        requires can { CanLeave self.old packed.now t memory scratch.old.here }
        ensures more { OnOk result (IsMore self.old found.old.items self.new found.new.items) }
        ensures why { IfOk result (λ o. IfSome o (IsWhy self.new packed.now)) }
        ensures reaches { IfOk result (λ o. o ≡ None
            → ReachesAt image.now self.new packed.now found.new.items t
            (words_in self.new.memories.items memory)
            (asleep_at packed.now.places.items) scratch.old.here) }
    {
        match self.stored(alloc, memory, block(t, ProcessWord::Id), 0)? {
            None => Ok(Some(Bound::Parts)),
            Some(after) => {
                scratch.here.enter_phase(ExitPhase::Ended);
                self.push_stand(alloc, image, packed, k, t, after, scratch, found)
            }
        }
    }

    // The thread stands where it is looked at, with the memory of this number, and nobody else is changed; where the rest of its
    // exit may be taken at once, it has ended.
    pub(crate) fn push_leaving(
        &mut self,
        alloc: Global,
        image: &Image,
        packed: &Packed,
        k: usize,
        t: u32,
        memory: u32,
        scratch: &mut Scratch,
        found: &mut Vec<Next>,
    ) -> Result<Option<Bound>, AllocError>
        requires number { t ≡ suc k }
        requires made { k < length packed.now.parts.items }
        requires within { IsWithin self.old packed.now }
        requires memory { memory < length self.old.memories.items }
        ensures more { OnOk result (IsMore self.old found.old.items self.new found.new.items) }
        ensures why { IfOk result (λ o. IfSome o (IsWhy self.new packed.now)) }
        ensures reaches { IfOk result (λ o. o ≡ None
            → ReachesAt image.now self.new packed.now found.new.items t
            (words_in self.new.memories.items memory)
            (asleep_at packed.now.places.items) scratch.old.here) }
    {
        if self.can_leave(alloc, packed, k, t, memory, &scratch.here)? {
            return self.push_ended(alloc, image, packed, k, t, memory, scratch, found);
        }
        self.push_stand(alloc, image, packed, k, t, memory, scratch, found)
    }

    // The thread is answered by the first entry of its robust list, with the memory of this number.
    pub(crate) fn push_end(
        &mut self,
        alloc: Global,
        image: &Image,
        packed: &Packed,
        k: usize,
        t: u32,
        memory: u32,
        head: u32,
        scratch: &mut Scratch,
        found: &mut Vec<Next>,
    ) -> Result<Option<Bound>, AllocError>
        requires number { t ≡ suc k }
        requires made { k < length packed.now.parts.items }
        requires within { IsWithin self.old packed.now }
        requires memory { memory < length self.old.memories.items }
        requires answers { CanBeAnswered (look image.now t scratch.old.here) head }
        ensures more { OnOk result (IsMore self.old found.old.items self.new found.new.items) }
        ensures why { IfOk result (λ o. IfSome o (IsWhy self.new packed.now)) }
        ensures reaches { IfOk result (λ o. o ≡ None
            → ReachesAt image.now self.new packed.now found.new.items t
            (words_in self.new.memories.items memory) (asleep_at packed.now.places.items)
            (after_answer (look image.now t scratch.old.here) head scratch.old.here)) }
    {
        scratch.here.go_on(image, t, head);
        self.push_leaving(alloc, image, packed, k, t, memory, scratch, found)
    }
}
