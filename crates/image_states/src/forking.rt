ghost use Rattle.std.specs.Prelude.{◌≡◌, ◌<◌, ◌+◌, suc, None, Some, IfOk, IfSome, OnOk, length};
ghost use Rattle.locals.specs.Looks.{look};
ghost use Rattle.image_states.specs.Packed.{IsGrown, IsPrefix, IsWithin};
ghost use Rattle.image_states.specs.Nexts.{IsMore, MovesTo};
ghost use Rattle.std.specs.Prelude.{true};
ghost use Rattle.locals.specs.Requests.{fork_child};
ghost use Rattle.machine.specs.RequestMeanings.{AsksFork};
ghost use Rattle.image_states.specs.Forking.{HasChild, HasMore, IsThreadMore};
ghost use Rattle.image_states.specs.Reasons.{IsWhy};
ghost use Rattle.image_states.specs.declared.packed.Packed.{Packed as PackedOf};

use crate::bound::Bound;
use crate::next::{Doing, Next, push_next};
use crate::packed::Packed;
use crate::parts::Parts;
use crate::running::Scratch;
use isa::Image;
use locals::Local;
use std::alloc::{AllocError, Global};
use words::{ProcessWord, block};

// A state with a thread more, which is awake and has this local state.
fn add_thread(state: &mut Packed, part: u32) -> Result<(), AllocError>
    ensures { OnOk result (IsThreadMore state.old state.new part) }
{
    state.parts.push(part)?;
    state.places.push(0)?;
    Ok(())
}

// The state comes next with a thread more, which is awake and has this local state, by a step of this thread's own.
fn push_more(state: Packed, part: u32, thread: u32, found: &mut Vec<Next>) -> Result<(), AllocError>
    ensures longer { OnOk result (IsPrefix found.old.items found.new.items) }
    ensures added { OnOk result (HasMore state found.new.items part) }
{
    let mut state = state;
    add_thread(&mut state, part)?;
    push_next(found, state, thread, Doing::Own)?;
    Ok(())
}

impl Parts {
    // The step of a thread that makes another.
    pub(crate) fn fork(
        &mut self,
        alloc: Global,
        image: &Image,
        packed: &Packed,
        k: usize,
        t: u32,
        has_room: bool,
        scratch: &mut Scratch,
        found: &mut Vec<Next>,
    ) -> Result<Option<Bound>, AllocError>
        requires number { t ≡ suc k }
        requires made { k < length packed.now.parts.items }
        requires within { IsWithin self.old packed.now }
        requires asks { AsksFork (look image.now t scratch.old.here) has_room }
        ensures more { OnOk result (IsMore self.old found.old.items self.new found.new.items) }
        ensures why { IfOk result (λ o. IfSome o (IsWhy self.new packed.now)) }
        ensures moves { IfOk result (λ o. o ≡ None
            → MovesTo image.now self.new packed.now found.new.items t scratch.old.here) }
    {
        let most = self.most_threads();
        let made = packed.parts.len() as u32;
        if made == most {
            return self.push_answer(alloc, image, packed, k, t, packed.memory, 0, scratch, found);
        }
        if !has_room {
            return Ok(None);
        }
        let Some(child) = scratch.here.child(image, t) else {
            unreachable!()
        };
        self.make(alloc, image, packed, k, t, made + 1, child, scratch, found)
    }

    // The same where it makes this one.
    fn make(
        &mut self,
        alloc: Global,
        image: &Image,
        packed: &Packed,
        k: usize,
        t: u32,
        number: u32,
        child: Local,
        scratch: &mut Scratch,
        found: &mut Vec<Next>,
    ) -> Result<Option<Bound>, AllocError>
        requires number { t ≡ suc k }
        requires made { k < length packed.now.parts.items }
        requires within { IsWithin self.old packed.now }
        requires asks { AsksFork (look image.now t scratch.old.here) true }
        requires few { length packed.now.parts.items < self.old.most }
        requires child { fork_child (look image.now t scratch.old.here) ≡ Some child }
        requires next { number ≡ suc (length packed.now.parts.items) }
        ensures more { OnOk result (IsMore self.old found.old.items self.new found.new.items) }
        ensures why { IfOk result (λ o. IfSome o (IsWhy self.new packed.now)) }
        ensures moves { IfOk result (λ o. o ≡ None
            → MovesTo image.now self.new packed.now found.new.items t scratch.old.here) }
    {
        let stored = self.stored(alloc, packed.memory, block(number, ProcessWord::Id), number)?;
        let Some(memory) = stored else {
            return Ok(Some(Bound::Parts));
        };
        scratch.here.go_on(image, t, number);
        match self.stand(alloc, image, packed, k, t, memory, scratch)? {
            None => Ok(Some(Bound::Parts)),
            Some(state) => self.add_child(alloc, image, state, t, number, &child, scratch, found),
        }
    }

    // A state comes next with this thread more, which is taken on by local steps.
    fn add_child(
        &mut self,
        alloc: Global,
        image: &Image,
        state: Packed,
        t: u32,
        number: u32,
        child: &Local,
        scratch: &mut Scratch,
        found: &mut Vec<Next>,
    ) -> Result<Option<Bound>, AllocError>
        ensures grown { OnOk result (IsGrown self.old self.new) }
        ensures longer { OnOk result (IsPrefix found.old.items found.new.items) }
        ensures full { IfOk result (λ o. IfSome o (λ why. (x : PackedOf) → IsWhy self.new x why)) }
        ensures added { IfOk result (λ o. o ≡ None
            → HasChild image.now self.new state found.new.items number child.now) }
    {
        scratch.look_at(child);
        scratch.run_on(image, number);
        match self.local_number(alloc, image, number, &scratch.here)? {
            None => Ok(Some(Bound::Parts)),
            Some(part) => {
                push_more(state, part, t, found)?;
                Ok(None)
            }
        }
    }
}
