ghost use Rattle.std.specs.Prelude.{◌≡◌, ◌≤◌, ◌<◌, suc, None, Some, IfNone, IfOk, IfSome, OnOk, MatchOption, length, slice_index, slice_set, Ok};
ghost use Rattle.std.specs.List.{slice_get};
ghost use Rattle.locals.specs.Looks.{look};
ghost use Rattle.locals.specs.Requests.{after_answer, next_step_of, CanBeAnswered};
ghost use Rattle.locals.specs.declared.request.NextStep.TheVariants as step;
ghost use Rattle.image_states.specs.Packed.{asleep_at, thread_at, words_in, IsGrown, IsOutOfNumbers, IsWithin};
ghost use Rattle.std.specs.Prelude.{option_map};
ghost use Rattle.image_states.specs.Accesses.{access_of, access_answer, word_after};
ghost use Rattle.image_states.specs.Nexts.{IsBase, IsMore, MovesTo, ReachesAt};
ghost use Rattle.image_states.specs.Reasons.{IsWhy};

use crate::bound::Bound;
use crate::next::{Doing, Next, push_next};
use crate::packed::Packed;
use crate::parts::Parts;
use crate::running::Scratch;
use isa::Image;
use locals::Request;
use sparse_memory::SparseMemory;
use std::alloc::{AllocError, Global};
use words::Addr;

// The word at an address, where the address lies in the memory.
fn word_of(words: &SparseMemory, a: Addr) -> Option<u32>
    ensures { MatchOption result (length words.now ≤ a.0) (λ w. slice_get words.now a.0 ≡ Some w) }
{
    if a.0 as usize >= words.len() {
        return None;
    }
    Some(words.load(a))
}

impl Parts {
    // The word at an address of the memory of this number, where the address lies in it.
    pub(crate) fn word(&self, memory: u32, a: Addr) -> Option<u32>
        ensures { MatchOption result (length (words_in self.now.memories.items memory) ≤ a.0)
            (λ w. (a.0 < length (words_in self.now.memories.items memory))
            × (w ≡ slice_index (words_in self.now.memories.items memory) a.0)) }
    {
        match self.memory(memory) {
            None => None,
            Some(words) => word_of(words, a),
        }
    }

    // The state in which the thread behind `k` others has gone on by local steps from where it is looked at, with the
    // memory of this number; None where there are too many local states.
    pub(crate) fn stand(
        &mut self,
        alloc: Global,
        image: &Image,
        packed: &Packed,
        k: usize,
        t: u32,
        memory: u32,
        scratch: &mut Scratch,
    ) -> Result<Option<Packed>, AllocError>
        requires number { t ≡ suc k }
        requires made { k < length packed.now.parts.items }
        ensures grown { OnOk result (IsGrown self.old self.new) }
        ensures full { IfOk result (λ o. IfNone o (IsOutOfNumbers self.new)) }
        ensures stands { IfOk result (λ o. IfSome o
            (IsBase image.now self.new packed.now k memory scratch.old.here)) }
    {
        scratch.run_on(image, t);
        match self.local_number(alloc, image, t, &scratch.here)? {
            None => Ok(None),
            Some(part) => Ok(Some(packed.moved(alloc, k, memory, part)?)),
        }
    }

    // The thread stands where it is looked at, with the memory of this number, and nobody else is changed.
    pub(crate) fn push_stand(
        &mut self,
        alloc: Global,
        image: &Image,
        packed: &Packed,
        k: usize,
        t: u32,
        memory: u32,
        scratch: &mut Scratch,
        found: &mut Vec<Next>,
    ) -> Result<Option<Bound>, AllocError>
        requires number { t ≡ suc k }
        requires made { k < length packed.now.parts.items }
        requires within { IsWithin self.old packed.now }
        requires memory { memory < length self.old.memories.items }
        ensures more { OnOk result (IsMore self.old found.old.items self.new found.new.items) }
        ensures why { IfOk result (λ o. IfSome o (IsWhy self.new packed.now)) }
        ensures reaches { IfOk result (λ o. o ≡ None
            → ReachesAt image.now self.new packed.now found.new.items t
            (words_in self.new.memories.items memory)
            (asleep_at packed.now.places.items) scratch.old.here) }
    {
        match self.stand(alloc, image, packed, k, t, memory, scratch)? {
            None => Ok(Some(Bound::Parts)),
            Some(state) => {
                push_next(found, state, t, Doing::Own)?;
                Ok(None)
            }
        }
    }

    // The thread is answered, with the memory of this number.
    pub(crate) fn push_answer(
        &mut self,
        alloc: Global,
        image: &Image,
        packed: &Packed,
        k: usize,
        t: u32,
        memory: u32,
        answer: u32,
        scratch: &mut Scratch,
        found: &mut Vec<Next>,
    ) -> Result<Option<Bound>, AllocError>
        requires number { t ≡ suc k }
        requires made { k < length packed.now.parts.items }
        requires within { IsWithin self.old packed.now }
        requires memory { memory < length self.old.memories.items }
        requires answers { CanBeAnswered (look image.now t scratch.old.here) answer }
        ensures more { OnOk result (IsMore self.old found.old.items self.new found.new.items) }
        ensures why { IfOk result (λ o. IfSome o (IsWhy self.new packed.now)) }
        ensures reaches { IfOk result (λ o. o ≡ None
            → ReachesAt image.now self.new packed.now found.new.items t
            (words_in self.new.memories.items memory) (asleep_at packed.now.places.items)
            (after_answer (look image.now t scratch.old.here) answer scratch.old.here)) }
    {
        scratch.here.go_on(image, t, answer);
        self.push_stand(alloc, image, packed, k, t, memory, scratch, found)
    }

    // The same with this word at an address of the state's memory.
    pub(crate) fn exchange(
        &mut self,
        alloc: Global,
        image: &Image,
        packed: &Packed,
        k: usize,
        t: u32,
        a: Addr,
        v: u32,
        answer: u32,
        scratch: &mut Scratch,
        found: &mut Vec<Next>,
    ) -> Result<Option<Bound>, AllocError>
        requires number { t ≡ suc k }
        requires made { k < length packed.now.parts.items }
        requires within { IsWithin self.old packed.now }
        requires answers { CanBeAnswered (look image.now t scratch.old.here) answer }
        requires lies { a.0 < length (words_in self.old.memories.items packed.now.memory) }
        ensures more { OnOk result (IsMore self.old found.old.items self.new found.new.items) }
        ensures why { IfOk result (λ o. IfSome o (IsWhy self.new packed.now)) }
        ensures reaches { IfOk result (λ o. o ≡ None
            → ReachesAt image.now self.new packed.now found.new.items t
            (slice_set (words_in self.new.memories.items packed.now.memory) a.0 v)
            (asleep_at packed.now.places.items)
            (after_answer (look image.now t scratch.old.here) answer scratch.old.here)) }
    {
        match self.stored(alloc, packed.memory, a, v)? {
            None => Ok(Some(Bound::Parts)),
            Some(memory) => {
                self.push_answer(alloc, image, packed, k, t, memory, answer, scratch, found)
            }
        }
    }
}

// The address of the word that a request reads and writes, and nothing else.
fn access_of(request: Request) -> Option<Addr>
    ensures { option_map (λ a. a.0) result ≡ access_of request }
{
    match request {
        Request::Load(a) => Some(a),
        Request::Store(a, _) | Request::Swap(a, _) => Some(a),
        Request::CompareSwap {
            address,
            expected: _,
            new: _,
        } => Some(address),
        Request::FetchOr(a, _) | Request::FetchAdd(a, _) => Some(a),
        _ => None,
    }
}

// The word behind such a request that found this one.
fn word_after(request: Request, w: u32) -> u32
    ensures { result ≡ word_after request w }
{
    match request {
        Request::Store(_, v) | Request::Swap(_, v) => v,
        Request::CompareSwap {
            address: _,
            expected,
            new,
        } => { if w == expected { new } else { w } }
        Request::FetchOr(_, v) => w | v,
        Request::FetchAdd(_, v) => w.wrapping_add(v),
        _ => w,
    }
}

// The answer to it.
fn access_answer(request: Request, w: u32) -> u32
    ensures { result ≡ access_answer request w }
{
    match request {
        Request::Store(_, _) => 0,
        _ => w,
    }
}

impl Parts {
    // The step of a thread that asks for such an access.
    fn access(
        &mut self,
        alloc: Global,
        image: &Image,
        packed: &Packed,
        k: usize,
        t: u32,
        request: Request,
        a: Addr,
        scratch: &mut Scratch,
        found: &mut Vec<Next>,
    ) -> Result<Option<Bound>, AllocError>
        requires number { t ≡ suc k }
        requires made { k < length packed.now.parts.items }
        requires within { IsWithin self.old packed.now }
        requires asks { next_step_of (look image.now t scratch.old.here) ≡ step.Shared request }
        requires access { access_of request ≡ Some a.0 }
        ensures more { OnOk result (IsMore self.old found.old.items self.new found.new.items) }
        ensures why { IfOk result (λ o. IfSome o (IsWhy self.new packed.now)) }
        ensures moves { IfOk result (λ o. o ≡ None
            → MovesTo image.now self.new packed.now found.new.items t scratch.old.here) }
    {
        match self.word(packed.memory, a) {
            None => Ok(None),
            Some(w) => {
                let after = word_after(request, w);
                let answer = access_answer(request, w);
                self.exchange(alloc, image, packed, k, t, a, after, answer, scratch, found)
            }
        }
    }

    // The step of a thread that prints, where nothing is noted of it.
    fn print(
        &mut self,
        alloc: Global,
        image: &Image,
        packed: &Packed,
        k: usize,
        t: u32,
        number: u32,
        scratch: &mut Scratch,
        found: &mut Vec<Next>,
    ) -> Result<Option<Bound>, AllocError>
        requires number { t ≡ suc k }
        requires made { k < length packed.now.parts.items }
        requires within { IsWithin self.old packed.now }
        requires asks { next_step_of (look image.now t scratch.old.here)
            ≡ step.Shared (Request.Print number) }
        ensures more { OnOk result (IsMore self.old found.old.items self.new found.new.items) }
        ensures why { IfOk result (λ o. IfSome o (IsWhy self.new packed.now)) }
        ensures moves { IfOk result (λ o. o ≡ None
            → MovesTo image.now self.new packed.now found.new.items t scratch.old.here) }
    {
        self.push_answer(alloc, image, packed, k, t, packed.memory, 0, scratch, found)
    }

    // The step of a thread that asks for this, where it is looked at.
    pub(crate) fn serve(
        &mut self,
        alloc: Global,
        image: &Image,
        packed: &Packed,
        k: usize,
        t: u32,
        request: Request,
        scratch: &mut Scratch,
        found: &mut Vec<Next>,
    ) -> Result<Option<Bound>, AllocError>
        requires number { t ≡ suc k }
        requires made { k < length packed.now.parts.items }
        requires within { IsWithin self.old packed.now }
        requires stands { thread_at self.old.locals.items packed.now.parts.items t
            ≡ Some scratch.old.here }
        requires asks { next_step_of (look image.now t scratch.old.here) ≡ step.Shared request }
        ensures more { OnOk result (IsMore self.old found.old.items self.new found.new.items) }
        ensures why { IfOk result (λ o. IfSome o (IsWhy self.new packed.now)) }
        ensures moves { IfOk result (λ o. o ≡ None
            → MovesTo image.now self.new packed.now found.new.items t scratch.old.here) }
    {
        if let Some(a) = access_of(request) {
            return self.access(alloc, image, packed, k, t, request, a, scratch, found);
        }
        match request {
            Request::Print(number) => self.print(
                alloc, image, packed, k, t, number, scratch, found,
            ),
            Request::Wait { address, expected } => {
                self.wait(
                    alloc, image, packed, k, t, address, expected, scratch, found,
                )
            }
            Request::Wake { address, count } => {
                self.wake(alloc, image, packed, k, t, address, count, scratch, found)
            }
            Request::Requeue {
                from,
                to,
                wake,
                moves,
                expected,
            } => self.requeue(
                alloc, image, packed, k, t, from, to, wake, moves, expected, scratch, found,
            ),
            Request::Return => self.end(alloc, image, packed, k, t, scratch, found),
            Request::ReturnValue(v) => self.end_with(alloc, image, packed, k, t, v, scratch, found),
            Request::Fault(cause) => self.die(alloc, image, packed, k, t, cause, scratch, found),
            _ => unreachable!(),
        }
    }
}
