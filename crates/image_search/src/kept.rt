ghost use Rattle.std.specs.Prelude.{◌≡◌, Contains, IfOk, IfSome, MatchBool, MatchOption, None, OnOk, Some, true};
ghost use Rattle.std.specs.List.{slice_get};
ghost use Rattle.image_states.specs.Packed.{IsFor, IsWithin};
ghost use Rattle.image_states.specs.declared.next.Next.{Next as NextOf};
ghost use Rattle.image_search.specs.Kept.{HasKey, HasKeyAt};

use crate::ending::Bound;
use digest_map::DigestMap;
use image_states::{Doing, Next, Packed, Parts};
use isa::Image;
use std::alloc::{AllocError, Global};

/// How a kept state was come to: from which, by a step of which thread, and what step it was.
#[derive(Clone, Copy)]
pub(crate) struct Way {
    /// The place of the state before.
    pub before: u32,
    /// The thread.
    pub thread: u32,
    /// The step.
    pub doing: Doing,
}

// Of how many states of the same digest each is compared, at most.
const TRIES: u32 = 1000;

/// The states that a search keeps, in the order in which they were come to.
#[derive(Drop)]
pub(crate) struct KeptStates {
    /// The states.
    pub states: Vec<Packed>,
    /// The parts of which they are made.
    pub parts: Parts,
    /// How each was come to; the first one wasn't.
    pub ways: Vec<Way>,
    // The place of each, by its digest.
    places: DigestMap,
    /// How many states may be kept.
    pub most: u32,
}

// The place of this state, of this digest, where it is kept.
fn find(states: &[Packed], places: &DigestMap, digest: u64, packed: &Packed) -> Option<u32>
    ensures { IfSome result (λ n. HasKeyAt states.now n packed.now) }
{
    let mut tried = 0;
    for _ in 0..TRIES {
        let Some(found) = places.next(digest, tried) else {
            return None;
        };
        let Some(kept) = states.get(found.number as usize) else {
            return None;
        };
        if kept.is_same(packed) {
            return Some(found.number);
        }
        tried = found.tries.wrapping_add(1);
    }
    None
}

// Whether this state, of this digest, is kept.
fn is_kept(states: &[Packed], places: &DigestMap, digest: u64, packed: &Packed) -> bool
    ensures { result ≡ true → HasKey states.now packed.now }
{
    match find(states, places, digest, packed) {
        None => false,
        Some(_) => true,
    }
}

impl KeptStates {
    ghost use Rattle.image_search.specs.Kept.{IsFull, IsMetBy, IsMoreOf, IsSound};

    /// No states yet, how many may be kept, and whether exits are followed alone.
    pub fn new(alloc: Global, image: &Image, most: u32, alone: bool) -> KeptStates
        ensures sound { IsSound result }
        ensures most { result.most ≡ most }
        ensures alone { result.parts.alone ≡ alone }
        ensures fits { IsFor image.now result.parts }
    {
        KeptStates {
            states: Vec::new(alloc),
            parts: Parts::new(alloc, image, alone),
            ways: Vec::new(alloc),
            places: DigestMap::new(alloc),
            most,
        }
    }

    // Keeps a state of this digest that isn't kept; false where no more may be kept.
    fn add(
        &mut self,
        alloc: Global,
        packed: Packed,
        digest: u64,
        way: Way,
    ) -> Result<bool, AllocError>
        requires sound { IsSound self.old }
        requires within { IsWithin self.old.parts packed }
        ensures sound { OnOk result (IsSound self.new) }
        ensures more { OnOk result (IsMoreOf self.old self.new) }
        ensures kept { IfOk result
            (λ kept. MatchBool kept (HasKey self.new.states.items packed) (IsFull self.new)) }
    {
        let place = self.states.len();
        if place >= self.most as usize {
            return Ok(false);
        }
        self.places.note(alloc, digest, place as u32)?;
        self.ways.push(way)?;
        self.states.push(packed)?;
        Ok(true)
    }

    // Keeps a state, unless it is kept; false where no more may be kept.
    fn keep(&mut self, alloc: Global, packed: Packed, way: Way) -> Result<bool, AllocError>
        requires sound { IsSound self.old }
        requires within { IsWithin self.old.parts packed }
        ensures sound { OnOk result (IsSound self.new) }
        ensures more { OnOk result (IsMoreOf self.old self.new) }
        ensures kept { IfOk result
            (λ kept. MatchBool kept (HasKey self.new.states.items packed) (IsFull self.new)) }
    {
        let digest = packed.digest();
        if is_kept(self.states.as_slice(), &self.places, digest, &packed) {
            return Ok(true);
        }
        self.add(alloc, packed, digest, way)
    }

    /// Keeps a state that was come to so, unless it is kept; else answers why it can't be. One that isn't of the parts isn't
    /// kept.
    pub fn keep_state(
        &mut self,
        alloc: Global,
        packed: Packed,
        way: Way,
    ) -> Result<Option<Bound>, AllocError>
        requires sound { IsSound self.old }
        ensures sound { OnOk result (IsSound self.new) }
        ensures more { OnOk result (IsMoreOf self.old self.new) }
        ensures kept { IfOk result
            (λ o. MatchOption o (IsWithin self.old.parts packed → HasKey self.new.states.items packed)
            (IsMetBy self.new)) }
    {
        if !self.parts.is_within(&packed) {
            return Ok(None);
        }
        if self.keep(alloc, packed, way)? {
            return Ok(None);
        }
        Ok(Some(Bound::States))
    }

    /// Keeps all of these states that are of the parts, which come next of that at a place; else answers why they can't be.
    pub fn keep_all(
        &mut self,
        alloc: Global,
        nexts: &mut Vec<Next>,
        before: u32,
    ) -> Result<Option<Bound>, AllocError>
        requires sound { IsSound self.old }
        ensures sound { OnOk result (IsSound self.new) }
        ensures more { OnOk result (IsMoreOf self.old self.new) }
        ensures kept { IfOk result
            (λ o. MatchOption o ((next : NextOf) → Contains nexts.old.items next
            → IsWithin self.old.parts next.state → HasKey self.new.states.items next.state)
            (IsMetBy self.new)) }
    {
        while let Some(next) = nexts.pop() {
            let Next {
                state,
                thread,
                doing,
            } = next;
            let way = Way {
                before,
                thread,
                doing,
            };
            if let Some(bound) = self.keep_state(alloc, state, way)? {
                return Ok(Some(bound));
            }
        }
        Ok(None)
    }

    /// The state that is kept at a place.
    pub fn state(&self, place: u32) -> Option<&Packed>
        ensures { MatchOption result (slice_get self.now.states.items place ≡ None)
            (λ x. slice_get self.now.states.items place ≡ Some x.now) }
    {
        self.states.get(place as usize)
    }

    /// The place of a state, where it is kept.
    pub fn place_of(&self, packed: &Packed) -> Option<u32>
        ensures { IfSome result (λ n. HasKeyAt self.now.states.items n packed.now) }
    {
        find(
            self.states.as_slice(),
            &self.places,
            packed.digest(),
            packed,
        )
    }
}
