ghost use Rattle.std.specs.Prelude.{◌≡◌, ◌<◌, ◌≤◌, ◌-◌, IfOk, length, slice_index, slice_set, suc, true};
ghost use Rattle.buckets.specs.Places.{with_place};
ghost use Rattle.image_states.specs.Packed.{IsSameKey, IsPlaced, asleep_at, place_of};
ghost use Rattle.image_states.specs.Room.{AreThreads};

use crate::digest::{fed, mixed};
use std::alloc::{AllocError, Global};
use words::Addr;

/// A state, packed: the numbers of its parts. `unpacked` is the state of the definitions for which it stands.
#[derive(Drop)]
pub struct Packed {
    /// The number of its memory.
    pub memory: u32,
    /// How many threads were killed on the way to it.
    pub killed: u32,
    /// The numbers of the local states of its threads, from thread 1.
    pub parts: Vec<u32>,
    /// Where they sleep: 0 for a thread that is awake, else one more than the address.
    pub places: Vec<u32>,
}

impl Packed {
    /// Whether two states are of the same numbers.
    pub fn is_same(&self, other: &Packed) -> bool
        ensures { result ≡ true → IsSameKey self.now other.now }
    {
        if self.memory != other.memory {
            return false;
        }
        if self.killed != other.killed {
            return false;
        }
        if self.parts != other.parts {
            return false;
        }
        self.places == other.places
    }

    /// A number that is mostly another for another state.
    pub fn digest(&self) -> u64 {
        let mut digest = fed(u64::from(self.memory), self.killed);
        for part in &self.parts {
            digest = fed(digest, *part);
        }
        for place in &self.places {
            digest = fed(digest, *place);
        }
        mixed(digest)
    }

    /// A copy.
    pub fn copy(&self, alloc: Global) -> Result<Packed, AllocError>
        ensures { IfOk result (IsSameKey self.now) }
    {
        Ok(Packed {
            memory: self.memory,
            killed: self.killed,
            parts: Vec::from_slice(alloc, self.parts.as_slice())?,
            places: Vec::from_slice(alloc, self.places.as_slice())?,
        })
    }

    /// Where the thread behind so many others sleeps: 0 where it is awake, else one more than the address.
    pub fn place(&self, k: usize) -> u32
        ensures { result ≡ slice_index self.now.places.items k }
    {
        match self.places.get(k) {
            Some(place) => *place,
            None => 0,
        }
    }
}

impl Packed {
    ghost use Rattle.image_states.specs.Packed.{IsMoved};
    ghost use Rattle.image_states.specs.Choosing.{AreSleepers};

    // The same with another memory, and with another local state for the thread behind so many others.
    pub(crate) fn moved(
        &self,
        alloc: Global,
        k: usize,
        memory: u32,
        part: u32,
    ) -> Result<Packed, AllocError>
        requires { k < length self.now.parts.items }
        ensures { IfOk result (λ y. IsMoved self.now y k memory part) }
    {
        let places = Vec::from_slice(alloc, self.places.as_slice())?;
        let mut parts = Vec::from_slice(alloc, self.parts.as_slice())?;
        parts[k] = part;
        Ok(Packed {
            memory,
            killed: self.killed,
            parts,
            places,
        })
    }

    // The threads that sleep on an address.
    pub(crate) fn sleepers_on(&self, alloc: Global, a: Addr) -> Result<Vec<u32>, AllocError>
        requires few { length self.now.places.items ≤ 1000 }
        requires address { a.0 < 4294967295 }
        ensures { IfOk result (λ v. AreSleepers self.now.places.items (suc a.0) v.items) }
    {
        self.sleepers(alloc, a.0 + 1)
    }

    // The threads that sleep at a place.
    fn sleepers(&self, alloc: Global, place: u32) -> Result<Vec<u32>, AllocError>
        requires few { length self.now.places.items ≤ 1000 }
        requires place { 0 < place }
        ensures { IfOk result (λ v. AreSleepers self.now.places.items place v.items) }
    {
        let count = self.places.len() as u32;
        let mut sleepers = Vec::new(alloc);
        for k in 0..count {
            if self.place(k as usize) == place {
                sleepers.push(k + 1)?;
            }
        }
        Ok(sleepers)
    }
}

// A thread is at this place from now on.
fn place_one(places: &mut [u32], t: u32, place: u32)
    requires { (0 < t) × (t ≤ length places.old) }
    ensures { places.new ≡ slice_set places.old (t - 1) place }
{
    places[t as usize - 1] = place;
}

// These threads are at this place from now on.
fn place_all(places: &mut [u32], chosen: &[u32], place: u32)
    requires { AreThreads (length places.old) chosen.now }
    ensures placed { asleep_at places.new ≡ with_place (asleep_at places.old) chosen.now (place_of place) }
    ensures count { length places.new ≡ length places.old }
{
    for t in chosen {
        place_one(places, *t, place);
    }
}

// The same but for these threads, which are at this place.
pub(crate) fn placed(
    alloc: Global,
    packed: &Packed,
    chosen: &[u32],
    place: u32,
) -> Result<Packed, AllocError>
    requires { AreThreads (length packed.now.places.items) chosen.now }
    ensures placed { IfOk result (λ y. IsPlaced packed.now y
        (with_place (asleep_at packed.now.places.items) chosen.now (place_of place))) }
    ensures killed { IfOk result (λ y. y.killed ≡ packed.now.killed) }
{
    let parts = Vec::from_slice(alloc, packed.parts.as_slice())?;
    let mut places = Vec::from_slice(alloc, packed.places.as_slice())?;
    place_all(places.as_mut_slice(), chosen, place);
    Ok(Packed {
        memory: packed.memory,
        killed: packed.killed,
        parts,
        places,
    })
}
