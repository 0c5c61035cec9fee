ghost use Rattle.std.specs.Prelude.{◌≡◌, [], IfOk, IfSome, OnOk, Some, true};
ghost use Rattle.std.specs.List.{slice_get};
ghost use Rattle.proof_exploration.specs.Searching.{IsKept as IsKeptIn};
ghost use Rattle.source_states.specs.States.{state_of};
ghost use Rattle.source_search.specs.Known.{HasMoved};
ghost use Rattle.source_search.specs.Packed.{HasKey};

use crate::digest::digest_packed;
use crate::memo::Outcome;
use crate::packed::Packed;
use crate::parts::{Parts, TRIES};
use digest_map::DigestMap;
use program::Checked;
use source_states::SourceState;
use std::alloc::{AllocError, Global};

/// How a kept state was come to: from which, by which process, and by which of its choices.
#[derive(Clone, Copy)]
pub(crate) struct Way {
    /// The place of the state before.
    pub before: u32,
    /// The process.
    pub process: u32,
    /// The place of the action among the choices.
    pub choice: u32,
    /// The place of a calm action among the choices that were come to behind it, where there were several.
    pub later: u32,
}

// A number, in four bytes; the greatest there is, where it is greater.
fn short(number: u64) -> u32 {
    u32::try_from(number).unwrap_or(u32::MAX)
}

impl Way {
    /// From this place, by a process's choice.
    pub fn new(before: usize, process: u64, choice: usize) -> Way {
        Way {
            before: short(before as u64),
            process: short(process),
            choice: short(choice as u64),
            later: 0,
        }
    }

    /// The same, by these choices.
    pub fn with(self, choice: usize, later: usize) -> Way {
        Way {
            choice: short(choice as u64),
            later: short(later as u64),
            ..self
        }
    }
}

/// The kept state that is looked at.
#[derive(Clone, Copy)]
pub(crate) struct Origin {
    /// Its place.
    pub place: usize,
    /// Its digest.
    pub digest: u64,
}

impl Origin {
    /// The way from there by the process of this number.
    pub fn way(self, process: u64) -> Way {
        Way::new(self.place, process, 0)
    }
}

/// The states that a search keeps, in the order in which they were come to.
#[derive(Drop)]
pub(crate) struct Kept<'a> {
    /// The states.
    pub states: Vec<Packed>,
    /// The parts of which they are made.
    pub parts: Parts<'a>,
    /// How each was come to.
    pub ways: Vec<Way>,
    // The place of each, by its digest.
    places: DigestMap,
    // How many states may be kept.
    most: usize,
}

// Whether a state of these parts, of this digest, is kept.
fn is_kept(states: &[Packed], places: &DigestMap, digest: u64, packed: &Packed) -> bool
    ensures { result ≡ true → HasKey states.now packed.now }
{
    let mut tried = 0;
    for _ in 0..TRIES {
        let Some(found) = places.next(digest, tried) else {
            return false;
        };
        let Some(kept) = states.get(found.number as usize) else {
            return false;
        };
        if kept.is_same(packed) {
            return true;
        }
        tried = found.tries.wrapping_add(1);
    }
    false
}

// Whether the state of this digest that is another with the process at this place, the table and the variables as an
// outcome has them, is kept.
fn is_moved_kept(
    states: &[Packed],
    places: &DigestMap,
    digest: u64,
    other: &Packed,
    place: usize,
    outcome: Outcome,
) -> bool
    ensures { result ≡ true → HasMoved states.now other.now place outcome }
{
    let mut tried = 0;
    for _ in 0..TRIES {
        let Some(found) = places.next(digest, tried) else {
            return false;
        };
        let Some(kept) = states.get(found.number as usize) else {
            return false;
        };
        if kept.is_moved(other, place, outcome) {
            return true;
        }
        tried = found.tries.wrapping_add(1);
    }
    false
}

impl<'a> Kept<'a> {
    ghost use Rattle.source_states.specs.States.{state_of};
    ghost use Rattle.source_search.specs.Kept.{IsKeptAt, IsLonger, IsSound, states_of};
    ghost use Rattle.source_search.specs.Packed.{IsWithin, unpacked};

    /// No states yet, and how many may be kept.
    pub fn new(alloc: Global, most: usize) -> Kept<'a>
        ensures { IsSound result }
    {
        Kept {
            states: Vec::new(alloc),
            parts: Parts::new(alloc),
            ways: Vec::new(alloc),
            places: DigestMap::new(alloc),
            most,
        }
    }

    /// The state that is kept at a place, whole.
    pub fn state(&self, alloc: Global, place: usize) -> Result<Option<SourceState<'a>>, AllocError>
        ensures { IfOk result (λ o. IfSome o
            (λ s. slice_get (states_of self.now) place ≡ Some (state_of s))) }
    {
        let Some(packed) = self.states.get(place) else {
            return Ok(None);
        };
        let Some(state) = self.parts.unpack(alloc, packed)? else {
            return Ok(None);
        };
        Ok(Some(state))
    }

    /// The parts of the state that is kept at a place.
    pub fn packed_at(&self, alloc: Global, place: usize) -> Result<Option<Packed>, AllocError>
        ensures { IsSound self.now → IfOk result (λ o. IfSome o
            (λ x. IsKeptAt self.now place x)) }
    {
        let Some(packed) = self.states.get(place) else {
            return Ok(None);
        };
        let copied = packed.copy(alloc)?;
        Ok(Some(copied))
    }

    // The numbers of the table and of the values of the variables of the state that is kept at a place.
    fn common_at(&self, place: usize) -> (u32, u32) {
        match self.states.get(place) {
            None => (0, 0),
            Some(packed) => (packed.table, packed.variables),
        }
    }

    /// Whether the state of this digest that is another with the process at this place, the table and the variables as an
    /// outcome has them, is kept.
    pub fn has_moved(&self, digest: u64, other: &Packed, place: usize, outcome: Outcome) -> bool
        ensures { result ≡ true → HasMoved self.now.states.items other.now place outcome }
    {
        is_moved_kept(
            self.states.as_slice(),
            &self.places,
            digest,
            other,
            place,
            outcome,
        )
    }

    /// Whether a state of these parts, of this digest, is kept.
    pub fn is_noted(&self, digest: u64, packed: &Packed) -> bool
        ensures { result ≡ true → HasKey self.now.states.items packed.now }
    {
        is_kept(self.states.as_slice(), &self.places, digest, packed)
    }

    /// Notes the digest of the state that is kept next.
    pub fn note_place(&mut self, alloc: Global, digest: u64) -> Result<(), AllocError>
        ensures parts { OnOk result (self.new.parts ≡ self.old.parts) }
        ensures states { OnOk result (self.new.states ≡ self.old.states) }
    {
        let place = short(self.states.len() as u64);
        self.places.note(alloc, digest, place)
    }

    /// Begins anew, with the same parts: no states yet, and a search may keep none.
    pub fn begin(&mut self, alloc: Global)
        ensures parts { self.new.parts ≡ self.old.parts }
        ensures states { self.new.states.items ≡ [] }
    {
        self.states = Vec::new(alloc);
        self.places = DigestMap::new(alloc);
        self.most = 0;
    }

    /// Keeps a state of these parts, of this digest, that isn't kept; false, where no more can be kept.
    pub fn add(
        &mut self,
        alloc: Global,
        packed: Packed,
        digest: u64,
        way: Way,
    ) -> Result<bool, AllocError>
        requires sound { IsSound self.old }
        requires within { IsWithin self.old.parts packed }
        ensures sound { OnOk result (IsSound self.new) }
        ensures parts { OnOk result (self.new.parts ≡ self.old.parts) }
        ensures longer { OnOk result (IsLonger (states_of self.old) (states_of self.new)) }
        ensures kept { IfOk result (λ kept. kept ≡ true
            → IsKeptIn (states_of self.new) (unpacked self.old.parts packed)) }
    {
        if self.states.len() >= self.most {
            return Ok(false);
        }
        let Ok(place) = u32::try_from(self.states.len()) else {
            return Ok(false);
        };
        self.places.note(alloc, digest, place)?;
        self.ways.push(way)?;
        self.states.push(packed)?;
        Ok(true)
    }

    /// Keeps a state of these parts, unless it is kept; false, where no more can be kept.
    pub fn keep_packed(
        &mut self,
        alloc: Global,
        packed: Packed,
        way: Way,
    ) -> Result<bool, AllocError>
        requires sound { IsSound self.old }
        requires within { IsWithin self.old.parts packed }
        ensures sound { OnOk result (IsSound self.new) }
        ensures parts { OnOk result (self.new.parts ≡ self.old.parts) }
        ensures longer { OnOk result (IsLonger (states_of self.old) (states_of self.new)) }
        ensures kept { IfOk result (λ kept. kept ≡ true
            → IsKeptIn (states_of self.new) (unpacked self.old.parts packed)) }
    {
        let digest = digest_packed(&packed);
        if is_kept(self.states.as_slice(), &self.places, digest, &packed) {
            return Ok(true);
        }
        self.add(alloc, packed, digest, way)
    }

    /// Keeps a state, unless one like it is kept; false, where no more can be kept.
    pub fn keep(
        &mut self,
        alloc: Global,
        checked: &'a Checked,
        state: SourceState<'a>,
        way: Way,
    ) -> Result<bool, AllocError>
        requires sound { IsSound self.old }
        ensures sound { OnOk result (IsSound self.new) }
        ensures longer { OnOk result (IsLonger (states_of self.old) (states_of self.new)) }
        ensures kept { IfOk result (λ kept. kept ≡ true
            → IsKeptIn (states_of self.new) (state_of state.entry)) }
    {
        let (table, variables) = self.common_at(way.before as usize);
        let program = checked.program();
        let Some(packed) = self.parts.pack(alloc, program, &state, table, variables)? else {
            return Ok(false);
        };
        let kept = self.keep_packed(alloc, packed, way)?;
        Ok(kept)
    }
}
