ghost use Rattle.std.specs.Prelude.{◌≡◌, All, IfOk, OnOk, Some, false, suc, true};
ghost use Rattle.std.specs.List.{slice_get};
ghost use Rattle.image_search.specs.Kept.{IsSound};
ghost use Rattle.image_search.specs.Living.{HoldsAt, IsFlagged, IsStill, OwnLeads};

use crate::kept::KeptStates;
use crate::nexts::own_nexts_at;
use image_states::{Next, Packed, Scratch, thread_number};
use isa::Image;
use std::alloc::{AllocError, Global};

/// Whether a place is flagged.
pub(crate) fn is_flagged(flags: &[bool], place: u32) -> bool
    ensures is { result ≡ true → slice_get flags.now place ≡ Some true }
    ensures isnt { result ≡ false → slice_get flags.now place ≡ Some true → ⊥ }
{
    match flags.get(place as usize) {
        None => false,
        Some(flag) => *flag,
    }
}

impl KeptStates {
    // Whether a state of the same numbers is kept at a place that is flagged.
    fn has_flagged(&self, packed: &Packed, flags: &[bool]) -> bool
        ensures { result ≡ true → IsFlagged self.now flags.now packed.now }
    {
        match self.place_of(packed) {
            None => false,
            Some(place) => is_flagged(flags, place),
        }
    }

    // Whether one is of each of these.
    fn has_all_flagged(&self, nexts: &[Next], flags: &[bool]) -> bool
        ensures { result ≡ true → All (λ next. IsFlagged self.now flags.now next.state) nexts.now }
    {
        for next in nexts {
            if !self.has_flagged(&next.state, flags) {
                return false;
            }
        }
        true
    }
}

/// Whether each step of its own of the thread behind so many others, from the state at a place, leads to what flagged states
/// cover.
pub(crate) fn own_flagged(
    alloc: Global,
    image: &Image,
    kept: &mut KeptStates,
    flags: &[bool],
    place: u32,
    k: usize,
    scratch: &mut Scratch,
) -> Result<bool, AllocError>
    requires sound { IsSound kept.old }
    ensures sound { OnOk result (IsSound kept.new) }
    ensures still { OnOk result (IsStill kept.old kept.new) }
    ensures leads { IfOk result (λ all. all ≡ true
        → HoldsAt image.now kept.new place (OwnLeads image.now kept.new flags.now (suc k))) }
{
    let Some(t) = thread_number(k) else {
        return Ok(false);
    };
    if place as usize >= kept.states.len() {
        return Ok(false);
    }
    let mut found = Vec::new(alloc);
    let why = own_nexts_at(
        alloc,
        image,
        &mut kept.parts,
        kept.states.as_slice(),
        place,
        k,
        t,
        scratch,
        &mut found,
    )?;
    if why.is_some() {
        return Ok(false);
    }
    let all = kept.has_all_flagged(found.as_slice(), flags);
    Ok(all)
}
