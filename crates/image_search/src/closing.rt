ghost use Rattle.std.specs.Prelude.{◌≡◌, ◌<◌, IfOk, OnOk, Some, suc, true, ℕ};
ghost use Rattle.std.specs.List.{slice_get};
ghost use Rattle.isa.specs.Programs.{Program};
ghost use Rattle.proof_image_liveness.specs.Sleeping.{AreAsleep};
ghost use Rattle.image_search.specs.Kept.{IsSound, states_of};
ghost use Rattle.image_search.specs.Living.{HoldsAt, IsClosed, IsStill, OwnLeads, SleepsAt, flagged};

use crate::apart::is_apart_at;
use crate::flagged::{is_flagged, own_flagged};
use crate::kept::KeptStates;
use image_states::Scratch;
use isa::Image;
use std::alloc::{AllocError, Global};

// Whether the thread behind so many others sleeps in the state at a place.
fn is_asleep(kept: &KeptStates, place: u32, k: usize) -> bool
    ensures { result ≡ true → (p : Program) → HoldsAt p kept.now place (SleepsAt (suc k)) }
{
    match kept.state(place) {
        None => false,
        Some(packed) => packed.place(k) != 0,
    }
}

// How many threads there are in the state at a place.
fn threads_at(kept: &KeptStates, place: u32) -> usize
    ensures { (p : Program) → HoldsAt p kept.now place (λ r. r.state.made ≡ result) }
{
    match kept.state(place) {
        None => 0,
        Some(packed) => packed.parts.len(),
    }
}

// Whether each step of so many threads' own from the state at a place leads to what flagged states cover.
fn all_flagged(
    alloc: Global,
    image: &Image,
    kept: &mut KeptStates,
    flags: &[bool],
    place: u32,
    count: usize,
    scratch: &mut Scratch,
) -> Result<bool, AllocError>
    requires sound { IsSound kept.old }
    ensures sound { OnOk result (IsSound kept.new) }
    ensures still { OnOk result (IsStill kept.old kept.new) }
    ensures leads { IfOk result (λ all. all ≡ true → (u : ℕ) → u < count
        → HoldsAt image.now kept.new place (OwnLeads image.now kept.new flags.now (suc u))) }
{
    for u in 0..count {
        if !own_flagged(alloc, image, kept, flags, place, u, scratch)? {
            return Ok(false);
        }
    }
    Ok(true)
}

// Whether the thread behind so many others sleeps in the state at a place, and each own step leads to what flagged states cover.
fn is_closed_at(
    alloc: Global,
    image: &Image,
    kept: &mut KeptStates,
    flags: &[bool],
    place: u32,
    k: usize,
    scratch: &mut Scratch,
) -> Result<bool, AllocError>
    requires sound { IsSound kept.old }
    ensures sound { OnOk result (IsSound kept.new) }
    ensures still { OnOk result (IsStill kept.old kept.new) }
    ensures closed { IfOk result (λ is. is ≡ true
        → HoldsAt image.now kept.new place (IsClosed image.now (suc k) kept.new flags.now)) }
{
    let count = threads_at(kept, place);
    if !all_flagged(alloc, image, kept, flags, place, count, scratch)? {
        return Ok(false);
    }
    if !is_apart_at(image, kept, place) {
        return Ok(false);
    }
    let is = is_asleep(kept, place, k);
    Ok(is)
}

// The same where the place is flagged.
fn is_closed_where(
    alloc: Global,
    image: &Image,
    kept: &mut KeptStates,
    flags: &[bool],
    place: u32,
    k: usize,
    scratch: &mut Scratch,
) -> Result<bool, AllocError>
    requires sound { IsSound kept.old }
    ensures sound { OnOk result (IsSound kept.new) }
    ensures still { OnOk result (IsStill kept.old kept.new) }
    ensures closed { IfOk result (λ is. is ≡ true → slice_get flags.now place ≡ Some true
        → HoldsAt image.now kept.new place (IsClosed image.now (suc k) kept.new flags.now)) }
{
    if !is_flagged(flags, place) {
        return Ok(true);
    }
    let is = is_closed_at(alloc, image, kept, flags, place, k, scratch)?;
    Ok(is)
}

/// Whether the thread behind so many others sleeps in each flagged state, and each own step from one leads to what they cover.
pub(crate) fn is_closed(
    alloc: Global,
    image: &Image,
    kept: &mut KeptStates,
    flags: &[bool],
    k: usize,
    scratch: &mut Scratch,
) -> Result<bool, AllocError>
    requires sound { IsSound kept.old }
    ensures sound { OnOk result (IsSound kept.new) }
    ensures still { OnOk result (IsStill kept.old kept.new) }
    ensures closed { IfOk result (λ is. is ≡ true
        → AreAsleep image.now kept.new.parts.alone (suc k)
        (flagged flags.now (states_of image.now kept.new))) }
{
    if flags.len() > kept.most as usize {
        return Ok(false);
    }
    for place in 0..kept.most {
        if !is_closed_where(alloc, image, kept, flags, place, k, scratch)? {
            return Ok(false);
        }
    }
    Ok(true)
}
