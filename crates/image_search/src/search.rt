ghost use Rattle.std.specs.Prelude.{◌≡◌, ◌<◌, Bool, IfNone, IfOk, IfSome, List, MatchOption, None, OnOk, length, true, ℕ};
ghost use Rattle.machine.specs.States.{opening_state};
ghost use Rattle.proof_image_search.specs.Searching.{IsCovered, Kept as KeptOf};
ghost use Rattle.image_states.specs.Nexts.{may_of};
ghost use Rattle.image_search.specs.Ends.{EndsSo, HasEndedBy, IsMetIn};
ghost use Rattle.image_search.specs.Kept.{IsExpandedAt, IsLookedAt, IsMore, IsSound, IsToldAt, states_of};

use crate::apart::is_apart_at;
use crate::ending::{Bound, Ending};
use crate::ends::{ends_of, shown};
use crate::kept::KeptStates;
use crate::nexts::nexts_at;
use crate::progress::Progress;
use crate::reasons::bound_at;
use image_states::{Outside, Scratch};
use isa::Image;
use std::alloc::{AllocError, Global};

// Of how many ends a schedule is tried that leads elsewhere, before none is tried any more.
const MOST_TRIES: u32 = 64;

// One more.
fn one_more(passed: u32) -> u32
    ensures { 0 < result }
{
    passed.saturating_add(1)
}

// How the search ends at the state that is kept at a place, where that is an end and a schedule that leads to it is found;
// else it counts it, where it is one.
fn look_at_ends(
    alloc: Global,
    image: &Image,
    kept: &KeptStates,
    place: u32,
    outside: Outside,
    passed: &mut u32,
) -> Result<Option<Ending>, AllocError>
    requires { place < length kept.now.states.items }
    ensures ended { IfOk result (λ o. IfSome o
        (λ e. (alone : Bool) (most : ℕ) (states : List KeptOf)
        → HasEndedBy image.now alone (may_of outside) most states e)) }
    ensures told { IfOk result (λ o. o ≡ None
        → IsToldAt image.now (states_of image.now kept.now) place passed.old passed.new) }
{
    let Some(packed) = kept.state(place) else {
        unreachable!()
    };
    let ends = ends_of(image, &kept.parts, packed);
    if !ends.is_any() {
        return Ok(None);
    }
    let tries = *passed < MOST_TRIES;
    *passed = one_more(*passed);
    if !tries {
        return Ok(None);
    }
    let ending = shown(alloc, image, kept, place, outside, ends)?;
    Ok(ending)
}

// Keeps what may come next of the state that is kept at a place; else answers why not all is.
fn expand(
    alloc: Global,
    image: &Image,
    kept: &mut KeptStates,
    place: u32,
    outside: Outside,
    scratch: &mut Scratch,
) -> Result<Option<Bound>, AllocError>
    requires sound { IsSound kept.old }
    requires place { place < length kept.old.states.items }
    ensures sound { OnOk result (IsSound kept.new) }
    ensures more { OnOk result (IsMore kept.old kept.new) }
    ensures expanded { IfOk result (λ o. MatchOption o
        (IsExpandedAt image.now kept.old.parts.alone (may_of outside) (states_of image.now kept.old)
        (states_of image.now kept.new) place)
        (IsMetIn image.now (may_of outside) kept.new)) }
{
    let mut found = Vec::new(alloc);
    let why = nexts_at(
        alloc,
        image,
        &mut kept.parts,
        kept.states.as_slice(),
        place,
        outside,
        scratch,
        &mut found,
    )?;
    if let Some(why) = why {
        let met = bound_at(alloc, image, kept, place, outside, why)?;
        return Ok(Some(met));
    }
    let bound = kept.keep_all(alloc, &mut found, place)?;
    Ok(bound)
}

// Looks at the state that is kept at a place, and keeps what may come next; or answers how the search ends there.
fn look_at(
    alloc: Global,
    image: &Image,
    kept: &mut KeptStates,
    place: u32,
    outside: Outside,
    scratch: &mut Scratch,
    passed: &mut u32,
) -> Result<Option<Ending>, AllocError>
    requires sound { IsSound kept.old }
    requires place { place < length kept.old.states.items }
    ensures sound { OnOk result (IsSound kept.new) }
    ensures more { OnOk result (IsMore kept.old kept.new) }
    ensures looked { IfOk result (λ o. MatchOption o
        (IsLookedAt image.now kept.old.parts.alone (may_of outside) (states_of image.now kept.old)
        (states_of image.now kept.new) place
        passed.old passed.new)
        (HasEndedBy image.now kept.old.parts.alone (may_of outside) kept.new.most
        (states_of image.now kept.new))) }
{
    if let Some(ending) = look_at_ends(alloc, image, kept, place, outside, passed)? {
        return Ok(Some(ending));
    }
    match expand(alloc, image, kept, place, outside, scratch)? {
        None => Ok(None),
        Some(bound) => Ok(Some(Ending::Bounded(bound))),
    }
}

// How a search ends that has looked at all states, of which so many ends were passed over.
fn ending_of(passed: u32) -> Ending
    ensures { EndsSo passed result }
{
    if passed == 0 {
        return Ending::Complete;
    }
    Ending::Bounded(Bound::Choice)
}

/// Keeps all states that a schedule leads to, breadth first, as far as there is room and no end is found, and tells how far
/// it has come. Answers none where exits are followed alone, and a thread's next step sees it.
pub(crate) fn search<P: Progress>(
    alloc: Global,
    image: &Image,
    kept: &mut KeptStates,
    outside: Outside,
    scratch: &mut Scratch,
    progress: &mut P,
) -> Result<Option<Ending>, AllocError>
    requires sound { IsSound kept.old }
    requires opens { (m : ℕ) × IsCovered image.now kept.old.parts.alone
        (states_of image.now kept.old) m (opening_state image.now) 0 }
    ensures sound { OnOk result (IsSound kept.new) }
    ensures most { OnOk result (kept.new.most ≡ kept.old.most) }
    ensures alone { IfOk result (λ o. IfNone o (kept.old.parts.alone ≡ true)) }
    ensures ended { IfOk result (λ o. IfSome o
        (HasEndedBy image.now kept.new.parts.alone (may_of outside) kept.old.most
        (states_of image.now kept.new))) }
{
    let mut passed = 0;
    for place in 0..kept.most {
        if place as usize >= kept.states.len() {
            return Ok(Some(ending_of(passed)));
        }
        if !is_apart_at(image, kept, place) {
            return Ok(None);
        }
        let ending = look_at(alloc, image, kept, place, outside, scratch, &mut passed)?;
        if ending.is_some() {
            return Ok(ending);
        }
        progress.looked_at(kept.states.len(), place as usize + 1);
    }
    if kept.states.len() <= kept.most as usize {
        return Ok(Some(ending_of(passed)));
    }
    Ok(Some(Ending::Bounded(Bound::States)))
}
