ghost use Rattle.std.specs.Prelude.{◌≡◌, ◌≤◌, ℕ, All, List, None, IfOk, IfSome, OnOk, length, Contains};
ghost use Rattle.buckets.specs.Places.{with_place};
ghost use Rattle.image_states.specs.Packed.{IsPrefix, asleep_at, place_of};
ghost use Rattle.image_states.specs.Choosing.{AddsPlaced, AreChosen, AreSleepers, HasPlaced, chosen_of, lists_in};
ghost use Rattle.image_states.specs.Reasons.{IsWhyAmong};
ghost use Rattle.image_states.specs.Room.{AreThreads};
ghost use Rattle.image_states.specs.declared.parts.Parts.{Parts as PartsOf};

use crate::bound::Bound;
use crate::each_set::sets;
use crate::next::{Doing, Next, push_next};
use crate::packed::{Packed, placed};
use std::alloc::{AllocError, Global};

// How many of so many sleepers are chosen, where so many may be.
pub(crate) fn chosen_of(most: u32, sleepers: usize) -> usize
    ensures is { result ≡ chosen_of most sleepers }
    ensures most { result ≤ most }
    ensures few { result ≤ sleepers }
{
    if most as usize <= sleepers {
        most as usize
    } else {
        sleepers
    }
}

// The state with these threads at a place comes next, by a step of this kind.
pub(crate) fn push_placed(
    alloc: Global,
    packed: &Packed,
    chosen: &[u32],
    to: u32,
    thread: u32,
    doing: Doing,
    found: &mut Vec<Next>,
) -> Result<(), AllocError>
    requires { AreThreads (length packed.now.places.items) chosen.now }
    ensures longer { OnOk result (IsPrefix found.old.items found.new.items) }
    ensures placed { OnOk result (HasPlaced packed.now found.new.items
        (with_place (asleep_at packed.now.places.items) chosen.now (place_of to))) }
    ensures adds { OnOk result (AddsPlaced packed.now to found.old.items found.new.items) }
{
    let state = placed(alloc, packed, chosen, to)?;
    push_next(found, state, thread, doing)?;
    Ok(())
}

// The same where there are so many of these threads.
fn push_set(
    alloc: Global,
    packed: &Packed,
    chosen: &[u32],
    size: usize,
    to: u32,
    thread: u32,
    found: &mut Vec<Next>,
) -> Result<(), AllocError>
    requires { AreThreads (length packed.now.places.items) chosen.now }
    ensures longer { OnOk result (IsPrefix found.old.items found.new.items) }
    ensures placed { OnOk result (length chosen.now ≡ size
        → HasPlaced packed.now found.new.items
        (with_place (asleep_at packed.now.places.items) chosen.now (place_of to))) }
    ensures adds { OnOk result (AddsPlaced packed.now to found.old.items found.new.items) }
{
    if chosen.len() != size {
        return Ok(());
    }
    push_placed(alloc, packed, chosen, to, thread, Doing::Own, found)
}

// The state with each of these sets of threads that has this size at a place comes next.
fn push_sets(
    alloc: Global,
    packed: &Packed,
    lists: &[Vec<u32>],
    size: usize,
    to: u32,
    thread: u32,
    found: &mut Vec<Next>,
) -> Result<(), AllocError>
    requires { All (AreThreads (length packed.now.places.items)) (lists_in lists.now) }
    ensures longer { OnOk result (IsPrefix found.old.items found.new.items) }
    ensures each { OnOk result ((chosen : List ℕ) → Contains (lists_in lists.now) chosen
        → length chosen ≡ size → HasPlaced packed.now found.new.items
        (with_place (asleep_at packed.now.places.items) chosen (place_of to))) }
    ensures adds { OnOk result (AddsPlaced packed.now to found.old.items found.new.items) }
{
    for list in lists {
        push_set(alloc, packed, list.as_slice(), size, to, thread, found)?;
    }
    Ok(())
}

// The state with each choice of so many of those that sleep at a place, which are these, at another comes next; else answers
// that there are too many.
pub(crate) fn push_choices(
    alloc: Global,
    packed: &Packed,
    sleepers: &[u32],
    size: usize,
    to: u32,
    thread: u32,
    found: &mut Vec<Next>,
) -> Result<Option<Bound>, AllocError>
    requires { AreThreads (length packed.now.places.items) sleepers.now }
    ensures longer { OnOk result (IsPrefix found.old.items found.new.items) }
    ensures each { IfOk result (λ o. o ≡ None → (place : ℕ)
        → AreSleepers packed.now.places.items place sleepers.now
        → (chosen : List ℕ) → AreChosen packed.now.places.items place size chosen
        → HasPlaced packed.now found.new.items
        (with_place (asleep_at packed.now.places.items) chosen (place_of to))) }
    ensures adds { OnOk result (AddsPlaced packed.now to found.old.items found.new.items) }
    ensures why { IfOk result (λ o. IfSome o
        (λ why. (parts : PartsOf) → IsWhyAmong parts sleepers.now why)) }
{
    let Some(lists) = sets(alloc, sleepers)? else {
        return Ok(Some(Bound::Sleepers));
    };
    push_sets(alloc, packed, lists.as_slice(), size, to, thread, found)?;
    Ok(None)
}
