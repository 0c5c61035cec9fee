ghost use Rattle.std.specs.Prelude.{◌≡◌, ◌≤◌, ◌<◌, All, Contains, IfOk, None, OnOk, Some, false, length, suc, true, ℕ};
ghost use Rattle.isa.specs.Programs.{Program};
ghost use Rattle.proof_image_search.specs.Searching.{Kept as KeptOf};
ghost use Rattle.proof_image_liveness.specs.Sleeping.{AreWakened};
ghost use Rattle.image_search.specs.Kept.{IsSound, states_of};
ghost use Rattle.image_search.specs.Living.{AllWakened, AreKnown, CanGo, HoldsAt, IsStill, LeadsAt, LivesAt};

use crate::apart::is_apart_at;
use crate::flagged::{is_flagged, own_flagged};
use crate::graph::Graph;
use crate::kept::KeptStates;
use crate::reaching::{most_threads, reach_of};
use image_states::{Packed, Scratch, thread_number};
use isa::Image;
use std::alloc::{AllocError, Global};

// Whether the thread behind so many others is awake in the state at a place.
fn is_awake(kept: &KeptStates, place: u32, k: usize) -> bool
    ensures { result ≡ true → (p : Program)
        → HoldsAt p kept.now place (λ r. r.state.asleep (suc k) ≡ None) }
{
    match kept.state(place) {
        None => false,
        Some(packed) => packed.place(k) == 0,
    }
}

// Whether it can take a step in the state at a place.
pub(crate) fn can_go(image: &Image, kept: &KeptStates, place: u32, k: usize) -> bool
    ensures { result ≡ true → HoldsAt image.now kept.now place (CanGo image.now (suc k)) }
{
    let Some(t) = thread_number(k) else {
        return false;
    };
    let Some(packed) = kept.state(place) else {
        return false;
    };
    kept.parts.can_step(packed, k) && !kept.parts.is_broken_at(image, packed, k, t)
}

// Whether it can take a step there, and whatever it does leads to what flagged states cover.
pub(crate) fn leads_on(
    alloc: Global,
    image: &Image,
    kept: &mut KeptStates,
    flags: &[bool],
    place: u32,
    k: usize,
    scratch: &mut Scratch,
) -> Result<bool, AllocError>
    requires sound { IsSound kept.old }
    ensures sound { OnOk result (IsSound kept.new) }
    ensures still { OnOk result (IsStill kept.old kept.new) }
    ensures leads { IfOk result (λ on. on ≡ true
        → HoldsAt image.now kept.new place (LeadsAt image.now kept.new flags.now)) }
{
    if !own_flagged(alloc, image, kept, flags, place, k, scratch)? {
        return Ok(false);
    }
    if !is_apart_at(image, kept, place) {
        return Ok(false);
    }
    let can = can_go(image, kept, place, k);
    Ok(can)
}

// The same of the thread of a step from there that was found, where it leads to a flagged state.
fn leads_by(
    alloc: Global,
    image: &Image,
    kept: &mut KeptStates,
    graph: &Graph,
    number: usize,
    flags: &[bool],
    place: u32,
    scratch: &mut Scratch,
) -> Result<bool, AllocError>
    requires sound { IsSound kept.old }
    ensures sound { OnOk result (IsSound kept.new) }
    ensures still { OnOk result (IsStill kept.old kept.new) }
    ensures leads { IfOk result (λ on. on ≡ true
        → HoldsAt image.now kept.new place (LeadsAt image.now kept.new flags.now)) }
{
    let Some(edge) = graph.edges.get(number) else {
        return Ok(false);
    };
    if !is_flagged(flags, edge.to) {
        return Ok(false);
    }
    let Some(k) = (edge.thread as usize).checked_sub(1) else {
        return Ok(false);
    };
    let leads = leads_on(alloc, image, kept, flags, place, k, scratch)?;
    Ok(leads)
}

// Whether a step of some thread leads on from the state at a place.
fn some_leads(
    alloc: Global,
    image: &Image,
    kept: &mut KeptStates,
    graph: &Graph,
    flags: &[bool],
    place: u32,
    scratch: &mut Scratch,
) -> Result<bool, AllocError>
    requires sound { IsSound kept.old }
    ensures sound { OnOk result (IsSound kept.new) }
    ensures still { OnOk result (IsStill kept.old kept.new) }
    ensures leads { IfOk result (λ on. on ≡ true
        → HoldsAt image.now kept.new place (LeadsAt image.now kept.new flags.now)) }
{
    let (start, end) = graph.range(place);
    for number in start..end {
        if leads_by(alloc, image, kept, graph, number, flags, place, scratch)? {
            return Ok(true);
        }
    }
    Ok(false)
}

// Whether the state at a place is live for the thread behind so many others.
fn lives(
    alloc: Global,
    image: &Image,
    kept: &mut KeptStates,
    graph: &Graph,
    flags: &[bool],
    place: u32,
    k: usize,
    scratch: &mut Scratch,
) -> Result<bool, AllocError>
    requires sound { IsSound kept.old }
    ensures sound { OnOk result (IsSound kept.new) }
    ensures still { OnOk result (IsStill kept.old kept.new) }
    ensures lives { IfOk result (λ is. is ≡ true
        → HoldsAt image.now kept.new place (LivesAt image.now (suc k) kept.new flags.now)) }
{
    if is_awake(kept, place, k) {
        return Ok(true);
    }
    let leads = some_leads(alloc, image, kept, graph, flags, place, scratch)?;
    Ok(leads)
}

// Flags the state at a place, where it is live; whether it wasn't flagged before.
fn mark(
    alloc: Global,
    image: &Image,
    kept: &mut KeptStates,
    graph: &Graph,
    flags: &mut Vec<bool>,
    place: u32,
    k: usize,
    scratch: &mut Scratch,
) -> Result<bool, AllocError>
    requires sound { IsSound kept.old }
    requires known { AreKnown image.now (suc k) kept.old flags.old.items }
    ensures sound { OnOk result (IsSound kept.new) }
    ensures still { OnOk result (IsStill kept.old kept.new) }
    ensures known { OnOk result (AreKnown image.now (suc k) kept.new flags.new.items) }
{
    let at = place as usize;
    if at >= flags.len() || is_flagged(flags.as_slice(), place) {
        return Ok(false);
    }
    let is = lives(
        alloc,
        image,
        kept,
        graph,
        flags.as_slice(),
        place,
        k,
        scratch,
    )?;
    if !is {
        return Ok(false);
    }
    flags[at] = true;
    Ok(true)
}

// Flags those of the states at these places that are live; whether there is one more.
fn mark_all(
    alloc: Global,
    image: &Image,
    kept: &mut KeptStates,
    graph: &Graph,
    flags: &mut Vec<bool>,
    order: &[u32],
    k: usize,
    scratch: &mut Scratch,
) -> Result<bool, AllocError>
    requires sound { IsSound kept.old }
    requires known { AreKnown image.now (suc k) kept.old flags.old.items }
    ensures sound { OnOk result (IsSound kept.new) }
    ensures still { OnOk result (IsStill kept.old kept.new) }
    ensures known { OnOk result (AreKnown image.now (suc k) kept.new flags.new.items) }
{
    let mut more = false;
    for place in order {
        if mark(alloc, image, kept, graph, flags, *place, k, scratch)? {
            more = true;
        }
    }
    Ok(more)
}

// The same over and over, until there is none more.
fn mark_on(
    alloc: Global,
    image: &Image,
    kept: &mut KeptStates,
    graph: &Graph,
    flags: &mut Vec<bool>,
    order: &[u32],
    k: usize,
    scratch: &mut Scratch,
) -> Result<(), AllocError>
    requires sound { IsSound kept.old }
    requires known { AreKnown image.now (suc k) kept.old flags.old.items }
    ensures sound { OnOk result (IsSound kept.new) }
    ensures still { OnOk result (IsStill kept.old kept.new) }
    ensures known { OnOk result (AreKnown image.now (suc k) kept.new flags.new.items) }
{
    for _ in 0..order.len() {
        if !mark_all(alloc, image, kept, graph, flags, order, k, scratch)? {
            return Ok(());
        }
    }
    Ok(())
}

// No place is flagged, of so many.
pub(crate) fn no_flags(alloc: Global, count: usize) -> Result<Vec<bool>, AllocError>
    ensures { IfOk result (λ flags. All (λ flag. flag ≡ false) flags.items) }
{
    let mut flags = Vec::new(alloc);
    for _ in 0..count {
        flags.push(false)?;
    }
    Ok(flags)
}

// Whether all are flagged.
pub(crate) fn are_all(flags: &[bool]) -> bool
    ensures { result ≡ true → All (λ flag. flag ≡ true) flags.now }
{
    for flag in flags {
        if !*flag {
            return false;
        }
    }
    true
}

// Whether each state is live for the thread behind so many others.
fn all_live(
    alloc: Global,
    image: &Image,
    kept: &mut KeptStates,
    graph: &Graph,
    k: usize,
    scratch: &mut Scratch,
) -> Result<bool, AllocError>
    requires sound { IsSound kept.old }
    ensures sound { OnOk result (IsSound kept.new) }
    ensures still { OnOk result (IsStill kept.old kept.new) }
    ensures wakened { IfOk result (λ all. all ≡ true → AllWakened image.now (suc k) kept.new) }
{
    let reach = reach_of(alloc, kept, graph, k)?;
    let mut flags = no_flags(alloc, kept.states.len())?;
    mark_on(
        alloc,
        image,
        kept,
        graph,
        &mut flags,
        reach.order.as_slice(),
        k,
        scratch,
    )?;
    if flags.len() < kept.states.len() {
        return Ok(false);
    }
    let all = are_all(flags.as_slice());
    Ok(all)
}

// Whether no more than so many threads have a place to sleep in each of these.
pub(crate) fn are_within(states: &[Packed], count: usize) -> bool
    ensures { result ≡ true → All (λ x. length x.places.items ≤ count) states.now }
{
    for packed in states {
        if packed.places.len() > count {
            return false;
        }
    }
    true
}

// Whether each state is live for each of so many threads.
fn all_live_for(
    alloc: Global,
    image: &Image,
    kept: &mut KeptStates,
    graph: &Graph,
    count: usize,
    scratch: &mut Scratch,
) -> Result<bool, AllocError>
    requires sound { IsSound kept.old }
    ensures sound { OnOk result (IsSound kept.new) }
    ensures still { OnOk result (IsStill kept.old kept.new) }
    ensures wakened { IfOk result (λ all. all ≡ true → (k : ℕ) → k < count
        → AllWakened image.now (suc k) kept.new) }
{
    for k in 0..count {
        if !all_live(alloc, image, kept, graph, k, scratch)? {
            return Ok(false);
        }
    }
    Ok(true)
}

/// Whether a run of the threads' own steps wakes whoever sleeps in a kept state.
pub(crate) fn all_wakened(
    alloc: Global,
    image: &Image,
    kept: &mut KeptStates,
    graph: &Graph,
    scratch: &mut Scratch,
) -> Result<bool, AllocError>
    requires sound { IsSound kept.old }
    ensures sound { OnOk result (IsSound kept.new) }
    ensures still { OnOk result (IsStill kept.old kept.new) }
    ensures wakened { IfOk result (λ all. all ≡ true
        → (r : KeptOf) → Contains (states_of image.now kept.new) r
        → AreWakened image.now kept.new.parts.alone r) }
{
    let count = most_threads(kept);
    if !are_within(kept.states.as_slice(), count) {
        return Ok(false);
    }
    let all = all_live_for(alloc, image, kept, graph, count, scratch)?;
    Ok(all)
}
