ghost use Rattle.std.specs.Prelude.{◌≡◌, All, Contains, IfOk, None, OnOk, true, ℕ};
ghost use Rattle.isa.specs.Programs.{Program};
ghost use Rattle.proof_image_search.specs.Searching.{Kept as KeptOf};
ghost use Rattle.proof_image_liveness.specs.Sleeping.{AreWakened};
ghost use Rattle.image_search.specs.Kept.{IsSound, states_of};
ghost use Rattle.image_search.specs.Living.{AllWakened, AreKnown, HoldsAt, IsStill, LeadsAt, LivesAt};

use crate::flagged::is_flagged;
use crate::kept::KeptStates;
use crate::living::{are_all, are_within, can_go, leads_on, no_flags};
use crate::reaching::most_threads;
use image_states::Scratch;
use isa::Image;
use std::alloc::{AllocError, Global};

// How often all states are looked at, before each thread is looked at alone.
const MOST_PASSES: usize = 8;

// Whether each of these numbers is 0.
fn are_zero(numbers: &[u32]) -> bool
    ensures { result ≡ true → All (λ n. n ≡ 0) numbers.now }
{
    for number in numbers {
        if *number != 0 {
            return false;
        }
    }
    true
}

// Whether no thread sleeps in the state at a place.
fn none_sleeps(kept: &KeptStates, place: u32) -> bool
    ensures { result ≡ true → (p : Program) (t : ℕ)
        → HoldsAt p kept.now place (λ r. r.state.asleep t ≡ None) }
{
    match kept.state(place) {
        None => false,
        Some(packed) => are_zero(packed.places.as_slice()),
    }
}

// Whether the thread behind so many others can take a step in the state at a place, and whatever it does leads to what flagged
// states cover.
fn thread_leads(
    alloc: Global,
    image: &Image,
    kept: &mut KeptStates,
    flags: &[bool],
    place: u32,
    k: usize,
    scratch: &mut Scratch,
) -> Result<bool, AllocError>
    requires sound { IsSound kept.old }
    ensures sound { OnOk result (IsSound kept.new) }
    ensures still { OnOk result (IsStill kept.old kept.new) }
    ensures leads { IfOk result (λ on. on ≡ true
        → HoldsAt image.now kept.new place (LeadsAt image.now kept.new flags.now)) }
{
    if !can_go(image, kept, place, k) {
        return Ok(false);
    }
    let leads = leads_on(alloc, image, kept, flags, place, k, scratch)?;
    Ok(leads)
}

// The same of some thread, of so many.
fn any_leads(
    alloc: Global,
    image: &Image,
    kept: &mut KeptStates,
    flags: &[bool],
    place: u32,
    count: usize,
    scratch: &mut Scratch,
) -> Result<bool, AllocError>
    requires sound { IsSound kept.old }
    ensures sound { OnOk result (IsSound kept.new) }
    ensures still { OnOk result (IsStill kept.old kept.new) }
    ensures leads { IfOk result (λ on. on ≡ true
        → HoldsAt image.now kept.new place (LeadsAt image.now kept.new flags.now)) }
{
    for k in 0..count {
        if thread_leads(alloc, image, kept, flags, place, k, scratch)? {
            return Ok(true);
        }
    }
    Ok(false)
}

// Whether the state at a place is live for all threads: none sleeps there, or some step leads on.
fn lives_for_all(
    alloc: Global,
    image: &Image,
    kept: &mut KeptStates,
    flags: &[bool],
    place: u32,
    count: usize,
    scratch: &mut Scratch,
) -> Result<bool, AllocError>
    requires sound { IsSound kept.old }
    ensures sound { OnOk result (IsSound kept.new) }
    ensures still { OnOk result (IsStill kept.old kept.new) }
    ensures lives { IfOk result (λ is. is ≡ true → (t : ℕ)
        → HoldsAt image.now kept.new place (LivesAt image.now t kept.new flags.now)) }
{
    if none_sleeps(kept, place) {
        return Ok(true);
    }
    let leads = any_leads(alloc, image, kept, flags, place, count, scratch)?;
    Ok(leads)
}

// Flags the state at a place, where it is live for all threads; whether it wasn't flagged before.
fn mark_for_all(
    alloc: Global,
    image: &Image,
    kept: &mut KeptStates,
    flags: &mut Vec<bool>,
    place: u32,
    count: usize,
    scratch: &mut Scratch,
) -> Result<bool, AllocError>
    requires sound { IsSound kept.old }
    requires known { (t : ℕ) → AreKnown image.now t kept.old flags.old.items }
    ensures sound { OnOk result (IsSound kept.new) }
    ensures still { OnOk result (IsStill kept.old kept.new) }
    ensures known { OnOk result ((t : ℕ) → AreKnown image.now t kept.new flags.new.items) }
{
    let at = place as usize;
    if at >= flags.len() || is_flagged(flags.as_slice(), place) {
        return Ok(false);
    }
    let is = lives_for_all(alloc, image, kept, flags.as_slice(), place, count, scratch)?;
    if !is {
        return Ok(false);
    }
    flags[at] = true;
    Ok(true)
}

// The place behind which so many of all lie.
fn place_before(all: usize, behind: usize) -> u32 {
    match u32::try_from(all.saturating_sub(behind).saturating_sub(1)) {
        Ok(place) => place,
        Err(_) => u32::MAX,
    }
}

// Flags those of all states that are live for all threads, the last ones first; whether there is one more.
fn mark_back(
    alloc: Global,
    image: &Image,
    kept: &mut KeptStates,
    flags: &mut Vec<bool>,
    count: usize,
    scratch: &mut Scratch,
) -> Result<bool, AllocError>
    requires sound { IsSound kept.old }
    requires known { (t : ℕ) → AreKnown image.now t kept.old flags.old.items }
    ensures sound { OnOk result (IsSound kept.new) }
    ensures still { OnOk result (IsStill kept.old kept.new) }
    ensures known { OnOk result ((t : ℕ) → AreKnown image.now t kept.new flags.new.items) }
{
    let all = flags.len();
    let mut more = false;
    for behind in 0..all {
        let place = place_before(all, behind);
        if mark_for_all(alloc, image, kept, flags, place, count, scratch)? {
            more = true;
        }
    }
    Ok(more)
}

// The same over and over, until there is none more, or often enough.
fn mark_often(
    alloc: Global,
    image: &Image,
    kept: &mut KeptStates,
    flags: &mut Vec<bool>,
    count: usize,
    scratch: &mut Scratch,
) -> Result<(), AllocError>
    requires sound { IsSound kept.old }
    requires known { (t : ℕ) → AreKnown image.now t kept.old flags.old.items }
    ensures sound { OnOk result (IsSound kept.new) }
    ensures still { OnOk result (IsStill kept.old kept.new) }
    ensures known { OnOk result ((t : ℕ) → AreKnown image.now t kept.new flags.new.items) }
{
    for _ in 0..MOST_PASSES {
        if !mark_back(alloc, image, kept, flags, count, scratch)? {
            return Ok(());
        }
    }
    Ok(())
}

// Whether each state is found live for all threads.
fn all_live_at_once(
    alloc: Global,
    image: &Image,
    kept: &mut KeptStates,
    count: usize,
    scratch: &mut Scratch,
) -> Result<bool, AllocError>
    requires sound { IsSound kept.old }
    ensures sound { OnOk result (IsSound kept.new) }
    ensures still { OnOk result (IsStill kept.old kept.new) }
    ensures wakened { IfOk result (λ all. all ≡ true → (t : ℕ) → AllWakened image.now t kept.new) }
{
    let mut flags = no_flags(alloc, kept.states.len())?;
    mark_often(alloc, image, kept, &mut flags, count, scratch)?;
    if flags.len() < kept.states.len() {
        return Ok(false);
    }
    let all = are_all(flags.as_slice());
    Ok(all)
}

/// Whether from each kept state a run of the threads' own steps leads to where none sleeps, as one look at the states for all
/// threads at once tells. It looks at the last states first, since most steps lead to later ones, and needs no steps that are
/// noted; where it answers no, each thread has to be looked at alone.
pub(crate) fn wakened_at_once(
    alloc: Global,
    image: &Image,
    kept: &mut KeptStates,
    scratch: &mut Scratch,
) -> Result<bool, AllocError>
    requires sound { IsSound kept.old }
    ensures sound { OnOk result (IsSound kept.new) }
    ensures still { OnOk result (IsStill kept.old kept.new) }
    ensures wakened { IfOk result (λ all. all ≡ true
        → (r : KeptOf) → Contains (states_of image.now kept.new) r
        → AreWakened image.now kept.new.parts.alone r) }
{
    let count = most_threads(kept);
    if !are_within(kept.states.as_slice(), count) {
        return Ok(false);
    }
    let all = all_live_at_once(alloc, image, kept, count, scratch)?;
    Ok(all)
}
