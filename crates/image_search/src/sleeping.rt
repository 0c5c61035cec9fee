ghost use Rattle.std.specs.Prelude.{◌≡◌, ◌<◌, Contains, false, IfOk, IfSome, OnOk, length, suc, true, ℕ};
ghost use Rattle.piece_machine.specs.PieceViews.{pieces};
ghost use Rattle.proof_image_search.specs.Searching.{IsCompleteBy};
ghost use Rattle.proof_image_liveness.specs.Sleeping.{SleepsForGood};
ghost use Rattle.image_states.specs.Nexts.{may_of};
ghost use Rattle.image_search.specs.Found.{LeadsTo};
ghost use Rattle.image_search.specs.Kept.{IsSound, states_of};
ghost use Rattle.image_search.specs.Living.{IsStill};
ghost use Rattle.image_search.specs.Sleeping.{AllSleepForGood, TellsOfSleepers};

use crate::at_once::wakened_at_once;
use crate::closing::is_closed;
use crate::ending::{Doubt, Sleeping};
use crate::flagged::is_flagged;
use crate::graph::Graph;
use crate::kept::KeptStates;
use crate::lasting::lasting;
use crate::living::all_wakened;
use crate::matching::is_there;
use crate::reaching::{reach_of, unreached};
use crate::shown::no_run;
use crate::spelling::schedule_to;
use crate::turns::are_from;
use image_states::{Outside, Scratch, thread_number};
use isa::Image;
use piece_machine::PieceMachine;
use runner::{Report, Turn, follow};
use std::alloc::{AllocError, Global};

// Of how many states a schedule is tried at most.
const MOST_TRIES: usize = 64;

// Whether a thread sleeps for good where a machine stands as the state that is kept at a place, and these are flagged, of which
// that is one.
fn sleeps_for_good(
    alloc: Global,
    image: &Image,
    kept: &mut KeptStates,
    place: u32,
    k: usize,
    flags: &[bool],
    last: &PieceMachine,
    scratch: &mut Scratch,
) -> Result<bool, AllocError>
    requires sound { IsSound kept.old }
    ensures sound { OnOk result (IsSound kept.new) }
    ensures still { OnOk result (IsStill kept.old kept.new) }
    ensures sleeps { IfOk result (λ is. is ≡ true → last.now.view.program ≡ image.now
        → SleepsForGood image.now (pieces last.now) (suc k)) }
{
    if !is_flagged(flags, place) {
        return Ok(false);
    }
    if !is_closed(alloc, image, kept, flags, k, scratch)? {
        return Ok(false);
    }
    if !last.holds_none() {
        return Ok(false);
    }
    let is = is_there(image, kept, place, last.machine(), scratch);
    Ok(is)
}

// Whether the thread behind so many others does.
fn is_sleeper(
    alloc: Global,
    image: &Image,
    kept: &mut KeptStates,
    graph: &Graph,
    place: u32,
    k: usize,
    last: &PieceMachine,
    scratch: &mut Scratch,
) -> Result<bool, AllocError>
    requires sound { IsSound kept.old }
    ensures sound { OnOk result (IsSound kept.new) }
    ensures still { OnOk result (IsStill kept.old kept.new) }
    ensures sleeps { IfOk result (λ is. is ≡ true → last.now.view.program ≡ image.now
        → SleepsForGood image.now (pieces last.now) (suc k)) }
{
    let reach = reach_of(alloc, kept, graph, k)?;
    let flags = unreached(alloc, &reach)?;
    let is = sleeps_for_good(
        alloc,
        image,
        kept,
        place,
        k,
        flags.as_slice(),
        last,
        scratch,
    )?;
    Ok(is)
}

// Adds the thread behind so many others, where it does.
fn add_sleeper(
    alloc: Global,
    image: &Image,
    kept: &mut KeptStates,
    graph: &Graph,
    place: u32,
    k: usize,
    last: &PieceMachine,
    threads: &mut Vec<u32>,
    scratch: &mut Scratch,
) -> Result<(), AllocError>
    requires sound { IsSound kept.old }
    requires sleep { last.now.view.program ≡ image.now
        → (t : ℕ) → Contains threads.old.items t → SleepsForGood image.now (pieces last.now) t }
    ensures sound { OnOk result (IsSound kept.new) }
    ensures still { OnOk result (IsStill kept.old kept.new) }
    ensures sleep { OnOk result (last.now.view.program ≡ image.now
        → (t : ℕ) → Contains threads.new.items t → SleepsForGood image.now (pieces last.now) t) }
{
    let Some(t) = thread_number(k) else {
        return Ok(());
    };
    if !is_sleeper(alloc, image, kept, graph, place, k, last, scratch)? {
        return Ok(());
    }
    threads.push(t)?;
    Ok(())
}

// Adds the threads that sleep for good where a machine stands as the state that is kept at a place.
fn add_sleepers(
    alloc: Global,
    image: &Image,
    kept: &mut KeptStates,
    graph: &Graph,
    place: u32,
    last: &PieceMachine,
    threads: &mut Vec<u32>,
    scratch: &mut Scratch,
) -> Result<(), AllocError>
    requires sound { IsSound kept.old }
    requires sleep { last.now.view.program ≡ image.now
        → (t : ℕ) → Contains threads.old.items t → SleepsForGood image.now (pieces last.now) t }
    ensures sound { OnOk result (IsSound kept.new) }
    ensures still { OnOk result (IsStill kept.old kept.new) }
    ensures sleep { OnOk result (last.now.view.program ≡ image.now
        → (t : ℕ) → Contains threads.new.items t → SleepsForGood image.now (pieces last.now) t) }
{
    for before in 0..last.machine().threads() {
        add_sleeper(
            alloc,
            image,
            kept,
            graph,
            place,
            before as usize,
            last,
            threads,
            scratch,
        )?;
    }
    Ok(())
}

// The threads that sleep for good where a schedule leads, if it leads to the state that is kept at a place.
fn sleepers_of(
    alloc: Global,
    image: &Image,
    kept: &mut KeptStates,
    graph: &Graph,
    place: u32,
    report: &Report,
    scratch: &mut Scratch,
) -> Result<Vec<u32>, AllocError>
    requires sound { IsSound kept.old }
    ensures sound { OnOk result (IsSound kept.new) }
    ensures still { OnOk result (IsStill kept.old kept.new) }
    ensures sleep { IfOk result (λ threads. report.now.last.view.program ≡ image.now
        → AllSleepForGood image.now threads.items report.now) }
{
    let mut threads = Vec::new(alloc);
    add_sleepers(
        alloc,
        image,
        kept,
        graph,
        place,
        &report.last,
        &mut threads,
        scratch,
    )?;
    Ok(threads)
}

// The threads that sleep for good where a schedule leads in which no more comes from outside than may be.
fn sleepers_by(
    alloc: Global,
    image: &Image,
    kept: &mut KeptStates,
    graph: &Graph,
    place: u32,
    turns: &[Turn],
    outside: Outside,
    scratch: &mut Scratch,
) -> Result<Vec<u32>, AllocError>
    requires sound { IsSound kept.old }
    ensures sound { OnOk result (IsSound kept.new) }
    ensures still { OnOk result (IsStill kept.old kept.new) }
    ensures sleep { IfOk result (λ threads. 0 < length threads.items
        → LeadsTo image.now (may_of outside) (AllSleepForGood image.now threads.items) turns.now) }
{
    if !are_from(turns, outside) {
        return Ok(Vec::new(alloc));
    }
    match follow(alloc, image, turns) {
        Ok(report) => sleepers_of(alloc, image, kept, graph, place, &report, scratch),
        Err(fault) => {
            no_run(fault)?;
            Ok(Vec::new(alloc))
        }
    }
}

// What is told of the state that is kept at a place, where a schedule leads there and some thread sleeps for good.
fn for_good_at(
    alloc: Global,
    image: &Image,
    kept: &mut KeptStates,
    graph: &Graph,
    place: u32,
    outside: Outside,
    scratch: &mut Scratch,
) -> Result<Option<Sleeping>, AllocError>
    requires sound { IsSound kept.old }
    ensures sound { OnOk result (IsSound kept.new) }
    ensures still { OnOk result (IsStill kept.old kept.new) }
    ensures told { IfOk result (λ o. IfSome o (TellsOfSleepers image.now (may_of outside))) }
{
    let turns = schedule_to(
        alloc,
        image,
        kept.ways.as_slice(),
        place,
        false,
        kept.parts.follows_exits(),
    )?;
    let threads = sleepers_by(
        alloc,
        image,
        kept,
        graph,
        place,
        turns.as_slice(),
        outside,
        scratch,
    )?;
    if threads.len() == 0 {
        return Ok(None);
    }
    Ok(Some(Sleeping::ForGood { turns, threads }))
}

// The same of the first of these places where there is such a schedule.
fn for_good(
    alloc: Global,
    image: &Image,
    kept: &mut KeptStates,
    graph: &Graph,
    places: &[u32],
    outside: Outside,
    scratch: &mut Scratch,
) -> Result<Sleeping, AllocError>
    requires sound { IsSound kept.old }
    requires own { outside.strays ≡ false }
    ensures told { IfOk result (TellsOfSleepers image.now (may_of outside)) }
{
    for place in places {
        if let Some(told) = for_good_at(alloc, image, kept, graph, *place, outside, scratch)? {
            return Ok(told);
        }
    }
    Ok(Sleeping::Unknown(Doubt::Choice))
}

// Whether a thread sleeps for good, where these steps were found.
fn told_by(
    alloc: Global,
    image: &Image,
    kept: &mut KeptStates,
    graph: &Graph,
    outside: Outside,
    scratch: &mut Scratch,
) -> Result<Sleeping, AllocError>
    requires sound { IsSound kept.old }
    requires complete { IsCompleteBy image.now kept.old.parts.alone (may_of outside)
        (states_of image.now kept.old) }
    requires own { outside.strays ≡ false }
    ensures told { IfOk result (TellsOfSleepers image.now (may_of outside)) }
{
    let places = lasting(alloc, kept, graph, MOST_TRIES)?;
    if places.len() > 0 {
        let told = for_good(
            alloc,
            image,
            kept,
            graph,
            places.as_slice(),
            outside,
            scratch,
        )?;
        return Ok(told);
    }
    if all_wakened(alloc, image, kept, graph, scratch)? {
        return Ok(Sleeping::Never);
    }
    Ok(Sleeping::Unknown(Doubt::Wakes))
}

// The same where the steps are found once more.
fn told_again(
    alloc: Global,
    image: &Image,
    kept: &mut KeptStates,
    outside: Outside,
    scratch: &mut Scratch,
) -> Result<Sleeping, AllocError>
    requires sound { IsSound kept.old }
    requires complete { IsCompleteBy image.now kept.old.parts.alone (may_of outside)
        (states_of image.now kept.old) }
    requires own { outside.strays ≡ false }
    ensures told { IfOk result (TellsOfSleepers image.now (may_of outside)) }
{
    let mut graph = Graph::new(alloc);
    if let Some(why) = graph.fill(alloc, image, kept, scratch)? {
        return Ok(Sleeping::Unknown(Doubt::Nexts(why)));
    }
    told_by(alloc, image, kept, &graph, outside, scratch)
}

/// Whether a thread sleeps for good in a state that a schedule leads to, where all are kept.
pub(crate) fn sleeping_of(
    alloc: Global,
    image: &Image,
    kept: &mut KeptStates,
    outside: Outside,
    scratch: &mut Scratch,
) -> Result<Sleeping, AllocError>
    requires sound { IsSound kept.old }
    requires complete { IsCompleteBy image.now kept.old.parts.alone (may_of outside)
        (states_of image.now kept.old) }
    ensures told { IfOk result (TellsOfSleepers image.now (may_of outside)) }
{
    if outside.strays {
        return Ok(Sleeping::Unsought);
    }
    if wakened_at_once(alloc, image, kept, scratch)? {
        return Ok(Sleeping::Never);
    }
    told_again(alloc, image, kept, outside, scratch)
}
