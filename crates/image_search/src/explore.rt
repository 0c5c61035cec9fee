ghost use Rattle.std.specs.Prelude.{◌≡◌, ℕ, IfNone, IfOk, IfSome, MatchBool, MatchOption, OnOk, true};
ghost use Rattle.machine.specs.States.{opening_state};
ghost use Rattle.proof_image_search.specs.Searching.{IsCompleteBy, IsCovered};
ghost use Rattle.image_states.specs.Nexts.{may_of};
ghost use Rattle.image_states.specs.Packed.{IsFor};
ghost use Rattle.image_search.specs.Ends.{HasSearched};
ghost use Rattle.image_search.specs.Sleeping.{HasSlept};
ghost use Rattle.image_search.specs.Kept.{IsMetBy, IsSound, states_of};
ghost use Rattle.image_search.specs.Never.{NeverBreaks, NeverFails, NeverStuck};
ghost use Rattle.image_search.specs.declared.ending.Ending.TheVariants.{Complete};

use crate::ending::{Bound, Ending, ImageExploration, Sleeping};
use crate::kept::{KeptStates, Way};
use crate::progress::Progress;
use crate::search::search;
use crate::sleeping::sleeping_of;
use image_states::{Doing, Outside, Scratch};
use isa::{Image, Instr};
use std::alloc::{AllocError, Global};
use words::ProcessWord;

// How the first state was come to.
const BEGIN: Way = Way {
    before: 0,
    thread: 1,
    doing: Doing::Own,
};

// Keeps the state in which an image begins; else answers why it can't be.
fn keep_opening(
    alloc: Global,
    image: &Image,
    kept: &mut KeptStates,
    scratch: &mut Scratch,
) -> Result<Option<Bound>, AllocError>
    requires sound { IsSound kept.old }
    requires fits { IsFor image.now kept.old.parts }
    ensures sound { OnOk result (IsSound kept.new) }
    ensures most { OnOk result (kept.new.most ≡ kept.old.most) }
    ensures alone { OnOk result (kept.new.parts.alone ≡ kept.old.parts.alone) }
    ensures opens { IfOk result (λ o. MatchOption o
        ((m : ℕ) × IsCovered image.now kept.new.parts.alone (states_of image.now kept.new) m
        (opening_state image.now) 0)
        (IsMetBy kept.new)) }
{
    let Some(packed) = kept.parts.opening(alloc, image, scratch)? else {
        return Ok(Some(Bound::Nexts(image_states::Bound::Parts)));
    };
    let bound = kept.keep_state(alloc, packed, BEGIN)?;
    Ok(bound)
}

// Whether all states were kept, and none is an end.
fn is_complete(ending: &Ending) -> bool
    ensures { MatchBool result (ending.now ≡ Complete) (ending.now ≡ Complete → ⊥) }
{
    matches!(ending, Ending::Complete)
}

// Whether a thread sleeps for good, where the search ended so.
fn sleeping_behind(
    alloc: Global,
    image: &Image,
    kept: &mut KeptStates,
    outside: Outside,
    ending: &Ending,
    scratch: &mut Scratch,
) -> Result<Sleeping, AllocError>
    requires sound { IsSound kept.old }
    requires complete { ending.now ≡ Complete
        → IsCompleteBy image.now kept.old.parts.alone (may_of outside)
        (states_of image.now kept.old) }
    ensures { IfOk result (HasSlept image.now (may_of outside) ending.now) }
{
    if !is_complete(ending) {
        return Ok(Sleeping::Unsought);
    }
    sleeping_of(alloc, image, kept, outside, scratch)
}

// What is found, where nothing is kept yet; none where exits are followed alone, and a thread's next step sees it.
fn explore_from<P: Progress>(
    alloc: Global,
    image: &Image,
    kept: &mut KeptStates,
    outside: Outside,
    scratch: &mut Scratch,
    progress: &mut P,
) -> Result<Option<ImageExploration>, AllocError>
    requires sound { IsSound kept.old }
    requires fits { IsFor image.now kept.old.parts }
    ensures alone { IfOk result (λ o. IfNone o (kept.old.parts.alone ≡ true)) }
    ensures searched { IfOk result
        (λ o. IfSome o (HasSearched image.now (may_of outside) kept.old.most)) }
    ensures sleeping { IfOk result
        (λ o. IfSome o (λ e. HasSlept image.now (may_of outside) e.ending e.sleeping)) }
{
    if let Some(bound) = keep_opening(alloc, image, kept, scratch)? {
        return Ok(Some(ImageExploration {
            states: kept.states.len(),
            ending: Ending::Bounded(bound),
            sleeping: Sleeping::Unsought,
        }));
    }
    let Some(ending) = search(alloc, image, kept, outside, scratch, progress)? else {
        return Ok(None);
    };
    let states = kept.states.len();
    let sleeping = sleeping_behind(alloc, image, kept, outside, &ending, scratch)?;
    Ok(Some(ImageExploration {
        states,
        ending,
        sleeping,
    }))
}

// The same, where so many states may be kept.
fn explore_with<P: Progress>(
    alloc: Global,
    image: &Image,
    most_states: u32,
    alone: bool,
    outside: Outside,
    progress: &mut P,
) -> Result<Option<ImageExploration>, AllocError>
    ensures alone { IfOk result (λ o. IfNone o (alone ≡ true)) }
    ensures searched { IfOk result
        (λ o. IfSome o (HasSearched image.now (may_of outside) most_states)) }
    ensures sleeping { IfOk result
        (λ o. IfSome o (λ e. HasSlept image.now (may_of outside) e.ending e.sleeping)) }
{
    let mut kept = KeptStates::new(alloc, image, most_states, alone);
    let mut scratch = Scratch::new();
    explore_from(alloc, image, &mut kept, outside, &mut scratch, progress)
}

// Whether the code has the address of no thread's id. Then it is likely that no step sees an exit that is followed alone.
fn names_no_id(image: &Image) -> bool {
    for instr in image.code() {
        if matches!(*instr, Instr::ProcessAddress(ProcessWord::Id)) {
            return false;
        }
    }
    true
}

// What is found; first where exits are followed alone, and where a step sees it, where they aren't.
fn explore_both<P: Progress>(
    alloc: Global,
    image: &Image,
    most_states: u32,
    outside: Outside,
    progress: &mut P,
) -> Result<ImageExploration, AllocError>
    ensures searched { IfOk result (HasSearched image.now (may_of outside) most_states) }
    ensures sleeping { IfOk result (λ e. HasSlept image.now (may_of outside) e.ending e.sleeping) }
{
    let alone = names_no_id(image);
    if let Some(found) = explore_with(alloc, image, most_states, alone, outside, progress)? {
        return Ok(found);
    }
    match explore_with(alloc, image, most_states, false, outside, progress)? {
        None => unreachable!(),
        Some(found) => Ok(found),
    }
}

/// Searches all schedules of an image, breadth first, keeping at most so many states: for one by
/// which no thread can move and not all have ended, for one by which a thread dies of a fault, and
/// for a step that may not be. Any thread may come next, and any sleepers may be woken or moved, with
/// strays also though nobody called for it, and with kills so many threads may be killed in a run,
/// wherever they stand. Threads exit by the rule of the image's version. A futex call is one step, and
/// local steps are taken at once; what is answered holds of runs in pieces, over any number of
/// buckets. A thread that is behind its robust list in its exit, without a pending entry, is taken to
/// its end at once where nobody sleeps on its id; where another thread's step would use the id or the
/// pending entry of one that has ended, the search begins anew and follows exits step by step.
///
/// The first end that is found, to which a schedule leads that `runner::follow` follows, ends the
/// search, and the schedule is answered. Where all states were kept and none is such an end, there is
/// no run to one. Else the bound that was met is named. How far the search has come is told as it
/// goes.
///
/// Where all states were kept and none is an end, and strays aren't searched, it looks for a thread
/// that sleeps for good: a state that a schedule leads to, in which the thread sleeps, and from which
/// no run of the threads' own steps wakes it. Where there is none, some run wakes each thread that
/// sleeps, wherever a run has come to.
pub fn explore_image<P: Progress>(
    alloc: Global,
    image: &Image,
    most_states: u32,
    outside: Outside,
    progress: &mut P,
) -> Result<ImageExploration, AllocError>
    ensures searched { IfOk result (HasSearched image.now (may_of outside) most_states) }
    ensures never_stuck { IfOk result (λ e. e.ending ≡ Complete
        → NeverStuck image.now (may_of outside)) }
    ensures never_fails { IfOk result (λ e. e.ending ≡ Complete
        → NeverFails image.now (may_of outside)) }
    ensures never_breaks { IfOk result (λ e. e.ending ≡ Complete
        → NeverBreaks image.now (may_of outside)) }
    ensures sleeping { IfOk result (λ e. HasSlept image.now (may_of outside) e.ending e.sleeping) }
{
    explore_both(alloc, image, most_states, outside, progress)
}
