ghost use Rattle.std.specs.Prelude.{◌≡◌, ◌⊎◌, Bool, IfOk, IfSome, List, MatchBool, false, true, ℕ};
ghost use Rattle.proof_image_search.specs.Searching.{Kept as KeptOf};
ghost use Rattle.image_states.specs.Nexts.{may_of};
ghost use Rattle.image_states.specs.Packed.{kept_of};
ghost use Rattle.image_search.specs.Ends.{HasEndedBy};
ghost use Rattle.image_search.specs.Found.{EndsFailed, EndsStuck, LeadsTo, LeadsToBroken};
ghost use Rattle.image_search.specs.Kept.{AreEnds};

use crate::ending::Ending;
use crate::kept::KeptStates;
use crate::shown::{is_broken_run, is_failed_run, is_stuck_run};
use crate::spelling::schedule_to;
use image_states::{Outside, Packed, Parts};
use isa::Image;
use runner::Turn;
use std::alloc::{AllocError, Global};

/// Which ends that are looked for a state is.
#[derive(Clone, Copy)]
pub(crate) struct Ends {
    /// No thread can move, and not all have ended.
    pub stuck: bool,
    /// A thread is dying of a fault.
    pub failed: bool,
    /// A thread's next step may not be.
    pub broken: bool,
}

impl Ends {
    /// Whether it is any.
    pub fn is_any(self) -> bool
        ensures { MatchBool result ((self.stuck ≡ true) ⊎ (self.failed ≡ true)
            ⊎ (self.broken ≡ true))
            ((self.stuck ≡ false) × (self.failed ≡ false) × (self.broken ≡ false)) }
    {
        self.stuck || self.failed || self.broken
    }
}

/// Which ends a state of these parts is.
pub(crate) fn ends_of(image: &Image, parts: &Parts, packed: &Packed) -> Ends
    ensures { AreEnds image.now (kept_of image.now parts.now packed.now) result }
{
    Ends {
        stuck: parts.is_stuck(packed),
        failed: parts.has_failed(image, packed),
        broken: parts.is_broken(image, packed),
    }
}

// A schedule by which the machine comes to where it is stuck, as the state that is kept at a place is, where the one that is
// spelled does.
fn stuck_at(
    alloc: Global,
    image: &Image,
    kept: &KeptStates,
    place: u32,
    outside: Outside,
) -> Result<Option<Vec<Turn>>, AllocError>
    ensures { IfOk result
        (λ o. IfSome o (λ v. LeadsTo image.now (may_of outside) EndsStuck v.items)) }
{
    let turns = schedule_to(
        alloc,
        image,
        kept.ways.as_slice(),
        place,
        false,
        kept.parts.follows_exits(),
    )?;
    let listed = turns.as_slice();
    if is_stuck_run(alloc, image, listed, outside)? {
        return Ok(Some(turns));
    }
    Ok(None)
}

// The same, to where a thread is dying of a fault.
fn failed_at(
    alloc: Global,
    image: &Image,
    kept: &KeptStates,
    place: u32,
    outside: Outside,
) -> Result<Option<Vec<Turn>>, AllocError>
    ensures { IfOk result
        (λ o. IfSome o (λ v. LeadsTo image.now (may_of outside) EndsFailed v.items)) }
{
    let turns = schedule_to(
        alloc,
        image,
        kept.ways.as_slice(),
        place,
        false,
        kept.parts.follows_exits(),
    )?;
    let listed = turns.as_slice();
    if is_failed_run(alloc, image, listed, outside)? {
        return Ok(Some(turns));
    }
    Ok(None)
}

// The same, to a step that may not be.
fn broken_at(
    alloc: Global,
    image: &Image,
    kept: &KeptStates,
    place: u32,
    outside: Outside,
) -> Result<Option<Vec<Turn>>, AllocError>
    ensures { IfOk result (λ o. IfSome o (λ v. LeadsToBroken image.now (may_of outside) v.items)) }
{
    let turns = schedule_to(
        alloc,
        image,
        kept.ways.as_slice(),
        place,
        true,
        kept.parts.follows_exits(),
    )?;
    let listed = turns.as_slice();
    if is_broken_run(alloc, image, listed, outside)? {
        return Ok(Some(turns));
    }
    Ok(None)
}

/// How the search ends at the state that is kept at a place, which is these ends, where a schedule to one of them is found.
pub(crate) fn shown(
    alloc: Global,
    image: &Image,
    kept: &KeptStates,
    place: u32,
    outside: Outside,
    ends: Ends,
) -> Result<Option<Ending>, AllocError>
    ensures { IfOk result (λ o. IfSome o
        (λ e. (alone : Bool) (most : ℕ) (states : List KeptOf)
        → HasEndedBy image.now alone (may_of outside) most states e)) }
{
    if ends.stuck {
        if let Some(turns) = stuck_at(alloc, image, kept, place, outside)? {
            return Ok(Some(Ending::Stuck(turns)));
        }
    }
    if ends.failed {
        if let Some(turns) = failed_at(alloc, image, kept, place, outside)? {
            return Ok(Some(Ending::Failed(turns)));
        }
    }
    if ends.broken {
        if let Some(turns) = broken_at(alloc, image, kept, place, outside)? {
            return Ok(Some(Ending::Broken(turns)));
        }
    }
    Ok(None)
}
