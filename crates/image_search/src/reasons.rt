ghost use Rattle.std.specs.Prelude.{◌≡◌, IfOk, true};
ghost use Rattle.image_states.specs.Nexts.{may_of};
ghost use Rattle.image_search.specs.Ends.{HasCrowd, IsMetIn, LeadsToCrowd};
ghost use Rattle.image_search.specs.Kept.{IsWhyAt};

use crate::crowds::is_crowded_run;
use crate::ending::Bound;
use crate::kept::KeptStates;
use crate::spelling::schedule_to;
use image_states::Outside;
use isa::Image;
use std::alloc::{AllocError, Global};

// Whether the schedule that is spelled to the state at a place leads to where more than twelve threads sleep on one address.
fn is_crowd_shown(
    alloc: Global,
    image: &Image,
    kept: &KeptStates,
    place: u32,
    outside: Outside,
) -> Result<bool, AllocError>
    ensures { IfOk result (λ is. is ≡ true → LeadsToCrowd image.now (may_of outside)) }
{
    let turns = schedule_to(
        alloc,
        image,
        kept.ways.as_slice(),
        place,
        false,
        kept.parts.follows_exits(),
    )?;
    let is = is_crowded_run(alloc, image, turns.as_slice(), outside)?;
    Ok(is)
}

// The bound where more than twelve threads sleep on one address in the state at a place.
fn crowd_bound(
    alloc: Global,
    image: &Image,
    kept: &KeptStates,
    place: u32,
    outside: Outside,
) -> Result<Bound, AllocError>
    requires { HasCrowd kept.now }
    ensures { IfOk result (IsMetIn image.now (may_of outside) kept.now) }
{
    if is_crowd_shown(alloc, image, kept, place, outside)? {
        return Ok(Bound::Nexts(image_states::Bound::Sleepers));
    }
    Ok(Bound::Choice)
}

/// The bound where not all that may come next of the state at a place was found, for this reason.
pub(crate) fn bound_at(
    alloc: Global,
    image: &Image,
    kept: &KeptStates,
    place: u32,
    outside: Outside,
    why: image_states::Bound,
) -> Result<Bound, AllocError>
    requires { IsWhyAt kept.now.parts kept.now.states.items place why }
    ensures { IfOk result (IsMetIn image.now (may_of outside) kept.now) }
{
    match why {
        image_states::Bound::Sleepers => crowd_bound(alloc, image, kept, place, outside),
        image_states::Bound::Parts => Ok(Bound::Nexts(image_states::Bound::Parts)),
    }
}
