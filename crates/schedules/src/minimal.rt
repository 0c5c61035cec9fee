ghost use Rattle.std.specs.Prelude.{◌≡◌, ◌<◌, IfOk, length, true, false};
ghost use Rattle.schedules.specs.Failing.{FailsOn};
ghost use Rattle.schedules.specs.Minimal.{IsMinimal, without};

use crate::failing::{RunFailure, fails_by};
use isa::Image;
use runner::{ScheduleFault, Turn, follow};
use std::alloc::{AllocError, Global};

// Of schedules with more turns it isn't told: each turn costs a run.
const MOST_TOLD: usize = 1 << 12;

/// Whether no turn of a schedule can be left out: what is left isn't followed to its end then, or that run doesn't fail so. Of
/// a long schedule it isn't told.
pub(crate) fn is_minimal(
    alloc: Global,
    image: &Image,
    schedule: &[Turn],
    failure: RunFailure,
) -> Result<bool, AllocError>
    ensures { IfOk result (λ minimal. minimal ≡ true
        → IsMinimal image.now schedule.now failure) }
{
    if schedule.len() > MOST_TOLD {
        return Ok(false);
    }
    let count = schedule.len();
    for place in 0..count {
        let rest = without(alloc, schedule, place)?;
        let fails = fails(alloc, image, rest.as_slice(), failure)?;
        if fails {
            return Ok(false);
        }
    }
    Ok(true)
}

// A schedule without the turn behind so many others.
fn without(alloc: Global, schedule: &[Turn], place: usize) -> Result<Vec<Turn>, AllocError>
    requires { place < length schedule.now }
    ensures { IfOk result (λ rest. rest.items ≡ without place schedule.now) }
{
    let mut rest = Vec::from_slice(alloc, &schedule[..place])?;
    rest.extend_from_slice(&schedule[place + 1..])?;
    Ok(rest)
}

// Whether the run of an image by a schedule fails so.
fn fails(
    alloc: Global,
    image: &Image,
    schedule: &[Turn],
    failure: RunFailure,
) -> Result<bool, AllocError>
    ensures { IfOk result (λ fails. fails ≡ false
        → FailsOn image.now schedule.now failure → ⊥) }
{
    match follow(alloc, image, schedule) {
        Ok(report) => Ok(fails_by(&report, failure)),
        Err(ScheduleFault::Memory) => Err(AllocError),
        Err(ScheduleFault::BadEntry(_)) => Ok(false),
        Err(ScheduleFault::Broken(_)) => Ok(false),
    }
}
