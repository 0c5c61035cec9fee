ghost use Rattle.std.specs.Prelude.{◌≡◌, ◌≤◌, IfOk, MatchResult, length, true};
ghost use Rattle.schedules.specs.Failing.{FailsOn};
ghost use Rattle.schedules.specs.Shrinking.{CannotShrink, IsNoLonger, IsShrunk};
ghost use Rattle.schedules.specs.declared.shrinking.ShrinkFault.TheVariants.{Memory};

use crate::failing::{RunFailure, fails_by, failure_of};
use crate::minimal::is_minimal;
use crate::shortening::shortened;
use crate::switching::switches;
use isa::Image;
use runner::{ScheduleFault, Turn, follow};
use std::alloc::{AllocError, Global};
use thiserror::Error;

/// Why a schedule isn't made shorter.
#[derive(Clone, Copy, PartialEq, Eq, Debug, Error)]
pub enum ShrinkFault {
    /// It isn't followed to its end.
    #[error("{0}")]
    Schedule(ScheduleFault),
    /// The run that it leads to doesn't fail.
    #[error("schedule without a failure")]
    NoFailure,
    /// There is no memory for it.
    #[error("memory")]
    Memory,
}

impl From<AllocError> for ShrinkFault {
    ghost from_gives = { λ _ f. f ≡ Memory };

    fn from(_error: AllocError) -> ShrinkFault {
        ShrinkFault::Memory
    }
}

/// A schedule that fails as another does and is no longer.
#[derive(Drop)]
pub struct ShrunkSchedule {
    /// Its turns.
    pub turns: Vec<Turn>,
    /// What its run fails by, and that of the other.
    pub failure: RunFailure,
    /// Whether none of its turns can be left out. Of a long schedule that isn't told.
    pub minimal: bool,
}

/// Makes a schedule short by which the run of an image fails. The answered one is followed by the image to its end, its run
/// fails by the same, and it has no more turns and no more context switches. Where it is said to be minimal no turn of it can
/// be left out: the rest isn't followed to its end then, or its run doesn't fail so. The same schedule has the same answer.
///
/// # Errors
///
/// `Schedule` where `runner::follow` refuses the schedule, with its fault. `NoFailure` where the run that it leads to isn't
/// stuck, and no thread of it aborted by a fault. `Memory` may come at any point.
pub fn shrink(
    alloc: Global,
    image: &Image,
    schedule: &[Turn],
) -> Result<ShrunkSchedule, ShrinkFault>
    ensures { MatchResult result (λ shrunk. IsShrunk image.now schedule.now shrunk)
        (λ fault. CannotShrink image.now schedule.now fault) }
{
    let failure = failure_by(alloc, image, schedule)?;
    let turns = shorter_one(alloc, image, schedule, failure)?;
    let minimal = is_minimal(alloc, image, turns.as_slice(), failure)?;
    Ok(ShrunkSchedule {
        turns,
        failure,
        minimal,
    })
}

// A schedule that is no longer and by which the run fails alike: where none other was found, the same.
fn shorter_one(
    alloc: Global,
    image: &Image,
    given: &[Turn],
    failure: RunFailure,
) -> Result<Vec<Turn>, AllocError>
    requires { FailsOn image.now given.now failure }
    ensures { IfOk result (λ turns. FailsOn image.now turns.items failure
        × IsNoLonger given.now turns.items) }
{
    let turns = shortened(alloc, image, given, failure)?;
    let shorter = is_shorter(alloc, image, given, turns.as_slice(), failure)?;
    if shorter {
        return Ok(turns);
    }
    Vec::from_slice(alloc, given)
}

// What the run of an image by a schedule fails by.
fn failure_by(alloc: Global, image: &Image, schedule: &[Turn]) -> Result<RunFailure, ShrinkFault>
    ensures { MatchResult result (λ failure. FailsOn image.now schedule.now failure)
        (λ fault. CannotShrink image.now schedule.now fault) }
{
    match follow(alloc, image, schedule) {
        Ok(report) => match failure_of(&report) {
            Some(failure) => Ok(failure),
            None => Err(ShrinkFault::NoFailure),
        },
        Err(fault) => Err(ShrinkFault::Schedule(fault)),
    }
}

// Whether the run of an image by the second schedule fails so, and it is no longer than the first one.
fn is_shorter(
    alloc: Global,
    image: &Image,
    given: &[Turn],
    turns: &[Turn],
    failure: RunFailure,
) -> Result<bool, AllocError>
    ensures { IfOk result (λ shorter. shorter ≡ true
        → FailsOn image.now turns.now failure × IsNoLonger given.now turns.now) }
{
    if turns.len() > given.len() || switches(turns) > switches(given) {
        return Ok(false);
    }
    fails_on(alloc, image, turns, failure)
}

/// Whether an image follows a schedule to its end and its run fails so. True only where that is so.
pub fn fails_on(
    alloc: Global,
    image: &Image,
    schedule: &[Turn],
    failure: RunFailure,
) -> Result<bool, AllocError>
    ensures { IfOk result (λ fails. fails ≡ true → FailsOn image.now schedule.now failure) }
{
    match follow(alloc, image, schedule) {
        Ok(report) => Ok(fails_by(&report, failure)),
        Err(ScheduleFault::Memory) => Err(AllocError),
        Err(_) => Ok(false),
    }
}
