ghost use Rattle.std.specs.Prelude.{◌≡◌, ℕ, IfOk, IfErr, List, MatchResult};
ghost use Rattle.words.specs.declared.version.ImageVersion.{ImageVersion as VersionOf};
ghost use Rattle.program.specs.Trees.{Program, as_version};
ghost use Rattle.commandline.specs.CommandLine.{version_by};
ghost use Rattle.backend.specs.Refusals.{CodeFits};
ghost use Rattle.compiler.specs.Accepts.{AcceptsText};
ghost use Rattle.compiler.specs.Compiles.{IsCompiledAs};
ghost use Rattle.runner.specs.Schedules.{IsFollowed};
ghost use Rattle.answers.specs.Replaying.{IsLeftSchedule, IsReplayOfText, IsRefusedReplay, IsNoRefusal};
ghost use Rattle.answers.specs.declared.replaying.ReplayFault.TheVariants.{Refused};

use crate::compiled::compile_by;
use commandline::Exits;
use isa::Image;
use runner::{Report, ScheduleFault, Turn, follow};
use scanner::Refusal;
use std::alloc::Global;
use thiserror::Error;

/// Why a source text was not run by a schedule to its end.
#[derive(Clone, Copy, PartialEq, Eq, Debug, Error)]
pub enum ReplayFault {
    /// The text has no image.
    #[error("{0}")]
    Refused(Refusal),
    /// The entry of the schedule that has this number, from 1, is a step of a thread that can't move, or whose step a
    /// held bucket is in the way of, or a stray wake of one that doesn't sleep; or its number is past 4294967295.
    #[error("schedule entry {0}")]
    BadEntry(u64),
    /// There is no memory for the run.
    #[error("memory")]
    Memory,
}

impl From<Refusal> for ReplayFault {
    ghost from_gives = { λ e f. f ≡ Refused e };

    fn from(refusal: Refusal) -> ReplayFault {
        ReplayFault::Refused(refusal)
    }
}

/// Runs the image of a text by a schedule. No step of it may not be, so a schedule has no fault but a bad entry.
pub fn follow_compiled(
    alloc: Global,
    image: &Image,
    schedule: &[Turn],
) -> Result<Report, ReplayFault>
    requires { (version : VersionOf) × (text : List ℕ) × IsCompiledAs version text image.now }
    ensures { MatchResult result (λ report. IsFollowed image.now schedule.now report)
        (λ fault. IsLeftSchedule image.now schedule.now fault) }
{
    match follow(alloc, image, schedule) {
        Ok(report) => Ok(report),
        Err(ScheduleFault::BadEntry(number)) => Err(ReplayFault::BadEntry(number)),
        Err(ScheduleFault::Broken(_)) => unreachable!(),
        Err(ScheduleFault::Memory) => Err(ReplayFault::Memory),
    }
}

/// Compiles a source text for this rule of exits and runs its image by a schedule: at each of its turns a thread takes
/// one step of the machine, local, shared or a piece of its futex call, or a thread that sleeps is woken from outside.
/// Each turn is an entry of the log.
///
/// Some run of the text's program explains the report, as with `run_source`. The verdict is Limit where some thread can
/// still move. A text that `compile` refuses has the same refusal; else the first turn of a thread that can't move, for
/// a held bucket too, or that is to be woken and doesn't sleep, is refused. No step of a program's code may not be, so
/// there is no other fault but want of memory.
pub fn replay(
    alloc: Global,
    text: &[u8],
    exits: Exits,
    schedule: &[Turn],
) -> Result<Report, ReplayFault>
    ensures report { IfOk result
        (λ report. IsReplayOfText (version_by exits) text.now schedule.now report) }
    ensures fault { IfErr result
        (λ fault. IsRefusedReplay (version_by exits) text.now schedule.now fault) }
    ensures only { (p : Program) → AcceptsText text.now p
        → CodeFits (as_version (version_by exits) p) → IfErr result (λ fault. IsNoRefusal fault) }
{
    let image = compile_by(alloc, text, exits)?;
    follow_compiled(alloc, &image, schedule)
}
