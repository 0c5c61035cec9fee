ghost use Rattle.std.specs.Prelude.{◌≡◌, ◌≢◌, IfOk, MatchBool, MatchOption, MatchResult, map};
ghost use Rattle.isa.specs.Programs.{IsProgram};
ghost use Rattle.scanner.specs.declared.refusal.RefusalKind.TheVariants.{Memory};
ghost use Rattle.program.specs.Names.{said_by};
ghost use Rattle.program.specs.Trees.{as_version};
ghost use Rattle.lowering.specs.Pieces.{code_of};
ghost use Rattle.backend.specs.Lowered.{IsLowered};
ghost use Rattle.source_states.specs.Actions.{action_of};
ghost use Rattle.simulation.specs.ExplainedLog.{ExplainsEntries, IsExplainedLog, RefusesLogEntry, RefusesLog};

use crate::fault::{ExplainFault, LogFault};
use backend::{Lowered, lower};
use isa::{Image, encode, one_spelling};
use log_simulation::{ExplainedLog, LogExplanation, explain_log};
use packed_log::LogReader;
use program::Checked;
use scanner::{Refusal, RefusalKind};
use source_states::Action;
use std::alloc::{AllocError, Global};

fn are_same_bytes(a: &[u8], b: &[u8]) -> bool
    ensures { MatchBool result (a.now ≡ b.now) (a.now ≢ b.now) }
{
    a == b
}

// Whether two images are the same: they are where their versions and their bytes are.
fn are_equal(alloc: Global, image: &Image, other: &Image) -> Result<bool, AllocError>
    ensures { IfOk result (λ b. MatchBool b (image.now ≡ other.now) (image.now ≢ other.now)) }
{
    one_spelling();
    if image.version() != other.version() {
        return Ok(false);
    }
    let bytes = encode(alloc, image)?;
    let others = encode(alloc, other)?;
    Ok(are_same_bytes(bytes.as_slice(), others.as_slice()))
}

// An image is within its limits. Nothing is done when it runs.
fn image_is_within_limits(image: &Image)
    ensures { IsProgram image.now }
{
    image.code();
}

// Whether code isn't made over its length, and not for want of memory.
fn is_too_long(refusal: Refusal) -> bool
    ensures { MatchBool result (refusal.kind ≢ Memory) (refusal.kind ≡ Memory) }
{
    refusal.kind != RefusalKind::Memory
}

// What the program is lowered to for the image's version, where the image is its code.
#[tactic(auto, using(crate::proofs::Images::other_image))]
fn lower_as(alloc: Global, checked: &Checked, image: &Image) -> Result<Option<Lowered>, AllocError>
    ensures { let p = as_version image.now.version (said_by checked.now) in
        IfOk result (λ o. MatchOption o (image.now ≡ code_of p → ⊥)
        (λ lowered. (lowered.image ≡ image.now) × IsLowered p lowered)) }
{
    image_is_within_limits(image);
    match lower(alloc, checked, image.version()) {
        Ok(lowered) => {
            if are_equal(alloc, image, &lowered.image)? {
                Ok(Some(lowered))
            } else {
                Ok(None)
            }
        }
        Err(refusal) => {
            if is_too_long(refusal) {
                Ok(None)
            } else {
                Err(AllocError)
            }
        }
    }
}

/// What a log that comes from outside is, where its image's program was lowered already: the actions of the source, as
/// `explain` has them, and the machine that the log leads to, which says whether all threads have ended there, and
/// whether one can move.
///
/// # Errors
///
/// The first entry that isn't legal, or with which there are 2^32 steps or more: the entries before it are a log of a
/// run. `Memory` may come at any point.
pub fn explain_log_lowered(
    alloc: Global,
    checked: &Checked,
    lowered: Lowered,
    log: LogReader<'_>,
) -> Result<ExplainedLog, LogFault>
    requires { IsLowered (as_version lowered.image.version (said_by checked.now)) lowered }
    ensures { let p = as_version lowered.image.version (said_by checked.now) in MatchResult result
        (λ explained. ExplainsEntries p lowered.image log.entry explained)
        (λ fault. RefusesLogEntry lowered.image log.entry fault) }
{
    let Lowered {
        image,
        layout,
        marks,
    } = lowered;
    match explain_log(alloc, checked, &image, log, layout, marks)? {
        LogExplanation::StopsAt(number) => Err(LogFault::Entry(number)),
        LogExplanation::Explained(explained) => Ok(explained),
    }
}

/// The source run that a log of a program's image is, where the program was lowered already: as `explain` has it, with
/// the image that it was lowered to.
pub fn explain_lowered(
    alloc: Global,
    checked: &Checked,
    lowered: Lowered,
    log: LogReader<'_>,
) -> Result<Vec<Action>, ExplainFault>
    requires { IsLowered (as_version lowered.image.version (said_by checked.now)) lowered }
    ensures { let p = as_version lowered.image.version (said_by checked.now) in MatchResult result
        (λ actions. IsExplainedLog p lowered.image log.entry (map action_of actions.items))
        (λ fault. RefusesLog p lowered.image log.entry fault) }
{
    match explain_log_lowered(alloc, checked, lowered, log) {
        Ok(explained) => Ok(explained.actions),
        Err(LogFault::Entry(_)) => Err(ExplainFault::NotARun),
        Err(LogFault::Memory) => Err(ExplainFault::Memory),
    }
}

/// The source run that a log of a program's image of either version is: the actions of the source, in order.
///
/// The log is walked once, by the machine's own steps. At each step that is a visible action stands that action,
/// behind the deferred ones of its process, which are internal; those that are still deferred at the end come last, by
/// rising process. A notify or a broadcast resumes those that wait on the condition and don't sleep on its word behind
/// the futex call. The actions are the explanation of the run of the machine that the log is: a run of the program,
/// with the same output, variables and ends of processes; where no thread can move, no process can; where all others
/// are outside the taking and giving up of locks, no process whose thread sleeps can move; and a process has an action
/// to each so many steps of its thread.
///
/// # Errors
///
/// `OtherImage` where the image isn't the program's of its version, and so of neither; then `NotARun` where the entries
/// aren't a log of it: not legal, or of 2^32 steps or more. `Memory` may come at any point.
pub fn explain(
    alloc: Global,
    checked: &Checked,
    image: &Image,
    log: LogReader<'_>,
) -> Result<Vec<Action>, ExplainFault>
    ensures { let p = as_version image.now.version (said_by checked.now) in MatchResult result
        (λ actions. IsExplainedLog p image.now log.entry (map action_of actions.items))
        (λ fault. RefusesLog p image.now log.entry fault) }
{
    match lower_as(alloc, checked, image)? {
        Some(lowered) => explain_lowered(alloc, checked, lowered, log),
        None => Err(ExplainFault::OtherImage),
    }
}
