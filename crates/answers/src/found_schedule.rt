ghost use Rattle.std.specs.Prelude.{◌≡◌, ◌⊎◌, IfErr, IfOk, IfSome};
ghost use Rattle.scanner.specs.Refusals.{out_of_memory};
ghost use Rattle.compiler.specs.Accepts.{RefusesTextAs};
ghost use Rattle.commandline.specs.CommandLine.{version_by};
ghost use Rattle.answers.specs.Answers.{put_of};
ghost use Rattle.answers.specs.FoundSchedule.{IsFailureOf, IsFault, IsScheduled, SpellsGuided};

use crate::answer::OutFile;
use crate::compiled::compile_checked_by;
use crate::hinting::SourceText;
use crate::searching::schedule_file;
use guided_schedules::{GuidedSchedule, schedule_of_run};
use scanner::Refusal;
use schedules::RunFailure;
use source_search::Exploration;
use source_states::{Action, ActionKind};
use std::alloc::{AllocError, Global};

/// What becomes of a schedule that is asked for.
#[derive(Drop)]
pub(crate) struct ScheduleFound<'a> {
    /// Its file, where there is one.
    pub(crate) file: Option<OutFile<'a>>,
    /// What standard error gets.
    pub(crate) account: &'static str,
}

/// The schedule of the image of a source text by which it fails as the run does that was found, for the file of this name.
/// `found` says whether one was found.
pub(crate) fn schedule_of_found<'a>(
    alloc: Global,
    text: &SourceText<'_>,
    exploration: &Exploration,
    found: bool,
    out: Option<&'a str>,
) -> Result<ScheduleFound<'a>, Refusal>
    ensures scheduled { IfOk result (λ s. IsScheduled (version_by text.now.exits) text.now.bytes.now exploration.now found
        out.entry (put_of s.file) s.account.now) }
    ensures refused { IfErr result (λ e. (e ≡ out_of_memory)
        ⊎ RefusesTextAs (version_by text.now.exits) text.now.bytes.now e) }
{
    let none = ScheduleFound {
        file: None,
        account: "",
    };
    if out.is_none() || !found {
        return Ok(none);
    }
    match guided_by(alloc, text, exploration)? {
        GuidedSchedule::Found(turns) => Ok(ScheduleFound {
            file: schedule_file(alloc, out, turns.as_slice())?,
            account: "",
        }),
        GuidedSchedule::OtherChoice => Ok(ScheduleFound {
            file: None,
            account: "no schedule was found: a NOTIFY resumes another process than the machine would\n",
        }),
        GuidedSchedule::Unknown => Ok(ScheduleFound {
            file: None,
            account: "no schedule was found\n",
        }),
    }
}

// A schedule by which the text's image fails as the run does that was found.
fn guided_by(
    alloc: Global,
    text: &SourceText<'_>,
    exploration: &Exploration,
) -> Result<GuidedSchedule, Refusal>
    ensures spells { IfOk result (λ g. SpellsGuided (version_by text.now.exits) text.now.bytes.now exploration.now g) }
    ensures refused { IfErr result (λ e. (e ≡ out_of_memory)
        ⊎ RefusesTextAs (version_by text.now.exits) text.now.bytes.now e) }
{
    let Some((actions, failure)) = failing_run(exploration) else {
        return Ok(GuidedSchedule::Unknown);
    };
    let (checked, lowered) = compile_checked_by(alloc, text.bytes, text.exits)?;
    let monitors = checked.program().monitors.len() as u32;
    let guided = schedule_of_run(
        alloc,
        &lowered.image,
        &lowered.layout,
        monitors,
        actions,
        failure,
    );
    Ok(guided?)
}

// The run that was found that gets stuck, or else the one in which a process aborts by a fault, and what it fails by.
fn failing_run(exploration: &Exploration) -> Option<(&[Action], RunFailure)>
    ensures { IfSome result (λ r. IsFailureOf exploration.now r.1) }
{
    match (&exploration.stuck, &exploration.aborted) {
        (Some(actions), _) => Some((actions.as_slice(), RunFailure::Stuck)),
        (None, Some(actions)) => failing_by_fault(actions.as_slice()),
        (None, None) => None,
    }
}

// A run with what it fails by, its last fault.
fn failing_by_fault(actions: &[Action]) -> Option<(&[Action], RunFailure)>
    ensures { IfSome result (λ r. IsFault r.1) }
{
    let failure = last_fault(actions)?;
    Some((actions, failure))
}

// The last fault of a run.
fn last_fault(actions: &[Action]) -> Option<RunFailure>
    ensures { IfSome result IsFault }
{
    for action in actions.iter().rev() {
        if let Some(failure) = fault_of(action) {
            return Some(failure);
        }
    }
    None
}

// What a run fails by that has this action, if it is a fault.
fn fault_of(action: &Action) -> Option<RunFailure>
    ensures { IfSome result IsFault }
{
    let ActionKind::Fails(fault) = action.kind else {
        return None;
    };
    let thread = u32::try_from(action.process).ok()?;
    Some(RunFailure::Aborted { thread, fault })
}
