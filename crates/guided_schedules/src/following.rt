ghost use Rattle.std.specs.Prelude.{IfOk};
ghost use Rattle.guided_schedules.specs.Guided.{IsGuided};

use crate::guide::Guide;
use crate::handing::Locks;
use isa::Image;
use layout::Layout;
use program::Member;
use runner::Turn;
use schedules::{RunFailure, fails_on};
use source_states::{Action, ActionKind};
use std::alloc::{AllocError, Global};

/// What came of the search for a schedule.
#[derive(Drop)]
pub enum GuidedSchedule {
    /// A schedule.
    Found(Vec<Turn>),
    /// None was found: a notify resumes a process, and this machine would wake another one, which has slept longer.
    OtherChoice,
    /// None was found, and why isn't known.
    Unknown,
}

/// A schedule that an image follows to its end, and whose run fails so. The image is that of a program with so many
/// monitors, whose words lie as `layout` says; the schedule is looked for along the actions of a run of the program.
///
/// # Errors
///
/// Want of memory alone.
pub fn schedule_of_run(
    alloc: Global,
    image: &Image,
    layout: &Layout,
    monitors: u32,
    actions: &[Action],
    failure: RunFailure,
) -> Result<GuidedSchedule, AllocError>
    ensures { IfOk result (IsGuided image.now failure) }
{
    let locks = Locks { layout, monitors };
    match guided(alloc, image, locks, actions, failure)? {
        GuidedSchedule::Found(turns) => tried(alloc, image, turns, failure),
        GuidedSchedule::OtherChoice => Ok(GuidedSchedule::OtherChoice),
        GuidedSchedule::Unknown => Ok(GuidedSchedule::Unknown),
    }
}

// A schedule, where the image follows it to its end and its run fails so.
fn tried(
    alloc: Global,
    image: &Image,
    turns: Vec<Turn>,
    failure: RunFailure,
) -> Result<GuidedSchedule, AllocError>
    ensures { IfOk result (IsGuided image.now failure) }
{
    let fails = fails_on(alloc, image, turns.as_slice(), failure)?;
    if fails {
        return Ok(GuidedSchedule::Found(turns));
    }
    Ok(GuidedSchedule::Unknown)
}

// The turns of a run that goes along these actions and then on to where the run fails, or why it can't go on.
fn guided(
    alloc: Global,
    image: &Image,
    locks: Locks<'_>,
    actions: &[Action],
    failure: RunFailure,
) -> Result<GuidedSchedule, AllocError> {
    let mut guide = Guide::new(alloc, image, locks)?;
    let done = follow_all(&mut guide, actions, failure);
    schedule_of(guide, done)
}

fn schedule_of(
    guide: Guide<'_>,
    done: Result<Followed, AllocError>,
) -> Result<GuidedSchedule, AllocError> {
    let turns = guide.into_turns();
    Ok(match done? {
        Followed::OtherChoice => GuidedSchedule::OtherChoice,
        Followed::Whole | Followed::Part => GuidedSchedule::Found(turns),
    })
}

// How far a run goes along actions.
#[derive(Clone, Copy, PartialEq, Eq)]
enum Followed {
    // To the end.
    Whole,
    // It can't go on.
    Part,
    // A notify resumes another process.
    OtherChoice,
}

// Goes along these actions as far as it can, and then on to where the run fails.
fn follow_all(
    guide: &mut Guide<'_>,
    actions: &[Action],
    failure: RunFailure,
) -> Result<Followed, AllocError> {
    let followed = follow_each(guide, actions)?;
    match failure {
        RunFailure::Stuck => guide.settle()?,
        RunFailure::Aborted { thread, .. } => guide.settle_one(thread)?,
    }
    Ok(followed)
}

fn follow_each(guide: &mut Guide<'_>, actions: &[Action]) -> Result<Followed, AllocError> {
    for place in 0..actions.len() {
        let followed = follow(guide, &actions[place], &actions[place + 1..])?;
        if followed != Followed::Whole {
            return Ok(followed);
        }
    }
    Ok(Followed::Whole)
}

// Goes along an action, which these come after. What others don't see is left to the next one that they see.
fn follow(
    guide: &mut Guide<'_>,
    action: &Action,
    later: &[Action],
) -> Result<Followed, AllocError> {
    let Ok(t) = u32::try_from(action.process) else {
        return Ok(Followed::Part);
    };
    let is_done = match &action.kind {
        ActionKind::Enter(_)
        | ActionKind::Resume(_)
        | ActionKind::Exit(_)
        | ActionKind::Fork(_)
        | ActionKind::Abandon(_) => guide.drive(t)?,
        ActionKind::Wait(condition) => guide.drive_to_wait(t, *condition)?,
        ActionKind::Notify(condition, resumed) => {
            return notify(guide, t, *condition, resumed.as_slice(), later);
        }
        ActionKind::Broadcast(condition, _) => {
            put_to_sleep(guide, *condition, later)?;
            guide.drive(t)?
        }
        ActionKind::Stray(condition) => {
            put_to_sleep(guide, *condition, later)?;
            guide.wake(t)?
        }
        ActionKind::Kill(..) => guide.kill(t)?,
        _ => true,
    };
    Ok(if is_done {
        Followed::Whole
    } else {
        Followed::Part
    })
}

// Goes along a NOTIFY that resumes these processes. A thread on its way to sleep finds the condition's word changed; of those
// that sleep the machine wakes the first. So one that is resumed goes to sleep before the others, and the rest of them don't.
fn notify(
    guide: &mut Guide<'_>,
    t: u32,
    condition: Member,
    resumed: &[u64],
    later: &[Action],
) -> Result<Followed, AllocError> {
    guide.put_first_to_sleep(resumed)?;
    put_to_sleep(guide, condition, later)?;
    if !guide.drive(t)? {
        return Ok(Followed::Part);
    }
    Ok(if guide.has_woken(resumed) {
        Followed::Whole
    } else {
        Followed::OtherChoice
    })
}

// Has all fall asleep that are on their way to sleep on a condition, in the order in which they are resumed later.
fn put_to_sleep(
    guide: &mut Guide<'_>,
    condition: Member,
    later: &[Action],
) -> Result<(), AllocError> {
    for action in later {
        if !guide.awaits(condition) {
            return Ok(());
        }
        if let ActionKind::Notify(_, resumed) | ActionKind::Broadcast(_, resumed) = &action.kind {
            guide.sleep_each(resumed.as_slice(), condition)?;
        }
    }
    guide.sleep_on(condition)
}
