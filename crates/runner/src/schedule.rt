ghost use Rattle.std.specs.Prelude.{◌≡◌, ◌<◌, ◌≤◌, ◌^◌, ◌⊎◌, [], length, true, IfOk, IfErr, IsOk, OnErr, OnOk, Err};
ghost use Rattle.machine.specs.declared.event.StepFault.TheVariants.{Broken};
ghost use Rattle.machine.specs.Views.{concrete};
ghost use Rattle.piece_machine.specs.PieceConcrete.{can_take, piece_of};
ghost use Rattle.piece_machine.specs.PieceViews.{parts};
ghost use Rattle.runner.specs.Logs.{Enters, EntersOutside, EntersOwn, opening};
ghost use Rattle.runner.specs.Reports.{IsVerdict};
ghost use Rattle.runner.specs.declared.schedule.ScheduleFault.TheVariants.{Memory};
ghost use Rattle.runner.specs.declared.schedule.Turn.TheVariants.{Step, Stray, Kill};
ghost use Rattle.runner.specs.Schedules.{FailsAt, Follows, IsFollowed, IsOneStep, RefusesSchedule, turn_of};

use crate::entering::wake_from_outside;
use crate::report::{Report, report_of};
use crate::stepping::is_local;
use isa::Image;
use machine::{Entry, Event, EventName, StepFault};
use packed_log::PackedLog;
use piece_machine::PieceMachine;
use std::alloc::{AllocError, Global};
use thiserror::Error;
use words::BUCKETS;

/// One turn of a schedule.
#[derive(Clone, Copy, PartialEq, Eq, Debug)]
pub enum Turn {
    /// The thread of this number takes one step, local or shared.
    Step(u32),
    /// The thread of this number, which sleeps, is woken from outside, though no thread called for it.
    Stray(u32),
    /// The thread of this number, which was made, is killed from outside, wherever it stands.
    Kill(u32),
}

/// Why a schedule is not followed to its end. Its entries are numbered from 1.
#[derive(Clone, Copy, PartialEq, Eq, Debug, Error)]
pub enum ScheduleFault {
    /// The entry of this number is a step of a thread that can't move or that a held bucket is in the way of, or a wake from outside of one that doesn't
    /// sleep, or a kill of one that was never made; or its number is past 4294967295.
    #[error("schedule entry {0}")]
    BadEntry(u64),
    /// The step that the entry of this number is may not be.
    #[error("schedule entry {0}: fault 4")]
    Broken(u64),
    /// There is no memory for the run.
    #[error("memory")]
    Memory,
}

impl From<AllocError> for ScheduleFault {
    ghost from_gives = { λ _ f. f ≡ Memory };

    fn from(_error: AllocError) -> ScheduleFault {
        ScheduleFault::Memory
    }
}

/// Runs an image by a schedule: each of its turns is one step of the machine, and an entry of the log. A turn
/// `Turn::Step` is a step of its thread, local or shared; a turn `Turn::Stray` is a wake of its thread from outside, and
/// a turn `Turn::Kill` a kill.
///
/// The verdict is Limit where some thread can still move. The first turn that can't be is refused.
pub fn follow(alloc: Global, image: &Image, schedule: &[Turn]) -> Result<Report, ScheduleFault>
    ensures ok { IfOk result (λ report. IsFollowed image.now schedule.now report) }
    ensures err { IfErr result (λ fault. FailsAt image.now schedule.now fault) }
{
    let mut log = PackedLog::new(alloc);
    let mut machine = PieceMachine::new(alloc, image, BUCKETS)?;
    let done = follow_turns(&mut machine, &mut log, schedule);
    report_behind(alloc, log, machine, done)
}

// What is told of a run that left this log and this machine, where no turn was refused.
fn report_behind(
    alloc: Global,
    log: PackedLog,
    last: PieceMachine,
    done: Result<(), ScheduleFault>,
) -> Result<Report, ScheduleFault>
    ensures ok { IfOk result (λ report. IsOk done × (report.log.items ≡ log.items) × (report.last ≡ last)
        × (report.output.items ≡ last.view.output) × IsVerdict (concrete last.view) report.verdict) }
    ensures err { IfErr result (λ fault. (fault ≡ Memory) ⊎ (done ≡ Err fault)) }
{
    done?;
    Ok(report_of(alloc, log, last)?)
}

// Takes the turns of a schedule, from the beginning on.
fn follow_turns(
    machine: &mut PieceMachine,
    log: &mut PackedLog,
    schedule: &[Turn],
) -> Result<(), ScheduleFault>
    requires begins { parts machine.old ≡ opening machine.old.view.program }
    requires empty { log.old.items ≡ [] }
    ensures ok { OnOk result (Follows machine.old.view.program schedule.now log.new.items (parts machine.new)
        × (length schedule.now < 2 ^ 32)) }
    ensures err { IfErr result (λ fault. FailsAt machine.old.view.program schedule.now fault) }
    ensures program { machine.new.view.program ≡ machine.old.view.program }
{
    let mut number: u64 = 0;
    for turn in schedule {
        number += 1;
        let entry = take_turn(machine, number, *turn)?;
        if log.push(entry).is_err() {
            return Err(ScheduleFault::Memory);
        }
    }
    Ok(())
}

// Takes the turn of this number, which is an entry of its own.
fn take_turn(machine: &mut PieceMachine, number: u64, turn: Turn) -> Result<Entry, ScheduleFault>
    ensures ok { IfOk result
        (λ e. Enters machine.old.view.program (parts machine.old) e (parts machine.new)
        × (turn_of e ≡ turn) × IsOneStep e × (number < 2 ^ 32)) }
    ensures err { IfErr result
        (λ fault. RefusesSchedule machine.old.view.program (parts machine.old) number turn fault) }
    ensures program { machine.new.view.program ≡ machine.old.view.program }
{
    if number > u64::from(u32::MAX) {
        return Err(ScheduleFault::BadEntry(number));
    }
    match turn {
        Turn::Step(t) => take_own(machine, number, t),
        Turn::Stray(t) => take_stray(machine, number, t),
        Turn::Kill(t) => take_kill(machine, number, t),
    }
}

// Takes a step of thread `t`, if it can take one.
fn take_own(machine: &mut PieceMachine, number: u64, t: u32) -> Result<Entry, ScheduleFault>
    requires few { number < 2 ^ 32 }
    ensures ok { IfOk result
        (λ e. EntersOwn machine.old.view.program (parts machine.old) e (parts machine.new)
        × (e.thread ≡ t) × IsOneStep e) }
    ensures err { IfErr result
        (λ fault. RefusesSchedule machine.old.view.program (parts machine.old) number (Step t) fault) }
    ensures program { machine.new.view.program ≡ machine.old.view.program }
{
    if !machine.can_move(t) {
        return Err(ScheduleFault::BadEntry(number));
    }
    machine.make_room(1)?;
    take_step(machine, t).map_err(|_| ScheduleFault::Broken(number))
}

// Wakes thread `t` from outside, if it sleeps.
fn take_stray(machine: &mut PieceMachine, number: u64, t: u32) -> Result<Entry, ScheduleFault>
    ensures ok { IfOk result
        (λ e. EntersOutside machine.old.view.program (parts machine.old) e (parts machine.new)
        × (turn_of e ≡ Stray t)) }
    ensures err { IfErr result
        (λ fault. RefusesSchedule machine.old.view.program (parts machine.old) number (Stray t) fault) }
    ensures program { machine.new.view.program ≡ machine.old.view.program }
{
    if machine.machine().asleep(t).is_none() {
        return Err(ScheduleFault::BadEntry(number));
    }
    let mut event = Event::new(EventName::Local, 0);
    wake_from_outside(machine, t, &mut event);
    Ok(Entry {
        thread: t,
        local: 0,
        event: Some(event),
    })
}

// Kills thread `t` from outside, if it was made.
fn take_kill(machine: &mut PieceMachine, number: u64, t: u32) -> Result<Entry, ScheduleFault>
    requires few { number < 2 ^ 32 }
    ensures ok { IfOk result
        (λ e. EntersOutside machine.old.view.program (parts machine.old) e (parts machine.new)
        × (turn_of e ≡ Kill t)) }
    ensures err { IfErr result
        (λ fault. RefusesSchedule machine.old.view.program (parts machine.old) number (Kill t) fault) }
    ensures program { machine.new.view.program ≡ machine.old.view.program }
{
    let mut event = Event::new(EventName::Local, 0);
    match machine.kill(t, &mut event) {
        Ok(()) => Ok(Entry {
            thread: t,
            local: 0,
            event: Some(event),
        }),
        Err(_) => Err(ScheduleFault::BadEntry(number)),
    }
}

// Takes a step of thread `t`, which is an entry of its own. It is refused where the step may not be.
fn take_step(machine: &mut PieceMachine, t: u32) -> Result<Entry, StepFault>
    requires thread { can_take machine.old.view.program (parts machine.old) t ≡ true }
    requires room { 1 ≤ machine.old.view.room }
    ensures ok { IfOk result
        (λ e. EntersOwn machine.old.view.program (parts machine.old) e (parts machine.new)
        × (e.thread ≡ t) × IsOneStep e) }
    ensures err { OnErr result (piece_of machine.old.view.program (parts machine.old) t ≡ Err Broken) }
    ensures program { machine.new.view.program ≡ machine.old.view.program }
{
    let next = machine.machine().next_step(t);
    if is_local(&next) {
        return Ok(Entry {
            thread: t,
            local: machine.run_local(t, 1),
            event: None,
        });
    }
    let mut event = Event::new(EventName::Local, 0);
    machine.step_as(t, next, &mut event)?;
    Ok(Entry {
        thread: t,
        local: 0,
        event: Some(event),
    })
}
