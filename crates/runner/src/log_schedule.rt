ghost use Rattle.std.specs.Prelude.{◌≡◌, ◌≤◌, ◌<◌, ◌+◌, ◌^◌, length, true, None, Some, IfOk, IfErr, IfSome, IfNone, OnOk, IsOk, Err, map, [], ◌⊎◌};
ghost use Rattle.locals.specs.Threads.{Thread};
ghost use Rattle.machine.specs.States.{state_of, thread_of};
ghost use Rattle.machine.specs.Views.{concrete};
ghost use Rattle.piece_machine.specs.PieceConcrete.{PieceConcrete};
ghost use Rattle.piece_machine.specs.PieceViews.{parts};
ghost use Rattle.runner.specs.Logs.{Ends, Enters, event_cost, is_kill, is_outside, opening};
ghost use Rattle.runner.specs.declared.log_schedule.FollowLogFault.TheVariants.{Memory};
ghost use Rattle.runner.specs.Reports.{IsVerdict};
ghost use Rattle.runner.specs.LogSchedules.{CannotTake, FailsLogAt, FollowsLog, IsFollowedLog, shape_of};

use crate::report::{Report, report_of};
use crate::stepping::is_local;
use isa::Image;
use machine::{Entry, Event, EventName};
use packed_log::{LogReader, PackedLog};
use piece_machine::PieceMachine;
use std::alloc::{AllocError, Global};
use thiserror::Error;
use words::BUCKETS;

/// Why an image isn't run by the threads and counts of a log to its end. Its entries are numbered from 1.
#[derive(Clone, Copy, PartialEq, Eq, Debug, Error)]
pub enum FollowLogFault {
    /// The entry of this number can't be taken: its thread can't move, takes fewer local steps, or doesn't stand before
    /// a shared step behind them that may be and that no held bucket is in the way of; or with it there are 2^32 steps or
    /// more.
    #[error("log entry {0}")]
    BadEntry(u64),
    /// There is no memory for the run.
    #[error("memory")]
    Memory,
}

impl From<AllocError> for FollowLogFault {
    ghost from_gives = { λ _ f. f ≡ Memory };

    fn from(_error: AllocError) -> FollowLogFault {
        FollowLogFault::Memory
    }
}

/// Runs an image by a log, which is taken for a schedule: for each of its entries the same thread takes as many local
/// steps, and then a shared step where the log's entry has one; a wake or a kill from outside is one again. Events
/// are not compared, so the report's log may have other values.
///
/// The verdict is Limit where some thread can still move. The first entry that can't be taken so is refused.
pub fn follow_log(
    alloc: Global,
    image: &Image,
    entries: LogReader<'_>,
) -> Result<Report, FollowLogFault>
    ensures ok { IfOk result (λ report. IsFollowedLog image.now entries.entry report) }
    ensures err { IfErr result (λ fault. FailsLogAt image.now entries.entry fault) }
{
    let mut log = PackedLog::with_capacity(alloc, entries.len())?;
    let mut machine = PieceMachine::new(alloc, image, BUCKETS)?;
    let done = follow_entries(&mut machine, &mut log, entries);
    report_behind(alloc, log, machine, done)
}

// What is told of a run that left this log and this machine, where nothing was refused.
fn report_behind(
    alloc: Global,
    log: PackedLog,
    last: PieceMachine,
    done: Result<(), FollowLogFault>,
) -> Result<Report, FollowLogFault>
    ensures ok { IfOk result (λ report. IsOk done × (report.log.items ≡ log.items) × (report.last ≡ last)
        × (report.output.items ≡ last.view.output) × IsVerdict (concrete last.view) report.verdict) }
    ensures err { IfErr result (λ fault. (fault ≡ Memory) ⊎ (done ≡ Err fault)) }
{
    done?;
    Ok(report_of(alloc, log, last)?)
}

// Takes the entries of another log in turn, from the beginning on.
fn follow_entries(
    machine: &mut PieceMachine,
    log: &mut PackedLog,
    entries: LogReader<'_>,
) -> Result<(), FollowLogFault>
    requires begins { parts machine.old ≡ opening machine.old.view.program }
    requires empty { log.old.items ≡ [] }
    ensures ok { OnOk result (FollowsLog machine.old.view.program (map shape_of entries.entry)
        log.new.items (parts machine.new)) }
    ensures err { IfErr result (λ fault. FailsLogAt machine.old.view.program entries.entry fault) }
    ensures program { machine.new.view.program ≡ machine.old.view.program }
{
    let _count = entries.len();
    let mut steps: u64 = 0;
    let mut number: u64 = 0;
    for entry in entries {
        number += 1;
        steps += steps_of(&entry);
        if steps > u64::from(u32::MAX) {
            return Err(FollowLogFault::BadEntry(number));
        }
        machine.make_room(1)?;
        let Some(taken) = take_turn(machine, &entry) else {
            return Err(FollowLogFault::BadEntry(number));
        };
        if log.push(taken).is_err() {
            return Err(FollowLogFault::Memory);
        }
    }
    Ok(())
}

// How many steps an entry has.
fn steps_of(entry: &Entry) -> u64
    ensures value { result ≡ entry.now.local + event_cost entry.now.event }
    ensures few { result ≤ 2 ^ 32 }
{
    u64::from(entry.local) + u64::from(entry.event.is_some())
}

// Takes an entry of the thread and the counts of another; None where there is none.
fn take_turn(machine: &mut PieceMachine, entry: &Entry) -> Option<Entry>
    requires room { 1 ≤ machine.old.view.room }
    ensures some { IfSome result
        (λ e. Enters machine.old.view.program (parts machine.old) e (parts machine.new)
        × (shape_of e ≡ shape_of entry.now)) }
    ensures none { IfNone result
        (CannotTake machine.old.view.program (parts machine.old) (shape_of entry.now)) }
    ensures program { machine.new.view.program ≡ machine.old.view.program }
{
    if is_outside(entry) {
        return take_outside(machine, entry);
    }
    let thread = entry.thread;
    let local = entry.local;
    if !machine.machine().can_move(thread) {
        return None;
    }
    if machine.run_local(thread, local) < local {
        return None;
    }
    if entry.event.is_some() {
        let Some(event) = take_shared(machine, thread) else {
            return None;
        };
        return Some(Entry {
            thread,
            local,
            event: Some(event),
        });
    }
    Some(Entry {
        thread,
        local,
        event: None,
    })
}

// Whether an entry is a wake or a kill from outside.
fn is_outside(entry: &Entry) -> bool
    ensures { result ≡ is_outside entry.now.event }
{
    match entry.event {
        Some(event) => matches!(event.name, EventName::Stray | EventName::Kill),
        None => false,
    }
}

// Whether an entry is a kill.
fn is_kill(entry: &Entry) -> bool
    ensures { result ≡ is_kill entry.now.event }
{
    match entry.event {
        Some(event) => event.name == EventName::Kill,
        None => false,
    }
}

// Takes a wake or a kill from outside of the thread of an entry; None where there is none.
fn take_outside(machine: &mut PieceMachine, entry: &Entry) -> Option<Entry>
    requires outside { is_outside entry.now.event ≡ true }
    ensures some { IfSome result
        (λ e. Enters machine.old.view.program (parts machine.old) e (parts machine.new)
        × (shape_of e ≡ shape_of entry.now)) }
    ensures none { IfNone result
        (CannotTake machine.old.view.program (parts machine.old) (shape_of entry.now)) }
    ensures program { machine.new.view.program ≡ machine.old.view.program }
{
    if entry.local > 0 {
        return None;
    }
    let mut event = Event::new(EventName::Local, 0);
    if is_kill(entry) {
        return match machine.kill(entry.thread, &mut event) {
            Ok(()) => Some(alone(entry.thread, event)),
            Err(_) => None,
        };
    }
    match machine.stray(entry.thread, &mut event) {
        Ok(()) => Some(alone(entry.thread, event)),
        Err(_) => None,
    }
}

// An entry of this event alone.
fn alone(thread: u32, event: Event) -> Entry
    ensures { result ≡ record { thread = thread; local = 0; event = Some event } }
{
    Entry {
        thread,
        local: 0,
        event: Some(event),
    }
}

// Takes the shared step that thread `t` stands before; None where it stands before none.
fn take_shared(machine: &mut PieceMachine, t: u32) -> Option<Event>
    requires thread { (0 < t) × (t ≤ length machine.old.view.threads) }
    requires awake { (state_of (concrete machine.old.view)).asleep t ≡ None }
    requires room { 1 ≤ machine.old.view.room }
    ensures some { IfSome result (λ event. (here : Thread)
        → thread_of (concrete machine.old.view) t ≡ Some here
        → Ends machine.old.view.program (parts machine.old) t here (Some event) (parts machine.new)) }
    ensures none { IfNone result ((here : Thread) (event : Event) (k : PieceConcrete)
        → thread_of (concrete machine.old.view) t ≡ Some here
        → Ends machine.old.view.program (parts machine.old) t here (Some event) k
        → ⊥) }
    ensures program { machine.new.view.program ≡ machine.old.view.program }
{
    let next = machine.machine().next_step(t);
    if is_local(&next) {
        return None;
    }
    let mut event = Event::new(EventName::Local, 0);
    match machine.step_as(t, next, &mut event) {
        Ok(()) => Some(event),
        Err(_) => None,
    }
}
