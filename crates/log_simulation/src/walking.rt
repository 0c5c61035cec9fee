ghost use Rattle.std.specs.Prelude.{[], ◌≡◌, ◌<◌, ◌≤◌, ◌^◌, false, true, IfOk, MatchBool, Ok, OnOk, Some, is_some, length};
ghost use Rattle.lowering.specs.Pieces.{code_of};
ghost use Rattle.locals.specs.Steps.{local_step};
ghost use Rattle.locals.specs.Threads.{Thread};
ghost use Rattle.machine.specs.States.{thread_of};
ghost use Rattle.machine.specs.ConcretePieces.{is_piece};
ghost use Rattle.machine.specs.ConcreteSteps.{can_move};
ghost use Rattle.machine.specs.Views.{concrete};
ghost use Rattle.piece_machine.specs.PieceConcrete.{PieceConcrete, kill_piece, stray_piece};
ghost use Rattle.piece_machine.specs.PieceViews.{parts};
ghost use Rattle.program.specs.Trees.{Program};
ghost use Rattle.program.specs.WellFormed.{WellFormed};
ghost use Rattle.runner.specs.Logs.{Ends, Enters, EntersOutside, EntersOwn, is_outside, opening};
ghost use Rattle.log_simulation.specs.Recording.{IsAlong, IsAlongStep, KeepsUp, WalksTo};

use crate::recorder::Recorder;
use crate::same_event::same_event;
use isa::Image;
use locals::Local;
use machine::{Entry, Event, EventName, Machine};
use packed_log::LogReader;
use piece_machine::PieceMachine;
use robustexit::ExitPhase;
use std::alloc::{AllocError, Global};
use words::BUCKETS;

// Whether thread `t` stands before a local step.
fn is_before_local(machine: &Machine, t: u32) -> bool
    requires { (0 < t) × (t ≤ length machine.now.threads) }
    ensures { (here : Thread) → thread_of (concrete machine.now) t ≡ Some here
        → result ≡ is_some (local_step machine.now.program t here) }
{
    machine.is_before_local(t, machine.local(t))
}

// Takes the shared step of thread `t`, whose event is put in its place; false where it isn't this event.
fn take_shared(machine: &mut PieceMachine, t: u32, event: &Event, taken: &mut Event) -> bool
    requires thread { (0 < t) × (t ≤ length machine.old.view.threads) }
    requires room { 1 ≤ machine.old.view.room }
    ensures ends { (here : Thread) → thread_of (parts machine.old).concrete t ≡ Some here
        → MatchBool result
        (Ends machine.old.view.program (parts machine.old) t here (Some event.now) (parts machine.new))
        ((k : PieceConcrete) → Ends machine.old.view.program (parts machine.old) t here (Some event.now) k
        → ⊥) }
    ensures program { machine.new.view.program ≡ machine.old.view.program }
{
    if is_before_local(machine.machine(), t) {
        return false;
    }
    match machine.step(t, taken) {
        Ok(()) => same_event(taken, event),
        Err(_) => false,
    }
}

// Whether a step is told of a piece behind which its futex call goes on: it is nothing in the source.
fn is_piece(name: EventName) -> bool
    ensures { result ≡ is_piece name }
{
    matches!(name, EventName::FutexLock | EventName::FutexCompare)
}

// Copies the state of a thread, where it can move.
fn copy_mover(machine: &PieceMachine, t: u32, here: &mut Local) -> bool
    ensures { MatchBool result
        ((can_move (parts machine.now).concrete t ≡ true)
        × (thread_of (parts machine.now).concrete t ≡ Some here.new))
        (can_move (parts machine.now).concrete t ≡ false) }
{
    let machine = machine.machine();
    if !machine.can_move(t) {
        return false;
    }
    here.copy_from(machine.local(t));
    true
}

// Takes an entry of a thread's own, and records it; false where the machine can't take it. What `here` and `taken` hold is lost.
fn go_own(
    image: &Image,
    machine: &mut PieceMachine,
    recorder: &mut Recorder,
    here: &mut Local,
    entry: &Entry,
    taken: &mut Event,
) -> Result<bool, AllocError>
    requires program { machine.old.view.program ≡ image.now }
    ensures enters { IfOk result (λ b. MatchBool b
        (EntersOwn image.now (parts machine.old) entry.now (parts machine.new))
        ((k : PieceConcrete) → EntersOwn image.now (parts machine.old) entry.now k → ⊥)) }
    ensures told { IfOk result (λ b. b ≡ true → (p : Program) → image.now ≡ code_of p
        → KeepsUp p (parts machine.old) recorder.old entry.now (parts machine.new)
        recorder.new) }
    ensures program { OnOk result (machine.new.view.program ≡ image.now) }
{
    let t = entry.thread;
    if !copy_mover(machine, t, here) || !recorder.take_steps(image, here, entry) {
        return Ok(false);
    }
    machine.make_room(1)?;
    machine.copy_local(t, here);
    let Some(event) = entry.event else {
        return Ok(true);
    };
    let step = here.next_step(image, t);
    let visible = recorder.is_visible(machine.machine(), t, step, event.value);
    if !take_shared(machine, t, &event, taken) {
        return Ok(false);
    }
    if is_piece(event.name) {
        recorder.take_nothing();
        return Ok(true);
    }
    recorder.take_shared_step(machine, t, here, step, event.value, visible)?;
    Ok(true)
}

// Wakes thread `t` from outside; false where that isn't this event.
fn take_stray(machine: &mut PieceMachine, t: u32, event: &Event, stray: &mut Event) -> bool
    ensures gives { MatchBool result
        (stray_piece (parts machine.old) t ≡ Ok (parts machine.new, event.now))
        ((k : PieceConcrete) → stray_piece (parts machine.old) t ≡ Ok (k, event.now) → ⊥) }
    ensures program { machine.new.view.program ≡ machine.old.view.program }
{
    match machine.stray(t, stray) {
        Ok(()) => same_event(stray, event),
        Err(_) => false,
    }
}

// Kills thread `t`; false where that isn't this event.
fn take_kill(machine: &mut PieceMachine, t: u32, event: &Event, kill: &mut Event) -> bool
    ensures gives { MatchBool result
        (kill_piece machine.old.view.program (parts machine.old) t ≡ Ok (parts machine.new, event.now))
        ((k : PieceConcrete) → kill_piece machine.old.view.program (parts machine.old) t ≡ Ok (k, event.now) → ⊥) }
    ensures program { machine.new.view.program ≡ machine.old.view.program }
{
    match machine.kill(t, kill) {
        Ok(()) => same_event(kill, event),
        Err(_) => false,
    }
}

// Takes a wake of thread `t` from outside with this event, and records it; false where the machine can't take it.
fn go_stray(
    machine: &mut PieceMachine,
    recorder: &mut Recorder,
    t: u32,
    event: &Event,
    taken: &mut Event,
) -> Result<bool, AllocError>
    ensures gives { IfOk result (λ b. MatchBool b
        (stray_piece (parts machine.old) t ≡ Ok (parts machine.new, event.now))
        ((k : PieceConcrete) → stray_piece (parts machine.old) t ≡ Ok (k, event.now) → ⊥)) }
    ensures told { IfOk result (λ b. b ≡ true → (p : Program) → machine.old.view.program ≡ code_of p
        → IsAlongStep p (parts machine.old) recorder.old t event.now (parts machine.new)
        recorder.new) }
    ensures program { OnOk result (machine.new.view.program ≡ machine.old.view.program) }
{
    if !take_stray(machine, t, event, taken) {
        return Ok(false);
    }
    recorder.take_stray(t, event.value)?;
    Ok(true)
}

// Takes a kill of thread `t` with this event, and records it; false where the machine can't take it.
fn go_kill(
    machine: &mut PieceMachine,
    recorder: &mut Recorder,
    t: u32,
    event: &Event,
    taken: &mut Event,
) -> Result<bool, AllocError>
    ensures gives { IfOk result (λ b. MatchBool b
        (kill_piece machine.old.view.program (parts machine.old) t ≡ Ok (parts machine.new, event.now))
        ((k : PieceConcrete) → kill_piece machine.old.view.program (parts machine.old) t ≡ Ok (k, event.now) → ⊥)) }
    ensures told { IfOk result (λ b. b ≡ true → (p : Program) → machine.old.view.program ≡ code_of p
        → IsAlongStep p (parts machine.old) recorder.old t event.now (parts machine.new)
        recorder.new) }
    ensures program { OnOk result (machine.new.view.program ≡ machine.old.view.program) }
{
    let last = recorder.killed_last(machine.machine(), t);
    if !take_kill(machine, t, event, taken) {
        return Ok(false);
    }
    if event.value == 1 {
        recorder.take_kill(machine, t, last)?;
    } else {
        recorder.take_nothing();
    }
    Ok(true)
}

// Whether an entry came from outside.
fn is_outside(entry: &Entry) -> bool
    ensures { result ≡ is_outside entry.now.event }
{
    match entry.event {
        Some(event) => matches!(event.name, EventName::Stray | EventName::Kill),
        None => false,
    }
}

// Takes an entry that came from outside, and records it; false where the machine can't take it.
fn go_outside(
    machine: &mut PieceMachine,
    recorder: &mut Recorder,
    entry: &Entry,
    taken: &mut Event,
) -> Result<bool, AllocError>
    ensures enters { IfOk result (λ b. MatchBool b
        (EntersOutside machine.old.view.program (parts machine.old) entry.now (parts machine.new))
        ((k : PieceConcrete) → EntersOutside machine.old.view.program (parts machine.old) entry.now k → ⊥)) }
    ensures told { IfOk result (λ b. b ≡ true → (p : Program) → machine.old.view.program ≡ code_of p
        → KeepsUp p (parts machine.old) recorder.old entry.now (parts machine.new)
        recorder.new) }
    ensures program { OnOk result (machine.new.view.program ≡ machine.old.view.program) }
{
    let Some(event) = entry.event else {
        return Ok(false);
    };
    if entry.local > 0 {
        return Ok(false);
    }
    match event.name {
        EventName::Kill => go_kill(machine, recorder, entry.thread, &event, taken),
        _ => go_stray(machine, recorder, entry.thread, &event, taken),
    }
}

// Takes an entry, and records it; false where the machine can't take it. What `here` and `taken` hold is lost.
fn go_through(
    image: &Image,
    machine: &mut PieceMachine,
    recorder: &mut Recorder,
    here: &mut Local,
    entry: &Entry,
    taken: &mut Event,
) -> Result<bool, AllocError>
    requires program { machine.old.view.program ≡ image.now }
    ensures enters { IfOk result (λ b. MatchBool b
        (Enters image.now (parts machine.old) entry.now (parts machine.new))
        ((k : PieceConcrete) → Enters image.now (parts machine.old) entry.now k → ⊥)) }
    ensures told { IfOk result (λ b. b ≡ true → (p : Program) → image.now ≡ code_of p
        → KeepsUp p (parts machine.old) recorder.old entry.now (parts machine.new)
        recorder.new) }
    ensures program { OnOk result (machine.new.view.program ≡ image.now) }
{
    if is_outside(entry) {
        return go_outside(machine, recorder, entry, taken);
    }
    go_own(image, machine, recorder, here, entry, taken)
}

/// What a walk over a log came to.
#[derive(Drop)]
pub enum Walked {
    /// The entry of this number, from 1: with it, the entries are no log of a run.
    StopsAt(u64),
    /// The machine behind the last entry.
    LeadsTo(PieceMachine),
}

// A log has fewer than 2^64 entries. Nothing is done when it runs.
fn log_is_counted(log: &LogReader<'_>)
    ensures { length log.now < 2 ^ 64 }
{
    log.len();
}

/// Walks over a log of an image, and records its actions, as far as its first entry that isn't legal, or with which
/// there are 2^32 steps or more.
pub fn walk(
    alloc: Global,
    image: &Image,
    log: LogReader<'_>,
    recorder: &mut Recorder,
) -> Result<Walked, AllocError>
    ensures { IfOk result (λ w. (p : Program) → WellFormed p → image.now ≡ code_of p
        → IsAlong p [] (opening image.now) recorder.old → WalksTo p log.entry w recorder.new) }
{
    log_is_counted(&log);
    let mut machine = PieceMachine::new(alloc, image, BUCKETS)?;
    let mut here = Local::exiting(ExitPhase::Ended);
    let mut taken = Event::new(EventName::Local, 0);
    let mut number: u64 = 0;
    for entry in log {
        number += 1;
        if !go_through(image, &mut machine, recorder, &mut here, &entry, &mut taken)? {
            return Ok(Walked::StopsAt(number));
        }
        if !recorder.is_whole() {
            return Ok(Walked::StopsAt(number));
        }
    }
    Ok(Walked::LeadsTo(machine))
}
