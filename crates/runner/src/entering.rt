ghost use Rattle.std.specs.Prelude.{◌≡◌, ◌≢◌, ◌≤◌, ◌<◌, ◌^◌, ◌++◌, ◌∷◌, [], length, true, Some, None, Ok};
ghost use Rattle.std.specs.Prelude.{IfOk, OnOk, OnErr, IsOk, option_copied, is_some};
ghost use Rattle.locals.specs.Accesses.{accessing};
ghost use Rattle.locals.specs.Looks.{look};
ghost use Rattle.locals.specs.Requests.{next_step_of};
ghost use Rattle.machine.specs.States.{state_of, thread_of};
ghost use Rattle.machine.specs.ConcreteSteps.{can_move};
ghost use Rattle.machine.specs.Views.{concrete};
ghost use Rattle.piece_machine.specs.PieceConcrete.{kill_piece, stray_piece};
ghost use Rattle.piece_machine.specs.PieceViews.{GoesTo, parts};
ghost use Rattle.runner.specs.Entries.{EntersAccess, entry_end, event_if};
ghost use Rattle.runner.specs.Speculations.{access_entries};

use crate::stepping::is_local;
use locals::{Local, NextStep};
use machine::{Event, SpeculativeAccess, access_name};
use packed_log::PackedLog;
use piece_machine::PieceMachine;
use std::alloc::AllocError;

/// Takes in where thread `t` has come after `count` local steps, and where its next step is `next`, as one entry of the
/// log. Answers whether it has a shared step, whose event is put in its place.
pub fn enter(
    machine: &mut PieceMachine,
    log: &mut PackedLog,
    t: u32,
    here: &Local,
    next: &NextStep,
    count: u32,
    event: &mut Event,
) -> Result<bool, AllocError>
    requires thread { can_move (concrete machine.old.view) t ≡ true }
    requires goes { GoesTo machine.old.view t here.now }
    requires next { next.now ≡ next_step_of (look machine.old.view.program t here.now) }
    requires fine { IsOk (entry_end machine.old.view.program (parts machine.old) t here.now) }
    ensures gives { IfOk result
        (λ shared. entry_end machine.old.view.program (parts machine.old) t here.now
        ≡ Ok (parts machine.new, event_if shared event.new)) }
    ensures log { IfOk result
        (λ shared. log.new.items
        ≡ log.old.items ++ record { thread = t; local = count; event = event_if shared event.new } ∷ []) }
    ensures few { OnOk result (length log.old.items < 2 ^ 64) }
    ensures err { OnErr result ((parts machine.new ≡ parts machine.old)
        × (log.new.items ≡ log.old.items)) }
    ensures program { machine.new.view.program ≡ machine.old.view.program }
{
    make_room(machine, log)?;
    let shared = hand_in(machine, t, here, next, event);
    log.push_parts(t, count, event_if(shared, event));
    Ok(shared)
}

/// Takes in where thread `t` has come after `count` local steps, and the access to a word that is its next step, as one
/// entry of the log, for which there is room. Nothing is asked for and answered.
pub fn enter_access(
    machine: &mut PieceMachine,
    log: &mut PackedLog,
    t: u32,
    local: &Local,
    count: u32,
)
    requires thread { can_move (concrete machine.old.view) t ≡ true }
    requires goes { GoesTo machine.old.view t local.now }
    requires access { is_some (accessing (look machine.old.view.program t local.now) machine.old.view.words) ≡ true }
    requires room { 1 ≤ log.old.room }
    ensures enters { EntersAccess machine.old.view.program (parts machine.old) t local.now count log.old.items
        (parts machine.new) log.new.items }
    ensures program { machine.new.view.program ≡ machine.old.view.program }
{
    machine.copy_local(t, local);
    match machine.access(t) {
        Some(access) => log.push_plain(t, count, access_name(access.kind), access.value),
        None => unreachable!(),
    }
}

/// Puts an entry for each of these accesses of thread `t` at the end of a log, which has room for them.
pub fn push_accesses(log: &mut PackedLog, t: u32, made: &[SpeculativeAccess])
    requires { length made.now ≤ log.old.room }
    ensures { log.new.items ≡ log.old.items ++ access_entries t made.now }
{
    let Some((first, rest)) = made.split_first() else {
        return;
    };
    let name = access_name(first.access.kind);
    log.push_plain(t, first.local, name, first.access.value);
    push_accesses(log, t, rest);
}

/// Takes in a wake of thread `t`, which sleeps, from outside, as one entry of the log.
pub fn enter_outside(
    machine: &mut PieceMachine,
    log: &mut PackedLog,
    t: u32,
    event: &mut Event,
) -> Result<(), AllocError>
    requires sleeps { (state_of (concrete machine.old.view)).asleep t ≢ None }
    ensures gives { OnOk result (stray_piece (parts machine.old) t ≡ Ok (parts machine.new, event.new)) }
    ensures log { OnOk result (log.new.items
        ≡ log.old.items ++ record { thread = t; local = 0; event = Some event.new } ∷ []) }
    ensures few { OnOk result (length log.old.items < 2 ^ 64) }
    ensures err { OnErr result ((parts machine.new ≡ parts machine.old)
        × (log.new.items ≡ log.old.items)) }
    ensures program { machine.new.view.program ≡ machine.old.view.program }
{
    make_room(machine, log)?;
    wake_from_outside(machine, t, event);
    log.push_parts(t, 0, Some(event));
    Ok(())
}

/// Takes in a kill of thread `t`, which was made, from outside, as one entry of the log.
pub fn enter_kill(
    machine: &mut PieceMachine,
    log: &mut PackedLog,
    t: u32,
    event: &mut Event,
) -> Result<(), AllocError>
    requires made { thread_of (concrete machine.old.view) t ≢ None }
    ensures gives { OnOk result
        (kill_piece machine.old.view.program (parts machine.old) t ≡ Ok (parts machine.new, event.new)) }
    ensures log { OnOk result (log.new.items
        ≡ log.old.items ++ record { thread = t; local = 0; event = Some event.new } ∷ []) }
    ensures few { OnOk result (length log.old.items < 2 ^ 64) }
    ensures err { OnErr result ((parts machine.new ≡ parts machine.old)
        × (log.new.items ≡ log.old.items)) }
    ensures program { machine.new.view.program ≡ machine.old.view.program }
{
    make_room(machine, log)?;
    kill_from_outside(machine, t, event);
    log.push_parts(t, 0, Some(event));
    Ok(())
}

/// The event of an entry, if it has a shared step.
pub fn event_if(shared: bool, event: &Event) -> Option<&Event>
    ensures { option_copied result ≡ event_if shared event.now }
{
    if shared { Some(event) } else { None }
}

/// Makes room for one more entry, and for the number that it may print.
#[inline(always)]
pub fn make_room(machine: &mut PieceMachine, log: &mut PackedLog) -> Result<(), AllocError>
    ensures room { OnOk result ((1 ≤ machine.new.view.room) × (1 ≤ log.new.room)) }
    ensures few { OnOk result (length log.old.items < 2 ^ 64) }
    ensures same { (parts machine.new ≡ parts machine.old) × (log.new.items ≡ log.old.items) }
    ensures program { machine.new.view.program ≡ machine.old.view.program }
{
    log.make_room()?;
    machine.make_room(1)
}

// Puts a thread where it has come, and takes the shared step that it stands before, if any. Answers whether there was one.
fn hand_in(
    machine: &mut PieceMachine,
    t: u32,
    here: &Local,
    next: &NextStep,
    event: &mut Event,
) -> bool
    requires thread { can_move (concrete machine.old.view) t ≡ true }
    requires goes { GoesTo machine.old.view t here.now }
    requires next { next.now ≡ next_step_of (look machine.old.view.program t here.now) }
    requires fine { IsOk (entry_end machine.old.view.program (parts machine.old) t here.now) }
    requires room { 1 ≤ machine.old.view.room }
    ensures gives { entry_end machine.old.view.program (parts machine.old) t here.now
        ≡ Ok (parts machine.new, event_if result event.new) }
    ensures program { machine.new.view.program ≡ machine.old.view.program }
{
    machine.copy_local(t, here);
    let turn = is_local(next);
    if turn {
        return false;
    }
    if let Some(access) = machine.access(t) {
        event.put(access_name(access.kind), access.value);
        return true;
    }
    match machine.step_as(t, *next, event) {
        Ok(()) => true,
        Err(_) => unreachable!(),
    }
}

/// Wakes thread `t`, which sleeps, though no thread called for it.
pub fn wake_from_outside(machine: &mut PieceMachine, t: u32, event: &mut Event)
    requires sleeps { (state_of (concrete machine.old.view)).asleep t ≢ None }
    ensures gives { stray_piece (parts machine.old) t ≡ Ok (parts machine.new, event.new) }
    ensures program { machine.new.view.program ≡ machine.old.view.program }
{
    match machine.stray(t, event) {
        Ok(()) => {}
        Err(_) => unreachable!(),
    }
}

// Kills thread `t`, which was made, from outside.
fn kill_from_outside(machine: &mut PieceMachine, t: u32, event: &mut Event)
    requires made { thread_of (concrete machine.old.view) t ≢ None }
    ensures gives { kill_piece machine.old.view.program (parts machine.old) t ≡ Ok (parts machine.new, event.new) }
    ensures program { machine.new.view.program ≡ machine.old.view.program }
{
    match machine.kill(t, event) {
        Ok(()) => {}
        Err(_) => unreachable!(),
    }
}
