ghost use Rattle.std.specs.Prelude.{◌≡◌, ◌++◌, IfOk, OnOk, Some, replicate};
ghost use Rattle.isa.specs.Programs.{Program};
ghost use Rattle.piece_machine.specs.PieceConcrete.{PieceConcrete};
ghost use Rattle.runner.specs.Logs.{Runs, opening};
ghost use Rattle.runner.specs.Schedules.{turn_by_event};
ghost use Rattle.runner.specs.declared.schedule.Turn.TheVariants.{Step};
ghost use Rattle.schedules.specs.OfLog.{LeadsAlike, entry_turns, log_turns};

use machine::{Entry, Event, EventName};
use packed_log::LogReader;
use runner::Turn;
use std::alloc::{AllocError, Global};

/// The schedule of a log: for each of its entries, in their order, as many turns as the entry has local steps, and then
/// one where it has a shared step, a stray wake or a kill.
///
/// An image follows the schedule of each log of its own to where the log leads, by the same steps. The values of events are
/// left out, so it may follow that of another log too.
pub fn schedule_of_log(alloc: Global, entries: LogReader<'_>) -> Result<Vec<Turn>, AllocError>
    ensures turns { IfOk result (λ turns. turns.items ≡ log_turns entries.entry) }
    ensures leads { IfOk result (λ turns. (p : Program) (k : PieceConcrete)
        → Runs p (opening p) entries.entry k → LeadsAlike p entries.entry k turns.items) }
{
    turns_of(alloc, entries)
}

// The turns of a log.
fn turns_of(alloc: Global, entries: LogReader<'_>) -> Result<Vec<Turn>, AllocError>
    ensures { IfOk result (λ turns. turns.items ≡ log_turns entries.entry) }
{
    let mut turns = Vec::new(alloc);
    for entry in entries {
        push_entry(&mut turns, &entry)?;
    }
    Ok(turns)
}

// Adds the turns of an entry.
fn push_entry(turns: &mut Vec<Turn>, entry: &Entry) -> Result<(), AllocError>
    ensures { OnOk result (turns.new.items ≡ turns.old.items ++ entry_turns entry.now) }
{
    push_steps(turns, entry.thread, entry.local)?;
    if let Some(event) = entry.event {
        turns.push(turn_of(entry.thread, &event))?;
    }
    Ok(())
}

// Adds so many steps of a thread.
fn push_steps(turns: &mut Vec<Turn>, thread: u32, count: u32) -> Result<(), AllocError>
    ensures { OnOk result (turns.new.items ≡ turns.old.items ++ replicate count (Step thread)) }
{
    for _step in 0..count {
        turns.push(Turn::Step(thread))?;
    }
    Ok(())
}

// The turn that ends in this event.
fn turn_of(thread: u32, event: &Event) -> Turn
    ensures { result ≡ turn_by_event (Some event.now) thread }
{
    match event.name {
        EventName::Stray => Turn::Stray(thread),
        EventName::Kill => Turn::Kill(thread),
        _ => Turn::Step(thread),
    }
}
