ghost use Rattle.std.specs.Prelude.{◌≡◌, MatchBool, None, Some, true};
ghost use Rattle.program.specs.Trees.{Program as ProgramOf};
ghost use Rattle.meaning.specs.Labels.{End};
ghost use Rattle.meaning.specs.Runs.{CanMove};
ghost use Rattle.meaning.specs.States.{SourceState as SourceStateOf};
ghost use Rattle.source_offers.specs.Stages.{process_of};
ghost use Rattle.source_table.specs.Tables.{table_of};
ghost use Rattle.sourcemeaning.specs.Moving.{IsEnterable};

use source_offers::{Process, Stage};
use source_table::{Hold, Table};

// Whether a monitor is free or abandoned.
fn is_enterable(table: &Table, monitor: u32) -> bool
    ensures { MatchBool result (IsEnterable (table_of table.now) monitor)
        (IsEnterable (table_of table.now) monitor → ⊥) }
{
    !matches!(table.hold(monitor), Hold::HeldBy(_))
}

// Whether a process waits no longer, and its monitor is free or abandoned.
fn is_resumable(table: &Table, number: u64, monitor: u32) -> bool
    ensures { MatchBool result
        (((table_of table.now).waits number ≡ None) × IsEnterable (table_of table.now) monitor)
        (((table_of table.now).waits number ≡ None) × IsEnterable (table_of table.now) monitor → ⊥) }
{
    table.waits(number).is_none() && is_enterable(table, monitor)
}

// Whether a process is over.
fn is_over(table: &Table, number: u64) -> bool
    ensures { MatchBool result ((end : End) × ((table_of table.now).over number ≡ Some end))
        ((end : End) × ((table_of table.now).over number ≡ Some end) → ⊥) }
{
    table.over(number).is_some()
}

/// Whether a process that stands so is held up by this table: it enters a monitor that is held, waits, joins one that
/// isn't over, or is over itself. Then it can't move, whatever else is there.
pub(crate) fn is_held_up(table: &Table, number: u64, process: &Process) -> bool
    ensures { result ≡ true → (p : ProgramOf) (s : SourceStateOf) → s.table ≡ table_of table.now
        → s.process number ≡ Some (process_of process.now) → CanMove p s number → ⊥ }
{
    match &process.stage {
        Stage::Entering(monitor) => !is_enterable(table, *monitor),
        Stage::Suspended(condition) => !is_resumable(table, number, condition.monitor),
        Stage::Joining { child, .. } => !is_over(table, *child),
        Stage::Over(_) => true,
        _ => false,
    }
}
