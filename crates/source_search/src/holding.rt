ghost use Rattle.std.specs.Prelude.{◌≡◌, All, IfOk, OnOk, true};
ghost use Rattle.program.specs.Trees.{Program as ProgramOf};
ghost use Rattle.program.specs.Views.{program_of};
ghost use Rattle.proof_exploration.specs.Blocking.{IsHeldUp, MayWait};
ghost use Rattle.source_offers.specs.Stages.{process_of};
ghost use Rattle.source_states.specs.States.{state_of};
ghost use Rattle.source_search.specs.Kept.{IsSound, states_in, states_of};
ghost use Rattle.source_search.specs.Living.{AreBlockedAt, IsClosedOver, IsHeldIn};
ghost use Rattle.source_search.specs.Packed.{unpacked};

use crate::held_up::is_held_up;
use crate::kept::Kept;
use crate::outside::Outside;
use crate::packed::Packed;
use crate::parts::Parts;
use crate::progress::Untold;
use crate::search::search;
use program::Checked;
use source_offers::{Process, Stage};
use source_sameness::same_process;
use source_states::SourceState;
use std::alloc::{AllocError, Global};

/// Nothing comes from outside.
pub(crate) const NOTHING: Outside = Outside {
    strays: false,
    kills: 0,
};

// Whether a process stands where it may be held up.
fn may_wait(process: &Process) -> bool
    ensures { result ≡ true → MayWait (process_of process.now) }
{
    match &process.stage {
        Stage::Entering(_) => true,
        Stage::Suspended(_) => true,
        Stage::Joining { .. } => true,
        _ => false,
    }
}

// Whether the process of this number stands in a kept state where this one does, and is held up there.
fn is_held_there(parts: &Parts, packed: &Packed, number: u64, process: &Process) -> bool
    ensures { result ≡ true → (p : ProgramOf)
        → IsHeldUp p (unpacked parts.now packed.now) number (process_of process.now) }
{
    if number == 0 {
        return false;
    }
    let Some(part) = packed.processes.get((number - 1) as usize) else {
        return false;
    };
    let Some(at) = parts.processes.get(*part as usize) else {
        return false;
    };
    let Some(table) = parts.tables.get(packed.table as usize) else {
        return false;
    };
    if !same_process(at, process) {
        return false;
    }
    is_held_up(table, number, at)
}

// Whether it is so in each of these states.
fn is_held_in_all(parts: &Parts, states: &[Packed], number: u64, process: &Process) -> bool
    ensures { result ≡ true → (p : ProgramOf) → All (λ s. IsHeldUp p s number (process_of process.now))
        (states_in parts.now states.now) }
{
    for packed in states {
        if !is_held_there(parts, packed, number, process) {
            return false;
        }
    }
    true
}

// Whether the process of this number may be held up where it stands in a state, and is so in each that is kept.
fn is_held_in(kept: &Kept, state: &SourceState, number: u64) -> bool
    ensures { result ≡ true → (p : ProgramOf) → IsHeldIn p (states_of kept.now) (state_of state.now) number }
{
    let Some(process) = state.process(number) else {
        return false;
    };
    if !may_wait(process) {
        return false;
    }
    is_held_in_all(&kept.parts, kept.states.as_slice(), number, process)
}

// Appends the number of the process, where it is so.
fn add_held(
    kept: &Kept,
    state: &SourceState,
    number: u64,
    held: &mut Vec<u64>,
) -> Result<(), AllocError>
    ensures { OnOk result (((p : ProgramOf)
        → All (IsHeldIn p (states_of kept.now) (state_of state.now)) held.old.items)
        → (p : ProgramOf) → All (IsHeldIn p (states_of kept.now) (state_of state.now)) held.new.items) }
{
    if !is_held_in(kept, state, number) {
        return Ok(());
    }
    held.push(number)?;
    Ok(())
}

// Those of these processes that are.
fn held_of(
    alloc: Global,
    kept: &Kept,
    state: &SourceState,
    numbers: &[u64],
) -> Result<Vec<u64>, AllocError>
    ensures { IfOk result (λ v. (p : ProgramOf)
        → All (IsHeldIn p (states_of kept.now) (state_of state.now)) v.items) }
{
    let mut held = Vec::new(alloc);
    for number in numbers {
        add_held(kept, state, *number, &mut held)?;
    }
    Ok(held)
}

/// Searches all that processes' own actions lead to from a state, as far as so many states may be kept; false where that
/// isn't all.
pub(crate) fn search_from<'a>(
    alloc: Global,
    checked: &'a Checked,
    kept: &mut Kept<'a>,
    most: usize,
    state: SourceState<'a>,
) -> Result<bool, AllocError>
    requires sound { IsSound kept.old }
    ensures { IfOk result (λ all. all ≡ true
        → IsClosedOver (program_of checked.now.tree) (states_of kept.new) (state_of state.entry)) }
{
    if !kept.open(alloc, checked, state, NOTHING)? {
        return Ok(false);
    }
    let findings = search(alloc, checked, kept, most, NOTHING, &mut Untold)?;
    Ok(findings.complete)
}

// Those processes that are held up in each state that processes' own actions lead to from this one, where none is kept
// yet; none where not all could be kept.
fn held_from<'a>(
    alloc: Global,
    checked: &'a Checked,
    kept: &mut Kept<'a>,
    most: usize,
    state: &SourceState<'a>,
) -> Result<Vec<u64>, AllocError>
    requires sound { IsSound kept.old }
    ensures { IfOk result (λ v. AreBlockedAt (program_of checked.now.tree) (state_of state.now) v.items) }
{
    let _program = checked.program();
    let copied = state.copy(alloc)?;
    if !search_from(alloc, checked, kept, most, copied)? {
        return Ok(Vec::new(alloc));
    }
    let numbers = state.numbers(alloc)?;
    held_of(alloc, kept, state, numbers.as_slice())
}

/// Those processes that are blocked for good in a state, where a run leads there; none where that can't be told with so
/// many states kept.
pub(crate) fn blocked_in<'a>(
    alloc: Global,
    checked: &'a Checked,
    most: usize,
    state: &SourceState<'a>,
) -> Result<Vec<u64>, AllocError>
    ensures { IfOk result (λ v. AreBlockedAt (program_of checked.now.tree) (state_of state.now) v.items) }
{
    let mut kept = Kept::new(alloc, most);
    held_from(alloc, checked, &mut kept, most, state)
}
