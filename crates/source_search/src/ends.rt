ghost use Rattle.std.specs.Prelude.{◌≡◌, All, IfOk, MatchBool, Some, false, true, ℕ};
ghost use Rattle.program.specs.Views.{program_of};
ghost use Rattle.meaning.specs.Labels.{Aborted, Cause as CauseIn};
ghost use Rattle.meaning.specs.Processes.{Over, Process as ProcessIn};
ghost use Rattle.source_offers.specs.Stages.{process_of};
ghost use Rattle.source_states.specs.States.{state_of};
ghost use Rattle.proof_exploration.specs.Exploring.{IsOver, IsStuck};
ghost use Rattle.source_search.specs.Ends.{IsEnded};
ghost use Rattle.source_search.specs.Found.{FailedAt, GoesOn, HasFailed, IsCounted};
ghost use Rattle.source_search.specs.Packed.{process_in, unpacked};

use crate::outside::Outside;
use crate::packed::Packed;
use crate::parts::Parts;
use program::Checked;
use source_offers::{End, Process, Stage};
use source_states::SourceState;
use sourcemeaning::movers;
use std::alloc::{AllocError, Global};
use words::Cause;

/// Whether a process is over.
pub(crate) fn is_over(process: &Process) -> bool
    ensures { MatchBool result (IsOver (process_of process.now))
        (IsOver (process_of process.now) → ⊥) }
{
    matches!(process.stage, Stage::Over(_))
}

// Whether an end of this cause is looked for.
fn is_counted(cause: Cause, outside: Outside) -> bool
    ensures { MatchBool result (IsCounted outside cause) (IsCounted outside cause → ⊥) }
{
    match cause {
        Cause::Faulted(_) => true,
        Cause::Killed => outside.kills == 0,
    }
}

// Whether a process has aborted of a cause that is looked for.
fn has_failed_so(process: &Process, outside: Outside) -> bool
    ensures { MatchBool result
        ((cause : CauseIn) × (process_of process.now ≡ Over (Aborted cause)) × IsCounted outside cause)
        ((cause : CauseIn) → process_of process.now ≡ Over (Aborted cause) → IsCounted outside cause → ⊥) }
{
    match &process.stage {
        Stage::Over(end) => match end {
            End::Aborted(cause) => is_counted(*cause, outside),
            End::Ended(_) => false,
        },
        _ => false,
    }
}

/// Whether there is such a process, and it isn't over.
pub(crate) fn goes_on_at(state: &SourceState, number: u64) -> bool
    ensures { MatchBool result (GoesOn (state_of state.now) number)
        (GoesOn (state_of state.now) number → ⊥) }
{
    match state.process(number) {
        None => false,
        Some(process) => !is_over(process),
    }
}

// Whether there is such a process, and it has aborted of a cause that is looked for.
fn has_failed_at(state: &SourceState, number: u64, outside: Outside) -> bool
    ensures { MatchBool result (FailedAt outside (state_of state.now) number)
        (FailedAt outside (state_of state.now) number → ⊥) }
{
    match state.process(number) {
        None => false,
        Some(process) => has_failed_so(process, outside),
    }
}

// Whether one of these processes isn't over.
fn goes_on(state: &SourceState, numbers: &[u64]) -> bool
    ensures { MatchBool result ((q : ℕ) × GoesOn (state_of state.now) q)
        (All (λ q. GoesOn (state_of state.now) q → ⊥) numbers.now) }
{
    for number in numbers {
        if goes_on_at(state, *number) {
            return true;
        }
    }
    false
}

// Whether one of these processes has aborted of a cause that is looked for.
fn some_failed(state: &SourceState, numbers: &[u64], outside: Outside) -> bool
    ensures { MatchBool result ((q : ℕ) × FailedAt outside (state_of state.now) q)
        (All (λ q. FailedAt outside (state_of state.now) q → ⊥) numbers.now) }
{
    for number in numbers {
        if has_failed_at(state, *number, outside) {
            return true;
        }
    }
    false
}

/// Whether no process can move, and some process isn't over.
pub(crate) fn is_stuck(
    alloc: Global,
    checked: &Checked,
    state: &SourceState,
) -> Result<bool, AllocError>
    ensures { IfOk result (λ stuck. MatchBool stuck
        (IsStuck (program_of checked.now.tree) (state_of state.now))
        (IsStuck (program_of checked.now.tree) (state_of state.now) → ⊥)) }
{
    let able = movers(alloc, checked, state)?;
    let moving = able.as_slice();
    if moving.len() > 0 {
        return Ok(false);
    }
    let all = state.numbers(alloc)?;
    let stuck = goes_on(state, all.as_slice());
    Ok(stuck)
}

/// Whether some process has aborted of a cause that is looked for.
pub(crate) fn has_failed(
    alloc: Global,
    state: &SourceState,
    outside: Outside,
) -> Result<bool, AllocError>
    ensures { IfOk result (λ failed. MatchBool failed (HasFailed outside (state_of state.now))
        (HasFailed outside (state_of state.now) → ⊥)) }
{
    let all = state.numbers(alloc)?;
    let failed = some_failed(state, all.as_slice(), outside);
    Ok(failed)
}

// Whether the process of this number is one that has aborted of a cause that is looked for.
fn part_failed(parts: &Parts, part: u32, outside: Outside) -> bool
    ensures { result ≡ false → (cause : CauseIn)
        → process_in parts.now.processes.items part ≡ Some (Over (Aborted cause)) → IsCounted outside cause → ⊥ }
{
    match parts.processes.get(part as usize) {
        None => false,
        Some(process) => has_failed_so(process, outside),
    }
}

/// Whether a process of a kept state has aborted of a cause that is looked for.
pub(crate) fn some_part_failed(parts: &Parts, packed: &Packed, outside: Outside) -> bool
    ensures { result ≡ false → HasFailed outside (unpacked parts.now packed.now) → ⊥ }
{
    let processes = packed.processes.as_slice();
    for place in 0..processes.len() {
        if part_failed(parts, processes[place], outside) {
            return true;
        }
    }
    false
}

// Whether the process of this number is over; so it is where there is none.
fn is_part_over(parts: &Parts, part: u32) -> bool
    ensures { MatchBool result
        ((q : ProcessIn) → process_in parts.now.processes.items part ≡ Some q → IsOver q)
        ((q : ProcessIn) × (process_in parts.now.processes.items part ≡ Some q) × (IsOver q → ⊥)) }
{
    match parts.processes.get(part as usize) {
        None => true,
        Some(process) => is_over(process),
    }
}

/// Whether every process of a kept state is over.
pub(crate) fn are_over(parts: &Parts, packed: &Packed) -> bool
    ensures over { result ≡ true → IsEnded (unpacked parts.now packed.now) }
    ensures goes_on { result ≡ false → IsEnded (unpacked parts.now packed.now) → ⊥ }
{
    let processes = packed.processes.as_slice();
    for place in 0..processes.len() {
        if !is_part_over(parts, processes[place]) {
            return false;
        }
    }
    true
}
