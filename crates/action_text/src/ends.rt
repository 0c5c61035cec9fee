ghost use Rattle.std.specs.Prelude.{◌≡◌, All, IfOk, MatchBool, ℕ};
ghost use Rattle.program.specs.Views.{program_of};
ghost use Rattle.proof_exploration.specs.Exploring.{IsOver};
ghost use Rattle.source_offers.specs.Stages.{process_of};
ghost use Rattle.source_states.specs.States.{state_of};
ghost use Rattle.action_text.specs.Following.{EndsSo, GoesOn, end_by};

use program::Checked;
use source_offers::{Process, Stage};
use source_states::SourceState;
use sourcemeaning::movers;
use std::alloc::{AllocError, Global};

/// How a run ends.
#[derive(Clone, Copy, PartialEq, Eq, Debug)]
pub enum RunEnd {
    /// All processes are over.
    Over,
    /// No process can move, and some process isn't over.
    Stuck,
    /// Some process can move.
    Open,
}

/// How a run ends that leads to this state.
pub(crate) fn end_of(
    alloc: Global,
    checked: &Checked,
    state: &SourceState,
) -> Result<RunEnd, AllocError>
    ensures { IfOk result
        (λ end. EndsSo end (program_of checked.now.tree) (state_of state.now)) }
{
    let able = movers(alloc, checked, state)?;
    let moving = able.as_slice();
    if moving.len() > 0 {
        return Ok(RunEnd::Open);
    }
    let all = state.numbers(alloc)?;
    let end = end_by(some_goes_on(state, all.as_slice()));
    Ok(end)
}

// How a run ends where no process can move, by whether some process isn't over.
fn end_by(goes_on: bool) -> RunEnd
    ensures { result ≡ end_by goes_on }
{
    if goes_on { RunEnd::Stuck } else { RunEnd::Over }
}

// Whether one of these processes isn't over.
fn some_goes_on(state: &SourceState, numbers: &[u64]) -> bool
    ensures { MatchBool result ((q : ℕ) × GoesOn (state_of state.now) q)
        (All (λ q. GoesOn (state_of state.now) q → ⊥) numbers.now) }
{
    for number in numbers {
        if goes_on_at(state, *number) {
            return true;
        }
    }
    false
}

// Whether there is such a process, and it isn't over.
fn goes_on_at(state: &SourceState, number: u64) -> bool
    ensures { MatchBool result (GoesOn (state_of state.now) number)
        (GoesOn (state_of state.now) number → ⊥) }
{
    match state.process(number) {
        None => false,
        Some(process) => !is_over(process),
    }
}

// Whether a process is over.
fn is_over(process: &Process) -> bool
    ensures { MatchBool result (IsOver (process_of process.now))
        (IsOver (process_of process.now) → ⊥) }
{
    matches!(process.stage, Stage::Over(_))
}
