ghost use Rattle.std.specs.Prelude.{◌≡◌, All, IfOk, IfSome, false, map, true, ℕ};
ghost use Rattle.program.specs.Trees.{Program as ProgramOf};
ghost use Rattle.program.specs.Views.{program_of};
ghost use Rattle.meaning.specs.Labels.{Action as ActionOf};
ghost use Rattle.meaning.specs.States.{SourceState as SourceStateOf};
ghost use Rattle.proof_exploration.specs.Exploring.{IsCalmKind, IsFromOutside};
ghost use Rattle.source_states.specs.Actions.{action_of, kind_of};
ghost use Rattle.source_states.specs.States.{state_of};
ghost use Rattle.source_reaching.specs.Among.{IsAheadAmong, Reaches};
ghost use Rattle.source_reaching.specs.Covered.{IsFollowable};
ghost use Rattle.source_reaching.specs.Followed.{IsFollowedAmong, IsReached};

use crate::own::own_actions;
use crate::trail::Trail;
use program::{Checked, Statement};
use source_offers::{Frame, Process, Stage, upcoming};
use source_states::{Action, ActionKind, SourceState};
use source_table::Table;
use sourcemeaning::can_move;
use std::alloc::{AllocError, Global};
use words::Fault;

// How many calm actions are done at most before a state is kept.
const MOST: usize = 1000;

// Whether an action of this name is a process's own and calm: none for which processes race.
fn is_calm(kind: &ActionKind) -> bool
    ensures calm { result ≡ true → IsCalmKind (kind_of kind.now) }
    ensures own { result ≡ true → IsFromOutside (kind_of kind.now) → ⊥ }
{
    match kind {
        ActionKind::Enter(_) => false,
        ActionKind::Resume(_) => false,
        ActionKind::Fork(_) => false,
        ActionKind::Claim(_) => false,
        ActionKind::Fails(fault) => match fault {
            Fault::ProcessTableFull | Fault::HandleNotJoinable => false,
            _ => true,
        },
        ActionKind::Stray(_) => false,
        ActionKind::Kill(_, _) => false,
        _ => true,
    }
}

// Whether all of these are calm.
fn are_calm(actions: &[Action]) -> bool
    ensures { result ≡ true → All (λ a. IsCalmKind a.kind) (map action_of actions.now) }
{
    for action in actions {
        if !is_calm(&action.kind) {
            return false;
        }
    }
    true
}

// Whether what comes next in a procedure looks calm.
fn looks_calm_within(frame: &Frame) -> bool {
    match upcoming(frame.rest.as_slice()) {
        Some(Statement::Fork { .. }) | Some(Statement::Join { .. }) => false,
        _ => true,
    }
}

/// Whether the next action of a process looks calm, by where the process stands and by the table. Nothing is promised of
/// it: it spares asking what the process may do.
pub fn looks_calm(process: &Process, table: &Table) -> bool {
    match &process.stage {
        Stage::Entering(_) | Stage::Suspended(_) | Stage::Over(_) => false,
        Stage::Joining { child, .. } => table.over(*child).is_some(),
        Stage::Before(_) => looks_calm_within(&process.frame),
        Stage::Returning(_) | Stage::Failing(_, _) => true,
        Stage::Dying(_, _) | Stage::Leaving(_) => true,
    }
}

// The same, of a process of a state; false where there is none.
fn looks_calm_in(state: &SourceState, number: u64) -> bool {
    match state.process(number) {
        None => false,
        Some(process) => looks_calm(process, state.table()),
    }
}

// What a process may do next, where it can move and all of that is calm.
fn calm_actions<'a>(
    alloc: Global,
    checked: &'a Checked,
    state: &SourceState<'a>,
    process: u64,
) -> Result<Option<Vec<Action>>, AllocError>
    ensures { IfOk result (λ o. IfSome o (λ v. IsFollowable (program_of checked.now.tree)
        (state_of state.now) process (map action_of v.items))) }
{
    if !can_move(state, checked, process) {
        return Ok(None);
    }
    let Some(actions) = own_actions(alloc, checked, state, process)? else {
        return Ok(None);
    };
    if !are_calm(actions.as_slice()) {
        return Ok(None);
    }
    Ok(Some(actions))
}

/// What came of following calm actions.
#[derive(Drop)]
pub enum Followed {
    /// None can be followed, or enough were.
    Stopped,
    /// One was followed.
    Went,
    /// What the process may do next, of which all is calm, and several actions.
    Choices(Vec<Action>),
    /// What looked calm wasn't, and nothing is known of the state.
    Lost,
}

/// Whether nothing is known of the state.
pub fn is_lost(followed: &Followed) -> bool
    ensures ahead { result ≡ false → (p : ProgramOf) (t : ℕ) (s s' : SourceStateOf)
        → IsFollowedAmong p t s s' followed.now → IsAheadAmong p t s s' }
    ensures reaches { result ≡ false → (p : ProgramOf) (t : ℕ) (s : SourceStateOf) (a : ActionOf) (s' : SourceStateOf)
        → IsReached p t s a s' followed.now → Reaches p t s a s' }
{
    match followed {
        Followed::Lost => true,
        Followed::Stopped => false,
        Followed::Went => false,
        Followed::Choices(_) => false,
    }
}

// Lets a process do what it may, where all of that is calm, and it is one action; and notes the action.
fn go_by_choices<'a, T: Trail>(
    alloc: Global,
    checked: &'a Checked,
    state: &mut SourceState<'a>,
    process: u64,
    trail: &mut T,
) -> Result<Followed, AllocError>
    ensures { IfOk result (λ f. IsFollowedAmong (program_of checked.now.tree) process (state_of state.old)
        (state_of state.new) f) }
{
    let Some(mut actions) = calm_actions(alloc, checked, state, process)? else {
        return Ok(Followed::Stopped);
    };
    let listed = actions.as_slice();
    if listed.len() != 1 {
        return Ok(Followed::Choices(actions));
    }
    if !state.advance(alloc, checked.program(), &listed[0])? {
        return Ok(Followed::Lost);
    }
    if let Some(action) = actions.pop() {
        trail.note(action)?;
    }
    Ok(Followed::Went)
}

// Lets a process take its next action, where it is calm, and notes it. Mostly it is seen beforehand that it is the only
// one, and it is taken where the process stands.
fn go_calmly<'a, T: Trail>(
    alloc: Global,
    checked: &'a Checked,
    state: &mut SourceState<'a>,
    process: u64,
    trail: &mut T,
) -> Result<Followed, AllocError>
    ensures { IfOk result (λ f. IsFollowedAmong (program_of checked.now.tree) process (state_of state.old)
        (state_of state.new) f) }
{
    let Some(kind) = state.take_own(alloc, checked.program(), process)? else {
        return go_by_choices(alloc, checked, state, process, trail);
    };
    if !is_calm(&kind) {
        return Ok(Followed::Lost);
    }
    trail.note(Action { process, kind })?;
    Ok(Followed::Went)
}

// Follows the next action of a process, where it is calm, and notes it.
fn follow_one<'a, T: Trail>(
    alloc: Global,
    checked: &'a Checked,
    state: &mut SourceState<'a>,
    process: u64,
    trail: &mut T,
) -> Result<Followed, AllocError>
    ensures { IfOk result (λ f. IsFollowedAmong (program_of checked.now.tree) process (state_of state.old)
        (state_of state.new) f) }
{
    if !looks_calm_in(state, process) {
        return Ok(Followed::Stopped);
    }
    go_calmly(alloc, checked, state, process, trail)
}

/// Follows the actions of a process, as long as the next one is calm and there is no choice, and notes them; a
/// thousand at most. Answers the choices, where there are several. Whatever the other processes are, where the state that
/// is come to is covered, so is the one before.
pub fn follow_own<'a, T: Trail>(
    alloc: Global,
    checked: &'a Checked,
    state: &mut SourceState<'a>,
    process: u64,
    trail: &mut T,
) -> Result<Followed, AllocError>
    ensures { IfOk result (λ f. IsFollowedAmong (program_of checked.now.tree) process (state_of state.old)
        (state_of state.new) f) }
{
    for _ in 0..MOST {
        match follow_one(alloc, checked, state, process, trail)? {
            Followed::Went => {}
            followed => return Ok(followed),
        }
    }
    Ok(Followed::Stopped)
}
