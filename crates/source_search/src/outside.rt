ghost use Rattle.std.specs.Prelude.{◌≡◌, ◌≤◌, ◌+◌, if◌then◌else◌, IfSome, map, true};
ghost use Rattle.source_offers.specs.Stages.{process_of};
ghost use Rattle.source_states.specs.Actions.{action_of, kind_of};
ghost use Rattle.source_states.specs.States.{state_of};
ghost use Rattle.source_search.specs.Found.{AreFrom, AreNamed, IsNamed, interleaves, is_any, is_killed, is_killed_at, killed_in};
ghost use Rattle.source_search.specs.Found.{kills_of, one_kill};

use source_offers::{End, Process, Stage};
use source_states::{Action, ActionKind, SourceState};
use words::Cause;

/// What comes from outside in the runs that are searched.
#[derive(Clone, Copy, PartialEq, Eq, Debug)]
pub struct Outside {
    /// Whether a process that waits may resume though nobody notified it.
    pub strays: bool,
    /// How many processes may be killed in a run, at most.
    pub kills: u32,
}

impl Outside {
    /// Whether anything may come.
    pub fn is_any(self) -> bool
        ensures { result ≡ is_any self }
    {
        self.strays || self.kills > 0
    }

    /// Whether all actions are interleaved: with kills.
    pub fn interleaves(self) -> bool
        ensures { result ≡ interleaves self }
    {
        self.kills > 0
    }
}

// Whether a process was killed.
fn is_killed(process: &Process) -> bool
    ensures { result ≡ is_killed (process_of process.now) }
{
    match &process.stage {
        Stage::Dying(cause, _) => *cause == Cause::Killed,
        Stage::Over(end) => match end {
            End::Aborted(cause) => *cause == Cause::Killed,
            End::Ended(_) => false,
        },
        _ => false,
    }
}

// Whether there is such a process, and it was killed.
fn is_killed_at(state: &SourceState, number: u64) -> bool
    ensures { result ≡ is_killed_at ((state_of state.now).process number) }
{
    match state.process(number) {
        None => false,
        Some(process) => is_killed(process),
    }
}

/// How many processes were killed.
pub(crate) fn killed_in(state: &SourceState) -> u64
    ensures { result ≡ killed_in (state_of state.now) }
{
    let mut killed = 0;
    for before in 0..state.made() {
        killed += u64::from(is_killed_at(state, before + 1));
    }
    killed
}

// Whether actions of this name are searched, but for how many kills there are.
fn is_named(kind: &ActionKind, outside: Outside) -> bool
    ensures { result ≡ true → IsNamed outside (kind_of kind.now) }
{
    match kind {
        ActionKind::Stray(_) => outside.strays,
        _ => true,
    }
}

// Whether all of these are searched, but for how many kills there are.
fn are_named(actions: &[Action], outside: Outside) -> bool
    ensures { result ≡ true → AreNamed outside (map action_of actions.now) }
{
    for action in actions {
        if !is_named(&action.kind, outside) {
            return false;
        }
    }
    true
}

// Whether an action is a kill.
fn is_kill(kind: &ActionKind) -> bool
    ensures { one_kill (kind_of kind.now) ≡ (if result then 1 else 0) }
{
    matches!(kind, ActionKind::Kill(_, _))
}

// How many kills may be left behind an action, of so many before it; None where it is one too many.
fn left_behind(kind: &ActionKind, left: u32) -> Option<u32>
    ensures { IfSome result (λ n. n + one_kill (kind_of kind.now) ≡ left) }
{
    if !is_kill(kind) {
        return Some(left);
    }
    if left == 0 {
        return None;
    }
    Some(left - 1)
}

// Whether no more of these are kills than this number.
fn are_few_kills(actions: &[Action], most: u32) -> bool
    ensures { result ≡ true → kills_of (map action_of actions.now) ≤ most }
{
    let mut left = most;
    for action in actions {
        let Some(behind) = left_behind(&action.kind, left) else {
            return false;
        };
        left = behind;
    }
    true
}

/// Whether all of these are searched: actions of processes' own, and as much from outside as may come.
pub(crate) fn are_from(actions: &[Action], outside: Outside) -> bool
    ensures { result ≡ true → AreFrom outside (map action_of actions.now) }
{
    are_named(actions, outside) && are_few_kills(actions, outside.kills)
}
