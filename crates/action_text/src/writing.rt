ghost use Rattle.std.specs.Prelude.{◌≡◌, ◌++◌, ◌∷◌, [], IfOk, List, OnOk, codes, map, ℕ};
ghost use Rattle.program.specs.Names.{naming_of};
ghost use Rattle.source_states.specs.Actions.{action_of, kind_of};
ghost use Rattle.actionlines.specs.Lines.{monitor_name};
ghost use Rattle.action_text.specs.ActionText.{action_line, last_in, run_lines};

use actionlines::append_line;
use program::Names;
use source_states::{Action, ActionKind};
use std::alloc::{AllocError, Global};

/// Appends the line of an action: as it is shown, and of a kill the monitor that it abandons last behind that.
pub fn append_action(bytes: &mut Vec<u8>, names: &Names, action: &Action) -> Result<(), AllocError>
    ensures { OnOk result (bytes.new.items
        ≡ bytes.old.items ++ action_line (naming_of names.now) (action_of action.now)) }
{
    append_line(bytes, names, action)?;
    match last_of(&action.kind) {
        None => Ok(()),
        Some(last) => append_last(bytes, names, last),
    }
}

// The monitor that an action says is abandoned last.
fn last_of(kind: &ActionKind) -> Option<u32>
    ensures { result ≡ last_in (kind_of kind.now) }
{
    match kind {
        ActionKind::Kill(_, last) => *last,
        ActionKind::Assign
        | ActionKind::Test
        | ActionKind::Call
        | ActionKind::Return
        | ActionKind::Print(_)
        | ActionKind::Fork(_)
        | ActionKind::Claim(_)
        | ActionKind::Join(_)
        | ActionKind::Fails(_)
        | ActionKind::Enter(_)
        | ActionKind::Exit(_)
        | ActionKind::Wait(_)
        | ActionKind::Resume(_)
        | ActionKind::Notify(_, _)
        | ActionKind::Broadcast(_, _)
        | ActionKind::Abandon(_)
        | ActionKind::Finish
        | ActionKind::Stray(_) => None,
    }
}

// Appends the name of a monitor, if there is one.
fn append_name(bytes: &mut Vec<u8>, names: &Names, monitor: u32) -> Result<(), AllocError>
    ensures { OnOk result (bytes.new.items
        ≡ bytes.old.items ++ monitor_name (naming_of names.now) monitor) }
{
    match names.monitors.get(monitor as usize) {
        None => Ok(()),
        Some(naming) => bytes.extend_from_slice(naming.name),
    }
}

// Puts the monitor that is abandoned last before the end of the last line.
fn append_last(bytes: &mut Vec<u8>, names: &Names, last: u32) -> Result<(), AllocError>
    ensures { (front : List ℕ) → bytes.old.items ≡ front ++ 10 ∷ []
        → OnOk result (bytes.new.items
        ≡ ((front ++ codes " last ") ++ monitor_name (naming_of names.now) last) ++ codes "\n") }
{
    let _end = bytes.pop();
    bytes.extend_from_slice(b" last ")?;
    append_name(bytes, names, last)?;
    bytes.extend_from_slice(b"\n")
}

/// The lines of a run's actions, in their order.
pub fn run_text(alloc: Global, names: &Names, actions: &[Action]) -> Result<Vec<u8>, AllocError>
    ensures { IfOk result (λ v. v.items
        ≡ run_lines (naming_of names.now) (map action_of actions.now)) }
{
    let mut bytes = Vec::new(alloc);
    for action in actions {
        append_action(&mut bytes, names, action)?;
    }
    Ok(bytes)
}
