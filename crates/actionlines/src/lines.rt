ghost use Rattle.std.specs.Prelude.{◌≡◌, ◌++◌, IfOk, OnOk, map};
ghost use Rattle.std.specs.List.{flat_map};
ghost use Rattle.program.specs.Names.{naming_of};
ghost use Rattle.source_states.specs.Actions.{action_of};
ghost use Rattle.actionlines.specs.Lines.{line};

use crate::details::{append_details, word_of};
use crate::texts::{append_number, append_text};
use program::Names;
use source_states::Action;
use std::alloc::{AllocError, Global};

/// Appends the line of an action: the process, the action's name, and what belongs to it (the number printed, a
/// monitor, a condition, processes, a fault's number), with a line feed.
pub fn append_line(bytes: &mut Vec<u8>, names: &Names, action: &Action) -> Result<(), AllocError>
    ensures { OnOk result (bytes.new.items
        ≡ bytes.old.items ++ line (naming_of names.now) (action_of action.now)) }
{
    append_number(bytes, action.process)?;
    append_text(bytes, " ")?;
    append_text(bytes, word_of(&action.kind))?;
    append_details(bytes, names, &action.kind)?;
    append_text(bytes, "\n")
}

/// The lines of actions, in their order.
pub fn action_lines(alloc: Global, names: &Names, actions: &[Action]) -> Result<Vec<u8>, AllocError>
    ensures { IfOk result (λ v. v.items
        ≡ flat_map (line (naming_of names.now)) (map action_of actions.now)) }
{
    let mut bytes = Vec::new(alloc);
    for action in actions {
        append_line(&mut bytes, names, action)?;
    }
    Ok(bytes)
}
