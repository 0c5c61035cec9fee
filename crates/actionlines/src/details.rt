ghost use Rattle.std.specs.Prelude.{◌≡◌, ◌++◌, OnOk};
ghost use Rattle.program.specs.Names.{naming_of};
ghost use Rattle.source_states.specs.Actions.{kind_of};
ghost use Rattle.actionlines.specs.Lines.{details, word};

use crate::texts::{
    append_all, append_condition, append_monitor, append_signed, append_spaced, append_text,
};
use program::Names;
use source_states::ActionKind;
use std::alloc::AllocError;

/// The name of an action.
pub(crate) fn word_of(kind: &ActionKind) -> &'static str
    ensures { result.now ≡ word (kind_of kind.now) }
{
    match kind {
        ActionKind::Assign => "assign",
        ActionKind::Test => "test",
        ActionKind::Call => "call",
        ActionKind::Return => "return",
        ActionKind::Print(_) => "print",
        ActionKind::Fork(_) => "fork",
        ActionKind::Claim(_) => "claim",
        ActionKind::Join(_) => "join",
        ActionKind::Fails(_) => "fault",
        ActionKind::Enter(_) => "enter",
        ActionKind::Exit(_) => "exit",
        ActionKind::Wait(_) => "wait",
        ActionKind::Resume(_) => "resume",
        ActionKind::Notify(_, _) => "notify",
        ActionKind::Broadcast(_, _) => "broadcast",
        ActionKind::Abandon(_) => "abandon",
        ActionKind::Finish => "end",
        ActionKind::Stray(_) => "stray",
        ActionKind::Kill(_, _) => "kill",
    }
}

/// Appends what stands behind an action's name.
pub(crate) fn append_details(
    bytes: &mut Vec<u8>,
    names: &Names,
    kind: &ActionKind,
) -> Result<(), AllocError>
    ensures { OnOk result (bytes.new.items
        ≡ bytes.old.items ++ details (naming_of names.now) (kind_of kind.now)) }
{
    match kind {
        ActionKind::Assign
        | ActionKind::Test
        | ActionKind::Call
        | ActionKind::Return
        | ActionKind::Finish => {}
        ActionKind::Print(number) => {
            append_text(bytes, " ")?;
            append_signed(bytes, *number)?;
        }
        ActionKind::Fork(child) | ActionKind::Claim(child) | ActionKind::Join(child) => {
            append_spaced(bytes, *child)?;
        }
        ActionKind::Fails(fault) => append_spaced(bytes, u64::from(fault.number()))?,
        ActionKind::Enter(monitor)
        | ActionKind::Exit(monitor)
        | ActionKind::Resume(monitor)
        | ActionKind::Abandon(monitor) => {
            append_text(bytes, " ")?;
            append_monitor(bytes, names, *monitor)?;
        }
        ActionKind::Wait(condition) | ActionKind::Stray(condition) => {
            append_text(bytes, " ")?;
            append_condition(bytes, names, *condition)?;
        }
        ActionKind::Notify(condition, resumed) | ActionKind::Broadcast(condition, resumed) => {
            append_text(bytes, " ")?;
            append_condition(bytes, names, *condition)?;
            append_all(bytes, resumed.as_slice())?;
        }
        ActionKind::Kill(resumed, _) => append_all(bytes, resumed.as_slice())?,
    }
    Ok(())
}
