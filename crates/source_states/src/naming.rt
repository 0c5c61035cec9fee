ghost use Rattle.std.specs.Prelude.{◌≡◌, MatchBool};
ghost use Rattle.meaning.specs.Labels.{kind_of as name_of};
ghost use Rattle.source_offers.specs.Offered.{label_of};
ghost use Rattle.source_states.specs.Actions.{kind_of};

use crate::action::ActionKind;
use source_offers::Label;

/// Whether this is how an action of this label is named.
pub fn is_named(kind: &ActionKind, label: Label) -> bool
    ensures { MatchBool result (kind_of kind.now ≡ name_of (label_of label))
        (kind_of kind.now ≡ name_of (label_of label) → ⊥) }
{
    match label {
        Label::Assigns | Label::Stores(_) => matches!(kind, ActionKind::Assign),
        Label::Tests => matches!(kind, ActionKind::Test),
        Label::Calls => matches!(kind, ActionKind::Call),
        Label::Returns => matches!(kind, ActionKind::Return),
        Label::Prints(number) => match kind {
            ActionKind::Print(named) => *named == number,
            _ => false,
        },
        Label::Fails(fault) => match kind {
            ActionKind::Fails(named) => *named == fault,
            _ => false,
        },
        Label::Exits(monitor) => match kind {
            ActionKind::Exit(named) => *named == monitor,
            _ => false,
        },
        Label::Waits(condition) => match kind {
            ActionKind::Wait(named) => *named == condition,
            _ => false,
        },
        Label::Abandons(monitor) => match kind {
            ActionKind::Abandon(named) => *named == monitor,
            _ => false,
        },
        Label::Ends(_) => matches!(kind, ActionKind::Finish),
    }
}

/// How an action of this label is named.
#[inline(always)]
pub fn named(label: Label) -> ActionKind
    ensures { kind_of result ≡ name_of (label_of label) }
{
    match label {
        Label::Assigns | Label::Stores(_) => ActionKind::Assign,
        Label::Tests => ActionKind::Test,
        Label::Calls => ActionKind::Call,
        Label::Returns => ActionKind::Return,
        Label::Prints(number) => ActionKind::Print(number),
        Label::Fails(fault) => ActionKind::Fails(fault),
        Label::Exits(monitor) => ActionKind::Exit(monitor),
        Label::Waits(condition) => ActionKind::Wait(condition),
        Label::Abandons(monitor) => ActionKind::Abandon(monitor),
        Label::Ends(_) => ActionKind::Finish,
    }
}
