ghost use Rattle.std.specs.Prelude.{◌≡◌, option_map};
ghost use Rattle.program.specs.Views.{program_of};
ghost use Rattle.protocol.specs.Cells.{SequenceOf};
ghost use Rattle.proof_templates.specs.Layout.{valid};
ghost use Rattle.source_states.specs.Actions.{kind_of};
ghost use Rattle.source_states.specs.States.{state_of};
ghost use Rattle.log_simulation.specs.Choosing.{visible_kind, visible_own, resumed_only};

use program::{Member, MemberType, Program};
use source_offers::{Offer, Offered};
use source_states::{ActionKind, SourceState, named};

/// Whether a member is a condition of the program.
pub fn is_condition(program: &Program, member: Member) -> bool
    ensures { result ≡ valid (program_of program.now) (SequenceOf member) }
{
    let Some(monitor) = program.monitors.get(member.monitor as usize) else {
        return false;
    };
    match monitor.members.get(member.number as usize) {
        Some(MemberType::Condition) => true,
        _ => false,
    }
}

/// The condition that a process with this offer notifies or broadcasts.
pub fn notified(offer: &Offer) -> Option<Member>
    ensures { result ≡ resumed_only offer.now }
{
    match offer {
        Offer::Own(Offered::NotifiesSome(condition) | Offered::NotifiesAll(condition)) => Some(
            *condition,
        ),
        _ => None,
    }
}

// The visible action of what a process does for itself, where there can be so many processes and so many were made.
fn visible_alone(offered: &Offered, most: u64, made: u64, resumed: Vec<u64>) -> Option<ActionKind>
    ensures { option_map kind_of result ≡ visible_own offered.now most made resumed.items }
{
    match offered {
        Offered::Rests => None,
        Offered::Does(label, _) => Some(named(*label)),
        Offered::Makes(_, _) if made < most => Some(ActionKind::Fork(made + 1)),
        Offered::Makes(_, _) => None,
        Offered::Claims { child, .. } => Some(ActionKind::Claim(*child)),
        Offered::NotifiesSome(condition) => Some(ActionKind::Notify(*condition, resumed)),
        Offered::NotifiesAll(condition) => Some(ActionKind::Broadcast(*condition, resumed)),
    }
}

/// The visible action of a process with this offer; a notify or a broadcast resumes these.
pub fn visible_action(offer: &Offer, state: &SourceState, resumed: Vec<u64>) -> Option<ActionKind>
    ensures { let table = (state_of state.now).table in
        option_map kind_of result ≡ visible_kind offer.now table.most table.made resumed.items }
{
    match offer {
        Offer::Own(offered) => visible_alone(offered, state.most(), state.made(), resumed),
        Offer::Enters(monitor) => Some(ActionKind::Enter(*monitor)),
        Offer::Resumes(monitor) => Some(ActionKind::Resume(*monitor)),
        Offer::Joins { child, .. } => Some(ActionKind::Join(*child)),
    }
}
