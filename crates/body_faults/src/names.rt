// The faults of names behind INTO and WAIT, and of places where a statement isn't allowed.

ghost use Rattle.std.specs.Prelude.{◌≡◌, slice_get};
ghost use Rattle.syntax.specs.View as v;
ghost use Rattle.types.specs.CallFaults as c;
ghost use Rattle.types.specs.Faults.{Gathers, where_true};
ghost use Rattle.types.specs.Scope.{Scope, meaning};
ghost use Rattle.types.specs.Standings.{IsNameScope};
ghost use Rattle.types.specs.StatementFaults as f;

use program::{Role, ValueType};
use scanner::{Place, Refusal, RefusalKind};
use syntax::Name;
use types::{NameScope, condition_fault, differ, note};

/// The least fault, where there is one of this kind if the test holds.
pub fn note_where(
    test: bool,
    kind: RefusalKind,
    place: Place,
    least: Option<Refusal>,
) -> Option<Refusal>
    ensures { Gathers (where_true test kind place) least result }
{
    if test {
        return note(Some(kind), place, least);
    }
    least
}

/// Whether a piece is a RECOVER part.
pub fn is_recover(role: Role) -> bool
    ensures { result ≡ f.is_recover role }
{
    match role {
        Role::Recover(_) => true,
        _ => false,
    }
}

/// Whether a piece belongs to a monitor.
pub fn has_monitor(role: Role) -> bool
    ensures { result ≡ f.has_monitor role }
{
    match role {
        Role::Entry(_) | Role::Internal(_) | Role::Recover(_) => true,
        Role::External | Role::Main => false,
    }
}

/// The least fault, where a statement stands at this place that a RECOVER part can't have.
pub fn recover(role: Role, place: Place, least: Option<Refusal>) -> Option<Refusal>
    ensures { (s : Scope) → s.piece.role ≡ role → Gathers (c.recover_faults s place) least result }
{
    note_where(is_recover(role), RefusalKind::WrongPlace, place, least)
}

/// The least fault, where a statement stands at this place that is for monitors alone.
pub fn outside(role: Role, place: Place, least: Option<Refusal>) -> Option<Refusal>
    ensures { (s : Scope) → s.piece.role ≡ role → Gathers (c.outside_faults s place) least result }
{
    note_where(!has_monitor(role), RefusalKind::WrongPlace, place, least)
}

/// The least fault, where a name stands behind WAIT, NOTIFY or BROADCAST.
pub fn condition(
    standing: &NameScope<'_, '_>,
    name: Name<'_>,
    least: Option<Refusal>,
) -> Option<Refusal>
    ensures { (s : Scope) → IsNameScope s standing.now
        → Gathers (c.condition_faults (meaning s (v.name_of name.entry)) name.entry.place) least
        result }
{
    note(condition_fault(standing.meaning(name)), name.place, least)
}

// The type of a parameter or local of this number.
fn slot_kind(standing: &NameScope<'_, '_>, slot: u32) -> Option<ValueType>
    ensures { result ≡ slice_get standing.now.kinds.items slot }
{
    standing.kinds.get(slot as usize).copied()
}

/// The least fault, where a name stands behind INTO, of a local that takes a value of this type.
pub fn taker(
    standing: &NameScope<'_, '_>,
    kind: Option<ValueType>,
    name: Name<'_>,
    least: Option<Refusal>,
) -> Option<Refusal>
    ensures { (s : Scope) → IsNameScope s standing.now
        → Gathers (f.taker_faults s kind (v.name_of name.entry)) least result }
{
    match standing.locals.find(name) {
        Some(slot) => {
            let test = differ(kind, slot_kind(standing, slot));
            note_where(test, RefusalKind::TypeMismatch, name.place, least)
        }
        None => note(Some(RefusalKind::Unknown), name.place, least),
    }
}

/// The least fault, where INTO and a name may stand.
pub fn into(
    standing: &NameScope<'_, '_>,
    kind: Option<ValueType>,
    name: Option<Name<'_>>,
    least: Option<Refusal>,
) -> Option<Refusal>
    ensures { (s : Scope) → IsNameScope s standing.now
        → Gathers (f.into_faults s kind (v.option_name name.entry)) least result }
{
    match name {
        Some(name) => taker(standing, kind, name, least),
        None => least,
    }
}
