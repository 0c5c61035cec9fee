// The least of the faults that a relation tells.

ghost use Rattle.std.specs.Prelude.{◌≡◌, IsTrue, true};
ghost use Rattle.types.specs.Faults.{fault};
ghost use Rattle.unit_faults.specs.Collected.{Collects};

use scanner::{Place, Refusal, RefusalKind};
use types::{comes_no_later, lesser};

/// The least fault, where there is one of this kind if the test holds.
pub fn note_where(
    test: bool,
    kind: RefusalKind,
    place: Place,
    least: Option<Refusal>,
) -> Option<Refusal>
    ensures { Collects (λ e. IsTrue test × (e ≡ fault kind place)) least result }
{
    if test {
        return Some(lesser(least, Refusal { kind, place }));
    }
    least
}

/// Whether a fault is the least one or comes behind it.
pub fn is_behind(fault: Refusal, least: Option<Refusal>) -> bool
    ensures { result ≡ true → Collects (λ e. e ≡ fault) least least }
{
    match least {
        Some(first) => comes_no_later(first, fault),
        None => false,
    }
}
