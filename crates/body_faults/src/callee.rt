// What a CALL or FORK must know of its callee.

ghost use Rattle.std.specs.Prelude.{◌≡◌, ◌&&◌, is_some, is_none, map, not, nat_eq, length};
ghost use Rattle.syntax.specs.View as v;
ghost use Rattle.types.specs.StatementFaults as f;

use program::Role;
use scanner::Place;
use syntax::{Callee, Parameter, ResultType};

/// The place of the name of the procedure.
pub fn callee_place(callee: &Callee<'_>) -> Place
    ensures { result ≡ f.callee_place (v.callee_of callee.now) }
{
    callee.procedure.place
}

// Whether a monitor is named.
fn is_dotted(callee: &Callee<'_>) -> bool
    ensures { result ≡ is_some (v.callee_of callee.now).dotted }
{
    callee.monitor.is_some()
}

/// Whether a piece is an INTERNAL procedure.
pub fn is_internal(role: Role) -> bool
    ensures { result ≡ f.is_internal role }
{
    matches!(role, Role::Internal(_))
}

/// Whether a piece is an ENTRY procedure of the monitor whose lock the calling piece has.
pub fn is_reentry(caller: Role, callee: Role) -> bool
    ensures { result ≡ f.own_role caller callee }
{
    match (caller, callee) {
        (Role::Entry(own), Role::Entry(other)) => own == other,
        (Role::Internal(own), Role::Entry(other)) => own == other,
        (Role::Recover(own), Role::Entry(other)) => own == other,
        _ => false,
    }
}

/// Whether there are more or fewer arguments than parameters.
pub fn is_miscounted(callee: &Callee<'_>, parameters: &[Parameter<'_>]) -> bool
    ensures { result ≡ not (nat_eq (length (v.callee_of callee.now).arguments)
        (length (map v.parameter_of parameters.now))) }
{
    callee.arguments.len() != parameters.len()
}

/// Whether an INTERNAL procedure stands behind a dot.
pub fn is_hidden(callee: &Callee<'_>, role: Role) -> bool
    ensures { result ≡ (is_some (v.callee_of callee.now).dotted && f.is_internal role) }
{
    is_dotted(callee) && is_internal(role)
}

/// Whether a result is taken where there is none.
pub fn is_empty(takes: bool, returns: Option<ResultType>) -> bool
    ensures { result ≡ (takes && is_none returns) }
{
    takes && returns.is_none()
}
