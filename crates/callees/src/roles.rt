// The roles of pieces.

ghost use Rattle.std.specs.Prelude.{◌≡◌};
ghost use Rattle.program.specs.Scope.{own_monitor as own};
ghost use Rattle.types.specs.Pieces as p;

use program::Role;
use syntax::Access;

/// The number of the monitor that a piece of this role belongs to, none outside of monitors.
pub fn own_monitor(role: Role) -> Option<u32>
    ensures { result ≡ own role }
{
    match role {
        Role::Entry(monitor) | Role::Internal(monitor) | Role::Recover(monitor) => Some(monitor),
        Role::External | Role::Main => None,
    }
}

/// The role of a procedure of the monitor of this number.
pub fn role_of(access: Access, monitor: u32) -> Role
    ensures { result ≡ p.role_of access monitor }
{
    match access {
        Access::Entry => Role::Entry(monitor),
        Access::Internal => Role::Internal(monitor),
    }
}
