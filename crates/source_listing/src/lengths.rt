// How long templates of code are (`docs/lowering.md`).

ghost use Rattle.std.specs.Prelude.{◌≡◌, ◌+◌, ℕ, Option, length};
ghost use Rattle.isa.specs.declared.instr.Instr.{Instr};
ghost use Rattle.program.specs.declared.kinds.Member.{Member};
ghost use Rattle.lowering.specs.Conditions.{broadcast_code, notify_code, wait_code};
ghost use Rattle.lowering.specs.Locks.{enter_code, exit_code};
ghost use Rattle.lowering.specs.Processes.{join_code};

use program::Role;
use words::ImageVersion;

/// The instructions of ENTER.
fn enter() -> usize
    ensures { (monitor link : ℕ) (recover : Instr)
        → result ≡ length (enter_code monitor link recover) }
{
    61
}

/// Those of EXIT, in an image of this version.
fn exit(version: ImageVersion) -> usize
    ensures { (monitor link : ℕ) → result ≡ length (exit_code version monitor link) }
{
    match version {
        ImageVersion::One => 23,
        ImageVersion::Two => 23,
        ImageVersion::Linux => 24,
    }
}

/// Those of WAIT, in an image of this version.
pub(crate) fn wait(version: ImageVersion) -> usize
    ensures { (condition : Member) (link sequence : ℕ) (recover : Instr)
        → result ≡ length (wait_code version condition link sequence recover) }
{
    match version {
        ImageVersion::One => 74,
        ImageVersion::Two => 74,
        ImageVersion::Linux => 75,
    }
}

/// Those of NOTIFY.
pub(crate) fn notify() -> usize
    ensures { (condition : Member) (sequence : ℕ)
        → result ≡ length (notify_code condition sequence) }
{
    8
}

/// Those of BROADCAST.
pub(crate) fn broadcast() -> usize
    ensures { (condition : Member) (link sequence : ℕ)
        → result ≡ length (broadcast_code condition link sequence) }
{
    16
}

/// Those of JOIN with an ABORTED part, without that and its handle: a jump past that part is the last one.
pub(crate) fn join() -> usize
    ensures { (into : Option ℕ) → result ≡ length (join_code into) + 1 }
{
    30
}

/// Those of JOIN without an ABORTED part, without its handle: a fault comes behind the jump.
pub(crate) fn join_alone() -> usize
    ensures { (into : Option ℕ) → result ≡ length (join_code into) + 2 }
{
    31
}

/// Those that end a procedure of a role, in an image of this version.
pub(crate) fn ending(role: Role, version: ImageVersion) -> usize {
    match role {
        Role::Entry(_) => exit(version).saturating_add(1),
        _ => 1,
    }
}

/// Those that begin a procedure of a role, behind its parameters.
pub(crate) fn entering(role: Role) -> usize {
    match role {
        Role::Entry(_) => enter(),
        _ => 0,
    }
}
