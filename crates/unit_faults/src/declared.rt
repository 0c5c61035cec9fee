// The faults of declarations: names that are declared twice, and more of something than is allowed.

ghost use Rattle.std.specs.Prelude.{◌<◌, ◌+◌, IfOk, length, map};
ghost use Rattle.syntax.specs.View.{monitor_of, parameter_of, local_of};
ghost use Rattle.syntax.specs.Whole.{unit_of};
ghost use Rattle.std.specs.List.{All};
ghost use Rattle.callees.specs.Pieces.{piece_of};
ghost use Rattle.unit_faults.specs.Collected.{Collects, InOne};
ghost use Rattle.unit_faults.specs.Parts.{InBody, InScope, InCounts, InMembers, InOuter, InPiece};

use crate::limits::{past, past_words, sizes};
use crate::names::{
    all_members, body_scope, condition_names, monitor_names, monitor_scope, outer_names,
    procedure_names,
};
use crate::redeclared::repeated;
use callees::Piece;
use scanner::Refusal;
use std::alloc::{AllocError, Global};
use syntax::{Local, Monitor, Parameter, Unit};

// The most monitors, conditions and procedures of a unit, parameters of a procedure, and parameters and locals of a
// procedure, a RECOVER part or MAIN.
const MOST_MONITORS: usize = 64;

const MOST_CONDITIONS: usize = 256;

const MOST_PROCEDURES: usize = 512;

const MOST_PARAMETERS: usize = 16;

const MOST_LOCALS: usize = 64;

/// The least fault, where a piece has these parameters and locals.
pub fn body(
    alloc: Global,
    parameters: &[Parameter<'_>],
    locals: &[Local<'_>],
    least: Option<Refusal>,
) -> Result<Option<Refusal>, AllocError>
    requires { length parameters.now + length locals.now < u32.MAX }
    ensures { IfOk result
        (λ r. Collects (InBody (map parameter_of parameters.now) (map local_of locals.now))
        least r) }
{
    let names = body_scope(alloc, parameters, locals)?;
    let distinct = repeated(alloc, &names, least)?;
    let within = past(MOST_LOCALS, &names, distinct);
    Ok(past(MOST_PARAMETERS, &names[..parameters.len()], within))
}

// The least fault, where a monitor has these members and procedures.
fn scope(
    alloc: Global,
    monitor: &Monitor<'_>,
    least: Option<Refusal>,
) -> Result<Option<Refusal>, AllocError>
    requires { length monitor.now.members.items + length monitor.now.procedures.items < u32.MAX }
    ensures { IfOk result (λ r. Collects (InScope (monitor_of monitor.now)) least r) }
{
    let names = monitor_scope(alloc, monitor)?;
    repeated(alloc, &names, least)
}

// The least fault, where these are the monitors: of the names that each declares twice.
fn scopes(
    alloc: Global,
    monitors: &[Monitor<'_>],
    least: Option<Refusal>,
) -> Result<Option<Refusal>, AllocError>
    requires { All (λ m. length m.members.items
        + length m.procedures.items < u32.MAX) monitors.now }
    ensures { IfOk result (λ r. Collects (InOne InScope (map monitor_of monitors.now)) least r) }
{
    let mut least = least;
    for monitor in monitors {
        least = scope(alloc, monitor, least)?;
    }
    Ok(least)
}

// The least fault of too many monitors and procedures.
fn counts(
    alloc: Global,
    unit: &Unit<'_>,
    least: Option<Refusal>,
) -> Result<Option<Refusal>, AllocError>
    ensures { IfOk result (λ r. Collects (InCounts (unit_of unit.now)) least r) }
{
    let monitors = monitor_names(alloc, unit)?;
    let few = past(MOST_MONITORS, &monitors, least);
    let procedures = procedure_names(alloc, unit)?;
    Ok(past(MOST_PROCEDURES, &procedures, few))
}

// The least fault of too many conditions and words, and of the sizes of arrays.
fn members(
    alloc: Global,
    unit: &Unit<'_>,
    least: Option<Refusal>,
) -> Result<Option<Refusal>, AllocError>
    ensures { IfOk result (λ r. Collects (InMembers (unit_of unit.now)) least r) }
{
    let members = all_members(alloc, &unit.monitors)?;
    let conditions = condition_names(alloc, &members)?;
    let few = past(MOST_CONDITIONS, &conditions, least);
    let small = past_words(&members, few);
    Ok(sizes(&members, small))
}

/// The least fault of a unit's declarations, those of its pieces left out.
pub fn outer(
    alloc: Global,
    unit: &Unit<'_>,
    least: Option<Refusal>,
) -> Result<Option<Refusal>, AllocError>
    requires outer { length unit.now.monitors.items + length unit.now.procedures.items < u32.MAX }
    requires inner { All (λ m. length m.members.items
        + length m.procedures.items < u32.MAX) unit.now.monitors.items }
    ensures { IfOk result (λ r. Collects (InOuter (unit_of unit.now)) least r) }
{
    let names = outer_names(alloc, unit)?;
    let once = repeated(alloc, &names, least)?;
    let inside = scopes(alloc, &unit.monitors, once)?;
    let few = counts(alloc, unit, inside)?;
    members(alloc, unit, few)
}

/// The least fault of the declarations of pieces.
pub fn inner(
    alloc: Global,
    pieces: &[Piece<'_, '_>],
    least: Option<Refusal>,
) -> Result<Option<Refusal>, AllocError>
    requires { All (λ p. length p.parameters.now
        + length p.body.now.locals.items < u32.MAX) pieces.now }
    ensures { IfOk result (λ r. Collects (InOne InPiece (map piece_of pieces.now)) least r) }
{
    let mut least = least;
    for piece in pieces {
        least = body(alloc, piece.parameters, &piece.body.locals, least)?;
    }
    Ok(least)
}
