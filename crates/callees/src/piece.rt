// The pieces of a unit.

ghost use Rattle.std.specs.Prelude.{◌≡◌, ◌++◌, ◌∷◌, [], map, OnOk};
ghost use Rattle.program.specs.declared.kinds.Role.TheVariants.{Main as MainRole, External as ExternalRole};
ghost use Rattle.syntax.specs.View as v;
ghost use Rattle.syntax.specs.Whole.{unit_of};
ghost use Rattle.types.specs.Pieces as p;
ghost use Rattle.callees.specs.Pieces.{piece_of};

use crate::roles::role_of;
use program::Role;
use scanner::Place;
use std::alloc::AllocError;
use syntax::{Body, Main, Monitor, MonitorProcedure, Parameter, Procedure, ResultType, Unit};

/// A procedure, a RECOVER part or MAIN: what calls must know of it, and its body.
#[derive(Clone, Copy)]
pub struct Piece<'u, 'a> {
    /// Which part of the unit it is, with the number of its monitor.
    pub role: Role,
    /// The place of its declared name, or of RECOVER or MAIN.
    pub place: Place,
    /// Its parameters, in their order; a RECOVER part and MAIN have none.
    pub parameters: &'u [Parameter<'a>],
    /// The type of its result, where it has one.
    pub returns: Option<ResultType>,
    /// Its local variables and statements.
    pub body: &'u Body<'a>,
}

// A procedure of this role.
fn procedure_piece<'u, 'a>(role: Role, procedure: &'u Procedure<'a>) -> Piece<'u, 'a>
    ensures { piece_of result ≡ p.piece_of role (v.procedure_of procedure.now) }
{
    Piece {
        role,
        place: procedure.name.place,
        parameters: &procedure.parameters,
        returns: procedure.returns,
        body: &procedure.body,
    }
}

// A piece that nothing calls.
fn part_piece<'u, 'a>(role: Role, place: Place, body: &'u Body<'a>) -> Piece<'u, 'a>
    ensures { piece_of result ≡ p.part_of role place (v.body_of body.now) }
{
    Piece {
        role,
        place,
        parameters: &[],
        returns: None,
        body,
    }
}

// Adds the pieces of the procedures of the monitor of this number.
fn push_procedures<'u, 'a>(
    pieces: &mut Vec<Piece<'u, 'a>>,
    number: u32,
    procedures: &'u [MonitorProcedure<'a>],
) -> Result<(), AllocError>
    ensures { OnOk result (map piece_of pieces.new.items ≡ map piece_of pieces.old.items
        ++ map (λ q. p.piece_of (p.role_of q.access number) q.procedure)
        (map v.monitor_procedure_of procedures.now)) }
{
    for procedure in procedures {
        let role = role_of(procedure.access, number);
        pieces.push(procedure_piece(role, &procedure.procedure))?;
    }
    Ok(())
}

/// Adds the pieces of the monitor of this number.
pub fn push_monitor<'u, 'a>(
    pieces: &mut Vec<Piece<'u, 'a>>,
    number: u32,
    monitor: &'u Monitor<'a>,
) -> Result<(), AllocError>
    ensures { OnOk result (map piece_of pieces.new.items
        ≡ map piece_of pieces.old.items ++ p.monitor_pieces number (v.monitor_of monitor.now)) }
{
    push_procedures(pieces, number, &monitor.procedures)?;
    if let Some(recover) = &monitor.recover {
        pieces.push(part_piece(Role::Recover(number), recover.place, &recover.body))?;
    }
    Ok(())
}

// Adds the pieces of external procedures.
fn push_externals<'u, 'a>(
    pieces: &mut Vec<Piece<'u, 'a>>,
    procedures: &'u [Procedure<'a>],
) -> Result<(), AllocError>
    ensures { OnOk result (map piece_of pieces.new.items
        ≡ map piece_of pieces.old.items
        ++ map (p.piece_of ExternalRole) (map v.procedure_of procedures.now)) }
{
    for procedure in procedures {
        pieces.push(procedure_piece(Role::External, procedure))?;
    }
    Ok(())
}

// Adds MAIN.
fn push_main<'u, 'a>(pieces: &mut Vec<Piece<'u, 'a>>, main: &'u Main<'a>) -> Result<(), AllocError>
    ensures { OnOk result (map piece_of pieces.new.items
        ≡ map piece_of pieces.old.items
        ++ p.part_of MainRole main.now.place (v.body_of main.now.body) ∷ []) }
{
    pieces.push(part_piece(Role::Main, main.place, &main.body))?;
    Ok(())
}

/// Adds the pieces that stand behind those of monitors: the external procedures, then MAIN.
pub fn push_rest<'u, 'a>(
    pieces: &mut Vec<Piece<'u, 'a>>,
    unit: &'u Unit<'a>,
) -> Result<(), AllocError>
    ensures { OnOk result (map piece_of pieces.new.items ≡ map piece_of pieces.old.items
        ++ map (p.piece_of ExternalRole) (unit_of unit.now).procedures
        ++ p.part_of MainRole (unit_of unit.now).place (unit_of unit.now).body ∷ []) }
{
    push_externals(pieces, &unit.procedures)?;
    push_main(pieces, &unit.main)
}
