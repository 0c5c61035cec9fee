// A whole unit.

ghost use Rattle.std.specs.Prelude.{◌≡◌, IfOk};
ghost use Rattle.program.specs.Names.{naming_of};
ghost use Rattle.program.specs.Views.{program_of};
ghost use Rattle.syntax.specs.Whole.{unit_of};
ghost use Rattle.types.specs.Resolved.{naming, resolved};
ghost use Rattle.callees.specs.Names.{IsCallees};
ghost use Rattle.resolver.specs.Clean.{is_clean};
ghost use Rattle.resolver.specs.Sites.{body_faults};

use crate::monitors::monitors;
use crate::name_lists::names;
use crate::procedures::procedures;
use callees::Callees;
use program::{Names, Program};
use std::alloc::{AllocError, Global};
use syntax::Unit;

/// What a unit is resolved to.
#[derive(Drop)]
pub struct Resolved<'a> {
    /// Its program.
    pub program: Program,
    /// What its things are called.
    pub names: Names<'a>,
    /// Whether none of its statements has a fault.
    pub are_bodies_clean: bool,
}

/// The program that a unit is resolved to, from what the unit declares, what its things are called, and whether its
/// statements are without faults.
///
/// Only memory can run out. A name that means nothing is read as some thing of number 0, so only the program of a unit
/// without faults says what its text means. Each name is looked up in tables, and the time is linear in the text.
/// Calls are nested as deep as the text, of which a `Unit` bounds the nestings.
pub fn resolve<'a>(
    alloc: Global,
    unit: &Unit<'a>,
    callees: &Callees<'_, 'a>,
) -> Result<Resolved<'a>, AllocError>
    requires { IsCallees (unit_of unit.now) callees.now }
    ensures program { IfOk result (λ x. program_of x.program ≡ resolved (unit_of unit.now)) }
    ensures naming { IfOk result (λ x. naming_of x.names ≡ naming (unit_of unit.now)) }
    ensures clean { IfOk result (λ x. x.are_bodies_clean
        ≡ is_clean (body_faults (unit_of unit.now))) }
{
    let names = names(alloc, unit)?;
    let monitors = monitors(alloc, unit, callees)?;
    let (procedures, are_bodies_clean) = procedures(alloc, callees)?;
    let program = Program {
        monitors,
        procedures,
    };
    Ok(Resolved {
        program,
        names,
        are_bodies_clean,
    })
}
