// Procedures, RECOVER parts and MAIN.

ghost use Rattle.std.specs.Prelude.{◌≡◌, ◌<◌, ◌+◌, Contains, IfOk, flat_map, length, map, sum_by};
ghost use Rattle.program.specs.Views as p;
ghost use Rattle.syntax.specs.Tree.{UnitTree};
ghost use Rattle.syntax.specs.View as v;
ghost use Rattle.types.specs.Kinds.{parameter_kinds, locals_kinds};
ghost use Rattle.types.specs.Pieces.{pieces};
ghost use Rattle.types.specs.Resolved as r;
ghost use Rattle.types.specs.Standings.{IsNameScope};
ghost use Rattle.callees.specs.Names.{IsCallees};
ghost use Rattle.callees.specs.Pieces.{piece_of};
ghost use Rattle.resolver.specs.Clean.{is_clean};
ghost use Rattle.resolver.specs.Sites.{piece_faults, slots};

use crate::called::result_of;
use crate::flags::both;
use crate::site::Site;
use crate::statements::block;
use callees::{Callees, Piece};
use program::{Procedure, ValueType};
use std::alloc::{AllocError, Global};
use syntax::{Local, Parameter};
use types::{NameScope, local_kind};

// The types of parameters.
fn parameters(alloc: Global, trees: &[Parameter<'_>]) -> Result<Vec<ValueType>, AllocError>
    ensures { IfOk result (λ x. x.items ≡ parameter_kinds (map v.parameter_of trees.now)) }
{
    let mut kinds = Vec::new(alloc);
    for tree in trees {
        kinds.push(local_kind(tree.kind))?;
    }
    Ok(kinds)
}

// The types of local variables.
fn locals(alloc: Global, trees: &[Local<'_>]) -> Result<Vec<ValueType>, AllocError>
    ensures { IfOk result (λ x. x.items ≡ locals_kinds (map v.local_of trees.now)) }
{
    let mut kinds = Vec::new(alloc);
    for tree in trees {
        kinds.push(local_kind(tree.kind))?;
    }
    Ok(kinds)
}

// A piece with these names in scope, and whether its statements are clean.
fn in_scope<'a>(
    alloc: Global,
    standing: &NameScope<'_, 'a>,
    callees: &Callees<'_, 'a>,
    piece: &Piece<'_, 'a>,
) -> Result<(Procedure, bool), AllocError>
    ensures procedure { (u : UnitTree) → IsCallees u callees.now
        → IsNameScope (record { unit = u; piece = piece_of piece.now }) standing.now
        → IfOk result (λ x. p.procedure_of x.0 ≡ r.procedure u (piece_of piece.now)) }
    ensures clean { (u : UnitTree) → IsCallees u callees.now
        → IsNameScope (record { unit = u; piece = piece_of piece.now }) standing.now
        → IfOk result (λ x. x.1 ≡ is_clean (piece_faults u (piece_of piece.now))) }
{
    let returns = result_of(piece.returns);
    let site = Site {
        callees,
        standing,
        role: piece.role,
        returns,
    };
    let parameters = parameters(alloc, piece.parameters)?;
    let locals = locals(alloc, &piece.body.locals)?;
    let (statements, is_clean) = block(&piece.body.statements, alloc, &site)?;
    let procedure = Procedure {
        role: piece.role,
        parameters,
        locals,
        result: returns,
        body: statements,
    };
    Ok((procedure, is_clean))
}

// A piece, and whether its statements are clean.
fn procedure<'a>(
    alloc: Global,
    callees: &Callees<'_, 'a>,
    piece: &Piece<'_, 'a>,
) -> Result<(Procedure, bool), AllocError>
    requires { length piece.now.parameters.now + length piece.now.body.now.locals.items < u32.MAX }
    ensures procedure { (u : UnitTree) → IsCallees u callees.now
        → Contains (pieces u) (piece_of piece.now)
        → IfOk result (λ x. p.procedure_of x.0 ≡ r.procedure u (piece_of piece.now)) }
    ensures clean { (u : UnitTree) → IsCallees u callees.now
        → Contains (pieces u) (piece_of piece.now)
        → IfOk result (λ x. x.1 ≡ is_clean (piece_faults u (piece_of piece.now))) }
{
    let own = callees.own(piece.role);
    let standing = NameScope::new(alloc, piece.parameters, &piece.body.locals, own)?;
    in_scope(alloc, &standing, callees, piece)
}

/// The pieces of a unit, and whether the statements of all are clean.
pub fn procedures(
    alloc: Global,
    callees: &Callees<'_, '_>,
) -> Result<(Vec<Procedure>, bool), AllocError>
    requires { sum_by slots (map piece_of callees.now.pieces.items) < u32.MAX }
    ensures procedures { (u : UnitTree) → IsCallees u callees.now
        → IfOk result (λ x. map p.procedure_of x.0.items
        ≡ map (r.procedure u) (map piece_of callees.now.pieces.items)) }
    ensures clean { (u : UnitTree) → IsCallees u callees.now → IfOk result (λ x. x.1
        ≡ is_clean (flat_map (piece_faults u) (map piece_of callees.now.pieces.items))) }
{
    let mut procedures = Vec::new(alloc);
    let mut all_clean = true;
    for piece in &callees.pieces {
        let (procedure, is_clean) = procedure(alloc, callees, piece)?;
        all_clean = both(all_clean, is_clean);
        procedures.push(procedure)?;
    }
    Ok((procedures, all_clean))
}
