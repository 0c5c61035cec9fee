// The faults of bodies.

ghost use Rattle.std.specs.Prelude.{◌≡◌, ◌<◌, ◌+◌, IfOk, length, option_map};
ghost use Rattle.std.specs.List.{All, Contains};
ghost use Rattle.syntax.specs.Tree.{UnitTree};
ghost use Rattle.callees.specs.Names.{IsCallees};
ghost use Rattle.callees.specs.Pieces.{piece_of};
ghost use Rattle.types.specs.Judgement.{IsInBody};
ghost use Rattle.types.specs.Kinds.{result_kind as result_kind_of};
ghost use Rattle.types.specs.Pieces.{pieces};
ghost use Rattle.types.specs.Standings.{IsNameScope};
ghost use Rattle.unit_faults.specs.Collected.{Collects};
ghost use Rattle.unit_faults.specs.Parts.{InStatements};

use crate::context::Context;
use crate::statement::block;
use callees::{Callees, Piece};
use program::ValueType;
use scanner::Refusal;
use std::alloc::{AllocError, Global};
use syntax::ResultType;
use types::{NameScope, result_kind};

// The type of a result, where there is one.
fn value_type(returns: Option<ResultType>) -> Option<ValueType>
    ensures { result ≡ option_map result_kind_of returns }
{
    returns.map(|kind| result_kind(kind))
}

// The least fault, where a piece with these names in scope has these statements.
fn in_scope<'c, 'u, 'a>(
    standing: &'c NameScope<'c, 'a>,
    callees: &'c Callees<'u, 'a>,
    piece: &Piece<'u, 'a>,
    least: Option<Refusal>,
) -> Option<Refusal>
    ensures { (u : UnitTree) → IsCallees u callees.now
        → IsNameScope (record { unit = u; piece = piece_of piece.now }) standing.now
        → Collects (InStatements u (piece_of piece.now)) least result }
{
    let context = Context {
        standing,
        callees,
        role: piece.role,
        returns: value_type(piece.returns),
    };
    block(&piece.body.statements, &context, least)
}

// The least fault, where a piece has these statements.
fn statements<'u, 'a>(
    alloc: Global,
    callees: &Callees<'u, 'a>,
    piece: &Piece<'u, 'a>,
    least: Option<Refusal>,
) -> Result<Option<Refusal>, AllocError>
    requires { length piece.now.parameters.now + length piece.now.body.now.locals.items < u32.MAX }
    ensures { (u : UnitTree) → IsCallees u callees.now → Contains (pieces u) (piece_of piece.now)
        → IfOk result (λ r. Collects (InStatements u (piece_of piece.now)) least r) }
{
    let own = callees.own(piece.role);
    let standing = NameScope::new(alloc, piece.parameters, &piece.body.locals, own)?;
    Ok(in_scope(&standing, callees, piece, least))
}

/// The least fault of the statements of a unit's pieces.
pub fn bodies(
    alloc: Global,
    callees: &Callees<'_, '_>,
    least: Option<Refusal>,
) -> Result<Option<Refusal>, AllocError>
    requires { All (λ p. length p.parameters.now
        + length p.body.now.locals.items < u32.MAX) callees.now.pieces.items }
    ensures { (u : UnitTree) → IsCallees u callees.now
        → IfOk result (λ r. Collects (IsInBody u) least r) }
{
    let mut least = least;
    for piece in &callees.pieces {
        least = statements(alloc, callees, piece, least)?;
    }
    Ok(least)
}
