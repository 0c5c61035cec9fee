// The faults of CALL and FORK.

ghost use Rattle.std.specs.Prelude.{◌++◌, ◌≡◌, option_map, Some as SomeOf};
ghost use Rattle.syntax.specs.Tree.{Call as CallOf, Fork as ForkOf};
ghost use Rattle.syntax.specs.View as v;
ghost use Rattle.types.specs.CallFaults as c;
ghost use Rattle.types.specs.Faults.{Gathers, unknown};
ghost use Rattle.types.specs.Kinds as k;
ghost use Rattle.types.specs.Scope.{Scope};
ghost use Rattle.types.specs.StatementFaults as f;
ghost use Rattle.callees.specs.Pieces.{piece_of};
ghost use Rattle.unit_faults.specs.Calls.{call_name_faults, fork_name_faults};
ghost use Rattle.unit_faults.specs.Contexts.{IsContext};

use crate::arguments::{arguments, matched};
use crate::context::Context;
use body_faults::{
    callee_place, into, is_empty, is_hidden, is_internal, is_miscounted, is_reentry, note_where,
    recover, taker,
};
use callees::Piece;
use program::ValueType;
use scanner::{Place, Refusal, RefusalKind};
use syntax::{Callee, Name};
use types::{note, result_kind};

// The least fault of a callee that means nothing, and of its arguments.
fn missing(
    context: &Context<'_, '_, '_>,
    callee: &Callee<'_>,
    least: Option<Refusal>,
) -> Option<Refusal>
    ensures { (s : Scope) → IsContext s context.now → let e = v.callee_of callee.now in
        Gathers (unknown (f.missing_place s e.name e.dotted)
        ++ f.arguments_faults s e.arguments) least result }
{
    let place = context.callees.missing_place(callee);
    let first = note(Some(RefusalKind::Unknown), place, least);
    arguments(context.standing, &callee.arguments, first)
}

// The least fault of the arguments of a procedure.
fn passed(
    context: &Context<'_, '_, '_>,
    callee: &Callee<'_>,
    piece: &Piece<'_, '_>,
    least: Option<Refusal>,
) -> Option<Refusal>
    ensures { (s : Scope) → IsContext s context.now → let e = v.callee_of callee.now in
        Gathers (f.arguments_faults s e.arguments
        ++ f.matched_faults s e.arguments (piece_of piece.now).parameters)
        least result }
{
    let first = arguments(context.standing, &callee.arguments, least);
    matched(context.standing, &callee.arguments, piece.parameters, first)
}

// The least fault of the name of a procedure that is called.
fn named(
    context: &Context<'_, '_, '_>,
    callee: &Callee<'_>,
    takes: bool,
    piece: &Piece<'_, '_>,
    least: Option<Refusal>,
) -> Option<Refusal>
    ensures { (s : Scope) → IsContext s context.now
        → Gathers (call_name_faults s (v.callee_of callee.now) (piece_of piece.now) takes) least
        result }
{
    let place = callee_place(callee);
    let inner = is_hidden(callee, piece.role);
    let first = note_where(inner, RefusalKind::WrongPlace, place, least);
    let held = is_reentry(context.role, piece.role);
    let second = note_where(held, RefusalKind::DirectReentry, place, first);
    let other = is_miscounted(callee, piece.parameters);
    let third = note_where(other, RefusalKind::TypeMismatch, place, second);
    let empty = is_empty(takes, piece.returns);
    note_where(empty, RefusalKind::TypeMismatch, place, third)
}

// The least fault of the name of a procedure that is forked.
fn forked(callee: &Callee<'_>, piece: &Piece<'_, '_>, least: Option<Refusal>) -> Option<Refusal>
    ensures { Gathers (fork_name_faults (v.callee_of callee.now) (piece_of piece.now)) least result }
{
    let place = callee_place(callee);
    let inner = is_internal(piece.role);
    let first = note_where(inner, RefusalKind::WrongPlace, place, least);
    let other = is_miscounted(callee, piece.parameters);
    note_where(other, RefusalKind::TypeMismatch, place, first)
}

// The type of a piece's result.
fn result_type(piece: &Piece<'_, '_>) -> Option<ValueType>
    ensures { result ≡ option_map k.result_kind (piece_of piece.now).returns }
{
    match piece.returns {
        Some(kind) => Some(result_kind(kind)),
        None => None,
    }
}

// The least fault of a procedure that is called, from a call that may take a result.
fn answered(
    context: &Context<'_, '_, '_>,
    callee: &Callee<'_>,
    name: Option<Name<'_>>,
    piece: &Piece<'_, '_>,
    least: Option<Refusal>,
) -> Option<Refusal>
    ensures { (s : Scope) → IsContext s context.now → let e = v.callee_of callee.now in
        Gathers (c.call_faults s e (v.option_name name.entry) (SomeOf (piece_of piece.now))) least
        result }
{
    let first = named(context, callee, name.is_some(), piece, least);
    let second = passed(context, callee, piece, first);
    into(context.standing, result_type(piece), name, second)
}

// The least fault of what is called, from a call that may take a result.
fn called(
    context: &Context<'_, '_, '_>,
    callee: &Callee<'_>,
    name: Option<Name<'_>>,
    least: Option<Refusal>,
) -> Option<Refusal>
    ensures { (s : Scope) → IsContext s context.now → let e = v.callee_of callee.now in
        Gathers (c.call_faults s e (v.option_name name.entry) (f.called_piece s e)) least result }
{
    match context.callees.called(context.role, callee) {
        Some(piece) => answered(context, callee, name, &piece, least),
        None => {
            let first = missing(context, callee, least);
            into(context.standing, None, name, first)
        }
    }
}

/// The least fault, where a CALL stands behind what has this one.
pub fn call(
    context: &Context<'_, '_, '_>,
    place: Place,
    callee: &Callee<'_>,
    name: Option<Name<'_>>,
    least: Option<Refusal>,
) -> Option<Refusal>
    ensures { (s : Scope) → IsContext s context.now
        → Gathers (c.statement_faults s
        (CallOf place (v.callee_of callee.now) (v.option_name name.entry))) least
        result }
{
    let first = recover(context.role, place, least);
    called(context, callee, name, first)
}

// The least fault of a procedure that is forked.
fn started(
    context: &Context<'_, '_, '_>,
    callee: &Callee<'_>,
    name: Name<'_>,
    piece: &Piece<'_, '_>,
    least: Option<Refusal>,
) -> Option<Refusal>
    ensures { (s : Scope) → IsContext s context.now → let e = v.callee_of callee.now in
        Gathers (c.fork_faults s e (v.name_of name.entry) (SomeOf (piece_of piece.now))) least result }
{
    let first = forked(callee, piece, least);
    let second = passed(context, callee, piece, first);
    taker(context.standing, Some(ValueType::Process), name, second)
}

// The least fault of what is forked.
fn begun(
    context: &Context<'_, '_, '_>,
    callee: &Callee<'_>,
    name: Name<'_>,
    least: Option<Refusal>,
) -> Option<Refusal>
    ensures { (s : Scope) → IsContext s context.now → let e = v.callee_of callee.now in
        Gathers (c.fork_faults s e (v.name_of name.entry) (f.called_piece s e)) least result }
{
    match context.callees.called(context.role, callee) {
        Some(piece) => started(context, callee, name, &piece, least),
        None => {
            let first = missing(context, callee, least);
            taker(context.standing, Some(ValueType::Process), name, first)
        }
    }
}

/// The least fault, where a FORK stands behind what has this one.
pub fn fork(
    context: &Context<'_, '_, '_>,
    place: Place,
    callee: &Callee<'_>,
    name: Name<'_>,
    least: Option<Refusal>,
) -> Option<Refusal>
    ensures { (s : Scope) → IsContext s context.now
        → Gathers (c.statement_faults s
        (ForkOf place (v.callee_of callee.now) (v.name_of name.entry))) least result }
{
    let first = recover(context.role, place, least);
    begun(context, callee, name, first)
}
