// What CALL and FORK name.

ghost use Rattle.std.specs.Prelude.{◌≡◌, ◌&&◌, ◌++◌, Option, false, is_none, is_some, length, map, nat_eq, not};
ghost use Rattle.std.specs.Prelude.{option_map, Some as SomeOf};
ghost use Rattle.scanner.specs.declared.token.Place.{Place as PlaceOf};
ghost use Rattle.syntax.specs.Lexeme.{NameTree};
ghost use Rattle.syntax.specs.Tree.{CalleeTree, Call as CallOf, Fork as ForkOf};
ghost use Rattle.syntax.specs.View as v;
ghost use Rattle.program.specs.declared.kinds.ValueType.TheVariants.{Process as ProcessOf};
ghost use Rattle.types.specs.CallFaults as c;
ghost use Rattle.types.specs.Kinds.{result_kind as result_kind_of};
ghost use Rattle.types.specs.Scope.{Scope, callee as callee_in};
ghost use Rattle.types.specs.StatementFaults as f;
ghost use Rattle.types.specs.Statements as st;
ghost use Rattle.callees.specs.Pieces.{piece_of};
ghost use Rattle.resolver.specs.Clean.{is_clean};
ghost use Rattle.resolver.specs.Sites.{IsSite};

use crate::site::Site;
use body_faults::{is_empty, is_hidden, is_internal, is_miscounted, is_recover, is_reentry};
use callees::Piece;
use program::ValueType;
use syntax::{Callee, Parameter, ResultType};
use types::result_kind;

/// What a callee's name means to a statement that calls or forks it.
#[derive(Clone, Copy)]
pub struct Callable<'u, 'a> {
    /// The number of its piece, 0 where there is none.
    pub number: u32,
    /// Its parameters.
    pub parameters: &'u [Parameter<'a>],
    /// The type of its result, where it has one.
    pub returns: Option<ValueType>,
    /// Whether the statement may stand here and name it so.
    pub is_clean: bool,
}

/// The type of a result, where there is one.
pub fn result_of(returns: Option<ResultType>) -> Option<ValueType>
    ensures { result ≡ option_map result_kind_of returns }
{
    match returns {
        Some(kind) => Some(result_kind(kind)),
        None => None,
    }
}

// What a name that means no procedure is read as.
fn unknown<'u, 'a>(number: u32) -> Callable<'u, 'a>
    ensures number { result.number ≡ number }
    ensures clean { result.is_clean ≡ false }
{
    Callable {
        number,
        parameters: &[],
        returns: None,
        is_clean: false,
    }
}

// The piece of this number, where there is one.
fn numbered<'u, 'a>(site: &Site<'_, '_, 'u, 'a>, number: Option<u32>) -> Option<Piece<'u, 'a>>
    ensures { (s : Scope) (e : CalleeTree) → IsSite s site.now → number ≡ callee_in s e
        → option_map piece_of result ≡ f.called_piece s e }
{
    site.callees.piece(number?)
}

// Whether a CALL may stand here and name this piece so.
fn may_call(
    site: &Site<'_, '_, '_, '_>,
    callee: &Callee<'_>,
    takes: bool,
    piece: &Piece<'_, '_>,
) -> bool
    ensures { (s : Scope) → IsSite s site.now
        → let e = v.callee_of callee.now in let q = piece_of piece.now in
        result ≡ ((((not (f.is_recover s.piece.role) && not
        (is_some e.dotted && f.is_internal q.role))
        && not (f.own_role s.piece.role q.role)) && not
        (not (nat_eq (length e.arguments) (length q.parameters))))
        && not (takes && is_none q.returns)) }
{
    !is_recover(site.role)
        && !is_hidden(callee, piece.role)
        && !is_reentry(site.role, piece.role)
        && !is_miscounted(callee, piece.parameters)
        && !is_empty(takes, piece.returns)
}

// Whether a FORK may stand here and name this piece so.
fn may_fork(site: &Site<'_, '_, '_, '_>, callee: &Callee<'_>, piece: &Piece<'_, '_>) -> bool
    ensures { (s : Scope) → IsSite s site.now
        → let e = v.callee_of callee.now in let q = piece_of piece.now in
        result ≡ ((not (f.is_recover s.piece.role) && not (f.is_internal q.role))
        && not (not (nat_eq (length e.arguments) (length q.parameters)))) }
{
    !is_recover(site.role) && !is_internal(piece.role) && !is_miscounted(callee, piece.parameters)
}

/// What a CALL names, which takes a result or doesn't.
pub fn called<'u, 'a>(
    site: &Site<'_, '_, 'u, 'a>,
    callee: &Callee<'_>,
    takes: bool,
) -> Callable<'u, 'a>
    ensures number { (s : Scope) → IsSite s site.now
        → result.number ≡ st.procedure s (v.callee_of callee.now) }
    ensures clean { (s : Scope) (place : PlaceOf) (into : Option NameTree) → IsSite s site.now
        → is_some into ≡ takes
        → let e = v.callee_of callee.now in is_clean (c.statement_faults s (CallOf place e into))
        ≡ ((result.is_clean && is_clean (f.arguments_faults s e.arguments
        ++ f.matched_faults s e.arguments (map v.parameter_of result.parameters.now)))
        && is_clean (f.into_faults s result.returns into)) }
{
    let found = site.callees.find(site.role, callee);
    let number = found.unwrap_or(0);
    if let Some(piece) = numbered(site, found) {
        let is_clean = may_call(site, callee, takes, &piece);
        return Callable {
            number,
            parameters: piece.parameters,
            returns: result_of(piece.returns),
            is_clean,
        };
    }
    unknown(number)
}

/// What a FORK names.
pub fn forked<'u, 'a>(site: &Site<'_, '_, 'u, 'a>, callee: &Callee<'_>) -> Callable<'u, 'a>
    ensures number { (s : Scope) → IsSite s site.now
        → result.number ≡ st.procedure s (v.callee_of callee.now) }
    ensures clean { (s : Scope) (place : PlaceOf) (into : NameTree) → IsSite s site.now
        → let e = v.callee_of callee.now in is_clean (c.statement_faults s (ForkOf place e into))
        ≡ ((result.is_clean && is_clean (f.arguments_faults s e.arguments
        ++ f.matched_faults s e.arguments (map v.parameter_of result.parameters.now)))
        && is_clean (f.taker_faults s (SomeOf ProcessOf) into)) }
{
    let found = site.callees.find(site.role, callee);
    let number = found.unwrap_or(0);
    if let Some(piece) = numbered(site, found) {
        let is_clean = may_fork(site, callee, &piece);
        return Callable {
            number,
            parameters: piece.parameters,
            returns: None,
            is_clean,
        };
    }
    unknown(number)
}
