// What a callee's name means.

ghost use Rattle.std.specs.Prelude.{◌≡◌, ◌<◌, ◌++◌, ◌∷◌, [], IfOk, IsErrAnd, OnOk, Some as SomeOf, length, map};
ghost use Rattle.std.specs.Prelude.{option_map, slice_get, Contains};
ghost use Rattle.program.specs.declared.kinds.Role.TheVariants.{Main as MainRole, External as ExternalRole};
ghost use Rattle.syntax.specs.Tree.{UnitTree};
ghost use Rattle.syntax.specs.View.{name_of, callee_of};
ghost use Rattle.syntax.specs.Whole.{unit_of};
ghost use Rattle.types.specs.Names.{external_names as names_of_externals};
ghost use Rattle.types.specs.Pieces.{pieces as pieces_in};
ghost use Rattle.types.specs.Pieces as p;
ghost use Rattle.types.specs.Scope.{Scope, callee as callee_in, inner_procedure, external_procedure};
ghost use Rattle.types.specs.Standings.{IsOwn, IsNameScope};
ghost use Rattle.types.specs.Tables.{IsTable};
ghost use Rattle.types.specs.StatementFaults.{called_piece as called_in, missing_place as place_of_missing};
ghost use Rattle.callees.specs.Names.{IsCallees, declarations};
ghost use Rattle.callees.specs.Pieces.{piece_of};

use crate::callees::Callees;
use crate::declared::Declared;
use crate::monitor_names::external_names;
use crate::piece::{Piece, push_rest};
use crate::roles::own_monitor;
use program::Role;
use scanner::Place;
use std::alloc::{AllocError, Global};
use syntax::{Callee, Name, Unit};
use types::{NameScope, Own, Table};

// Adds the pieces that stand behind those of monitors, and gives the names of the external procedures.
fn outside<'u, 'a>(
    alloc: Global,
    pieces: &mut Vec<Piece<'u, 'a>>,
    unit: &'u Unit<'a>,
) -> Result<Table<'a>, AllocError>
    requires { declarations (unit_of unit.now) < u32.MAX }
    ensures pieces { OnOk result (map piece_of pieces.new.items ≡ map piece_of pieces.old.items
        ++ map (p.piece_of ExternalRole) (unit_of unit.now).procedures
        ++ p.part_of MainRole (unit_of unit.now).place (unit_of unit.now).body ∷ []) }
    ensures names { IfOk result (λ t. IsTable (names_of_externals (unit_of unit.now)) t) }
{
    push_rest(pieces, unit)?;
    external_names(alloc, &unit.procedures)
}

// Lets go of what was made already, where memory ran out. The drop stands here alone: a `?` in its place proves,
// wherever it stands, the drop of each part.
fn given_up<T: Drop, U>(_made: T, error: AllocError) -> Result<U, AllocError>
    ensures { IsErrAnd result (λ e. e ≡ error) }
{
    Err(error)
}

impl<'u, 'a> Callees<'u, 'a> {
    /// What a unit declares. The only error is that memory runs out.
    pub fn new(alloc: Global, unit: &'u Unit<'a>) -> Result<Callees<'u, 'a>, AllocError>
        requires { declarations (unit_of unit.now) < u32.MAX }
        ensures { IfOk result (λ c. IsCallees (unit_of unit.now) c) }
    {
        let mut declared = Declared::new(alloc, unit)?;
        let first_external = declared.pieces.len() as u32;
        match outside(alloc, &mut declared.pieces, unit) {
            Ok(externals) => Ok(Callees {
                monitors: declared.names,
                inner: declared.inner,
                externals,
                first_external,
                pieces: declared.pieces,
            }),
            Err(error) => given_up(declared, error),
        }
    }

    // The piece of a procedure of the monitor of this number.
    fn inner_procedure(&self, monitor: u32, name: Name<'_>) -> Option<u32>
        ensures { (u : UnitTree) → IsCallees u self.now
            → result ≡ inner_procedure u monitor (name_of name.entry) }
    {
        let names = self.inner.get(monitor as usize)?;
        let number = names.find(name)?;
        names.first_piece.checked_add(number)
    }

    // The piece of an external procedure.
    fn external_procedure(&self, name: Name<'_>) -> Option<u32>
        ensures { (u : UnitTree) → IsCallees u self.now
            → result ≡ external_procedure u (name_of name.entry) }
    {
        if self.monitors.find(name).is_some() {
            return None;
        }
        let number = self.externals.find(name)?;
        self.first_external.checked_add(number)
    }

    /// The number of the piece that a callee means, called from a piece of this role. Without a dot it is sought among
    /// the procedures of the own monitor, then among the external ones.
    pub fn find(&self, role: Role, callee: &Callee<'_>) -> Option<u32>
        ensures { (s : Scope) → IsCallees s.unit self.now → s.piece.role ≡ role
            → result ≡ callee_in s (callee_of callee.now) }
    {
        if let Some(monitor) = callee.monitor {
            let number = self.monitors.find(monitor)?;
            return self.inner_procedure(number, callee.procedure);
        }
        if let Some(monitor) = own_monitor(role) {
            let found = self.inner_procedure(monitor, callee.procedure);
            if found.is_some() {
                return found;
            }
        }
        self.external_procedure(callee.procedure)
    }

    /// The piece of this number.
    pub fn piece(&self, number: u32) -> Option<Piece<'u, 'a>>
        ensures { (u : UnitTree) → IsCallees u self.now
            → option_map piece_of result ≡ slice_get (pieces_in u) number }
    {
        self.pieces.get(number as usize).copied()
    }

    /// The piece that a callee means, called from a piece of this role.
    pub fn called(&self, role: Role, callee: &Callee<'_>) -> Option<Piece<'u, 'a>>
        ensures { (s : Scope) → IsCallees s.unit self.now → s.piece.role ≡ role
            → option_map piece_of result ≡ called_in s (callee_of callee.now) }
    {
        self.piece(self.find(role, callee)?)
    }

    /// The place of the fault of a callee that means nothing: the name before the dot where it is no monitor's, else
    /// the procedure's name.
    pub fn missing_place(&self, callee: &Callee<'_>) -> Place
        ensures { (s : Scope) → IsCallees s.unit self.now
            → result ≡ place_of_missing s (callee_of callee.now).name (callee_of callee.now).dotted }
    {
        match callee.monitor {
            Some(monitor) if self.monitors.find(monitor).is_none() => monitor.place,
            _ => callee.procedure.place,
        }
    }

    /// The names in scope of the piece of this number. The only error is that memory runs out.
    pub fn standing(&self, alloc: Global, number: usize) -> Result<NameScope<'_, 'a>, AllocError>
        requires { number < length self.now.pieces.items }
        ensures { (s : Scope) → IsCallees s.unit self.now
            → slice_get (pieces_in s.unit) number ≡ SomeOf s.piece
            → IfOk result (λ st. IsNameScope s st) }
    {
        let piece = self.pieces[number];
        NameScope::new(
            alloc,
            piece.parameters,
            &piece.body.locals,
            self.own(piece.role),
        )
    }

    /// The monitor that a piece of this role belongs to, and its members; none outside of monitors.
    pub fn own(&self, role: Role) -> Option<Own<'_, 'a>>
        ensures { (s : Scope) → IsCallees s.unit self.now → Contains (pieces_in s.unit) s.piece
            → s.piece.role ≡ role → IsOwn s result }
    {
        let monitor = own_monitor(role)?;
        let names = self.inner.get(monitor as usize)?;
        Some(Own {
            monitor,
            members: &names.members,
        })
    }
}
