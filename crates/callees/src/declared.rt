// What the monitors of a unit declare.

ghost use Rattle.std.specs.Prelude.{◌≡◌, ◌<◌, ◌++◌, ◌∷◌, [], ℕ, List, IfOk, OnOk, Some as SomeOf, length, map};
ghost use Rattle.std.specs.Prelude.{slice_get};
ghost use Rattle.syntax.specs.Lexeme.{NameTree};
ghost use Rattle.syntax.specs.View.{name_of, monitor_of};
ghost use Rattle.syntax.specs.Whole.{unit_of};
ghost use Rattle.types.specs.Names.{monitor_names};
ghost use Rattle.types.specs.Pieces.{monitor_pieces, pieces_from};
ghost use Rattle.types.specs.Tables.{IsTable};
ghost use Rattle.callees.specs.declared.monitor_names.MonitorNames.{MonitorNames as NamesOf};
ghost use Rattle.callees.specs.Names.{HasNames, IsNames, declarations};
ghost use Rattle.callees.specs.Pieces.{piece_of};

use crate::monitor_names::MonitorNames;
use crate::piece::{Piece, push_monitor};
use std::alloc::{AllocError, Global};
use syntax::{Monitor, Unit};
use types::Table;

/// The names of monitors, what each declares, and their pieces.
#[derive(Drop)]
pub struct Declared<'u, 'a> {
    /// The names of the monitors, which are numbered as they stand.
    pub names: Table<'a>,
    /// What each monitor declares, by the monitor's number.
    pub inner: Vec<MonitorNames<'a>>,
    /// The procedures of all monitors, and their RECOVER parts, each monitor's together.
    pub pieces: Vec<Piece<'u, 'a>>,
}

impl<'u, 'a> Declared<'u, 'a> {
    // Adds the monitor of this number.
    fn push(
        &mut self,
        alloc: Global,
        number: u32,
        monitor: &'u Monitor<'a>,
    ) -> Result<(), AllocError>
        requires names { self.old.names.count < u32.MAX }
        requires pieces { length self.old.pieces.items < u32.MAX }
        requires members { length monitor.now.members.items < u32.MAX }
        requires procedures { length monitor.now.procedures.items < u32.MAX }
        ensures names { (names : List NameTree) → IsTable names self.old.names
            → OnOk result (IsTable (names ++ name_of monitor.now.name ∷ []) self.new.names) }
        ensures inner { OnOk result ((n : NamesOf)
            × (self.new.inner.items ≡ self.old.inner.items ++ n ∷ [])
            × HasNames (monitor_of monitor.now) n
            × (n.first_piece ≡ length self.old.pieces.items)) }
        ensures pieces { OnOk result (map piece_of self.new.pieces.items
            ≡ map piece_of self.old.pieces.items
            ++ monitor_pieces number (monitor_of monitor.now)) }
    {
        self.names.declare(monitor.name)?;
        let names = MonitorNames::new(alloc, monitor, self.pieces.len() as u32)?;
        self.inner.push(names)?;
        push_monitor(&mut self.pieces, number, monitor)
    }

    /// What the monitors of a unit declare. The only error is that memory runs out.
    pub fn new(alloc: Global, unit: &'u Unit<'a>) -> Result<Declared<'u, 'a>, AllocError>
        requires { declarations (unit_of unit.now) < u32.MAX }
        ensures names { IfOk result (λ d. IsTable (monitor_names (unit_of unit.now)) d.names) }
        ensures all { IfOk result (λ d. length d.inner.items ≡ length (unit_of unit.now).monitors) }
        ensures inner { IfOk result (λ d. (m : ℕ) (n : NamesOf)
            → slice_get d.inner.items m ≡ SomeOf n
            → IsNames (unit_of unit.now) m n) }
        ensures pieces { IfOk result (λ d. map piece_of d.pieces.items
            ≡ pieces_from 0 (unit_of unit.now).monitors) }
    {
        let mut declared = Declared {
            names: Table::new(alloc),
            inner: Vec::new(alloc),
            pieces: Vec::new(alloc),
        };
        for (number, monitor) in unit.monitors.iter().enumerate() {
            declared.push(alloc, number as u32, monitor)?;
        }
        Ok(declared)
    }
}
