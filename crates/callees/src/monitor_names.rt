// The names of a monitor.

ghost use Rattle.std.specs.Prelude.{◌≡◌, ◌<◌, IfOk, length, map, Some as SomeOf};
ghost use Rattle.syntax.specs.Tree.{MonitorTree};
ghost use Rattle.syntax.specs.View.{name_of, monitor_of};
ghost use Rattle.types.specs.Scope.{procedure_number};
ghost use Rattle.types.specs.Tables.{IsTable};
ghost use Rattle.callees.specs.Names.{HasNames};

use std::alloc::{AllocError, Global};
use syntax::{Monitor, MonitorProcedure, Name, Procedure};
use types::{Members, Table};

/// The names that a monitor declares.
#[derive(Drop)]
pub struct MonitorNames<'a> {
    /// Its members.
    pub members: Members<'a>,
    /// The names of its procedures, which are numbered from 0.
    pub procedures: Table<'a>,
    /// The number of its first piece.
    pub first_piece: u32,
}

// The names of a monitor's procedures.
fn inner_names<'a>(
    alloc: Global,
    procedures: &[MonitorProcedure<'a>],
) -> Result<Table<'a>, AllocError>
    requires { length procedures.now < u32.MAX }
    ensures { IfOk result (λ t. IsTable (map (λ q. name_of q.procedure.name) procedures.now) t) }
{
    let mut names = Table::new(alloc);
    for procedure in procedures {
        names.declare(procedure.procedure.name)?;
    }
    Ok(names)
}

/// The names of external procedures.
pub fn external_names<'a>(
    alloc: Global,
    procedures: &[Procedure<'a>],
) -> Result<Table<'a>, AllocError>
    requires { length procedures.now < u32.MAX }
    ensures { IfOk result (λ t. IsTable (map (λ q. name_of q.name) procedures.now) t) }
{
    let mut names = Table::new(alloc);
    for procedure in procedures {
        names.declare(procedure.name)?;
    }
    Ok(names)
}

impl<'a> MonitorNames<'a> {
    /// The names of a monitor of which the first piece has this number.
    pub fn new(
        alloc: Global,
        monitor: &Monitor<'a>,
        first_piece: u32,
    ) -> Result<MonitorNames<'a>, AllocError>
        requires members { length monitor.now.members.items < u32.MAX }
        requires procedures { length monitor.now.procedures.items < u32.MAX }
        ensures names { IfOk result (λ n. HasNames (monitor_of monitor.now) n) }
        ensures first { IfOk result (λ n. n.first_piece ≡ first_piece) }
    {
        let members = Members::new(alloc, &monitor.members)?;
        let procedures = inner_names(alloc, &monitor.procedures)?;
        Ok(MonitorNames {
            members,
            procedures,
            first_piece,
        })
    }

    /// The number of a procedure of the monitor among its procedures.
    pub fn find(&self, name: Name<'_>) -> Option<u32>
        ensures { (t : MonitorTree) → HasNames t self.now
            → result ≡ procedure_number (SomeOf t) (name_of name.entry) }
    {
        if self.members.names.find(name).is_some() {
            return None;
        }
        self.procedures.find(name)
    }
}
