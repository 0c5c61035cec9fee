// What a unit declares.

ghost use Rattle.callees.specs.Pieces.{AreFew};

use crate::monitor_names::MonitorNames;
use crate::piece::Piece;
use types::Table;

/// What a unit declares, by name and by number. `u32` numbers count from 0 in the order of the declarations.
#[derive(Drop)]
pub struct Callees<'u, 'a> {
    /// The names of the monitors.
    pub monitors: Table<'a>,
    /// What each monitor declares.
    pub inner: Vec<MonitorNames<'a>>,
    /// The names of the external procedures.
    pub externals: Table<'a>,
    /// The number of the first external procedure's piece.
    pub first_external: u32,
    /// The pieces: for each monitor its procedures, then its RECOVER part; then the external procedures; then MAIN.
    pub pieces: Vec<Piece<'u, 'a>>,
    /// They are so few that 32 bits number them, and the parameters and locals of each.
    pub ghost few: { AreFew pieces.items },
}
