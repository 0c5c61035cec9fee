ghost use Rattle.std.specs.Prelude.{◌≤◌};
ghost use Rattle.syntax.specs.Limits.{most_nestings};
ghost use Rattle.syntax.specs.Nesting.{unit_nesting};
ghost use Rattle.syntax.specs.View.{whole};

use crate::declaration::{Main, Monitor, Procedure};
use crate::leaf::Name;

/// A whole program, in which at most `MOST_NESTINGS` nestings are open at once.
///
/// A nesting is opened by `IF`, `WHILE`, `ABORTED`, by `(` and `[` in an expression or a target, and
/// by `-` and `NOT` before a factor. It is open until its construct ends.
#[derive(Drop)]
pub struct Unit<'a> {
    /// The name of the program.
    pub name: Name<'a>,
    /// The monitors, in their order.
    pub monitors: Vec<Monitor<'a>>,
    /// The procedures outside of monitors, in their order.
    pub procedures: Vec<Procedure<'a>>,
    /// What process 1 runs.
    pub main: Main<'a>,
    /// No more nestings are open at once than may be.
    pub ghost within: { unit_nesting (whole name monitors.items procedures.items main) ≤ most_nestings },
}
