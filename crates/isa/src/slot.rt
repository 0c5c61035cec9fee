ghost use Rattle.std.specs.Prelude.{◌≡◌};
ghost use Rattle.isa.specs.Instructions.{slot_number};

use crate::limits::MOST_LOCALS;
use std::fmt;

/// A local of a frame.
///
/// It is shown by its number.
#[derive(Clone, Copy, PartialEq, Eq, Debug)]
pub enum Slot {
    /// A parameter or a variable by its number, which is below `MOST_LOCALS` in an image.
    Local(u32),
    /// The one that the code templates keep for themselves, with the number `MOST_LOCALS`.
    Template,
}

impl Slot {
    /// Its number, `MOST_LOCALS` for the one of the templates.
    pub fn number(self) -> u32
        ensures { result ≡ slot_number self }
    {
        match self {
            Slot::Local(n) => n,
            Slot::Template => MOST_LOCALS,
        }
    }
}

impl fmt::Display for Slot {
    ghost use Rattle.std.specs.Prelude.{Some};
    ghost use Rattle.std.specs.Fmt.{decimal};
    ghost use Rattle.isa.specs.Instructions.{slot_number};

    ghost output = { λ s. Some (decimal (slot_number s)) };

    fn fmt<W: fmt::Write>(&self, f: &mut fmt::Formatter<W>) -> fmt::Result {
        write!(f, "{}", self.number())
    }
}
