ghost use Rattle.std.specs.Prelude.{◌≡◌, true};

/// Where a process of a kept state stands, and all that it may do next depends on, in numbers of parts.
#[derive(Clone, Copy)]
pub(crate) struct Spot {
    /// The number of the process.
    pub process: u32,
    /// Where it stands.
    pub part: u32,
    /// Monitors, conditions and the process table.
    pub table: u32,
    /// The values of the variables.
    pub variables: u32,
}

impl Spot {
    /// Whether it is this one.
    pub fn is_same(self, other: Spot) -> bool
        ensures { result ≡ true → self ≡ other }
    {
        if self.process != other.process {
            return false;
        }
        if self.part != other.part {
            return false;
        }
        if self.table != other.table {
            return false;
        }
        self.variables == other.variables
    }
}
