ghost use Rattle.std.specs.Prelude.{◌≡◌};
ghost use Rattle.assembler.specs.Refusals.{out_of_memory, number_of, name_of};

use scanner::Place;
use std::alloc::{AllocError, AllocFailed};
use std::fmt;
use thiserror::Error;

/// Why an assembly text is refused.
#[derive(Clone, Copy, PartialEq, Eq, Debug)]
pub enum AssemblyFault {
    /// A name that isn't declared, or is of another kind than is wanted, or an instruction that there isn't.
    Unknown = 1,
    /// A name, or the version or the start, that is declared twice.
    Twice = 2,
    /// What has to be a number is none, or none of 32 bits.
    Number = 3,
    /// Too many words or too few.
    Operands = 4,
    /// An instruction that doesn't stand at the place in front of it, or that leads past the last one.
    Place = 5,
    /// More of something than an image has.
    Limit = 6,
    /// There is no instruction to start at.
    Start = 7,
    /// What has to be a name is none.
    Name = 8,
    /// Memory has run out.
    Memory = 9,
}

impl AssemblyFault {
    /// The number that a message shows, from 1 to 9.
    pub fn number(self) -> u8
        ensures { result ≡ number_of self }
    {
        self as u8
    }

    /// The name that a message shows, as the variant is written.
    pub fn name(self) -> &'static str
        ensures { result.now ≡ name_of self }
    {
        match self {
            AssemblyFault::Unknown => "Unknown",
            AssemblyFault::Twice => "Twice",
            AssemblyFault::Number => "Number",
            AssemblyFault::Operands => "Operands",
            AssemblyFault::Place => "Place",
            AssemblyFault::Limit => "Limit",
            AssemblyFault::Start => "Start",
            AssemblyFault::Name => "Name",
            AssemblyFault::Memory => "Memory",
        }
    }
}

/// A refusal of an assembly text: why, and at which place.
///
/// It is shown as `LINE:COLUMN: error N NAME`.
#[derive(Clone, Copy, PartialEq, Eq, Debug, Error)]
pub struct AssemblyRefusal {
    /// Why the text is refused.
    pub fault: AssemblyFault,
    /// The place of what is refused.
    pub place: Place,
}

impl AssemblyRefusal {
    /// Memory has run out. It has the place 1:1.
    pub fn memory() -> AssemblyRefusal
        ensures { result ≡ out_of_memory }
    {
        AssemblyRefusal {
            fault: AssemblyFault::Memory,
            place: Place::START,
        }
    }
}

impl fmt::Display for AssemblyRefusal {
    ghost use Rattle.std.specs.Prelude.{Some};
    ghost use Rattle.assembler.specs.Refusals.{refusal_text};

    ghost output = { λ refusal. Some (refusal_text refusal) };

    fn fmt<W: fmt::Write>(&self, f: &mut fmt::Formatter<W>) -> fmt::Result {
        let Place { line, column } = self.place;
        let fault = self.fault;
        write!(
            f,
            "{line}:{column}: error {} {}",
            fault.number(),
            fault.name()
        )
    }
}

impl From<AllocError> for AssemblyRefusal {
    ghost from_gives = { λ _ e. e ≡ out_of_memory };

    fn from(_error: AllocError) -> AssemblyRefusal {
        AssemblyRefusal::memory()
    }
}

impl<T: Drop> From<AllocFailed<T>> for AssemblyRefusal {
    ghost from_gives = { λ _ e. e ≡ out_of_memory };

    fn from(_error: AllocFailed<T>) -> AssemblyRefusal {
        AssemblyRefusal::memory()
    }
}
