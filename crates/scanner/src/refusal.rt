ghost use Rattle.std.specs.Prelude.{◌≡◌};
ghost use Rattle.scanner.specs.Refusals.{out_of_memory, number_of, name_of};

use crate::token::Place;
use std::alloc::{AllocError, AllocFailed};
use std::fmt;
use thiserror::Error;

/// Why a source text is refused.
#[derive(Clone, Copy, PartialEq, Eq, Debug)]
pub enum RefusalKind {
    /// A byte past 127.
    NotAscii = 1,
    /// A byte that begins no token, or a number past 2147483647.
    BadToken = 2,
    /// A token that cannot follow what stands before it.
    Expected = 3,
    /// A name that is declared twice in one scope.
    Redeclared = 4,
    /// A name that is not declared.
    Unknown = 5,
    /// A type, or a number of arguments, that is not the one wanted.
    TypeMismatch = 6,
    /// A statement or a procedure where it is not allowed.
    WrongPlace = 7,
    /// A call of an entry procedure of the monitor that the caller is in.
    DirectReentry = 8,
    /// A procedure on a cycle of calls.
    Recursion = 9,
    /// More of something than is allowed.
    Limit = 10,
    /// Memory has run out.
    Memory = 11,
    /// A piece of code whose number is foreign, doubled or missing.
    StrayPiece = 12,
}

impl RefusalKind {
    /// The number that a message shows, from 1 to 12.
    pub fn number(self) -> u8
        ensures { result ≡ number_of self }
    {
        self as u8
    }

    /// The name that a message shows, as the variant is written.
    pub fn name(self) -> &'static str
        ensures { result.now ≡ name_of self }
    {
        match self {
            RefusalKind::NotAscii => "NotAscii",
            RefusalKind::BadToken => "BadToken",
            RefusalKind::Expected => "Expected",
            RefusalKind::Redeclared => "Redeclared",
            RefusalKind::Unknown => "Unknown",
            RefusalKind::TypeMismatch => "TypeMismatch",
            RefusalKind::WrongPlace => "WrongPlace",
            RefusalKind::DirectReentry => "DirectReentry",
            RefusalKind::Recursion => "Recursion",
            RefusalKind::Limit => "Limit",
            RefusalKind::Memory => "Memory",
            RefusalKind::StrayPiece => "StrayPiece",
        }
    }
}

impl fmt::Display for RefusalKind {
    ghost use Rattle.std.specs.Prelude.{Some};

    ghost output = { λ kind. Some (name_of kind) };

    fn fmt<W: fmt::Write>(&self, f: &mut fmt::Formatter<W>) -> fmt::Result {
        f.write_str(self.name())
    }
}

/// A refusal of a source text: why, and at which place.
///
/// It is shown as `LINE:COLUMN: error N NAME`.
#[derive(Clone, Copy, PartialEq, Eq, Debug, Error)]
pub struct Refusal {
    /// Why the text is refused.
    pub kind: RefusalKind,
    /// The place of what is refused.
    pub place: Place,
}

impl Refusal {
    /// Memory has run out. It has the place 1:1.
    pub fn memory() -> Refusal
        ensures { result ≡ out_of_memory }
    {
        Refusal {
            kind: RefusalKind::Memory,
            place: Place::START,
        }
    }
}

impl fmt::Display for Refusal {
    ghost use Rattle.std.specs.Prelude.{Some};
    ghost use Rattle.scanner.specs.Refusals.{refusal_text};

    ghost output = { λ refusal. Some (refusal_text refusal) };

    fn fmt<W: fmt::Write>(&self, f: &mut fmt::Formatter<W>) -> fmt::Result {
        let Place { line, column } = self.place;
        write!(
            f,
            "{line}:{column}: error {} {}",
            self.kind.number(),
            self.kind
        )
    }
}

impl From<AllocError> for Refusal {
    ghost from_gives = { λ _ e. e ≡ out_of_memory };

    fn from(_error: AllocError) -> Refusal {
        Refusal::memory()
    }
}

impl<T: Drop> From<AllocFailed<T>> for Refusal {
    ghost from_gives = { λ _ e. e ≡ out_of_memory };

    fn from(_error: AllocFailed<T>) -> Refusal {
        Refusal::memory()
    }
}
