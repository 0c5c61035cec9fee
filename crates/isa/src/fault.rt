ghost use Rattle.std.specs.Prelude.{◌≡◌};
ghost use Rattle.isa.specs.declared.fault.DecodeFault.TheVariants.{Memory};
ghost use Rattle.isa.specs.Faults.{fault_number};

use std::alloc::{AllocError, AllocFailed};
use thiserror::Error;

/// Why bytes are not an image: the first fault from left to right.
///
/// It is shown as `image error N NAME`.
#[derive(Clone, Copy, PartialEq, Eq, Debug, Error)]
pub enum DecodeFault {
    /// One of the first four bytes is not that of an image.
    #[error("image error 1 BadMagic")]
    BadMagic = 1,
    /// The version byte is neither 01 nor 02.
    #[error("image error 2 Version")]
    Version = 2,
    /// The bytes end too early.
    #[error("image error 3 Short")]
    Short = 3,
    /// An unknown opcode, or a number that is not in its shortest spelling.
    #[error("image error 4 BadInstr")]
    BadInstr = 4,
    /// The start, or a place that an instruction names, is not below the number of instructions.
    #[error("image error 5 BadTarget")]
    BadTarget = 5,
    /// Bytes stand after the last instruction.
    #[error("image error 6 Trailing")]
    Trailing = 6,
    /// A number past 4294967295, or past the limit that holds where it stands.
    #[error("image error 7 Limit")]
    Limit = 7,
    /// Memory has run out.
    #[error("image error 8 Memory")]
    Memory = 8,
}

impl DecodeFault {
    /// The number that a message shows, from 1 to 8.
    pub fn number(self) -> u8
        ensures { result ≡ fault_number self }
    {
        self as u8
    }
}

impl From<AllocError> for DecodeFault {
    ghost from_gives = { λ _ e. e ≡ Memory };

    fn from(_error: AllocError) -> DecodeFault {
        DecodeFault::Memory
    }
}

impl<T: Drop> From<AllocFailed<T>> for DecodeFault {
    ghost from_gives = { λ _ e. e ≡ Memory };

    fn from(_error: AllocFailed<T>) -> DecodeFault {
        DecodeFault::Memory
    }
}
