use std::alloc::AllocError;
use thiserror::Error;

/// Why a log is not explained. `OtherImage` is tested before `NotARun`.
#[derive(Clone, Copy, PartialEq, Eq, Debug, Error)]
pub enum ExplainFault {
    /// The entries aren't legal for the image, or have 2^32 steps or more: the machine's words count no further.
    #[error("fault 1")]
    NotARun = 1,
    /// The image isn't the code of the program.
    #[error("fault 2")]
    OtherImage = 2,
    /// There is no memory for the walk.
    #[error("memory")]
    Memory = 3,
}

impl From<AllocError> for ExplainFault {
    ghost use Rattle.std.specs.Prelude.{◌≡◌};
    ghost use Rattle.simulation.specs.declared.fault.ExplainFault.TheVariants.{Memory};

    ghost from_gives = { λ _ f. f ≡ Memory };

    fn from(_error: AllocError) -> ExplainFault {
        ExplainFault::Memory
    }
}

/// Why a log of a program's image is not explained.
#[derive(Clone, Copy, PartialEq, Eq, Debug, Error)]
pub enum LogFault {
    /// The entry of this number, from 1, is the first with which the entries are no log: it isn't legal, or there are
    /// 2^32 steps or more with it.
    #[error("log entry {0}")]
    Entry(u64),
    /// There is no memory for the walk.
    #[error("memory")]
    Memory,
}

impl From<AllocError> for LogFault {
    ghost use Rattle.std.specs.Prelude.{◌≡◌};
    ghost use Rattle.simulation.specs.declared.fault.LogFault.TheVariants.{Memory};

    ghost from_gives = { λ _ f. f ≡ Memory };

    fn from(_error: AllocError) -> LogFault {
        LogFault::Memory
    }
}
