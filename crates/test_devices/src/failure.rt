use isa::DecodeFault;
use runner::RunFault;
use std::alloc::AllocError;
use std::io;
use thiserror::Error;

/// Why nothing came of a row.
#[derive(Debug, Drop, Error)]
pub enum Failure {
    /// It isn't a key and what it says.
    #[error("no row")]
    Row,
    /// Its bytes are no image.
    #[error("{0:?}")]
    Image(DecodeFault),
    /// Its run was refused.
    #[error("{0}")]
    Run(RunFault),
    /// There is no memory for it.
    #[error("memory")]
    Memory,
    /// A file, or the output, failed.
    #[error("{0}")]
    Device(io::Error),
}

impl From<DecodeFault> for Failure {
    fn from(fault: DecodeFault) -> Failure {
        Failure::Image(fault)
    }
}

impl From<RunFault> for Failure {
    fn from(fault: RunFault) -> Failure {
        Failure::Run(fault)
    }
}

impl From<AllocError> for Failure {
    fn from(_error: AllocError) -> Failure {
        Failure::Memory
    }
}

impl From<io::Error> for Failure {
    fn from(error: io::Error) -> Failure {
        Failure::Device(error)
    }
}
