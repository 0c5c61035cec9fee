use isa::DecodeFault;
use runner::RunFault;
use scanner::Refusal;
use std::alloc::{AllocError, AllocFailed};
use std::io;
use thiserror::Error;

/// Why nothing came of a row.
#[derive(Debug, Drop, Error)]
pub enum Failure {
    /// It is no row.
    #[error("no row")]
    Row,
    /// Its text is no program.
    #[error("{0}")]
    Text(Refusal),
    /// Its bytes are no image.
    #[error("{0}")]
    Image(DecodeFault),
    /// Its run was refused.
    #[error("{0}")]
    Run(RunFault),
    /// There is no memory for it.
    #[error("memory")]
    Memory,
    /// Nothing can be written.
    #[error("{0}")]
    Output(io::Error),
}

impl From<Refusal> for Failure {
    fn from(refusal: Refusal) -> Failure {
        Failure::Text(refusal)
    }
}

impl From<DecodeFault> for Failure {
    fn from(fault: DecodeFault) -> Failure {
        Failure::Image(fault)
    }
}

impl From<RunFault> for Failure {
    fn from(fault: RunFault) -> Failure {
        Failure::Run(fault)
    }
}

impl From<AllocError> for Failure {
    fn from(_error: AllocError) -> Failure {
        Failure::Memory
    }
}

impl<T: Drop> From<AllocFailed<T>> for Failure {
    fn from(_failed: AllocFailed<T>) -> Failure {
        Failure::Memory
    }
}

impl From<io::Error> for Failure {
    fn from(error: io::Error) -> Failure {
        Failure::Output(error)
    }
}
