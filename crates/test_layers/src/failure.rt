use isa::DecodeFault;
use scanner::Refusal;
use std::alloc::{AllocError, AllocFailed};
use std::io;
use thiserror::Error;

/// Why nothing came of a row.
#[derive(Debug, Drop, Error)]
pub enum Failure {
    /// It is no row.
    #[error("no row")]
    Row,
    /// It names a word or a thread that there isn't, a thread that sleeps already, or no count of buckets.
    #[error("outside")]
    Outside,
    /// Its bytes are no image.
    #[error("{0}")]
    Image(DecodeFault),
    /// It is no source text.
    #[error("{0}")]
    Text(Refusal),
    /// There is no memory for it.
    #[error("memory")]
    Memory,
    /// Nothing can be written.
    #[error("{0}")]
    Output(io::Error),
}

impl From<DecodeFault> for Failure {
    fn from(fault: DecodeFault) -> Failure {
        Failure::Image(fault)
    }
}

impl From<Refusal> for Failure {
    fn from(refusal: Refusal) -> Failure {
        Failure::Text(refusal)
    }
}

impl From<AllocError> for Failure {
    fn from(_error: AllocError) -> Failure {
        Failure::Memory
    }
}

impl<T: Drop> From<AllocFailed<T>> for Failure {
    fn from(_error: AllocFailed<T>) -> Failure {
        Failure::Memory
    }
}

impl From<io::Error> for Failure {
    fn from(error: io::Error) -> Failure {
        Failure::Output(error)
    }
}
