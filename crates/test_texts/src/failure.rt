use scanner::Refusal;
use std::alloc::{AllocError, AllocFailed};
use std::io;
use thiserror::Error;

/// Why nothing came of a row.
#[derive(Debug, Drop, Error)]
pub enum Failure {
    /// It isn't what a row with its first word is.
    #[error("no row")]
    Row,
    /// Its text, or a piece, is refused.
    #[error("{0}")]
    Refused(Refusal),
    /// The image can't be run, or its log is that of no run.
    #[error("no run")]
    Run,
    /// What was made of it is no text.
    #[error("no text")]
    Text,
    /// The timeline is no JSON.
    #[error("no JSON")]
    Json,
    /// The picture is no XML.
    #[error("no XML")]
    Xml,
    /// The timeline has no list of records, or a record lacks what its kind has.
    #[error("no record")]
    Record,
    /// A record's time is less than that of one before it.
    #[error("a time falls")]
    Time,
    /// A slice ends that isn't the innermost of its track, or never ends.
    #[error("a slice doesn't nest")]
    Nesting,
    /// A flow ends that didn't begin under this name, or twice.
    #[error("a flow has no beginning")]
    Flow,
    /// There is no memory for it.
    #[error("memory")]
    Memory,
    /// Nothing can be written.
    #[error("{0}")]
    Output(io::Error),
}

impl From<Refusal> for Failure {
    fn from(refusal: Refusal) -> Failure {
        Failure::Refused(refusal)
    }
}

impl From<AllocError> for Failure {
    fn from(_error: AllocError) -> Failure {
        Failure::Memory
    }
}

impl<T: Drop> From<AllocFailed<T>> for Failure {
    fn from(_failed: AllocFailed<T>) -> Failure {
        Failure::Memory
    }
}

impl From<io::Error> for Failure {
    fn from(error: io::Error) -> Failure {
        Failure::Output(error)
    }
}
