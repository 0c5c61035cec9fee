use std::alloc::{AllocError, AllocFailed};
use std::io;
use thiserror::Error;

/// Why a line of a row can't be taken, or a row not be run.
#[derive(Debug, Drop, Error)]
pub enum RowFault {
    /// The line's key is none.
    #[error("no key")]
    Key,
    /// A number, or digits, are none.
    #[error("no number")]
    Number,
    /// The line stands before the first row.
    #[error("no row")]
    Row,
    /// The row before has no source text, or there is none in the file.
    #[error("no text before")]
    Before,
    /// There is no memory for it.
    #[error("memory")]
    Memory,
    /// A file can't be read or written.
    #[error("{0}")]
    File(io::Error),
}

impl From<AllocError> for RowFault {
    fn from(_error: AllocError) -> RowFault {
        RowFault::Memory
    }
}

impl<T: Drop> From<AllocFailed<T>> for RowFault {
    fn from(_failed: AllocFailed<T>) -> RowFault {
        RowFault::Memory
    }
}

impl From<io::Error> for RowFault {
    fn from(error: io::Error) -> RowFault {
        RowFault::File(error)
    }
}
