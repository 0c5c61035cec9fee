ghost use Rattle.std.specs.Prelude.{◌≡◌};
ghost use Rattle.clap.specs.Words.{kind_of};

use clap::Error;
use clap::error::ErrorKind;
use std::alloc::{AllocError, Global};

/// Why the words of a command line ask for no job.
#[derive(Debug, Drop, thiserror::Error)]
pub enum WordsFault {
    /// They are no command, or ask for help: the whole lines that the user is to be told.
    #[error("{0}")]
    Usage(String),
    /// There was no memory.
    #[error("memory")]
    Memory,
}

impl WordsFault {
    // What the command line's parser says.
    pub(crate) fn of_error(alloc: Global, error: &Error) -> WordsFault
        ensures { kind_of error.now ≡ ErrorKind.OutOfMemory → result ≡ WordsFault.Memory }
    {
        if error.kind() == ErrorKind::OutOfMemory {
            return WordsFault::Memory;
        }
        match text_of(alloc, error) {
            Ok(text) => WordsFault::Usage(text),
            Err(AllocError) => WordsFault::Memory,
        }
    }
}

fn text_of(alloc: Global, error: &Error) -> Result<String, AllocError> {
    format!(in alloc; "{error}")
}
