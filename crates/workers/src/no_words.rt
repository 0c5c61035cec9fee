ghost use Rattle.std.specs.Prelude.{◌≡◌, []};

use std::alloc::{AllocError, Global};
use words::Mem;

/// A memory without a word, on which a worker takes local steps: the words are under the lock.
#[derive(Drop)]
pub struct NoWords {
    /// The memory.
    pub mem: Mem,
    ghost none: { mem ≡ [] },
}

impl NoWords {
    /// One.
    pub fn new(alloc: Global) -> Result<NoWords, AllocError> {
        Ok(NoWords {
            mem: Mem::new(alloc, 0)?,
        })
    }
}
