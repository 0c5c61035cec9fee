ghost use Rattle.std.specs.Prelude.{◌≡◌, ◌+◌, [], length, IfOk};

use buckets::ThreadList;
use std::alloc::{AllocError, Global};

/// Where futex calls write the threads that they woke and those that they moved, each in the order in which they came. It
/// is made once, and lent to each call.
#[derive(Drop, Debug)]
pub struct FutexLists {
    /// Those woken.
    pub woken: ThreadList,
    /// Those moved.
    pub moved: ThreadList,
}

impl FutexLists {
    /// Lists of nobody.
    pub fn new(alloc: Global) -> Result<FutexLists, AllocError>
        ensures woken { IfOk result (λ lists. lists.woken ≡ []) }
        ensures moved { IfOk result (λ lists. lists.moved ≡ []) }
    {
        Ok(FutexLists {
            woken: ThreadList::new(alloc)?,
            moved: ThreadList::new(alloc)?,
        })
    }

    /// How many threads were woken or moved.
    pub fn count(&self) -> u32
        ensures { result ≡ length self.now.woken + length self.now.moved }
    {
        self.woken.len() as u32 + self.moved.len() as u32
    }
}
