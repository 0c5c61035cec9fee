ghost use Rattle.std.specs.Prelude.{◌≡◌, ◌<◌, ◌≤◌, ◌==◌, [], ◌∷◌, ◌++◌, length, IfOk};

use std::alloc::{AllocError, Global};
use std::marker::Model;
use words::MOST_THREADS;

/// A list of threads by their numbers. It is made once, with room for all threads that there can be, and never takes
/// memory afterwards; who wants to be answered threads lends it. Contracts see the list of the numbers.
#[derive(Drop, Debug)]
pub struct ThreadList {
    threads: Vec<u32>,
}

impl Model for ThreadList {
    ghost use Rattle.std.specs.Prelude.{◌≡◌, List, ℕ, vec_capacity};
    ghost use Rattle.words.specs.Limits.{most_threads};

    ghost Value = { List ℕ };

    ghost view = { λ l. l.threads.items };

    ghost invariant = { λ l. vec_capacity l.threads ≡ most_threads };
}

impl ThreadList {
    /// A list of no thread.
    pub fn new(alloc: Global) -> Result<ThreadList, AllocError>
        ensures { IfOk result (λ l. l ≡ []) }
    {
        Ok(ThreadList {
            threads: Vec::with_capacity(alloc, MOST_THREADS as usize)?,
        })
    }

    /// Appends a thread.
    pub fn push(&mut self, thread: u32)
        requires { length self.old < MOST_THREADS }
        ensures { self.new ≡ self.old ++ thread ∷ [] }
    {
        self.threads.push_reserved(thread);
    }

    /// Takes all threads out.
    pub fn clear(&mut self)
        ensures { self.new ≡ [] }
    {
        self.threads.clear();
    }

    /// How many threads there are.
    pub fn len(&self) -> usize
        ensures value { result ≡ length self.now }
        ensures most { result ≤ MOST_THREADS }
    {
        self.threads.len()
    }

    /// Whether there is no thread.
    pub fn is_empty(&self) -> bool
        ensures { result ≡ (length self.now == 0) }
    {
        self.threads.is_empty()
    }

    /// The threads, in order.
    pub fn as_slice(&self) -> &[u32]
        ensures { result.now ≡ self.now }
    {
        self.threads.as_slice()
    }
}
