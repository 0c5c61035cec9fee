ghost use Rattle.std.specs.Prelude.{◌≡◌, ◌-◌, ◌≤◌, ◌<◌, ℕ, [], None, IfOk, OnOk, OnErr, length, replicate};
ghost use Rattle.std.specs.Prelude.{slice_get, slice_set, Some};
ghost use Rattle.words.specs.Limits.{most_threads};
ghost use Rattle.words.specs.Versions.{most_of};
ghost use Rattle.words.specs.Updates.{put};
ghost use Rattle.isa.specs.Programs.{memory_size};
ghost use Rattle.buckets.specs.BucketCount.{IsBucketCount};
ghost use Rattle.buckets.specs.Sleepers.{queue, place_of, thread_count, bucket_count, holder_of};
ghost use Rattle.machine.specs.Views.{address_of, common};
ghost use Rattle.machine.specs.ConcreteOutside.{drop_sleeper};

use crate::parts::{opening_words, thread_limit};
use buckets::Buckets;
use futexcalls::FutexLists;
use isa::Image;
use std::alloc::{AllocError, Global};
use std::marker::Model;
use words::{Addr, Mem};

/// What threads share: the words, who sleeps on which address, and the numbers that were printed. Contracts see a
/// `CommonView`. Its methods are what a thread asks of it: accesses, ends, futex calls and exits.
#[derive(Drop)]
pub struct Common {
    pub(crate) words: Mem,
    pub(crate) buckets: Buckets,
    pub(crate) output: Vec<i32>,
    // Where calls write whom they woke and moved. No call reads what an earlier one wrote.
    pub(crate) lists: FutexLists,
}

impl Model for Common {
    ghost use Rattle.std.specs.Prelude.{vec_capacity};
    ghost use Rattle.machine.specs.Views.{CommonView, IsCommon};

    ghost Value = { CommonView };

    ghost view = { λ c. record {
      words = c.words;
      sleepers = c.buckets;
      output = c.output.items;
      capacity = vec_capacity c.output;
    } };

    ghost invariant = { λ c. IsCommon c.words c.buckets };
}

impl Common {
    /// What is shared at the start of an image, by as many threads as its version says, over so many buckets of sleepers.
    pub fn new(alloc: Global, image: &Image, buckets: u32) -> Result<Common, AllocError>
        requires { IsBucketCount buckets }
        ensures words { IfOk result (λ c. c.words
            ≡ slice_set (replicate (memory_size image.now) 0) 3 1) }
        ensures empty { IfOk result (λ c. (a : ℕ) → queue c.sleepers a ≡ []) }
        ensures awake { IfOk result (λ c. (t : ℕ) → place_of c.sleepers t ≡ None) }
        ensures threads { IfOk result (λ c. thread_count c.sleepers ≡ most_of image.now.version) }
        ensures few { IfOk result (λ c. thread_count c.sleepers ≤ most_threads) }
        ensures output { IfOk result (λ c. c.output ≡ []) }
        ensures buckets { IfOk result (λ c. bucket_count c.sleepers ≡ buckets) }
        ensures free { IfOk result (λ c. (k : ℕ) → holder_of c.sleepers k ≡ None) }
    {
        Ok(Common {
            words: opening_words(alloc, image)?,
            buckets: Buckets::new(alloc, buckets, thread_limit(image))?,
            output: Vec::new(alloc),
            lists: FutexLists::new(alloc)?,
        })
    }

    /// Makes room for `n` printed numbers at least. It is refused only where there is less room.
    #[inline(always)]
    pub fn make_room(&mut self, n: usize) -> Result<(), AllocError>
        ensures room { OnOk result (n ≤ self.new.capacity - length self.new.output) }
        ensures err { OnErr result ((self.old.capacity - length self.old.output < n)
            × (self.new.capacity ≡ self.old.capacity)) }
        ensures same { (self.new.words ≡ self.old.words) × (self.new.sleepers ≡ self.old.sleepers)
            × (self.new.output ≡ self.old.output) }
    {
        self.output.reserve(n)
    }

    /// How many numbers can be printed before room has to be made.
    pub fn room(&self) -> usize
        ensures { result ≡ self.now.capacity - length self.now.output }
    {
        self.output.capacity() - self.output.len()
    }

    /// How many words the memory has.
    pub fn memory_len(&self) -> usize
        ensures { result ≡ length self.now.words }
    {
        self.words.len()
    }

    /// The word at an address.
    pub fn word(&self, a: Addr) -> u32
        requires { a.0 < length self.now.words }
        ensures { slice_get self.now.words a.0 ≡ Some result }
    {
        self.words.load(a)
    }

    /// How many threads there can be.
    pub fn threads(&self) -> u32
        ensures { result ≡ thread_count self.now.sleepers }
    {
        self.buckets.threads()
    }

    /// Where thread `t` sleeps, if it does.
    pub fn asleep(&self, t: u32) -> Option<Addr>
        requires { (0 < t) × (t ≤ thread_count self.now.sleepers) }
        ensures { address_of result ≡ place_of self.now.sleepers t }
    {
        self.buckets.asleep(t)
    }

    /// Takes thread `t` out of its list, if it sleeps: it is awake then.
    pub fn drop_sleeper(&mut self, t: u32)
        requires { t ≤ thread_count self.old.sleepers }
        ensures dropped { common self.new ≡ drop_sleeper (common self.old) t }
        ensures capacity { self.new.capacity ≡ self.old.capacity }
        ensures holders { self.new.sleepers.holders ≡ self.old.sleepers.holders }
    {
        self.buckets.drop_out(t)
    }

    /// The thread that holds bucket `k`, if one does.
    pub fn holder(&self, k: u32) -> Option<u32>
        requires { k < bucket_count self.now.sleepers }
        ensures { result ≡ holder_of self.now.sleepers k }
    {
        self.buckets.holder(k)
    }

    /// Thread `t` gives up bucket `k`, which it holds.
    pub fn release(&mut self, t: u32, k: u32)
        requires inside { k < bucket_count self.old.sleepers }
        requires held { holder_of self.old.sleepers k ≡ Some t }
        ensures holder { holder_of self.new.sleepers ≡ put (holder_of self.old.sleepers) k None }
        ensures count { bucket_count self.new.sleepers ≡ bucket_count self.old.sleepers }
        ensures same { common self.new ≡ common self.old }
        ensures capacity { self.new.capacity ≡ self.old.capacity }
    {
        self.buckets.release(t, k)
    }

    /// The numbers that were printed.
    pub fn output(&self) -> &[i32]
        ensures { result.now ≡ self.now.output }
    {
        self.output.as_slice()
    }
}
