ghost use Rattle.std.specs.Prelude.{◌≡◌, ◌+◌, ◌%◌, ◌^◌, ◌<◌, length, replicate, IfOk, if◌then◌else◌, ◌==◌, Some};
ghost use Rattle.std.specs.Prelude.{slice_get, slice_set};
ghost use Rattle.std.specs.Int.Bits.{bit_or};

use std::alloc::{AllocError, Global};
use std::marker::Model;
use std::mem;

/// The number of a word of the memory, from 0.
#[derive(Clone, Copy, PartialEq, Eq, PartialOrd, Ord, Debug, Hash)]
pub struct Addr(pub u32);

/// A memory of words of 32 bits. Contracts see the list of its words.
#[derive(Drop)]
pub struct Mem {
    words: Vec<u32>,
}

impl Model for Mem {
    ghost use Rattle.std.specs.Prelude.{List, ℕ};

    ghost Value = { List ℕ };

    ghost view = { λ m. m.words.items };
}

impl Mem {
    /// A memory of `len` words that are all 0.
    pub fn new(alloc: Global, len: usize) -> Result<Mem, AllocError>
        ensures { IfOk result (λ m. m ≡ replicate len 0) }
    {
        Ok(Mem {
            words: vec![in alloc; 0; len]?,
        })
    }

    /// How many words there are.
    pub fn len(&self) -> usize
        ensures { result ≡ length self.now }
    {
        self.words.len()
    }

    /// Whether there is no word.
    pub fn is_empty(&self) -> bool
        ensures { result ≡ (length self.now == 0) }
    {
        self.words.is_empty()
    }

    /// The word at an address.
    pub fn load(&self, a: Addr) -> u32
        requires { a.0 < length self.now }
        ensures { slice_get self.now a.0 ≡ Some result }
    {
        self.words.as_slice()[a.0 as usize]
    }

    /// Puts a word at an address.
    pub fn store(&mut self, a: Addr, v: u32)
        requires { a.0 < length self.old }
        ensures { self.new ≡ slice_set self.old a.0 v }
    {
        self.words[a.0 as usize] = v;
    }

    /// Puts `new` at an address where the word is `expected`, and answers the word before.
    pub fn compare_swap(&mut self, a: Addr, expected: u32, new: u32) -> u32
        requires { a.0 < length self.old }
        ensures before { slice_get self.old a.0 ≡ Some result }
        ensures after { self.new ≡ (if result == expected then slice_set self.old a.0 new else
            self.old) }
    {
        let old = self.words[a.0 as usize];
        if old == expected {
            self.words[a.0 as usize] = new;
        }
        old
    }

    /// Puts a word at an address, and answers the word before.
    pub fn swap(&mut self, a: Addr, v: u32) -> u32
        requires { a.0 < length self.old }
        ensures before { slice_get self.old a.0 ≡ Some result }
        ensures after { self.new ≡ slice_set self.old a.0 v }
    {
        mem::replace(&mut self.words[a.0 as usize], v)
    }

    /// Sets the bits of `v` in the word at an address, and answers the word before.
    pub fn fetch_or(&mut self, a: Addr, v: u32) -> u32
        requires { a.0 < length self.old }
        ensures before { slice_get self.old a.0 ≡ Some result }
        ensures after { self.new ≡ slice_set self.old a.0 (bit_or result v) }
    {
        let old = self.words[a.0 as usize];
        self.words[a.0 as usize] = old | v;
        old
    }

    /// Adds `v` to the word at an address, modulo 2^32, and answers the word before.
    pub fn fetch_add(&mut self, a: Addr, v: u32) -> u32
        requires { a.0 < length self.old }
        ensures before { slice_get self.old a.0 ≡ Some result }
        ensures after { self.new ≡ slice_set self.old a.0 ((result + v) % 2 ^ 32) }
    {
        let old = self.words[a.0 as usize];
        self.words[a.0 as usize] = old.wrapping_add(v);
        old
    }
}
