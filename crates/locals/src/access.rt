//! Accesses to words that threads make in their place: who asks for one goes on with its answer at once.
ghost use Rattle.std.specs.Prelude.{◌≡◌, ◌<◌, ◌≤◌, ◌+◌, ◌∷◌, Some, slice_get, length, drop, MatchBool, is_some};
ghost use Rattle.words.specs.Versions.{most_of};
ghost use Rattle.isa.specs.Limits.{most_instructions};
ghost use Rattle.isa.specs.declared.instr.Instr.TheVariants.{Load, Store, Swap, CompareSwap, FetchOr, FetchAdd};
ghost use Rattle.locals.specs.Accesses.{Accessed, accessing};
ghost use Rattle.locals.specs.Views.{looks};

use crate::activation::Activation;
use isa::{Image, Instr};
use words::{Addr, Mem};

/// The kinds of accesses to a word.
#[derive(Clone, Copy, PartialEq, Eq, Debug)]
pub enum AccessKind {
    /// A word read.
    Load,
    /// A word stored.
    Store,
    /// A word swapped.
    Swap,
    /// A compare-and-swap.
    CompareSwap,
    /// Bits set in a word.
    FetchOr,
    /// A number added to a word, modulo 2^32.
    FetchAdd,
}

/// An access to a word that a thread made.
#[derive(Clone, Copy, PartialEq, Eq, Debug)]
pub struct Access {
    /// Its kind.
    pub kind: AccessKind,
    /// Its address.
    pub address: Addr,
    /// The word that was stored, or, of each other kind, the word that was there before.
    pub value: u32,
}

/// Whether an address lies in the memory.
pub fn has(words: &Mem, a: Addr) -> bool
    ensures { MatchBool result (a.0 < length words.now) (length words.now ≤ a.0) }
{
    (a.0 as usize) < words.len()
}

impl Activation {
    /// Makes the access to a word that comes next, where one does and its address lies in the memory, and goes on with its
    /// answer. Else nothing has changed.
    #[inline(always)]
    pub fn access(&mut self, image: &Image, t: u32, words: &mut Mem) -> Option<Access>
        ensures { Accessed result
            (looks (most_of image.now.version) t (slice_get image.now.code self.old.place) self.old)
            words.old self.old words.new self.new }
    {
        match image.at(self.place)? {
            Instr::Load => self.load(words),
            Instr::Store => self.store(words),
            Instr::Swap => self.swap(words),
            Instr::CompareSwap => self.compare_swap(words),
            Instr::FetchOr => self.fetch_or(words),
            Instr::FetchAdd => self.fetch_add(words),
            _ => None,
        }
    }

    /// Whether the next instruction is an access to a word, and its address lies in the memory.
    pub fn has_access(&self, image: &Image, t: u32, words: &Mem) -> bool
        ensures { result ≡ is_some (accessing
            (looks (most_of image.now.version) t (slice_get image.now.code self.now.place) self.now) words.now) }
    {
        match image.at(self.place) {
            Some(Instr::Load) => self.has_address(words),
            Some(Instr::Store) => self.has_address_below(words),
            Some(Instr::Swap) => self.has_address_below(words),
            Some(Instr::FetchOr) => self.has_address_below(words),
            Some(Instr::FetchAdd) => self.has_address_below(words),
            Some(Instr::CompareSwap) => match self.operands.top_three() {
                Some((a, _, _)) => has(words, Addr(a)),
                None => false,
            },
            _ => false,
        }
    }

    // Whether the top operand is the address of a word.
    fn has_address(&self, words: &Mem) -> bool
        ensures { result ≡ is_some (accessing (looks 0 0 (Some Load) self.now) words.now) }
    {
        match self.operands.top() {
            Some(a) => has(words, Addr(a)),
            None => false,
        }
    }

    // Whether the operand below the top one is the address of a word.
    fn has_address_below(&self, words: &Mem) -> bool
        ensures store { result ≡ is_some (accessing (looks 0 0 (Some Store) self.now) words.now) }
        ensures swap { result ≡ is_some (accessing (looks 0 0 (Some Swap) self.now) words.now) }
        ensures or { result ≡ is_some (accessing (looks 0 0 (Some FetchOr) self.now) words.now) }
        ensures add { result ≡ is_some (accessing (looks 0 0 (Some FetchAdd) self.now) words.now) }
    {
        match self.operands.top_two() {
            Some((a, _)) => has(words, Addr(a)),
            None => false,
        }
    }

    #[inline(always)]
    pub(crate) fn load(&mut self, words: &Mem) -> Option<Access>
        requires { self.old.place < most_instructions }
        ensures { Accessed result (looks 0 0 (Some Load) self.old) words.now self.old words.now self.new }
    {
        let a = Addr(self.operands.top()?);
        if !has(words, a) {
            return None;
        }
        let value = words.load(a);
        self.answer_access(1, value);
        Some(Access {
            kind: AccessKind::Load,
            address: a,
            value,
        })
    }

    #[inline(always)]
    pub(crate) fn store(&mut self, words: &mut Mem) -> Option<Access>
        requires { self.old.place < most_instructions }
        ensures { Accessed result (looks 0 0 (Some Store) self.old) words.old self.old words.new self.new }
    {
        let (a, value) = self.operands.top_two()?;
        let a = Addr(a);
        if !has(words, a) {
            return None;
        }
        self.operands.drop_top(2);
        self.place += 1;
        words.store(a, value);
        Some(Access {
            kind: AccessKind::Store,
            address: a,
            value,
        })
    }

    #[inline(always)]
    fn swap(&mut self, words: &mut Mem) -> Option<Access>
        requires { self.old.place < most_instructions }
        ensures { Accessed result (looks 0 0 (Some Swap) self.old) words.old self.old words.new self.new }
    {
        let (a, v) = self.operands.top_two()?;
        let a = Addr(a);
        if !has(words, a) {
            return None;
        }
        let value = words.swap(a, v);
        self.answer_access(2, value);
        Some(Access {
            kind: AccessKind::Swap,
            address: a,
            value,
        })
    }

    #[inline(always)]
    fn compare_swap(&mut self, words: &mut Mem) -> Option<Access>
        requires { self.old.place < most_instructions }
        ensures { Accessed result (looks 0 0 (Some CompareSwap) self.old) words.old self.old words.new self.new }
    {
        let (a, expected, new) = self.operands.top_three()?;
        let a = Addr(a);
        if !has(words, a) {
            return None;
        }
        let value = words.compare_swap(a, expected, new);
        self.answer_access(3, value);
        Some(Access {
            kind: AccessKind::CompareSwap,
            address: a,
            value,
        })
    }

    #[inline(always)]
    fn fetch_or(&mut self, words: &mut Mem) -> Option<Access>
        requires { self.old.place < most_instructions }
        ensures { Accessed result (looks 0 0 (Some FetchOr) self.old) words.old self.old words.new self.new }
    {
        let (a, v) = self.operands.top_two()?;
        let a = Addr(a);
        if !has(words, a) {
            return None;
        }
        let value = words.fetch_or(a, v);
        self.answer_access(2, value);
        Some(Access {
            kind: AccessKind::FetchOr,
            address: a,
            value,
        })
    }

    #[inline(always)]
    fn fetch_add(&mut self, words: &mut Mem) -> Option<Access>
        requires { self.old.place < most_instructions }
        ensures { Accessed result (looks 0 0 (Some FetchAdd) self.old) words.old self.old words.new self.new }
    {
        let (a, v) = self.operands.top_two()?;
        let a = Addr(a);
        if !has(words, a) {
            return None;
        }
        let value = words.fetch_add(a, v);
        self.answer_access(2, value);
        Some(Access {
            kind: AccessKind::FetchAdd,
            address: a,
            value,
        })
    }

    // Puts the answer in the place of so many operands, and goes on behind the instruction.
    #[inline(always)]
    fn answer_access(&mut self, operands: usize, answer: u32)
        requires place { self.old.place < most_instructions }
        requires some { (0 < operands) × (operands ≤ length self.old.operands) }
        ensures { self.new ≡ record self.old {
          place = self.old.place + 1;
          operands = answer ∷ drop operands self.old.operands;
        } }
    {
        self.operands.drop_top(operands);
        self.operands.push(answer);
        self.place += 1;
    }
}
