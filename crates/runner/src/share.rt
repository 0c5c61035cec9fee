ghost use Rattle.std.specs.Prelude.{◌≡◌, ◌+◌, ◌<◌, ◌≤◌, ◌^◌};

use crate::naming::RunName;
use std::marker::Model;
use std::sync::ledger;
use std::sync::ledger::Book;

/// How many parts the count of a run's entries is cut into.
pub const PARTS: u32 = 1024;

/// A count of entries of run `J`, for one worker or several, and how many parts of the whole count it has, from 1 to
/// `PARTS`.
#[derive(Drop)]
pub struct Share<J: RunName> {
    pub(crate) inner: ledger::Share<J>,
    pub(crate) parts: u32,
    pub(crate) count: u128,
}

impl<J: RunName> Model for Share<J> {
    ghost use Rattle.runner.specs.Views.{ShareView};
    ghost use Rattle.runner.specs.Legal.{IsShare};

    ghost Value = { ShareView };

    ghost view = { λ s. record { parts = s.parts; count = s.count } };

    ghost invariant = { λ s. IsShare J.parts s.inner.parts s.inner.amount s.parts s.count };
}

impl<J: RunName> Share<J> {
    /// How many entries it counted.
    pub fn count(&self) -> u128
        ensures { result ≡ self.now.count }
    {
        self.count
    }

    /// How many parts it has.
    pub fn parts(&self) -> u32
        ensures { result ≡ self.now.parts }
    {
        self.parts
    }

    /// Takes in another share, with its parts and its count.
    pub fn merge(&mut self, other: Share<J>)
        ensures parts { self.new.parts ≡ self.old.parts + other.parts }
        ensures count { self.new.count ≡ self.old.count + other.count }
    {
        let Share {
            inner,
            parts,
            count,
        } = other;
        self.inner.merge(inner);
        self.parts += parts;
        self.count += count;
    }

    /// Counts one entry more, here and in the book.
    #[inline(always)]
    pub(crate) fn count_one(&mut self, book: &mut Book<J>)
        requires { book.old.total < 2 ^ 64 }
        ensures count { self.new ≡ record self.old { count = self.old.count + 1 } }
        ensures total { book.new.total ≡ book.old.total + 1 }
    {
        book.audit(&mut self.inner);
        book.add(&mut self.inner, 1);
        self.count += 1;
    }

    /// Counts so many entries more.
    pub(crate) fn count_all(&mut self, book: &mut Book<J>, count: usize)
        requires { book.old.total + count ≤ 2 ^ 64 }
        ensures count { self.new ≡ record self.old { count = self.old.count + count } }
        ensures total { book.new.total ≡ book.old.total + count }
    {
        book.audit(&mut self.inner);
        book.add(&mut self.inner, count as u64);
        self.count += count as u128;
    }
}
