//! Accesses that a thread made on words of its own, ahead of the machine, and how the machine takes them in.
ghost use Rattle.std.specs.Prelude.{ℕ, ◌≡◌, ◌+◌, ◌≤◌, ◌++◌, List, MatchBool, length};
ghost use Rattle.machine.specs.Speculation.{Finds, FindsAll, LeadsTo, words_after};

use crate::common::Common;
use arrayvec::ArrayVec;
use locals::{Access, AccessKind};
use words::Mem;

// Of so many accesses at a time the words before them are kept.
const FEW: usize = 64;

/// An access to a word that a thread made on words of its own, ahead of the machine. On the machine it is the same where
/// the word is there that it found, and a store is in any case.
#[derive(Clone, Copy, PartialEq, Eq, Debug)]
pub struct SpeculativeAccess {
    /// How many local steps came before it.
    pub local: u32,
    /// The access, as it is told.
    pub access: Access,
    /// The word that it left.
    pub after: u32,
}

impl SpeculativeAccess {
    // Whether the word is there that it wants.
    fn finds(&self, words: &Mem) -> bool
        ensures { MatchBool result (Finds self.now words.now) (Finds self.now words.now → ⊥) }
    {
        let Access {
            kind,
            address,
            value,
        } = self.access;
        (address.0 as usize) < words.len()
            && (kind == AccessKind::Store || words.load(address) == value)
    }
}

/// Makes these accesses on what is shared, one after the other, if each finds its word. Else nothing has changed.
pub fn commit_accesses(shared: &mut Common, accesses: &[SpeculativeAccess]) -> bool
    ensures { MatchBool result (FindsAll accesses.now shared.old.words
        × (shared.new ≡ record shared.old { words = words_after accesses.now shared.old.words }))
        ((FindsAll accesses.now shared.old.words → ⊥) × (shared.new ≡ shared.old)) }
{
    let Common { words, .. } = shared;
    commit_on(words, accesses)
}

// The same on the words: so many at a time, of which the words that were there before are kept, to take them back.
fn commit_on(words: &mut Mem, accesses: &[SpeculativeAccess]) -> bool
    ensures made { MatchBool result
        (FindsAll accesses.now words.old × (words.new ≡ words_after accesses.now words.old))
        ((FindsAll accesses.now words.old → ⊥) × (words.new ≡ words.old)) }
    ensures long { length words.new ≡ length words.old }
{
    if accesses.is_empty() {
        return true;
    }
    let (first, rest) = accesses.split_at(FEW.min(accesses.len()));
    let mut before = ArrayVec::new();
    if make_all(words, first, &mut before) && commit_on(words, rest) {
        return true;
    }
    take_back(words, first, before.as_slice());
    false
}

// Makes these accesses, up to one that doesn't find its word, and notes the words that were there before. Answers whether all
// found theirs. It calls itself last of all, so that it is a loop.
fn make_all(
    words: &mut Mem,
    accesses: &[SpeculativeAccess],
    before: &mut ArrayVec<u32, FEW>,
) -> bool
    requires room { length before.old.items + length accesses.now ≤ 64 }
    ensures made { (more : List ℕ) × (before.new.items ≡ before.old.items ++ more)
        × LeadsTo accesses.now more words.old words.new }
    ensures whole { MatchBool result
        (FindsAll accesses.now words.old × (words.new ≡ words_after accesses.now words.old))
        (FindsAll accesses.now words.old → ⊥) }
{
    let Some((first, rest)) = accesses.split_first() else {
        return true;
    };
    if !first.finds(words) {
        return false;
    }
    let address = first.access.address;
    before.push(words.load(address));
    words.store(address, first.after);
    make_all(words, rest, before)
}

// Takes as many of these accesses back as there are words before them, the last one first.
#[cold]
#[inline(never)]
fn take_back(words: &mut Mem, accesses: &[SpeculativeAccess], before: &[u32])
    requires { (start : List ℕ) × LeadsTo accesses.now before.now start words.old }
    ensures { (start : List ℕ) → LeadsTo accesses.now before.now start words.old → words.new ≡ start }
{
    let (Some((first, rest)), Some((word, more))) = (accesses.split_first(), before.split_first())
    else {
        return;
    };
    take_back(words, rest, more);
    words.store(first.access.address, *word);
}
