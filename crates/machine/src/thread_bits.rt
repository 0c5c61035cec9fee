//! Which threads can move, with a bit for each.
ghost use Rattle.std.specs.Prelude.{◌≡◌, ◌≢◌, ◌≤◌, ◌<◌, ◌+◌, ℕ, false, replicate, Some, IfSome, IfNone};
ghost use Rattle.machine.specs.ThreadSets.{HasNoneInFirst, IsLeastFrom, IsMember, has_bit, most_members, with_turned};

use crate::thread_set::{WORDS, has_bit, least_from, lowest_from};

/// Threads from 1 to 1,000, of which any may come in and go out: thread t has bit (t - 1) % 64 of word (t - 1) / 64.
#[derive(Drop)]
pub(crate) struct ThreadBits {
    words: [u64; WORDS],
}

impl ThreadBits {
    /// No thread.
    pub(crate) fn new() -> ThreadBits
        ensures { result.words ≡ replicate 16 0 }
    {
        ThreadBits { words: [0; WORDS] }
    }

    /// Whether thread `t` is one of them.
    pub(crate) fn contains(&self, t: u32) -> bool
        requires { IsMember t }
        ensures { result ≡ has_bit self.now.words t }
    {
        has_bit(&self.words, t)
    }

    /// Puts thread `t` in or takes it out. Nothing is written where that is so already.
    #[tactic(auto, using(crate::proofs::Bits::turned_here, crate::proofs::Bits::turned_there, crate::proofs::Bits::turned_to))]
    pub(crate) fn put(&mut self, t: u32, is_in: bool)
        requires { IsMember t }
        ensures here { has_bit self.new.words t ≡ is_in }
        ensures others { (u : ℕ) → 1 ≤ u → u ≢ t → has_bit self.new.words u ≡ has_bit self.old.words u }
    {
        if self.contains(t) != is_in {
            turn_bit(&mut self.words, t);
        }
    }

    /// The least thread behind `t` by the first word, if it has one.
    #[inline(always)]
    #[tactic(auto, using(crate::proofs::Leasts::first_found, crate::proofs::Leasts::first_none, crate::proofs::Leasts::first_past))]
    pub(crate) fn first_behind(&self, t: u32) -> Option<u32>
        ensures some { IfSome result (λ u. IsLeastFrom (has_bit self.now.words) (t + 1) (Some u)) }
        ensures none { IfNone result (HasNoneInFirst self.now.words t) }
    {
        if t >= 64 {
            return None;
        }
        let place = lowest_from(self.words[0], t)?;
        Some(place + 1)
    }

    /// The least thread behind `t`, if there is one, where the first word has none. None is past `last`, so the words behind
    /// its own aren't looked at.
    #[inline(always)]
    #[tactic(auto, using(crate::proofs::Leasts::rest_few, crate::proofs::Leasts::rest_past))]
    pub(crate) fn next_of_rest(&self, t: u32, last: u32) -> Option<u32>
        requires first { HasNoneInFirst self.now.words t }
        requires last { last ≤ most_members }
        requires none { (u : ℕ) → last < u → has_bit self.now.words u ≡ false }
        ensures { IsLeastFrom (has_bit self.now.words) (t + 1) result }
    {
        if last <= 64 || t >= last {
            return None;
        }
        self.next_of_many(t + 1, last)
    }

    // The least thread from `t` on by as many words as have a thread. Apart, so that nothing of it is worked out where there
    // is one word.
    #[inline(never)]
    fn next_of_many(&self, t: u32, last: u32) -> Option<u32>
        requires from { (1 ≤ t) × (t ≤ last) }
        requires last { last ≤ most_members }
        requires none { (u : ℕ) → last < u → has_bit self.now.words u ≡ false }
        ensures { IsLeastFrom (has_bit self.now.words) t result }
    {
        let words = (last as usize).div_ceil(64);
        least_from(&self.words[..words], t)
    }
}

// Turns the bit of a thread over.
#[tactic(auto, using(crate::proofs::Sets::bit_fits))]
fn turn_bit(words: &mut [u64; WORDS], t: u32)
    requires { IsMember t }
    ensures { words.new ≡ with_turned words.old t }
{
    words[(t as usize - 1) / 64] ^= 1 << ((t - 1) % 64);
}
