//! Sets of threads into which others go, and out of which they come, all at once.
ghost use Rattle.std.specs.Prelude.{◌≡◌, ◌≢◌, ◌<◌, ◌≤◌, ◌+◌, ◌-◌, ◌⊎◌, ◌==◌, ℕ, min, true, false, IfSome};
ghost use Rattle.std.specs.Int.{bit_at};
ghost use Rattle.machine.specs.ThreadSets.{IsLeastFrom, IsMember, has_bit, most_members, with_turned};

// How many words a set has.
const WORDS: usize = 16;

/// Threads from 1 to 1,024: thread t has bit (t - 1) % 64 of word (t - 1) / 64.
#[derive(Clone, Copy)]
pub struct ThreadBits {
    words: [u64; WORDS],
}

impl ThreadBits {
    /// No thread.
    pub fn none() -> ThreadBits
        ensures { (t : ℕ) → has_bit result.words t ≡ false }
    {
        ThreadBits { words: [0; WORDS] }
    }

    /// All of them.
    pub fn all() -> ThreadBits
        ensures { (t : ℕ) → IsMember t → has_bit result.words t ≡ true }
    {
        ThreadBits {
            words: [u64::MAX; WORDS],
        }
    }

    /// Whether thread `t` is one of them.
    #[tactic(auto, using(std::proofs::lemmas::Nat::Bits::shr_and_one))]
    pub fn contains(&self, t: u32) -> bool
        requires { IsMember t }
        ensures { result ≡ has_bit self.now.words t }
    {
        self.words[(t as usize - 1) / 64] >> ((t - 1) % 64) & 1 == 1
    }

    /// Puts thread `t` in or takes it out. Nothing is written where that is so already.
    #[tactic(auto, using(machine::proofs::Bits::turned_here, machine::proofs::Bits::turned_there, machine::proofs::Bits::turned_to))]
    pub fn put(&mut self, t: u32, is_in: bool)
        requires { IsMember t }
        ensures here { has_bit self.new.words t ≡ is_in }
        ensures others { (u : ℕ) → 1 ≤ u → u ≢ t → has_bit self.new.words u ≡ has_bit self.old.words u }
    {
        if self.contains(t) != is_in {
            self.turn(t);
        }
    }

    // Turns the bit of a thread over.
    #[tactic(auto, using(machine::proofs::Sets::bit_fits))]
    fn turn(&mut self, t: u32)
        requires { IsMember t }
        ensures { self.new.words ≡ with_turned self.old.words t }
    {
        self.words[(t as usize - 1) / 64] ^= 1 << ((t - 1) % 64);
    }

    /// Puts all threads of another set in.
    pub fn put_all(&mut self, others: &ThreadBits)
        ensures { (t : ℕ) → has_bit self.new.words t ≡ false
            → (has_bit self.old.words t ≡ false) × (has_bit others.now.words t ≡ false) }
    {
        for place in 0..WORDS {
            self.words[place] |= others.words[place];
        }
    }

    /// Takes all threads of another set out.
    pub fn take_all(&mut self, others: &ThreadBits)
        ensures { (t : ℕ) → has_bit self.new.words t ≡ false
            → (has_bit self.old.words t ≡ false) ⊎ (has_bit others.now.words t ≡ true) }
    {
        for place in 0..WORDS {
            self.words[place] = without(self.words[place], others.words[place]);
        }
    }

    /// The least thread from `t` on, if there is one.
    pub fn next_from(&self, t: u32) -> Option<u32>
        requires { (1 ≤ t) × (t ≤ most_members + 1) }
        ensures least { IsLeastFrom (has_bit self.now.words) t result }
        ensures inside { IfSome result (λ u. u ≤ 1024) }
    {
        let mut low = (t - 1) % 64;
        for place in (t as usize - 1) / 64..WORDS {
            if let Some(k) = lowest_from(self.words[place], low) {
                return Some(64 * place as u32 + k + 1);
            }
            low = 0;
        }
        None
    }
}

// A word without the bits of another.
#[tactic(auto, using(crate::proofs::Joining::without_so))]
fn without(word: u64, other: u64) -> u64
    ensures { (k : ℕ) → k < 64 → bit_at result k ≡ min (bit_at word k) (1 - bit_at other k) }
{
    word & !other
}

/// The place of the lowest bit of a word from `low` on, if one is set there.
#[tactic(auto, using(machine::proofs::Leasts::none_from, machine::proofs::Leasts::some_from, machine::proofs::Leasts::some_inside))]
pub fn lowest_from(word: u64, low: u32) -> Option<u32>
    requires { low < 64 }
    ensures least { IsLeastFrom (λ i. bit_at word i == 1) low result }
    ensures inside { IfSome result (λ k. k < 64) }
{
    let left = word >> low;
    if left == 0 {
        return None;
    }
    Some(low + left.trailing_zeros())
}
