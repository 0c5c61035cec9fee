ghost use Rattle.std.specs.Prelude.{◌≡◌, ◌≢◌, ◌<◌, ◌≤◌, ◌+◌, ◌==◌, [], MatchBool, IfSome, length, replicate};
ghost use Rattle.std.specs.List.{All};
ghost use Rattle.std.specs.Int.{bit_at};
ghost use Rattle.machine.specs.ThreadSets.{IsLeastFrom, most_members};
ghost use Rattle.machine.specs.ThreadSets.{set_of, has, has_bit, with_bit, with_thread, IsMember, HasMember, SetsSo};
ghost use Rattle.machine.specs.ThreadSets.{OneForm};

// The words of a set of several threads, with a bit for each number from 1 to 1,024.
pub(crate) const WORDS: usize = 16;

/// A set of threads with numbers from 1 to 1,000. It takes no memory. Each set has one form, so two are equal just where
/// they have the same threads.
#[derive(Clone, Copy, PartialEq, Eq, Debug)]
pub enum ThreadSet {
    /// No thread.
    Nobody,
    /// One thread.
    Single(u32),
    /// Two threads or more: thread t has bit (t - 1) % 64 of word (t - 1) / 64.
    Several([u64; WORDS]),
}

impl ThreadSet {
    /// The set of no thread.
    pub fn new() -> ThreadSet
        ensures { result ≡ set_of [] }
    {
        ThreadSet::Nobody
    }

    /// The set of these threads, which are from 1 to 1,000.
    pub fn of(threads: &[u32]) -> ThreadSet
        requires { All IsMember threads.now }
        ensures { result ≡ set_of threads.now }
    {
        let mut set = ThreadSet::Nobody;
        set.put(threads);
        set
    }

    /// Becomes the set of no thread. A set is written whole, so one of no thread is left as it is.
    pub fn clear(&mut self)
        ensures { self.new ≡ set_of [] }
    {
        if !self.is_empty() {
            *self = ThreadSet::Nobody;
        }
    }

    /// Becomes the set of these threads, which are from 1 to 1,000.
    #[inline(always)]
    pub fn put(&mut self, threads: &[u32])
        requires { All IsMember threads.now }
        ensures { self.new ≡ set_of threads.now }
    {
        match threads {
            [] => self.clear(),
            [t] => *self = ThreadSet::Single(*t),
            _ => self.put_several(threads),
        }
    }

    // The same of several threads. Apart, since most calls have one at most.
    #[inline(never)]
    fn put_several(&mut self, threads: &[u32])
        requires { All IsMember threads.now }
        ensures { self.new ≡ set_of threads.now }
    {
        self.clear();
        for t in threads {
            self.insert(*t);
        }
    }

    // Puts a thread in.
    fn insert(&mut self, t: u32)
        requires fits { HasMember self.old }
        requires thread { IsMember t }
        ensures { self.new ≡ with_thread self.old t }
    {
        match self {
            ThreadSet::Nobody => *self = ThreadSet::Single(t),
            ThreadSet::Single(u) => {
                let one = *u;
                if t != one {
                    *self = ThreadSet::Several(two(one, t));
                }
            }
            ThreadSet::Several(words) => put_bit(words, t),
        }
    }

    /// Whether thread `t`, from 1 to 1,000, is one of them.
    pub fn contains(&self, t: u32) -> bool
        requires { IsMember t }
        ensures { result ≡ has self.now t }
    {
        match self {
            ThreadSet::Nobody => false,
            ThreadSet::Single(u) => t == *u,
            ThreadSet::Several(words) => has_bit(words, t),
        }
    }

    /// The least thread of the set from `t` on, if there is one.
    #[tactic(auto, using(crate::proofs::Leasts::single_from, crate::proofs::Leasts::single_past))]
    pub fn next_from(&self, t: u32) -> Option<u32>
        requires { (1 ≤ t) × (t ≤ most_members + 1) }
        ensures { IsLeastFrom (has self.now) t result }
    {
        match self {
            ThreadSet::Nobody => None,
            ThreadSet::Single(u) => { if t <= *u { Some(*u) } else { None } }
            ThreadSet::Several(words) => least_from(words, t),
        }
    }

    /// Whether there is none.
    pub fn is_empty(&self) -> bool
        ensures { MatchBool result (self.now ≡ set_of []) (self.now ≢ set_of []) }
    {
        matches!(self, ThreadSet::Nobody)
    }
}

// The words of two threads.
fn two(one: u32, other: u32) -> [u64; WORDS]
    requires { IsMember one × IsMember other }
    ensures { result ≡ with_bit (with_bit (replicate 16 0) one) other }
{
    let mut words = [0; WORDS];
    put_bit(&mut words, one);
    put_bit(&mut words, other);
    words
}

// Sets the bit of a thread.
#[tactic(auto, using(crate::proofs::Sets::bit_fits))]
fn put_bit(words: &mut [u64; WORDS], t: u32)
    requires { IsMember t }
    ensures { words.new ≡ with_bit words.old t }
{
    words[(t as usize - 1) / 64] |= 1 << ((t - 1) % 64);
}

// Whether the bit of a thread is set.
#[tactic(auto, using(std::proofs::lemmas::Nat::Bits::shr_and_one))]
pub(crate) fn has_bit(words: &[u64; WORDS], t: u32) -> bool
    requires { IsMember t }
    ensures { result ≡ has_bit words.now t }
{
    words[(t as usize - 1) / 64] >> ((t - 1) % 64) & 1 == 1
}

// The place of the lowest bit of a word from `low` on, if one is set there.
#[tactic(auto, using(crate::proofs::Leasts::none_from, crate::proofs::Leasts::some_from, crate::proofs::Leasts::some_inside))]
pub(crate) fn lowest_from(word: u64, low: u32) -> Option<u32>
    requires { low < 64 }
    ensures least { IsLeastFrom (λ i. bit_at word i == 1) low result }
    ensures inside { IfSome result (λ k. k < 64) }
{
    let left = word >> low;
    if left == 0 {
        return None;
    }
    Some(low + left.trailing_zeros())
}

// The least thread from `t` on whose bit is set in these words, which are all of a set or the first ones.
pub(crate) fn least_from(words: &[u64], t: u32) -> Option<u32>
    requires words { length words.now ≤ 16 }
    requires from { (1 ≤ t) × (t ≤ most_members + 1) }
    ensures { IsLeastFrom (has_bit words.now) t result }
{
    let mut low = (t - 1) % 64;
    for place in (t as usize - 1) / 64..words.len() {
        if let Some(k) = lowest_from(words[place], low) {
            return Some(64 * place as u32 + k + 1);
        }
        low = 0;
    }
    None
}

/// The set of a list has the threads of the list and no others, and lists of the same threads have one set.
#[tactic(auto, using(crate::proofs::Sets::sets_so, crate::proofs::Sets::one_form))]
pub fn thread_set_laws()
    ensures members { SetsSo }
    ensures form { OneForm }
{}
