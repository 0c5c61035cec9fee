ghost use Rattle.std.specs.Prelude.{◌≡◌, ◌≢◌, ℕ, ◌<◌, ◌≤◌, ◌%◌, ◌++◌, ◌∷◌, [], ◌↔◌, ◌==◌, not, None, Some};
ghost use Rattle.std.specs.Prelude.{if◌then◌else◌, length, take, drop, IfOk, IsTrue};
ghost use Rattle.std.specs.List.{filter};
ghost use Rattle.std.specs.Option.{option_map};
ghost use Rattle.buckets.specs.Places.{with_place};
ghost use Rattle.words.specs.Updates.{put};
ghost use Rattle.buckets.specs.Sleepers.{queue, place_of, thread_count, bucket_count, holder_of, IsSound};
ghost use Rattle.buckets.specs.BucketCount.{IsBucketCount};

use crate::chain::{append, bucket_of, threads_on, unlink};
use crate::node::{Chain, Node};
use crate::sleeper::Sleeper;
use crate::thread_list::ThreadList;
use slab::Slab;
use std::alloc::{AllocError, Global};
use std::marker::Model;
use words::{Addr, MOST_THREADS};

/// The threads that sleep, in buckets: for each address a list of its sleepers, in the order in which they came to it.
/// A thread stands in at most one list. A thread can hold a bucket while it goes through a call in pieces; no call here
/// looks at that. A call that answers threads writes them into a list that its caller lends. Contracts read the list of
/// an address by `queue`, the address on which a thread sleeps by `place_of`, and who holds a bucket by `holder_of`. After
/// `new` no call takes memory: what it takes grows with the threads, and with the buckets by two keys and a number each.
#[derive(Drop)]
pub struct Buckets {
    // A node for each sleeper, with room for all threads.
    nodes: Slab<Node>,
    // The chain of each bucket's nodes.
    chains: Vec<Chain>,
    // For each thread from 0 where it sleeps. There is no thread 0.
    places: Vec<Option<Addr>>,
    // For each bucket the thread that holds it.
    holders: Vec<Option<u32>>,
}

impl Model for Buckets {
    ghost use Rattle.std.specs.Prelude.{◌-◌, length};
    ghost use Rattle.slab.specs.Slab.{get};
    ghost use Rattle.buckets.specs.Sleepers.{Sleepers};
    ghost use Rattle.buckets.specs.Lists.{concatenation};
    ghost use Rattle.buckets.specs.Chains.{rows, IsStored};

    ghost Value = { Sleepers };

    ghost view = { λ b. record {
      places = b.places.items;
      waiting = concatenation (rows (get b.nodes) (length b.places.items - 1) b.chains.items);
      holders = b.holders.items;
    } };

    ghost invariant = { λ b. IsStored b.nodes b.chains.items b.places.items b.holders.items };
}

impl Buckets {
    /// Whether there can be `n` buckets: a power of two from 1 to 256.
    pub fn allowed(n: u32) -> bool
        ensures { IsTrue result ↔ IsBucketCount n }
    {
        matches!(n, 1 | 2 | 4 | 8 | 16 | 32 | 64 | 128 | 256)
    }

    /// `n` buckets, which nobody holds, with nobody asleep, and room for `threads` threads, with the numbers from 1 to
    /// `threads`.
    pub fn new(alloc: Global, n: u32, threads: u32) -> Result<Buckets, AllocError>
        requires allowed { IsBucketCount n }
        requires few { threads ≤ MOST_THREADS }
        ensures empty { IfOk result (λ b. (a : ℕ) → queue b a ≡ []) }
        ensures awake { IfOk result (λ b. (t : ℕ) → place_of b t ≡ None) }
        ensures threads { IfOk result (λ b. thread_count b ≡ threads) }
        ensures count { IfOk result (λ b. bucket_count b ≡ n) }
        ensures free { IfOk result (λ b. (k : ℕ) → holder_of b k ≡ None) }
        ensures sound { IfOk result IsSound }
    {
        Ok(Buckets {
            nodes: Slab::with_capacity(alloc, threads as usize)?,
            chains: vec![in alloc; Chain {
                first: None,
                last: None
            }; n as usize]?,
            places: vec![in alloc; None; threads as usize + 1]?,
            holders: vec![in alloc; None; n as usize]?,
        })
    }

    /// The greatest number of a thread.
    pub fn threads(&self) -> u32
        ensures value { result ≡ thread_count self.now }
        ensures sound { IsSound self.now }
    {
        self.places.len() as u32 - 1
    }

    /// Empties a list. Who calls it learns besides that the buckets are sound.
    pub fn nobody(&self, threads: &mut ThreadList)
        ensures none { threads.new ≡ [] }
        ensures sound { IsSound self.now }
    {
        let _places = &self.places;
        threads.clear();
    }

    // Writes the first `n` threads that sleep on `a` into a list.
    fn threads_at(&self, a: Addr, n: usize, threads: &mut ThreadList)
        ensures value { threads.new ≡ take n (queue self.now a.0) }
        ensures sound { IsSound self.now }
    {
        let bucket = bucket_of(a, self.chains.len());
        threads_on(
            &self.nodes,
            self.chains[bucket],
            self.places.len() - 1,
            a,
            n,
            threads,
        );
    }

    /// Writes the threads that sleep on `a` into a list, in their order.
    pub fn sleepers(&self, a: Addr, sleepers: &mut ThreadList)
        ensures value { sleepers.new ≡ queue self.now a.0 }
        ensures sound { IsSound self.now }
    {
        self.threads_at(a, self.places.len() - 1, sleepers);
    }

    /// Where the thread sleeps, if it does.
    pub fn asleep(&self, thread: u32) -> Option<Addr>
        requires { thread ≤ thread_count self.now }
        ensures value { option_map (λ a. a.0) result ≡ place_of self.now thread }
        ensures sound { IsSound self.now }
    {
        self.places[thread as usize]
    }

    /// Puts thread `t`, from 1 and asleep nowhere, at the end of the list of `a`.
    pub fn enqueue(&mut self, t: u32, a: Addr)
        requires in_range { (1 ≤ t) × (t ≤ thread_count self.old) }
        requires awake { place_of self.old t ≡ None }
        ensures last { queue self.new a.0 ≡ queue self.old a.0 ++ t ∷ [] }
        ensures others { (b : ℕ) → b ≢ a.0 → queue self.new b ≡ queue self.old b }
        ensures places { place_of self.new ≡ with_place (place_of self.old) (t ∷ []) (Some a.0) }
        ensures holders { self.new.holders ≡ self.old.holders }
        ensures threads { thread_count self.new ≡ thread_count self.old }
        ensures sound { IsSound self.old × IsSound self.new }
    {
        let bucket = bucket_of(a, self.chains.len());
        let sleeper = Sleeper {
            thread: t,
            address: a,
        };
        self.chains[bucket] = append(&mut self.nodes, self.chains[bucket], sleeper);
        self.places[t as usize] = Some(a);
    }

    /// Takes the first `n` sleepers out of the list of `a`, all where there are no more, and writes them into `taken`, in
    /// order.
    #[inline(always)]
    pub fn take(&mut self, a: Addr, n: u32, taken: &mut ThreadList)
        ensures taken { taken.new ≡ take n (queue self.old a.0) }
        ensures rest { queue self.new a.0 ≡ drop n (queue self.old a.0) }
        ensures others { (b : ℕ) → b ≢ a.0 → queue self.new b ≡ queue self.old b }
        ensures places { place_of self.new ≡ with_place (place_of self.old) taken.new None }
        ensures holders { self.new.holders ≡ self.old.holders }
        ensures threads { thread_count self.new ≡ thread_count self.old }
        ensures sound { IsSound self.old × IsSound self.new }
    {
        let bucket = bucket_of(a, self.chains.len());
        if self.chains[bucket].first.is_none() {
            self.nobody(taken);
            return;
        }
        self.take_some(a, n, taken);
    }

    // The same where somebody sleeps in the bucket of `a`, as seldom is so. Apart, so that who finds nobody there doesn't
    // pay for its loops.
    #[inline(never)]
    fn take_some(&mut self, a: Addr, n: u32, taken: &mut ThreadList)
        ensures taken { taken.new ≡ take n (queue self.old a.0) }
        ensures rest { queue self.new a.0 ≡ drop n (queue self.old a.0) }
        ensures others { (b : ℕ) → b ≢ a.0 → queue self.new b ≡ queue self.old b }
        ensures places { place_of self.new ≡ with_place (place_of self.old) taken.new None }
        ensures holders { self.new.holders ≡ self.old.holders }
        ensures threads { thread_count self.new ≡ thread_count self.old }
        ensures sound { IsSound self.old × IsSound self.new }
    {
        self.threads_at(a, n as usize, taken);
        for t in taken.as_slice() {
            self.drop_out(*t);
        }
    }

    /// Moves the first `n` sleepers of the list of `a`, all where there are no more, to the end of the list of `b`, and
    /// writes them into `moved`, in order. Where `a` and `b` are the same nobody moves.
    pub fn shift(&mut self, a: Addr, b: Addr, n: u32, moved: &mut ThreadList)
        ensures moved { moved.new ≡ (if a.0 == b.0 then [] else take n (queue self.old a.0)) }
        ensures rest { queue self.new a.0 ≡ drop (length moved.new) (queue self.old a.0) }
        ensures last { queue self.new b.0 ≡ queue self.old b.0 ++ moved.new }
        ensures others { (d : ℕ) → d ≢ a.0 → d ≢ b.0 → queue self.new d ≡ queue self.old d }
        ensures places { place_of self.new ≡ with_place (place_of self.old) moved.new (Some b.0) }
        ensures same { a.0 ≡ b.0 → self.new ≡ self.old }
        ensures holders { self.new.holders ≡ self.old.holders }
        ensures threads { thread_count self.new ≡ thread_count self.old }
        ensures sound { IsSound self.old × IsSound self.new }
    {
        if a.0 == b.0 {
            self.nobody(moved);
            return;
        }
        self.take(a, n, moved);
        for t in moved.as_slice() {
            self.enqueue(*t, b);
        }
    }

    /// Takes a thread out of its list, if it stands in one.
    pub fn drop_out(&mut self, t: u32)
        requires { t ≤ thread_count self.old }
        ensures queues { (b : ℕ) → queue self.new b ≡ filter
            (λ u. not (u == t)) (queue self.old b) }
        ensures places { place_of self.new ≡ with_place (place_of self.old) (t ∷ []) None }
        ensures holders { self.new.holders ≡ self.old.holders }
        ensures threads { thread_count self.new ≡ thread_count self.old }
        ensures sound { IsSound self.old × IsSound self.new }
    {
        if let Some(a) = self.places[t as usize] {
            let bucket = bucket_of(a, self.chains.len());
            let most = self.places.len() - 1;
            self.chains[bucket] = unlink(&mut self.nodes, self.chains[bucket], most, t);
            self.places[t as usize] = None;
        }
    }

    /// The bucket of an address.
    pub fn number(&self, a: Addr) -> u32
        ensures value { result ≡ a.0 % bucket_count self.now }
        ensures inside { result < bucket_count self.now }
        ensures sound { IsSound self.now }
    {
        bucket_of(a, self.holders.len()) as u32
    }

    /// The thread that holds bucket `k`, if one does.
    pub fn holder(&self, k: u32) -> Option<u32>
        requires { k < bucket_count self.now }
        ensures value { result ≡ holder_of self.now k }
        ensures sound { IsSound self.now }
    {
        self.holders[k as usize]
    }

    /// Thread `t` holds bucket `k`, which nobody holds.
    pub fn grab(&mut self, t: u32, k: u32)
        requires inside { k < bucket_count self.old }
        requires free { holder_of self.old k ≡ None }
        ensures holder { holder_of self.new ≡ put (holder_of self.old) k (Some t) }
        ensures count { bucket_count self.new ≡ bucket_count self.old }
        ensures queues { queue self.new ≡ queue self.old }
        ensures places { place_of self.new ≡ place_of self.old }
        ensures threads { thread_count self.new ≡ thread_count self.old }
        ensures sound { IsSound self.old × IsSound self.new }
    {
        self.holders[k as usize] = Some(t);
    }

    /// Thread `t` gives up bucket `k`, which it holds.
    pub fn release(&mut self, t: u32, k: u32)
        requires inside { k < bucket_count self.old }
        requires held { holder_of self.old k ≡ Some t }
        ensures holder { holder_of self.new ≡ put (holder_of self.old) k None }
        ensures count { bucket_count self.new ≡ bucket_count self.old }
        ensures queues { queue self.new ≡ queue self.old }
        ensures places { place_of self.new ≡ place_of self.old }
        ensures threads { thread_count self.new ≡ thread_count self.old }
        ensures sound { IsSound self.old × IsSound self.new }
    {
        self.holders[k as usize] = None;
    }
}
