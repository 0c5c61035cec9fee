//! A map of few keys as a flat list, the keys rising: a copy of small values is one allocation and one move, a
//! comparison one pass.
#![tactic(auto)]

ghost use Rattle.std.specs.Prelude.{◌≡◌, ◌&&◌, ◌<◌, [], IfOk, MatchResult, None, OnErr, OnOk, Some, length, map, option_copied, slice_get};
ghost use Rattle.std.specs.Option.{option_copied_mut};
ghost use Rattle.std.specs.Borrow.{sem};
ghost use Rattle.std.specs.Cmp.Lexicographic.{pointwise, lists_per};
ghost use Rattle.std.specs.Cmp.{and_per, on_per};
ghost use Rattle.sorted_map.specs.Maps.{get, IsFoundAt, IsGapAt, IsOrdered, Updates};

use std::alloc::{AllocError, Global};
use std::marker::Model;

/// A map whose keys are small. Contracts see it as its entries, the keys rising, and ask it by `get`.
#[derive(Drop)]
pub struct SortedMap<K: Copy + Ord, V> {
    entries: Vec<(K, V)>,
}

impl<K: Copy + Ord, V> Model for SortedMap<K, V> {
    ghost use Rattle.std.specs.Prelude.{List};
    ghost use Rattle.sorted_map.specs.Maps.{IsOrdered};

    ghost Value = { List (K × V) };

    ghost view = { λ m. m.entries.items };

    ghost invariant = { λ m. IsOrdered K.cmp m.entries.items };
}

impl<K: Copy + Ord, V> SortedMap<K, V> {
    ghost use Rattle.sorted_map.specs.Lent.{lends_value, lends_value_at};

    /// A map with nothing in it.
    pub fn new(alloc: Global) -> SortedMap<K, V>
        ensures { result ≡ [] }
    {
        SortedMap {
            entries: Vec::new(alloc),
        }
    }

    /// A map of these entries.
    pub fn of_entries(entries: Vec<(K, V)>) -> SortedMap<K, V>
        requires { IsOrdered K.cmp entries.items }
        ensures { result ≡ entries.items }
    {
        SortedMap { entries }
    }

    // Where the key is, or where it would go.
    fn find(&self, key: K) -> Result<usize, usize>
        ensures place { MatchResult result (IsFoundAt K.cmp key self.now) (IsGapAt K.cmp key self.now) }
        ensures ordered { IsOrdered K.cmp self.now }
    {
        self.entries.binary_search_by_key(&key, |entry| entry.0)
    }

    /// What is at a key.
    pub fn get_ref(&self, key: K) -> Option<&V>
        ensures { option_copied result ≡ get K.cmp self.now key }
    {
        match self.find(key) {
            Ok(place) => Some(&self.entries[place].1),
            Err(_) => None,
        }
    }

    // What is at a place, to be changed.
    fn value_mut(&mut self, place: usize) -> &mut V
        requires { place < length self.old }
        ensures* writes_back { sem 𝓛 (lends_value_at K.row V.row K.Ord self.entry place result) }
        ensures value { slice_get (map (λ e. e.1) self.old) place ≡ Some result.now }
    {
        &mut self.entries[place].1
    }

    /// What is at a key, to be changed.
    pub fn get_mut(&mut self, key: K) -> Option<&mut V>
        ensures* writes_back { sem 𝓛 (lends_value K.row V.row K.Ord self.entry key result) }
        ensures value { option_copied_mut result ≡ get K.cmp self.old key }
    {
        match self.find(key) {
            Ok(place) => Some(self.value_mut(place)),
            Err(_) => None,
        }
    }

    /// The keys with their values, by rising keys.
    pub fn entries(&self) -> &[(K, V)]
        ensures all { result.now ≡ self.now }
        ensures ordered { IsOrdered K.cmp self.now }
    {
        &self.entries
    }

    /// Puts a value at a key, in place of what was there.
    pub fn insert(&mut self, key: K, value: V) -> Result<(), AllocError>
    where
        V: Drop,
        ensures ok { OnOk result (Updates K.cmp self.old self.new key (Some value)) }
        ensures err { OnErr result (self.new ≡ self.old) }
    {
        match self.find(key) {
            Ok(place) => {
                self.entries[place].1 = value;
                Ok(())
            }
            Err(place) => Ok(self.entries.insert(place, (key, value))?),
        }
    }

    /// Takes a key out, where it is there.
    pub fn remove(&mut self, key: K)
    where
        V: Drop,
        ensures { Updates K.cmp self.old self.new key None }
    {
        if let Ok(place) = self.find(key) {
            let _entry = self.entries.remove(place);
        }
    }
}

impl<K: Copy + Ord, V: Copy> SortedMap<K, V> {
    /// The value at a key.
    pub fn get(&self, key: K) -> Option<V>
        ensures { result ≡ get K.cmp self.now key }
    {
        self.get_ref(key).copied()
    }

    /// The same map once more.
    pub fn copy(&self) -> Result<SortedMap<K, V>, AllocError>
        ensures { IfOk result (λ m. m ≡ self.now) }
    {
        Ok(SortedMap {
            entries: Vec::from_slice(*self.entries.allocator(), &self.entries)?,
        })
    }
}

impl<K: Copy + Ord, V: PartialEq> PartialEq for SortedMap<K, V> {
    ghost eq = { pointwise (λ p q. K.eq p.0 q.0 && V.eq p.1 q.1) };

    ghost laws = { lists_per (and_per (on_per (λ p. p.0) K.PartialEq.laws) (on_per (λ p. p.1) V.laws)) };

    fn eq(&self, other: &SortedMap<K, V>) -> bool {
        self.entries == other.entries
    }
}
