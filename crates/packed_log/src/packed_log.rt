ghost use Rattle.std.specs.Prelude.{◌≡◌, ◌≢◌, ◌≤◌, ◌<◌, ◌+◌, ◌-◌, ◌^◌, ◌++◌, ◌∷◌, [], length, slice_get, Some};
ghost use Rattle.std.specs.Prelude.{OnOk, OnErr, IfOk, MatchBool, true, is_ok, if◌then◌else◌, option_copied, vec_len, vec_capacity};
ghost use Rattle.machine.specs.ConcreteServing.{plain};
ghost use Rattle.packed_log.specs.Packing.{entries_of, heads_of, kept, sets_of};
ghost use Rattle.packed_log.specs.Views.{HasHead, IsPacked as IsPackedIn, Woke, step_of};

use crate::head::{
    entry_at, has_head, head_of, plain_head, sets_beside, wide_head_of, wide_plain_head, widen,
    woken_at,
};
use crate::reader::LogReader;
use crate::wide_head::WideHead;
use machine::{Entry, Event, EventName, ThreadSet};
use std::alloc::{AllocError, Global};
use std::marker::Model;

// For so many entries room is made at once.
const GROWTH: usize = 64;

// A log of so many entries, 256 KiB, is long: for its heads 32 MiB more are asked for at once, where they can be had. Pages of
// memory are given as they are written, and a block that seldom moves can have large ones nearly everywhere.
const LONG: usize = 1 << 15;

const LONG_GROWTH: usize = 1 << 22;

// The most words of sets that an entry has: those of two sets of several threads.
const SET_WORDS: usize = 32;

/// The entries of a log, packed. Contracts see their list, and for how many more there is room.
#[derive(Drop)]
pub struct PackedLog {
    heads: Vec<u64>,
    // The heads from the first entry on whose thread or local steps have no room in one.
    wide: Vec<WideHead>,
    // The words of the sets beside all heads, in the order of the entries, of each entry those of the woken threads first.
    sets: Vec<u64>,
    // For so many entries more there is room in all of them, so that nobody has to ask each of them at each entry.
    spare: usize,
}

impl Model for PackedLog {
    ghost use Rattle.std.specs.Prelude.{◌≤◌, ◌-◌, vec_len, vec_capacity};
    ghost use Rattle.packed_log.specs.Packing.{entries_of, heads_of};
    ghost use Rattle.packed_log.specs.Views.{PackedView, room_for, IsPacked};

    ghost Value = { PackedView };

    ghost view = { λ l. record {
      items = entries_of (heads_of l.heads.items l.wide.items) l.sets.items;
      room = l.spare;
    } };

    ghost invariant = { λ l. IsPacked (heads_of l.heads.items l.wide.items) l.sets.items
        × (l.spare ≤ room_for (vec_capacity l.heads - vec_len l.heads) (vec_capacity l.sets - vec_len l.sets)
        (vec_capacity l.wide - vec_len l.wide)) };
}

impl PackedLog {
    /// A log without entries.
    pub fn new(alloc: Global) -> PackedLog
        ensures { result.items ≡ [] }
    {
        PackedLog {
            heads: Vec::new(alloc),
            wide: Vec::new(alloc),
            sets: Vec::new(alloc),
            spare: 0,
        }
    }

    /// A log without entries, and memory for the heads of so many.
    pub fn with_capacity(alloc: Global, count: usize) -> Result<PackedLog, AllocError>
        ensures { IfOk result (λ log. log.items ≡ []) }
    {
        Ok(PackedLog {
            heads: Vec::with_capacity(alloc, count)?,
            wide: Vec::new(alloc),
            sets: Vec::new(alloc),
            spare: 0,
        })
    }

    /// How many entries it has.
    pub fn len(&self) -> usize
        ensures { result ≡ length self.now.items }
    {
        self.heads.len() + self.wide.len()
    }

    /// Whether it has none.
    #[tactic(auto, using(std::proofs::lemmas::List::nil_from_length))]
    pub fn is_empty(&self) -> bool
        ensures { MatchBool result (self.now.items ≡ []) (self.now.items ≢ []) }
    {
        self.len() == 0
    }

    /// The last entry.
    pub fn last(&self) -> Option<Entry>
        ensures { result ≡ slice_get self.now.items (length self.now.items - 1) }
    {
        last_packed(
            self.heads.as_slice(),
            self.wide.as_slice(),
            self.sets.as_slice(),
        )
    }

    /// The kind of the last entry's step, if it has one. The threads that it woke are put in their place, and nothing else
    /// of the entry is read.
    pub fn last_woken(&self, woken: &mut ThreadSet) -> Option<EventName>
        ensures { Woke (step_of (slice_get self.now.items (length self.now.items - 1))) result woken.new }
    {
        last_woken_packed(
            self.heads.as_slice(),
            self.wide.as_slice(),
            self.sets.as_slice(),
            woken,
        )
    }

    /// Makes room for one entry more at least. Where there is room it can't fail.
    #[inline(always)]
    pub fn make_room(&mut self) -> Result<(), AllocError>
        ensures room { OnOk result (1 ≤ self.new.room) }
        ensures few { OnOk result (length self.new.items < 2 ^ 64) }
        ensures err { OnErr result ((self.old.room ≡ 0) × (self.new.room ≡ self.old.room)) }
        ensures same { self.new.items ≡ self.old.items }
    {
        if self.spare > 0 {
            return Ok(());
        }
        self.grow()
    }

    /// Whether there is room for one entry more, which nobody has to make.
    pub fn has_room(&self) -> bool
        ensures value { MatchBool result (1 ≤ self.now.room) (self.now.room ≡ 0) }
        ensures few { result ≡ true → length self.now.items < 2 ^ 64 }
    {
        self.spare > 0
    }

    /// Makes room for so many entries more at least, from 0 to 64. Where there is room for so many it can't fail.
    #[inline(always)]
    pub fn make_room_for(&mut self, count: usize) -> Result<(), AllocError>
        requires { count ≤ 64 }
        ensures room { OnOk result (count ≤ self.new.room) }
        ensures few { OnOk result (length self.new.items + count ≤ 2 ^ 64) }
        ensures err { OnErr result ((self.old.room < count) × (self.new.room ≡ self.old.room)) }
        ensures same { self.new.items ≡ self.old.items }
    {
        if self.spare >= count {
            return Ok(());
        }
        self.grow()
    }

    // Makes room for several entries, so that the vectors are asked seldom.
    #[cold]
    #[inline(never)]
    fn grow(&mut self) -> Result<(), AllocError>
        ensures room { OnOk result (64 ≤ self.new.room) }
        ensures few { OnOk result (length self.new.items + 64 ≤ 2 ^ 64) }
        ensures err { OnErr result (self.new.room ≡ self.old.room) }
        ensures same { self.new.items ≡ self.old.items }
    {
        grow_heads(&mut self.heads)?;
        self.sets.reserve(GROWTH * SET_WORDS)?;
        self.wide.reserve(GROWTH)?;
        self.spare = GROWTH;
        Ok(())
    }

    /// Puts the entry of a thread, its local steps and its shared step, if it has one, for which there is room, at the end.
    /// The event isn't copied.
    #[inline(always)]
    pub fn push_parts(&mut self, thread: u32, local: u32, event: Option<&Event>)
        requires { 1 ≤ self.old.room }
        ensures entries { self.new.items
            ≡ self.old.items ++ record { thread = thread; local = local; event = option_copied event.entry } ∷ [] }
        ensures room { self.old.room ≤ self.new.room + 1 }
    {
        push_sets(&mut self.sets, event);
        self.spare -= 1;
        if self.wide.is_empty() && has_head(thread, local) {
            self.heads.push_reserved(head_of(thread, local, event));
        } else {
            self.wide.push_reserved(wide_head_of(thread, local, event));
        }
    }

    /// The same of a shared step, of this kind and value, that woke and moved nobody, as most do.
    #[inline(always)]
    pub fn push_plain(&mut self, thread: u32, local: u32, name: EventName, value: u32)
        requires { 1 ≤ self.old.room }
        ensures entries { self.new.items ≡ self.old.items
            ++ record { thread = thread; local = local; event = Some (plain name value) } ∷ [] }
        ensures room { self.old.room ≤ self.new.room + 1 }
    {
        self.spare -= 1;
        if self.wide.is_empty() && has_head(thread, local) {
            self.heads
                .push_reserved(plain_head(thread, local, name, value));
        } else {
            self.wide
                .push_reserved(wide_plain_head(thread, local, name, value));
        }
    }

    /// The same where the thread and its local steps have room in a head, as those of a run always have.
    #[inline(always)]
    pub fn push_small(&mut self, thread: u32, local: u32, name: EventName, value: u32)
        requires room { 1 ≤ self.old.room }
        requires head { HasHead thread local }
        ensures entries { self.new.items ≡ self.old.items
            ++ record { thread = thread; local = local; event = Some (plain name value) } ∷ [] }
        ensures room { self.old.room ≤ self.new.room + 1 }
    {
        self.spare -= 1;
        if self.wide.is_empty() {
            self.heads
                .push_reserved(plain_head(thread, local, name, value));
        } else {
            self.wide
                .push_reserved(wide_plain_head(thread, local, name, value));
        }
    }

    /// Puts an entry at the end. Where there is no memory for it, the entries are as before.
    pub fn push(&mut self, entry: Entry) -> Result<(), AllocError>
        ensures { self.new.items
            ≡ (if is_ok result then self.old.items ++ entry ∷ [] else self.old.items) }
    {
        self.make_room()?;
        self.push_parts(entry.thread, entry.local, entry.event.as_ref());
        Ok(())
    }

    /// The entries, one after the other.
    pub fn iter(&self) -> LogReader<'_>
        ensures { result ≡ self.now.items }
    {
        LogReader::new(
            self.heads.as_slice(),
            self.wide.as_slice(),
            self.sets.as_slice(),
        )
    }

    /// A list of the same entries.
    pub fn to_vec(&self, alloc: Global) -> Result<Vec<Entry>, AllocError>
        ensures { IfOk result (λ entries. entries.items ≡ self.now.items) }
    {
        let mut entries = Vec::with_capacity(alloc, self.len())?;
        for entry in self.iter() {
            entries.push(entry)?;
        }
        Ok(entries)
    }
}

// Makes room for several heads.
fn grow_heads(heads: &mut Vec<u64>) -> Result<(), AllocError>
    ensures room { OnOk result (vec_len heads.new + 64 ≤ vec_capacity heads.new) }
    ensures kept { vec_capacity heads.old ≤ vec_capacity heads.new }
    ensures same { heads.new.items ≡ heads.old.items }
{
    let room = heads.capacity() - heads.len();
    if room < GROWTH && heads.len() >= LONG && heads.reserve(LONG_GROWTH).is_ok() {
        return Ok(());
    }
    heads.reserve(GROWTH)
}

// The last entry of packed ones.
fn last_packed(heads: &[u64], wide: &[WideHead], sets: &[u64]) -> Option<Entry>
    requires { IsPackedIn (heads_of heads.now wide.now) sets.now }
    ensures { let entries = entries_of (heads_of heads.now wide.now) sets.now in
        result ≡ slice_get entries (length entries - 1) }
{
    let head = last_head(heads, wide)?;
    let before = sets.len() - sets_beside(head.head);
    Some(entry_at(head, &sets[before..]))
}

// The kind of the last packed entry's step, if it has one, and the threads that it woke in their place.
fn last_woken_packed(
    heads: &[u64],
    wide: &[WideHead],
    sets: &[u64],
    woken: &mut ThreadSet,
) -> Option<EventName>
    requires { IsPackedIn (heads_of heads.now wide.now) sets.now }
    ensures { let entries = entries_of (heads_of heads.now wide.now) sets.now in
        Woke (step_of (slice_get entries (length entries - 1))) result woken.new }
{
    let Some(head) = last_head(heads, wide) else {
        woken.clear();
        return None;
    };
    let before = sets.len() - sets_beside(head.head);
    woken_at(head.head, &sets[before..], woken)
}

// The last head, with its entry's thread and local steps.
fn last_head(heads: &[u64], wide: &[WideHead]) -> Option<WideHead>
    ensures { let all = heads_of heads.now wide.now in result ≡ slice_get all (length all - 1) }
{
    if let Some(head) = wide.last() {
        return Some(*head);
    }
    let head = heads.last()?;
    Some(widen(*head))
}

// Puts the words of the sets of a step, if there is one, at the end.
#[inline(always)]
fn push_sets(sets: &mut Vec<u64>, event: Option<&Event>)
    requires { vec_len sets.old + 32 ≤ vec_capacity sets.old }
    ensures items { sets.new.items ≡ sets.old.items ++ sets_of (option_copied event.entry) }
    ensures room { (vec_capacity sets.new ≡ vec_capacity sets.old) × (vec_len sets.new ≤ vec_len sets.old + 32) }
{
    if let Some(event) = event {
        push_set(sets, &event.woken);
        push_set(sets, &event.moved);
    }
}

// Puts the words of a set at the end, where it isn't empty.
#[inline(always)]
fn push_set(sets: &mut Vec<u64>, set: &ThreadSet)
    requires { vec_len sets.old + 16 ≤ vec_capacity sets.old }
    ensures items { sets.new.items ≡ sets.old.items ++ kept set.now }
    ensures room { (vec_capacity sets.new ≡ vec_capacity sets.old) × (vec_len sets.new ≤ vec_len sets.old + 16) }
{
    match set {
        ThreadSet::Nobody => {}
        ThreadSet::Single(t) => sets.push_reserved(u64::from(*t)),
        ThreadSet::Several(words) => push_words(sets, words),
    }
}

// Puts the words of a set of several threads at the end.
#[cold]
#[inline(never)]
fn push_words(sets: &mut Vec<u64>, words: &[u64; 16])
    requires { vec_len sets.old + 16 ≤ vec_capacity sets.old }
    ensures items { sets.new.items ≡ sets.old.items ++ words.now }
    ensures room { (vec_capacity sets.new ≡ vec_capacity sets.old) × (vec_len sets.new ≡ vec_len sets.old + 16) }
{
    for word in words {
        sets.push_reserved(*word);
    }
}
