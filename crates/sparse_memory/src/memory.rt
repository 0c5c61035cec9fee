ghost use Rattle.std.specs.Prelude.{◌≡◌, ◌<◌, [], IfOk, List, OnOk, Some, length, replicate, slice_get, slice_set, true, ℕ};
ghost use Rattle.sparse_memory.specs.Spread.{put_yet, spread};

use std::alloc::{AllocError, Global};
use std::marker::Model;
use words::Addr;

/// A memory of words of 32 bits, which lists those that aren't 0. Contracts see the list of all its words.
#[derive(Drop)]
pub struct SparseMemory {
    // How many words there are.
    size: usize,
    // The addresses of those that aren't 0, by rising numbers, each with its word.
    entries: Vec<(u32, u32)>,
}

impl Model for SparseMemory {
    ghost use Rattle.std.specs.Prelude.{List, replicate, ℕ};
    ghost use Rattle.sparse_memory.specs.Spread.{spread};

    ghost Value = { List ℕ };

    ghost view = { λ m. spread (replicate m.size 0) m.entries.items };
}

// The word at an address once an entry more is put, where it was this before.
fn latest(entry: (u32, u32), a: u32, word: u32) -> u32
    ensures { (before : List ℕ) → slice_get before a ≡ Some word
        → slice_get (slice_set before entry.0 entry.1) a ≡ Some result }
{
    if entry.0 == a {
        return entry.1;
    }
    word
}

// The word at an address of a memory into which these are put, one after another, where it was 0 before.
fn word_in(entries: &[(u32, u32)], a: u32) -> u32
    ensures { (words : List ℕ) → slice_get words a ≡ Some 0
        → slice_get (spread words entries.now) a ≡ Some result }
{
    let mut word = 0;
    for entry in entries {
        let next = latest(*entry, a, word);
        word = next;
    }
    word
}

// Whether nothing has to be put for a word.
fn is_put_at_first(v: u32) -> bool
    ensures { put_yet result v ≡ 0 }
{
    if v == 0 {
        return true;
    }
    false
}

// No entries, and room for one more than so many.
fn room_for(alloc: Global, count: usize) -> Result<Vec<(u32, u32)>, AllocError>
    ensures { IfOk result (λ room. room.items ≡ []) }
{
    let room = Vec::with_capacity(alloc, count.saturating_add(1))?;
    Ok(room)
}

// The entry comes behind those of lower addresses, and before it the word at an address, unless that was put there; one of the
// same address is left out. Whether the word is put by now.
fn push_entry(
    entries: &mut Vec<(u32, u32)>,
    entry: (u32, u32),
    a: u32,
    v: u32,
    put: bool,
) -> Result<bool, AllocError>
    ensures { IfOk result (λ done. (empty before : List ℕ)
        → spread empty entries.old.items ≡ slice_set before a (put_yet put v)
        → spread empty entries.new.items
        ≡ slice_set (slice_set before entry.0 entry.1) a (put_yet done v)) }
{
    if entry.0 == a {
        return Ok(put);
    }
    if put || entry.0 < a {
        entries.push(entry)?;
        return Ok(put);
    }
    entries.push((a, v))?;
    entries.push(entry)?;
    Ok(true)
}

// The word is put at the end, unless it is put by now.
fn push_last(entries: &mut Vec<(u32, u32)>, a: u32, v: u32, put: bool) -> Result<(), AllocError>
    ensures { OnOk result ((empty before : List ℕ)
        → spread empty entries.old.items ≡ slice_set before a (put_yet put v)
        → spread empty entries.new.items ≡ slice_set before a v) }
{
    if !put {
        entries.push((a, v))?;
    }
    Ok(())
}

// These entries with a word at an address.
fn entries_with(
    alloc: Global,
    entries: &[(u32, u32)],
    a: u32,
    v: u32,
) -> Result<Vec<(u32, u32)>, AllocError>
    ensures { IfOk result (λ more. (empty : List ℕ) → slice_set empty a 0 ≡ empty
        → spread empty more.items ≡ slice_set (spread empty entries.now) a v) }
{
    let mut more = room_for(alloc, entries.len())?;
    let mut put = is_put_at_first(v);
    for entry in entries {
        let done = push_entry(&mut more, *entry, a, v, put)?;
        put = done;
    }
    push_last(&mut more, a, v, put)?;
    Ok(more)
}

impl SparseMemory {
    /// A memory of `len` words that are all 0.
    pub fn new(alloc: Global, len: usize) -> SparseMemory
        ensures { result ≡ replicate len 0 }
    {
        SparseMemory {
            size: len,
            entries: Vec::new(alloc),
        }
    }

    /// How many words there are.
    pub fn len(&self) -> usize
        ensures { result ≡ length self.now }
    {
        self.size
    }

    /// The word at an address.
    pub fn load(&self, a: Addr) -> u32
        requires { a.0 < length self.now }
        ensures { slice_get self.now a.0 ≡ Some result }
    {
        word_in(self.entries.as_slice(), a.0)
    }

    /// The same memory with a word put at an address; the same, where the address doesn't lie in it.
    pub fn with_word(&self, alloc: Global, a: Addr, v: u32) -> Result<SparseMemory, AllocError>
        ensures { IfOk result (λ m. m ≡ slice_set self.now a.0 v) }
    {
        let entries = entries_with(alloc, self.entries.as_slice(), a.0, v)?;
        Ok(SparseMemory {
            size: self.size,
            entries,
        })
    }

    /// Whether the same words that aren't 0 are listed of as many words: then the two memories are one.
    pub fn is_same(&self, other: &SparseMemory) -> bool
        ensures { result ≡ true → self.now ≡ other.now }
    {
        self.size == other.size && self.entries == other.entries
    }
}
