ghost use Rattle.std.specs.Prelude.{◌≡◌, ◌<◌, MatchBool, MatchOption, None, Some, true, IfNone, IfOk, IfSome, OnOk, length, slice_index, slice_set};
ghost use Rattle.std.specs.List.{slice_get};
ghost use Rattle.image_states.specs.Room.{AreSized, IsRoom};
ghost use Rattle.image_states.specs.Stores.{AreStored, IsStored};

use crate::digest::{local_digest, word_digest};
use crate::room::memory_len;
use crate::stored::{Stored, find_stored, make_room, note_stored};
use digest_map::DigestMap;
use isa::Image;
use locals::Local;
use sparse_memory::SparseMemory;
use std::alloc::{AllocError, Global};
use words::Addr;

// How many numbers of one digest are looked at.
const TRIES: u64 = 1 << 20;

// The last number.
const MOST_NUMBERS: usize = u32::MAX as usize;

/// The local states and the memories of states that are kept, each once, by their numbers. None is ever given up.
#[derive(Drop)]
pub struct Parts {
    // Whether a thread's exit is followed alone.
    alone: bool,
    // How many threads a state may have.
    most: u32,
    // How many words each memory has.
    size: usize,
    // The local states of threads.
    locals: Vec<Local>,
    // The memories, of each of which the words that aren't 0 are listed.
    memories: Vec<SparseMemory>,
    // The digest of each memory, by the words in it.
    digests: Vec<u64>,
    // The numbers of the local states, by their digests.
    local_numbers: DigestMap,
    // Those of the memories.
    memory_numbers: DigestMap,
    // Which memory another one is with a word stored, of the stores that were looked for last.
    stores: Vec<Stored>,
    ghost stored: { AreStored memories.items stores.items },
    ghost room: { IsRoom most size },
    ghost sized: { AreSized size memories.items },
}

impl Parts {
    ghost use Rattle.image_states.specs.Packed.{IsFor, IsGrown, IsOutOfNumbers, words_in};

    /// No parts yet, of states of an image in which the rest of a thread's exit is followed alone, behind its robust list, or
    /// isn't: where the thread has no pending entry and nobody sleeps on its id, it is taken to its end at once.
    pub fn new(alloc: Global, image: &Image, alone: bool) -> Parts
        ensures alone { result.alone ≡ alone }
        ensures fits { IsFor image.now result }
    {
        let most = image.version().most_processes();
        let size = memory_len(image);
        Parts {
            alone,
            most,
            size,
            locals: Vec::new(alloc),
            memories: Vec::new(alloc),
            digests: Vec::new(alloc),
            local_numbers: DigestMap::new(alloc),
            memory_numbers: DigestMap::new(alloc),
            stores: Vec::new(alloc),
        }
    }

    /// Whether exits are followed alone.
    pub fn follows_exits(&self) -> bool
        ensures { result ≡ self.now.alone }
    {
        self.alone
    }

    /// How many threads a state may have.
    pub fn most_threads(&self) -> u32
        ensures { result ≡ self.now.most }
    {
        self.most
    }

    // The local state of this number.
    pub(crate) fn local(&self, number: u32) -> Option<&Local>
        ensures { MatchOption result (slice_get self.now.locals.items number ≡ None)
            (λ l. slice_get self.now.locals.items number ≡ Some l.now) }
    {
        self.locals.get(number as usize)
    }

    /// The memory of this number.
    pub fn memory(&self, number: u32) -> Option<&SparseMemory>
        ensures { MatchOption result (slice_get self.now.memories.items number ≡ None)
            (λ m. slice_get self.now.memories.items number ≡ Some m.now) }
    {
        self.memories.get(number as usize)
    }

    // How many local states there are.
    pub(crate) fn local_count(&self) -> usize
        ensures { result ≡ length self.now.locals.items }
    {
        self.locals.len()
    }

    // How many memories there are.
    fn memory_count(&self) -> usize
        ensures { result ≡ length self.now.memories.items }
    {
        self.memories.len()
    }

    // Whether there is a memory of this number.
    pub(crate) fn has_memory_number(&self, number: u32) -> bool
        ensures { MatchBool result (number < length self.now.memories.items)
            (number < length self.now.memories.items → ⊥) }
    {
        (number as usize) < self.memories.len()
    }

    // Whether the local state of this number is that.
    fn has_local(&self, number: u32, local: &Local) -> bool
        ensures { result ≡ true → slice_get self.now.locals.items number ≡ Some local.now }
    {
        match self.locals.get(number as usize) {
            None => false,
            Some(part) => part.equals(local),
        }
    }

    // The number of a local state, where it is noted.
    fn find_local(&self, local: &Local, digest: u64) -> Option<u32>
        ensures { IfSome result (λ n. slice_get self.now.locals.items n ≡ Some local.now) }
    {
        let mut tried = 0;
        for _ in 0..TRIES {
            let Some(found) = self.local_numbers.next(digest, tried) else {
                return None;
            };
            if self.has_local(found.number, local) {
                return Some(found.number);
            }
            tried = found.tries.wrapping_add(1);
        }
        None
    }

    // The number of a local state of thread `t`, which is a part from now on; None where there are too many.
    pub(crate) fn local_number(
        &mut self,
        alloc: Global,
        image: &Image,
        t: u32,
        local: &Local,
    ) -> Result<Option<u32>, AllocError>
        ensures grown { OnOk result (IsGrown self.old self.new) }
        ensures there { IfOk result
            (λ o. IfSome o (λ n. slice_get self.new.locals.items n ≡ Some local.now)) }
        ensures full { IfOk result (λ o. IfNone o (IsOutOfNumbers self.new)) }
    {
        let digest = local_digest(local.place(), local.next_step(image, t));
        if let Some(number) = self.find_local(local, digest) {
            return Ok(Some(number));
        }
        self.add_local(alloc, local, digest)
    }

    // A local state of this digest is a part from now on; answers its number. A caller in which it stood would have room for a
    // local state made at each call.
    #[cold]
    #[inline(never)]
    fn add_local(
        &mut self,
        alloc: Global,
        local: &Local,
        digest: u64,
    ) -> Result<Option<u32>, AllocError>
        ensures grown { OnOk result (IsGrown self.old self.new) }
        ensures there { IfOk result
            (λ o. IfSome o (λ n. slice_get self.new.locals.items n ≡ Some local.now)) }
        ensures full { IfOk result (λ o. IfNone o (IsOutOfNumbers self.new)) }
    {
        let count = self.local_count();
        if count > MOST_NUMBERS {
            return Ok(None);
        }
        let number = count as u32;
        self.local_numbers.note(alloc, digest, number)?;
        self.locals.push(local.copy())?;
        Ok(Some(number))
    }

    // Whether the memory of this number is that.
    fn has_memory(&self, number: u32, memory: &SparseMemory) -> bool
        ensures { result ≡ true → slice_get self.now.memories.items number ≡ Some memory.now }
    {
        match self.memories.get(number as usize) {
            None => false,
            Some(part) => part.is_same(memory),
        }
    }

    // The number of a memory, where it is noted.
    fn find_memory(&self, memory: &SparseMemory, digest: u64) -> Option<u32>
        ensures { IfSome result (λ n. slice_get self.now.memories.items n ≡ Some memory.now) }
    {
        let mut tried = 0;
        for _ in 0..TRIES {
            let Some(found) = self.memory_numbers.next(digest, tried) else {
                return None;
            };
            if self.has_memory(found.number, memory) {
                return Some(found.number);
            }
            tried = found.tries.wrapping_add(1);
        }
        None
    }

    // A memory is a part from now on; answers its number, or None where there are too many.
    pub(crate) fn keep_memory(
        &mut self,
        alloc: Global,
        memory: SparseMemory,
        digest: u64,
    ) -> Result<Option<u32>, AllocError>
        requires { length memory ≡ self.old.size }
        ensures grown { OnOk result (IsGrown self.old self.new) }
        ensures there { IfOk result
            (λ o. IfSome o (λ n. slice_get self.new.memories.items n ≡ Some memory)) }
        ensures full { IfOk result (λ o. IfNone o (IsOutOfNumbers self.new)) }
    {
        let count = self.memory_count();
        if count > MOST_NUMBERS {
            return Ok(None);
        }
        let number = count as u32;
        self.memory_numbers.note(alloc, digest, number)?;
        self.digests.push(digest)?;
        self.memories.push(memory)?;
        Ok(Some(number))
    }

    // The number of a memory of this digest, which is a part from now on; None where there are too many.
    fn memory_number(
        &mut self,
        alloc: Global,
        memory: SparseMemory,
        digest: u64,
    ) -> Result<Option<u32>, AllocError>
        requires { length memory ≡ self.old.size }
        ensures grown { OnOk result (IsGrown self.old self.new) }
        ensures there { IfOk result
            (λ o. IfSome o (λ n. slice_get self.new.memories.items n ≡ Some memory)) }
        ensures full { IfOk result (λ o. IfNone o (IsOutOfNumbers self.new)) }
    {
        if let Some(number) = self.find_memory(&memory, digest) {
            return Ok(Some(number));
        }
        self.keep_memory(alloc, memory, digest)
    }

    // The memory of this number with this word at an address.
    fn with_word(
        &self,
        alloc: Global,
        number: u32,
        a: Addr,
        v: u32,
    ) -> Result<SparseMemory, AllocError>
        requires { number < length self.now.memories.items }
        ensures is { IfOk result
            (λ m. m ≡ slice_set (words_in self.now.memories.items number) a.0 v) }
        ensures size { IfOk result (λ m. length m ≡ self.now.size) }
    {
        match self.memory(number) {
            None => unreachable!(),
            Some(old) => old.with_word(alloc, a, v),
        }
    }

    // The digest of the memory of this number with this word at an address, where another is there now.
    fn digest_with(&self, number: u32, a: Addr, before: u32, v: u32) -> u64 {
        let digest = match self.digests.get(number as usize) {
            Some(digest) => *digest,
            None => 0,
        };
        digest
            .wrapping_sub(word_digest(a.0, before))
            .wrapping_add(word_digest(a.0, v))
    }

    // The number of the memory of this number with this word at an address, which is a part from now on, where this word is there
    // now.
    fn stored_at(
        &mut self,
        alloc: Global,
        number: u32,
        a: Addr,
        before: u32,
        v: u32,
    ) -> Result<Option<u32>, AllocError>
        requires lies { a.0 < length (words_in self.old.memories.items number) }
        requires before { before ≡ slice_index (words_in self.old.memories.items number) a.0 }
        ensures grown { OnOk result (IsGrown self.old self.new) }
        ensures there { IfOk result (λ o. IfSome o (λ n. slice_get self.new.memories.items n
            ≡ Some (slice_set (words_in self.old.memories.items number) a.0 v))) }
        ensures full { IfOk result (λ o. IfNone o (IsOutOfNumbers self.new)) }
    {
        if before == v {
            return Ok(Some(number));
        }
        if let Some(found) = self.stored_before(number, a, v) {
            return Ok(Some(found));
        }
        match self.store(alloc, number, a, before, v)? {
            None => Ok(None),
            Some(after) => {
                self.note_store(alloc, number, a, v, after)?;
                Ok(Some(after))
            }
        }
    }

    // The number of the memory of this number with this word at an address, where such a store is noted.
    fn stored_before(&self, number: u32, a: Addr, v: u32) -> Option<u32>
        ensures { IfSome result (IsStored self.now.memories.items number a.0 v) }
    {
        find_stored(self.stores.as_slice(), number, a.0, v)
    }

    // Notes a store.
    fn note_store(
        &mut self,
        alloc: Global,
        number: u32,
        a: Addr,
        v: u32,
        after: u32,
    ) -> Result<(), AllocError>
        requires { IsStored self.old.memories.items number a.0 v after }
        ensures grown { OnOk result (IsGrown self.old self.new) }
        ensures same { OnOk result (self.new.memories ≡ self.old.memories) }
    {
        let count = self.memories.len();
        make_room(alloc, &mut self.stores, count)?;
        note_stored(&mut self.stores, number, a.0, v, after);
        Ok(())
    }

    // The same that isn't noted.
    fn store(
        &mut self,
        alloc: Global,
        number: u32,
        a: Addr,
        before: u32,
        v: u32,
    ) -> Result<Option<u32>, AllocError>
        requires { number < length self.old.memories.items }
        ensures grown { OnOk result (IsGrown self.old self.new) }
        ensures there { IfOk result (λ o. IfSome o (λ n. slice_get self.new.memories.items n
            ≡ Some (slice_set (words_in self.old.memories.items number) a.0 v))) }
        ensures full { IfOk result (λ o. IfNone o (IsOutOfNumbers self.new)) }
    {
        let digest = self.digest_with(number, a, before, v);
        let memory = self.with_word(alloc, number, a, v)?;
        self.memory_number(alloc, memory, digest)
    }

    // The number of the memory of this number with this word at an address, which is a part from now on; None where
    // there are too many.
    pub(crate) fn stored(
        &mut self,
        alloc: Global,
        number: u32,
        a: Addr,
        v: u32,
    ) -> Result<Option<u32>, AllocError>
        requires { a.0 < length (words_in self.old.memories.items number) }
        ensures grown { OnOk result (IsGrown self.old self.new) }
        ensures there { IfOk result (λ o. IfSome o (λ n. slice_get self.new.memories.items n
            ≡ Some (slice_set (words_in self.old.memories.items number) a.0 v))) }
        ensures full { IfOk result (λ o. IfNone o (IsOutOfNumbers self.new)) }
    {
        match self.word(number, a) {
            None => unreachable!(),
            Some(before) => self.stored_at(alloc, number, a, before, v),
        }
    }
}
