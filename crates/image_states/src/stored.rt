ghost use Rattle.std.specs.Prelude.{◌≡◌, IfOk, IfSome, List, true, ℕ};
ghost use Rattle.std.specs.List.{All};
ghost use Rattle.image_states.specs.Stores.{AreStored, IsStored, free};

use crate::digest::{fed, mixed};
use std::alloc::{AllocError, Global};

/// That a memory with a word at an address is another one, by their numbers.
#[derive(Clone, Copy)]
pub(crate) struct Stored {
    /// The number of the memory before.
    pub before: u32,
    /// The address.
    pub address: u32,
    /// The word that is stored.
    pub word: u32,
    /// The number of the memory behind; `FREE` where nothing is noted.
    pub after: u32,
}

// No number.
const FREE: u32 = u32::MAX;

// How many places there are at least.
const LEAST: usize = 4096;

// The place of a store among so many, of which there are as many as a power of two.
fn place(size: usize, before: u32, address: u32, word: u32) -> usize {
    let digest = mixed(fed(fed(u64::from(before), address), word));
    (digest >> 32) as usize & size.wrapping_sub(1)
}

// Whether a note is of a store of these numbers.
fn is_of(note: &Stored, before: u32, address: u32, word: u32) -> bool
    ensures { result ≡ true → (note.now.after ≡ free → ⊥) × (note.now.before ≡ before)
        × (note.now.address ≡ address) × (note.now.word ≡ word) }
{
    if note.after == FREE {
        return false;
    }
    note.before == before && note.address == address && note.word == word
}

/// The number of the memory behind a store, where it is noted.
pub(crate) fn find_stored(notes: &[Stored], before: u32, address: u32, word: u32) -> Option<u32>
    ensures { IfSome result (λ n. (memories : List (List ℕ)) → AreStored memories notes.now
        → IsStored memories before address word n) }
{
    let at = place(notes.len(), before, address, word);
    match notes.get(at) {
        None => None,
        Some(note) => {
            if is_of(note, before, address, word) {
                Some(note.after)
            } else {
                None
            }
        }
    }
}

/// Notes a store in the place of another one.
pub(crate) fn note_stored(notes: &mut Vec<Stored>, before: u32, address: u32, word: u32, after: u32)
    ensures { (memories : List (List ℕ)) → AreStored memories notes.old.items
        → IsStored memories before address word after → AreStored memories notes.new.items }
{
    let at = place(notes.len(), before, address, word);
    if at >= notes.len() {
        return;
    }
    notes[at] = Stored {
        before,
        address,
        word,
        after,
    };
}

// So many places at which nothing is noted.
fn free_places(alloc: Global, size: usize) -> Result<Vec<Stored>, AllocError>
    ensures { IfOk result (λ v. All (λ note. note.after ≡ free) v.items) }
{
    let mut places = Vec::with_capacity(alloc, size)?;
    for _ in 0..size {
        places.push(Stored {
            before: 0,
            address: 0,
            word: 0,
            after: FREE,
        })?;
    }
    Ok(places)
}

/// Has places for the stores of so many memories; where there were too few, all stores are forgotten.
pub(crate) fn make_room(
    alloc: Global,
    notes: &mut Vec<Stored>,
    count: usize,
) -> Result<(), AllocError>
    ensures { (memories : List (List ℕ)) → AreStored memories notes.old.items
        → AreStored memories notes.new.items }
{
    if count < notes.len() / 8 {
        return Ok(());
    }
    let size = notes.len().saturating_mul(4).max(LEAST);
    let places = free_places(alloc, size)?;
    *notes = places;
    Ok(())
}
