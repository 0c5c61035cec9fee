ghost use Rattle.std.specs.Prelude.{◌≡◌, ◌<◌, ◌≤◌, [], IfOk, IfSome, OnOk, length};
ghost use Rattle.std.specs.List.{All};
ghost use Rattle.digest_map.specs.Noted.{Has, HasAdded, HasKept, HasNoted, free};

use std::alloc::{AllocError, Global};

// A place for a number.
#[derive(Clone, Copy)]
struct Slot {
    // The upper half of its digest, by which its place is found.
    mark: u32,
    // The number; `FREE` where there is none.
    number: u32,
}

// No number.
const FREE: u32 = u32::MAX;

// How many places there are at least.
const LEAST: usize = 64;

/// A number that stands behind a digest, and how many places were tried for it.
#[derive(Clone, Copy)]
pub struct Found {
    /// The number.
    pub number: u32,
    /// How many places were tried before.
    pub tries: usize,
}

/// Numbers less than 2^32 - 1 by their digests: each at the first place from that of its digest on that was free. Of a
/// digest there may be several. What is found was noted; that it was noted for this digest is for the caller to compare.
#[derive(Drop)]
pub struct DigestMap {
    // The places, of which a quarter at least is free.
    slots: Vec<Slot>,
    // How many aren't free.
    filled: usize,
}

// So many places that are free.
fn free_slots(alloc: Global, size: usize) -> Result<Vec<Slot>, AllocError>
    ensures { IfOk result (λ v. All (λ slot. slot.number ≡ free) v.items) }
{
    let mut slots = Vec::with_capacity(alloc, size)?;
    for _ in 0..size {
        slots.push(Slot {
            mark: 0,
            number: FREE,
        })?;
    }
    Ok(slots)
}

// The upper half of a digest.
fn mark_of(digest: u64) -> u32 {
    (digest >> 32) as u32
}

// The place behind so many others from that of a mark on.
fn place(size: usize, mark: u32, tries: usize) -> usize {
    if size == 0 {
        return 0;
    }
    (mark as usize).wrapping_add(tries) % size
}

// The first place from that of a mark on that is free.
fn free_place(slots: &[Slot], mark: u32) -> Option<usize>
    ensures { IfSome result (λ at. at < length slots.now) }
{
    for tries in 0..slots.len() {
        let at = place(slots.len(), mark, tries);
        if at < slots.len() && slots[at].number == FREE {
            return Some(at);
        }
    }
    None
}

// Puts a number at the first place that is free.
fn put(slots: &mut Vec<Slot>, slot: Slot)
    ensures { HasAdded slots.old.items slot slots.new.items }
{
    if let Some(at) = free_place(slots.as_slice(), slot.mark) {
        slots[at] = slot;
    }
}

// Puts what stands at a place, where that isn't free.
fn put_again(slots: &mut Vec<Slot>, slot: Slot)
    ensures { HasAdded slots.old.items slot slots.new.items }
{
    if slot.number != FREE {
        put(slots, slot);
    }
}

impl DigestMap {
    /// None yet.
    pub fn new(alloc: Global) -> DigestMap
        ensures { result.slots.items ≡ [] }
    {
        DigestMap {
            slots: Vec::new(alloc),
            filled: 0,
        }
    }

    /// The next number that may be of this digest, where so many places were tried.
    pub fn next(&self, digest: u64, tried: usize) -> Option<Found>
        ensures { IfSome result (λ found. Has self.now.slots.items found.number × (tried ≤ found.tries)) }
    {
        let mark = mark_of(digest);
        let size = self.slots.len();
        for tries in tried..size {
            let slot = *self.slots.get(place(size, mark, tries))?;
            if slot.number == FREE {
                return None;
            }
            if slot.mark == mark {
                return Some(Found {
                    number: slot.number,
                    tries,
                });
            }
        }
        None
    }

    // Has twice as many places where only a quarter is free.
    fn make_room(&mut self, alloc: Global) -> Result<(), AllocError>
        ensures { OnOk result (HasKept self.old.slots.items self.new.slots.items) }
    {
        if self.filled >= self.slots.len() / 4 * 3 {
            return self.grow(alloc);
        }
        Ok(())
    }

    // Has twice as many places.
    fn grow(&mut self, alloc: Global) -> Result<(), AllocError>
        ensures { OnOk result (HasKept self.old.slots.items self.new.slots.items) }
    {
        let size = self.slots.len().saturating_mul(2).max(LEAST);
        let mut slots = free_slots(alloc, size)?;
        for slot in self.slots.as_slice() {
            put_again(&mut slots, *slot);
        }
        self.slots = slots;
        Ok(())
    }

    /// Notes a number, behind those of the same digest.
    pub fn note(&mut self, alloc: Global, digest: u64, number: u32) -> Result<(), AllocError>
        ensures { OnOk result (HasNoted self.old.slots.items number self.new.slots.items) }
    {
        self.make_room(alloc)?;
        let mark = mark_of(digest);
        put(&mut self.slots, Slot { mark, number });
        self.filled = self.filled.saturating_add(1);
        Ok(())
    }
}
