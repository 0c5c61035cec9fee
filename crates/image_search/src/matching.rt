ghost use Rattle.std.specs.Prelude.{◌≡◌, ◌≤◌, ◌<◌, IfSome, length, suc, true, ℕ};
ghost use Rattle.machine.specs.States.{state_of};
ghost use Rattle.machine.specs.Views.{concrete};
ghost use Rattle.image_states.specs.Packed.{place_of, words_in};
ghost use Rattle.image_search.specs.Living.{IsThere, SameAsleep, StandsOn};

use crate::kept::KeptStates;
use image_states::{Packed, Parts, Scratch, thread_number};
use isa::Image;
use machine::Machine;
use sparse_memory::SparseMemory;
use words::Addr;

// Whether a memory is the machine's.
fn has_words(machine: &Machine, words: &SparseMemory) -> bool
    ensures { result ≡ true → words.now ≡ machine.now.words }
{
    let size = words.len();
    if machine.memory_len() != size {
        return false;
    }
    let Ok(count) = u32::try_from(size) else {
        return false;
    };
    for at in 0..count {
        let word = words.load(Addr(at));
        if machine.word(Addr(at)) != word {
            return false;
        }
    }
    true
}

// Whether the memory of this number is.
fn has_memory(parts: &Parts, machine: &Machine, number: u32) -> bool
    ensures { result ≡ true → words_in parts.now.memories.items number ≡ machine.now.words }
{
    match parts.memory(number) {
        None => false,
        Some(words) => has_words(machine, words),
    }
}

// Where a thread sleeps, as a packed state tells it: one more than the address, 0 where it is awake.
fn place_in(machine: &Machine, t: u32) -> Option<u32>
    ensures { IfSome result (λ n. place_of n ≡ (state_of (concrete machine.now)).asleep t) }
{
    match machine.asleep(t) {
        None => Some(0),
        Some(address) => address.0.checked_add(1),
    }
}

// Whether the thread behind so many others sleeps where the packed state tells.
fn sleeps_so(machine: &Machine, packed: &Packed, k: usize) -> bool
    ensures { result ≡ true → SameAsleep machine.now packed.now (suc k) }
{
    let Some(t) = thread_number(k) else {
        return false;
    };
    let Some(place) = place_in(machine, t) else {
        return false;
    };
    place == packed.place(k)
}

// Whether its local steps lead it to where it stands in the packed state.
fn stands_so(
    image: &Image,
    parts: &Parts,
    machine: &Machine,
    packed: &Packed,
    k: usize,
    scratch: &mut Scratch,
) -> bool
    requires { k < length machine.now.threads }
    ensures { result ≡ true → StandsOn image.now parts.now machine.now packed.now (suc k) }
{
    let Some(t) = thread_number(k) else {
        return false;
    };
    let Some(local) = parts.thread(packed, k) else {
        return false;
    };
    scratch.look_at(machine.local(t));
    scratch.run_on(image, t);
    scratch.here().equals(local)
}

// Whether each thread of the machine does both, and there are as many in the packed state.
fn threads_so(
    image: &Image,
    parts: &Parts,
    machine: &Machine,
    packed: &Packed,
    scratch: &mut Scratch,
) -> bool
    ensures { result ≡ true → (length packed.now.parts.items ≡ length machine.now.threads)
        × (length packed.now.places.items ≤ length machine.now.threads)
        × ((k : ℕ) → k < length machine.now.threads → SameAsleep machine.now packed.now (suc k)
        × StandsOn image.now parts.now machine.now packed.now (suc k)) }
{
    let count = machine.threads() as usize;
    if packed.parts.len() != count || packed.places.len() > count {
        return false;
    }
    for k in 0..count {
        if !sleeps_so(machine, packed, k) {
            return false;
        }
        if !stands_so(image, parts, machine, packed, k, scratch) {
            return false;
        }
    }
    true
}

/// Whether the kept state at a place is the machine's, but for what was printed, and for local steps by which threads are
/// further on.
pub(crate) fn is_there(
    image: &Image,
    kept: &KeptStates,
    place: u32,
    machine: &Machine,
    scratch: &mut Scratch,
) -> bool
    ensures { result ≡ true → IsThere image.now kept.now place machine.now }
{
    let Some(packed) = kept.state(place) else {
        return false;
    };
    if kept.parts.most_threads() != image.version().most_processes() {
        return false;
    }
    has_memory(&kept.parts, machine, packed.memory)
        && threads_so(image, &kept.parts, machine, packed, scratch)
}
