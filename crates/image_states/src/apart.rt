ghost use Rattle.std.specs.Prelude.{◌≡◌, ◌⊎◌, ◌+◌, Some, false, suc, true, ℕ};
ghost use Rattle.locals.specs.Looks.{look};
ghost use Rattle.machine.specs.RequestMeanings.{asked_of};
ghost use Rattle.proof_image_search.specs.Searching.{IsApart, IsExitWord, Names, Uses};
ghost use Rattle.robustexit.specs.declared.phase.ExitPhase.TheVariants.{Ended, Pending};
ghost use Rattle.locals.specs.Looks.{Leaves};
ghost use Rattle.locals.specs.Threads.{Exits};
ghost use Rattle.image_states.specs.Ends.{IsApartAt, IsSpared};
ghost use Rattle.image_states.specs.Packed.{thread_at, unpacked};

use crate::packed::Packed;
use crate::parts::Parts;
use crate::turns::thread_number;
use isa::Image;
use locals::{Local, NextStep, Request};
use robustexit::ExitPhase;
use words::{Addr, MOST_BLOCKS, ProcessWord, block};

// Whether an address is a word that the rest of the exit of thread `t` uses; true too where there is no such thread.
fn is_exit_word(t: u32, a: Addr) -> bool
    ensures { result ≡ false → IsExitWord t a.0 → ⊥ }
{
    if t == 0 || t > MOST_BLOCKS {
        return true;
    }
    a.0 == block(t, ProcessWord::Pending).0 || a.0 == block(t, ProcessWord::Id).0
}

impl Parts {
    // Whether the thread behind so many others has ended.
    fn has_ended(&self, packed: &Packed, k: usize) -> bool
        ensures { result ≡ false → thread_at self.now.locals.items packed.now.parts.items (suc k)
            ≡ Some (Exits Ended) → ⊥ }
    {
        match self.thread(packed, k) {
            None => false,
            Some(local) => local.has_ended(),
        }
    }

    // Whether it has ended, and used this word in the rest of its exit.
    fn used(&self, packed: &Packed, k: usize, a: Addr) -> bool
        ensures { result ≡ false → thread_at self.now.locals.items packed.now.parts.items (suc k)
            ≡ Some (Exits Ended) → IsExitWord (suc k) a.0 → ⊥ }
    {
        let Some(t) = thread_number(k) else {
            return true;
        };
        is_exit_word(t, a) && self.has_ended(packed, k)
    }

    // Whether no thread that has ended used this word in the rest of its exit.
    fn spares(&self, image: &Image, packed: &Packed, a: Addr) -> bool
        ensures { result ≡ true → IsSpared (unpacked image.now self.now packed.now) a.0 }
    {
        for k in 0..packed.parts.len() {
            if self.used(packed, k, a) {
                return false;
            }
        }
        true
    }

    // The same of each word that a request names.
    #[tactic(auto, using(crate::proofs::Sparing::spared_at))]
    fn spares_request(&self, image: &Image, packed: &Packed, request: Request) -> bool
        ensures { result ≡ true → (a : ℕ) → Names (asked_of request) a
            → IsSpared (unpacked image.now self.now packed.now) a }
    {
        match request {
            Request::Load(a) | Request::Store(a, _) | Request::Swap(a, _) => self.spares(
                image, packed, a,
            ),
            Request::FetchOr(a, _) | Request::FetchAdd(a, _) => self.spares(image, packed, a),
            Request::CompareSwap {
                address,
                expected: _,
                new: _,
            } => self.spares(image, packed, address),
            Request::Wait {
                address,
                expected: _,
            } => self.spares(image, packed, address),
            Request::Wake { address, count: _ } => self.spares(image, packed, address),
            Request::Requeue {
                from,
                to,
                wake: _,
                moves: _,
                expected: _,
            } => self.spares(image, packed, from) && self.spares(image, packed, to),
            Request::Print(_) | Request::Return | Request::ReturnValue(_) | Request::Fault(_) =>
                true,
        }
    }

    // The same of both words of an entry of a robust list.
    #[tactic(auto, using(crate::proofs::Sparing::spared_at))]
    fn spares_entry(&self, image: &Image, packed: &Packed, entry: u32) -> bool
        ensures { result ≡ true → (a : ℕ) → (a ≡ entry) ⊎ (a ≡ entry + 1)
            → IsSpared (unpacked image.now self.now packed.now) a }
    {
        let Some(lock) = entry.checked_add(1) else {
            return false;
        };
        if !self.spares(image, packed, Addr(entry)) {
            return false;
        }
        self.spares(image, packed, Addr(lock))
    }

    // The same of the pending entry of thread `t`, should it have one.
    fn spares_pending(&self, image: &Image, packed: &Packed, t: u32) -> bool
        ensures { result ≡ true → (a : ℕ)
            → Uses (unpacked image.now self.now packed.now) t (Leaves Pending) a
            → IsSpared (unpacked image.now self.now packed.now) a }
    {
        if t == 0 || t > MOST_BLOCKS {
            return false;
        }
        match self.word(packed.memory, block(t, ProcessWord::Pending)) {
            None => false,
            Some(0) => true,
            Some(entry) => self.spares_entry(image, packed, entry),
        }
    }

    // The same of the step of its exit in this phase.
    fn spares_phase(&self, image: &Image, packed: &Packed, t: u32, phase: ExitPhase) -> bool
        ensures { result ≡ true → (a : ℕ)
            → Uses (unpacked image.now self.now packed.now) t (Leaves phase) a
            → IsSpared (unpacked image.now self.now packed.now) a }
    {
        match phase {
            ExitPhase::Entry { entry, seen: _ } => self.spares_entry(image, packed, entry.0),
            ExitPhase::Pending => self.spares_pending(image, packed, t),
            ExitPhase::ClearId | ExitPhase::LastWake | ExitPhase::Ended => true,
        }
    }

    // The same of its next step, where it stands here.
    fn spares_step(&self, image: &Image, packed: &Packed, t: u32, local: &Local) -> bool
        ensures { result ≡ true → (a : ℕ)
            → Uses (unpacked image.now self.now packed.now) t (look image.now t local.now) a
            → IsSpared (unpacked image.now self.now packed.now) a }
    {
        match local.next_step(image, t) {
            NextStep::Local => true,
            NextStep::Shared(request) => self.spares_request(image, packed, request),
            NextStep::Fork {
                entry: _,
                count: _,
                has_room: _,
            } => true,
            NextStep::Exit(phase) => self.spares_phase(image, packed, t, phase),
            NextStep::Broken => true,
            NextStep::Ended => true,
        }
    }

    // The same of the next step of the thread behind so many others, should it be awake.
    fn is_apart_at(&self, image: &Image, packed: &Packed, k: usize) -> bool
        ensures { result ≡ true
            → IsApartAt image.now (unpacked image.now self.now packed.now) (suc k) }
    {
        let Some(t) = thread_number(k) else {
            return false;
        };
        if packed.place(k) != 0 {
            return true;
        }
        match self.thread(packed, k) {
            None => true,
            Some(local) => self.spares_step(image, packed, t, local),
        }
    }

    /// Whether no thread's next step uses a word that the rest of the exit of a thread used which has ended: its pending
    /// entry, or its id.
    pub fn is_apart(&self, image: &Image, packed: &Packed) -> bool
        ensures { result ≡ true → IsApart image.now (unpacked image.now self.now packed.now) }
    {
        for k in 0..packed.parts.len() {
            if !self.is_apart_at(image, packed, k) {
                return false;
            }
        }
        true
    }
}
