ghost use Rattle.std.specs.Prelude.{◌≡◌, ◌≤◌, ◌<◌, ◌+◌, ℕ, suc, MatchBool, IfNone, IfSome, Some, None, false, true, length, ◌⊎◌, ◌^◌};
ghost use Rattle.machine.specs.AbstractServing.{IsUnserved};
ghost use Rattle.machine.specs.RequestMeanings.{asked_of};
ghost use Rattle.locals.specs.Looks.{look};
ghost use Rattle.machine.specs.Runs.{CanStep, IsBroken, NextIsBroken};
ghost use Rattle.machine.specs.States.{State};
ghost use Rattle.proof_image_search.specs.Searching.{HasFailed, IsStuck};
ghost use Rattle.isa.specs.Programs.{Program};
ghost use Rattle.image_states.specs.Packed.{thread_at, unpacked, words_in};
ghost use Rattle.image_states.specs.Ends.{IsFailing, IsFailingAt, IsLive};

use crate::packed::Packed;
use crate::parts::Parts;
use crate::turns::thread_number;
use isa::Image;
use locals::{Local, NextStep, Request};
use words::Cause;

// Whether a local state of any thread is dying of a fault.
fn is_failing(image: &Image, local: &Local) -> bool
    ensures { MatchBool result (IsFailing local.now) (IsFailing local.now → ⊥) }
{
    if !local.is_dying() {
        return false;
    }
    matches!(
        local.next_step(image, 1),
        NextStep::Shared(Request::Fault(Cause::Faulted(_)))
    )
}

impl Parts {
    /// The local state of the thread behind so many others.
    pub fn thread(&self, packed: &Packed, k: usize) -> Option<&Local>
        ensures some { IfSome result
            (λ l. thread_at self.now.locals.items packed.now.parts.items (suc k) ≡ Some l.now) }
        ensures none { IfNone result
            (thread_at self.now.locals.items packed.now.parts.items (suc k) ≡ None) }
    {
        match packed.parts.get(k) {
            None => None,
            Some(part) => self.local(*part),
        }
    }

    // Whether the thread behind so many others was made and has not ended.
    fn is_live(&self, packed: &Packed, k: usize) -> bool
        ensures { (p : Program) → MatchBool result (IsLive (unpacked p self.now packed.now) (suc k))
            (IsLive (unpacked p self.now packed.now) (suc k) → ⊥) }
    {
        match self.thread(packed, k) {
            None => false,
            Some(local) => !local.has_ended(),
        }
    }

    /// Whether the thread behind so many others was made, is awake and has not ended.
    pub fn can_step(&self, packed: &Packed, k: usize) -> bool
        ensures { (p : Program)
            → MatchBool result (CanStep (unpacked p self.now packed.now) (suc k))
            (CanStep (unpacked p self.now packed.now) (suc k) → ⊥) }
    {
        if packed.place(k) != 0 {
            return false;
        }
        self.is_live(packed, k)
    }

    // Whether some thread can move.
    fn some_can_step(&self, packed: &Packed) -> bool
        ensures { (p : Program) → MatchBool result
            ((t : ℕ) × CanStep (unpacked p self.now packed.now) t)
            ((t : ℕ) → CanStep (unpacked p self.now packed.now) t → ⊥) }
    {
        for k in 0..packed.parts.len() {
            if self.can_step(packed, k) {
                return true;
            }
        }
        false
    }

    // Whether some thread has not ended.
    fn some_is_live(&self, packed: &Packed) -> bool
        ensures { (p : Program) → MatchBool result
            ((t : ℕ) × IsLive (unpacked p self.now packed.now) t)
            ((t : ℕ) → IsLive (unpacked p self.now packed.now) t → ⊥) }
    {
        for k in 0..packed.parts.len() {
            if self.is_live(packed, k) {
                return true;
            }
        }
        false
    }

    /// Whether in a state no thread can move, and some thread has not ended.
    pub fn is_stuck(&self, packed: &Packed) -> bool
        ensures { (p : Program) → MatchBool result (IsStuck (unpacked p self.now packed.now))
            (IsStuck (unpacked p self.now packed.now) → ⊥) }
    {
        if self.some_can_step(packed) {
            return false;
        }
        self.some_is_live(packed)
    }

    // Whether the thread behind so many others is dying of a fault.
    fn is_failing(&self, image: &Image, packed: &Packed, k: usize) -> bool
        ensures { MatchBool result (IsFailingAt (unpacked image.now self.now packed.now) (suc k))
            (IsFailingAt (unpacked image.now self.now packed.now) (suc k) → ⊥) }
    {
        match self.thread(packed, k) {
            None => false,
            Some(local) => is_failing(image, local),
        }
    }

    /// Whether a thread is dying of a fault.
    pub fn has_failed(&self, image: &Image, packed: &Packed) -> bool
        ensures { MatchBool result (HasFailed (unpacked image.now self.now packed.now))
            (HasFailed (unpacked image.now self.now packed.now) → ⊥) }
    {
        for k in 0..packed.parts.len() {
            if self.is_failing(image, packed, k) {
                return true;
            }
        }
        false
    }

    // Whether the words of a request lie in the memory of this number.
    pub(crate) fn lies(&self, memory: u32, request: Request) -> bool
        ensures { (s : State) → s.size ≡ length (words_in self.now.memories.items memory)
            → MatchBool result (IsUnserved (asked_of request) s → ⊥)
            (IsUnserved (asked_of request) s) }
    {
        match request {
            Request::Load(a) | Request::Store(a, _) | Request::Swap(a, _) => self
                .word(memory, a)
                .is_some(),
            Request::FetchOr(a, _) | Request::FetchAdd(a, _) => self.word(memory, a).is_some(),
            Request::CompareSwap {
                address,
                expected: _,
                new: _,
            } => self.word(memory, address).is_some(),
            Request::Wait {
                address,
                expected: _,
            } => self.word(memory, address).is_some(),
            Request::Wake { address, count: _ } => self.word(memory, address).is_some(),
            Request::Requeue {
                from,
                to,
                wake: _,
                moves: _,
                expected: _,
            } => self.word(memory, from).is_some() && self.word(memory, to).is_some(),
            Request::Print(_) | Request::Return | Request::ReturnValue(_) | Request::Fault(_) =>
                true,
        }
    }

    // Whether the next step of a thread that stands here may not be.
    fn breaks(&self, image: &Image, packed: &Packed, t: u32, local: &Local) -> bool
        ensures { MatchBool result
            (IsBroken (unpacked image.now self.now packed.now) (look image.now t local.now))
            (IsBroken (unpacked image.now self.now packed.now) (look image.now t local.now) → ⊥) }
    {
        match local.next_step(image, t) {
            NextStep::Local => false,
            NextStep::Shared(request) => !self.lies(packed.memory, request),
            NextStep::Fork {
                entry: _,
                count: _,
                has_room,
            } => packed.parts.len() < self.most_threads() as usize && !has_room,
            NextStep::Exit(_) => false,
            NextStep::Broken => true,
            NextStep::Ended => false,
        }
    }

    /// Whether the next step of the thread behind so many others may not be.
    pub fn is_broken_at(&self, image: &Image, packed: &Packed, k: usize, t: u32) -> bool
        requires { t ≡ suc k }
        ensures { MatchBool result
            (NextIsBroken image.now (unpacked image.now self.now packed.now) (suc k))
            (NextIsBroken image.now (unpacked image.now self.now packed.now) (suc k) → ⊥) }
    {
        if packed.place(k) != 0 {
            return false;
        }
        match self.thread(packed, k) {
            None => false,
            Some(local) => self.breaks(image, packed, t, local),
        }
    }

    /// Whether a thread's next step may not be. Of a state with more threads than numbers that is answered too.
    pub fn is_broken(&self, image: &Image, packed: &Packed) -> bool
        ensures broken { result ≡ true
            → ((t : ℕ) × NextIsBroken image.now (unpacked image.now self.now packed.now) t)
            ⊎ (2 ^ 32 ≤ length packed.now.parts.items + 1) }
        ensures whole { result ≡ false
            → (t : ℕ) → NextIsBroken image.now (unpacked image.now self.now packed.now) t → ⊥ }
    {
        for k in 0..packed.parts.len() {
            let Some(t) = thread_number(k) else {
                return true;
            };
            if self.is_broken_at(image, packed, k, t) {
                return true;
            }
        }
        false
    }
}
