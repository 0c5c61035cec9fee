//! The accesses of threads to the words.
ghost use Rattle.std.specs.Prelude.{◌≡◌, ◌≤◌, ◌<◌, ℕ, length, IfErr, OnOk, OnErr};
ghost use Rattle.locals.specs.Looks.{AskLoad, AskStore, AskSwap, AskCompareSwap, AskOr, AskAdd};
ghost use Rattle.machine.specs.Accessing.{access_name};
ghost use Rattle.machine.specs.ConcreteServing.{serve};
ghost use Rattle.machine.specs.RequestMeanings.{with_common};
ghost use Rattle.machine.specs.Views.{common};

use crate::common::Common;
use crate::event::{Event, EventName, StepFault};
use locals::AccessKind;
use words::{Addr, Mem};

/// How an access is told that a thread makes in its place.
#[inline(always)]
pub fn access_name(kind: AccessKind) -> EventName
    ensures { result ≡ access_name kind }
{
    match kind {
        AccessKind::Load => EventName::Load,
        AccessKind::Store => EventName::Store,
        AccessKind::Swap => EventName::Swap,
        AccessKind::CompareSwap => EventName::CompareSwap,
        AccessKind::FetchOr => EventName::FetchOr,
        AccessKind::FetchAdd => EventName::FetchAdd,
    }
}

/// A step may not be where its address lies outside the memory.
pub fn check_address(words: &Mem, a: Addr) -> Result<(), StepFault>
    ensures inside { OnOk result (a.0 < length words.now) }
    ensures outside { IfErr result (λ f. (f ≡ StepFault.Broken) × (length words.now ≤ a.0)) }
{
    if (a.0 as usize) < words.len() {
        Ok(())
    } else {
        Err(StepFault::Broken)
    }
}

impl Common {
    /// Reads the word at an address.
    pub fn load(&self, a: Addr, event: &mut Event) -> Result<u32, StepFault>
        ensures gives { (made t : ℕ)
            → serve made t (AskLoad a.0) (common self.now) ≡ with_common result event.new (common self.now) }
    {
        check_address(&self.words, a)?;
        let word = self.words.load(a);
        event.put(EventName::Load, word);
        Ok(word)
    }

    /// Puts a word at an address.
    pub fn store(&mut self, a: Addr, v: u32, event: &mut Event) -> Result<u32, StepFault>
        ensures gives { (made t : ℕ)
            → serve made t (AskStore a.0 v) (common self.old)
            ≡ with_common result event.new (common self.new) }
        ensures capacity { self.new.capacity ≡ self.old.capacity }
        ensures holders { self.new.sleepers.holders ≡ self.old.sleepers.holders }
        ensures same { OnErr result (self.new ≡ self.old) }
    {
        check_address(&self.words, a)?;
        self.words.store(a, v);
        event.put(EventName::Store, v);
        Ok(0)
    }

    /// Puts a word at an address; the answer is the word before.
    pub fn swap(&mut self, a: Addr, v: u32, event: &mut Event) -> Result<u32, StepFault>
        ensures gives { (made t : ℕ)
            → serve made t (AskSwap a.0 v) (common self.old)
            ≡ with_common result event.new (common self.new) }
        ensures capacity { self.new.capacity ≡ self.old.capacity }
        ensures holders { self.new.sleepers.holders ≡ self.old.sleepers.holders }
        ensures same { OnErr result (self.new ≡ self.old) }
    {
        check_address(&self.words, a)?;
        let before = self.words.swap(a, v);
        event.put(EventName::Swap, before);
        Ok(before)
    }

    /// Puts `new` at an address where the word is `expected`; the answer is the word before.
    pub fn compare_swap(
        &mut self,
        a: Addr,
        expected: u32,
        new: u32,
        event: &mut Event,
    ) -> Result<u32, StepFault>
        ensures gives { (made t : ℕ)
            → serve made t (AskCompareSwap a.0 expected new) (common self.old)
            ≡ with_common result event.new (common self.new) }
        ensures capacity { self.new.capacity ≡ self.old.capacity }
        ensures holders { self.new.sleepers.holders ≡ self.old.sleepers.holders }
        ensures same { OnErr result (self.new ≡ self.old) }
    {
        check_address(&self.words, a)?;
        let before = self.words.compare_swap(a, expected, new);
        event.put(EventName::CompareSwap, before);
        Ok(before)
    }

    /// Sets bits in the word at an address; the answer is the word before.
    pub fn fetch_or(&mut self, a: Addr, v: u32, event: &mut Event) -> Result<u32, StepFault>
        ensures gives { (made t : ℕ)
            → serve made t (AskOr a.0 v) (common self.old) ≡ with_common result event.new (common self.new) }
        ensures capacity { self.new.capacity ≡ self.old.capacity }
        ensures holders { self.new.sleepers.holders ≡ self.old.sleepers.holders }
        ensures same { OnErr result (self.new ≡ self.old) }
    {
        check_address(&self.words, a)?;
        let before = self.words.fetch_or(a, v);
        event.put(EventName::FetchOr, before);
        Ok(before)
    }

    /// Adds a number to the word at an address, modulo 2^32; the answer is the word before.
    pub fn fetch_add(&mut self, a: Addr, v: u32, event: &mut Event) -> Result<u32, StepFault>
        ensures gives { (made t : ℕ)
            → serve made t (AskAdd a.0 v) (common self.old) ≡ with_common result event.new (common self.new) }
        ensures capacity { self.new.capacity ≡ self.old.capacity }
        ensures holders { self.new.sleepers.holders ≡ self.old.sleepers.holders }
        ensures same { OnErr result (self.new ≡ self.old) }
    {
        check_address(&self.words, a)?;
        let before = self.words.fetch_add(a, v);
        event.put(EventName::FetchAdd, before);
        Ok(before)
    }
}
