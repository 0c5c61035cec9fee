//! The exits of threads.
ghost use Rattle.std.specs.Prelude.{◌≡◌, ◌≢◌, ◌<◌, ◌≤◌, length, MatchBool};
ghost use Rattle.words.specs.Process.{process_word};
ghost use Rattle.buckets.specs.Sleepers.{thread_count};
ghost use Rattle.machine.specs.ThreadSets.{IsThread};
ghost use Rattle.machine.specs.ConcreteExits.{leave};
ghost use Rattle.machine.specs.RequestMeanings.{value_at, name_at};
ghost use Rattle.machine.specs.ConcretePieces.{IsHeldUp};
ghost use Rattle.machine.specs.Views.{common};

use crate::common::Common;
use crate::event::{Event, EventName};
use robustexit::{ExitPhase, ExitRule, exit_step, wakes_on};
use words::{Mem, ProcessWord, block};

// The address that an event of this phase names, or 0.
fn address_at(words: &Mem, t: u32, phase: ExitPhase) -> u32
    requires thread { IsThread t }
    requires block { process_word t 5 < length words.now }
    ensures { result ≡ value_at t phase words.now }
{
    match phase {
        ExitPhase::Entry { entry, seen: _ } => entry.0,
        ExitPhase::Pending => words.load(block(t, ProcessWord::Pending)),
        ExitPhase::ClearId | ExitPhase::LastWake | ExitPhase::Ended => 0,
    }
}

// How a step of an exit is told.
fn name_of(phase: ExitPhase) -> EventName
    ensures { result ≡ name_at phase }
{
    match phase {
        ExitPhase::Entry { entry: _, seen: _ } => EventName::Entry,
        ExitPhase::Pending => EventName::Pending,
        ExitPhase::ClearId => EventName::Clear,
        ExitPhase::LastWake | ExitPhase::Ended => EventName::Last,
    }
}

impl Common {
    /// Takes a step of the exit of thread `t`, which isn't over, by this rule, and answers the phase after it.
    pub fn leave(
        &mut self,
        rule: ExitRule,
        t: u32,
        phase: ExitPhase,
        event: &mut Event,
    ) -> ExitPhase
        requires thread { (1 ≤ t) × (t ≤ thread_count self.old.sleepers) }
        requires running { phase ≢ ExitPhase.Ended }
        ensures gives { leave rule t phase (common self.old)
            ≡ record { common = common self.new; next = result; event = event.new } }
        ensures capacity { self.new.capacity ≡ self.old.capacity }
        ensures holders { self.new.sleepers.holders ≡ self.old.sleepers.holders }
    {
        let address = address_at(&self.words, t, phase);
        let next = exit_step(
            rule,
            &mut self.words,
            &mut self.buckets,
            t,
            phase,
            &mut self.lists.woken,
        );
        let woken = self.lists.woken.as_slice();
        let value = match phase {
            ExitPhase::LastWake => woken.len() as u32,
            _ => address,
        };
        event.put_with(name_of(phase), value, woken, &[]);
        next
    }

    /// Whether a thread holds the bucket of the word on which the step of thread `t`'s exit in this phase would wake, by
    /// this rule.
    pub fn is_held_up(&self, rule: ExitRule, t: u32, phase: ExitPhase) -> bool
        requires thread { (1 ≤ t) × (t ≤ thread_count self.now.sleepers) }
        ensures { MatchBool result (IsHeldUp rule self.now.words self.now.sleepers t phase)
            (IsHeldUp rule self.now.words self.now.sleepers t phase → ⊥) }
    {
        match wakes_on(rule, &self.words, t, phase) {
            Some(word) => {
                let bucket = self.buckets.number(word);
                self.buckets.holder(bucket).is_some()
            }
            None => false,
        }
    }
}
