//! What comes to a machine in pieces from outside.
ghost use Rattle.std.specs.Prelude.{◌≡◌, ◌<◌, ◌≤◌, ℕ, length, Some, None, Ok, Err, true, take, OnOk, IfErr};
ghost use Rattle.buckets.specs.Places.{names, with_place};
ghost use Rattle.buckets.specs.Sleepers.{bucket_count, holder_of};
ghost use Rattle.futexcalls.specs.Pieces.{buckets_of, held_at};
ghost use Rattle.machine.specs.PieceStates.{called};
ghost use Rattle.machine.specs.States.{thread_of};
ghost use Rattle.machine.specs.Views.{concrete};
ghost use Rattle.piece_machine.specs.PieceConcrete.{stray_piece, kill_piece};
ghost use Rattle.piece_machine.specs.PieceViews.{parts};

use crate::piece_machine::{PieceMachine, call_in};
use futexcalls::{FutexCall, FutexPhase};
use locals::NextStep;
use machine::{Event, Machine, StepFault};

// Thread `t` gives up the first bucket of its call, which it holds.
fn release_first(machine: &mut Machine, t: u32, call: FutexCall)
    requires some { 0 < bucket_count machine.old.sleepers }
    requires held { (k : ℕ)
        → names (take 1 (buckets_of (bucket_count machine.old.sleepers) call)) k ≡ true
        → holder_of machine.old.sleepers k ≡ Some t }
    ensures holders { holder_of machine.new.sleepers ≡ with_place (holder_of machine.old.sleepers)
        (take 1 (buckets_of (bucket_count machine.old.sleepers) call)) None }
    ensures count { bucket_count machine.new.sleepers ≡ bucket_count machine.old.sleepers }
    ensures same { (machine.new.program ≡ machine.old.program)
        × (concrete machine.new ≡ concrete machine.old) × (machine.new.room ≡ machine.old.room) }
{
    if let Some(first) = machine.next_bucket(call, FutexPhase::First) {
        machine.release(t, first);
    }
}

// Thread `t` gives up all buckets of its call, which it holds.
fn release_all(machine: &mut Machine, t: u32, call: FutexCall)
    requires some { 0 < bucket_count machine.old.sleepers }
    requires held { (k : ℕ)
        → names (buckets_of (bucket_count machine.old.sleepers) call) k ≡ true
        → holder_of machine.old.sleepers k ≡ Some t }
    ensures holders { holder_of machine.new.sleepers ≡ with_place (holder_of machine.old.sleepers)
        (buckets_of (bucket_count machine.old.sleepers) call) None }
    ensures count { bucket_count machine.new.sleepers ≡ bucket_count machine.old.sleepers }
    ensures same { (machine.new.program ≡ machine.old.program)
        × (concrete machine.new ≡ concrete machine.old) × (machine.new.room ≡ machine.old.room) }
{
    release_first(machine, t, call);
    if let Some(second) = machine.next_bucket(call, FutexPhase::Second) {
        if machine.holder(second).is_some() {
            machine.release(t, second);
        }
    }
}

// Thread `t` gives up the buckets that it holds, by the call that it makes, if it makes one, and by its phase.
fn give_up(machine: &mut Machine, t: u32, call: Option<FutexCall>, phase: FutexPhase)
    requires some { 0 < bucket_count machine.old.sleepers }
    requires held { (k : ℕ)
        → names (held_at (bucket_count machine.old.sleepers) phase call) k ≡ true
        → holder_of machine.old.sleepers k ≡ Some t }
    ensures holders { holder_of machine.new.sleepers ≡ with_place (holder_of machine.old.sleepers)
        (held_at (bucket_count machine.old.sleepers) phase call) None }
    ensures count { bucket_count machine.new.sleepers ≡ bucket_count machine.old.sleepers }
    ensures same { (machine.new.program ≡ machine.old.program)
        × (concrete machine.new ≡ concrete machine.old) × (machine.new.room ≡ machine.old.room) }
{
    let Some(call) = call else {
        return;
    };
    match phase {
        FutexPhase::First => {}
        FutexPhase::Second => release_first(machine, t, call),
        FutexPhase::Compare | FutexPhase::Act => release_all(machine, t, call),
    }
}

impl PieceMachine {
    /// Wakes thread `t` though nobody called for it, as the kernel may (futex(2): "spurious wake-up"). Who sleeps is
    /// within no call, so that no bucket is given up.
    ///
    /// Refuses with `CannotMove` where there is no such thread or it doesn't sleep; then nothing has changed.
    pub fn stray(&mut self, t: u32, event: &mut Event) -> Result<(), StepFault>
        ensures done { OnOk result (stray_piece (parts self.old) t ≡ Ok (parts self.new, event.new)) }
        ensures err { IfErr result
            (λ f. (stray_piece (parts self.old) t ≡ Err f) × (self.new ≡ self.old)) }
        ensures program { self.new.view.program ≡ self.old.view.program }
        ensures room { self.new.view.room ≡ self.old.view.room }
    {
        self.machine.stray(t, event)?;
        Ok(())
    }

    /// Kills thread `t`, wherever it stands: asleep, or within a call, whose buckets it gives up. The event's value is 1
    /// where the thread begins to die by it; a thread that is dying, in its exit or has ended isn't changed, and the
    /// value is 0.
    ///
    /// Refuses with `CannotMove` where there is no such thread; then nothing has changed.
    pub fn kill(&mut self, t: u32, event: &mut Event) -> Result<(), StepFault>
        ensures done { OnOk result (kill_piece self.old.view.program (parts self.old) t
            ≡ Ok (parts self.new, event.new)) }
        ensures err { IfErr result
            (λ f. (kill_piece self.old.view.program (parts self.old) t ≡ Err f)
            × (self.new ≡ self.old)) }
        ensures program { self.new.view.program ≡ self.old.view.program }
        ensures room { self.new.view.room ≡ self.old.view.room }
    {
        if !self.machine.is_made(t) {
            return Err(StepFault::CannotMove);
        }
        let call = self.call_at(t);
        give_up(&mut self.machine, t, call, self.phases.at(t));
        self.phases.put(t, FutexPhase::First);
        self.machine.kill(t, event)?;
        Ok(())
    }

    // The futex call that thread `t` makes, if it makes one.
    pub(crate) fn call_at(&self, t: u32) -> Option<FutexCall>
        requires { (0 < t) × (t ≤ length self.now.view.threads) }
        ensures { result ≡ called self.now.view.program t (thread_of (concrete self.now.view) t) }
    {
        match self.machine.next_step(t) {
            NextStep::Shared(request) => call_in(request),
            _ => None,
        }
    }
}
