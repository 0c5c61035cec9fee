//! The pieces of threads' futex calls. A wait and a wake have functions of their own, which know which call it is.
ghost use Rattle.std.specs.Prelude.{◌≡◌, ◌≤◌, length, None, Ok, Err, IfErr, IfOk, OnOk};
ghost use Rattle.futexcalls.specs.declared.pieces.FutexCall.TheVariants.{Wait, Wake};
ghost use Rattle.futexcalls.specs.declared.pieces.FutexPhase.TheVariants.{Act};
ghost use Rattle.machine.specs.ConcretePieces.{MakesCall};
ghost use Rattle.piece_machine.specs.PieceConcrete.{piece_of};
ghost use Rattle.piece_machine.specs.PieceViews.{pieces, parts, phase_in, expected_of, event_told, told_next};
ghost use Rattle.machine.specs.declared.event.Event.{Event as EventOf};

use crate::piece_machine::PieceMachine;
use crate::told::Told;
use futexcalls::{FutexCall, FutexPhase};
use machine::{CallStep, Event, EventName, StepFault};
use words::Addr;

// The word that a call expects, where it expects one.
fn expected_word(call: FutexCall) -> u32
    ensures { result ≡ expected_of call }
{
    match call {
        FutexCall::Wait { expected, .. } | FutexCall::Requeue { expected, .. } => expected,
        FutexCall::Wake { .. } => 0,
    }
}

// Tells of a piece that takes this bucket, or else compares the word, and behind which its call goes on.
#[inline(always)]
fn tell(bucket: Option<u32>, call: FutexCall) -> Told
    ensures { (event : EventOf) → event_told result event ≡ told_next bucket call }
{
    match bucket {
        Some(bucket) => Told::Plain(EventName::FutexLock, bucket),
        None => Told::Plain(EventName::FutexCompare, expected_word(call)),
    }
}

impl PieceMachine {
    /// A piece of the wait that thread `t` makes, which is awake. Those that take its bucket and compare its word stand where
    /// they are told of, the others apart.
    #[inline(always)]
    pub(crate) fn wait_step(
        &mut self,
        t: u32,
        address: Addr,
        expected: u32,
        event: &mut Event,
    ) -> Result<Told, StepFault>
        requires thread { t ≤ length self.old.view.threads }
        requires makes { MakesCall self.old.view t (Wait address expected) }
        requires awake { (pieces self.old).base.asleep t ≡ None }
        ensures done { IfOk result (λ told. piece_of self.old.view.program (parts self.old) t
            ≡ Ok (parts self.new, event_told told event.new)) }
        ensures err { IfErr result
            (λ f. (piece_of self.old.view.program (parts self.old) t ≡ Err f)
            × (self.new ≡ self.old)) }
        ensures program { self.new.view.program ≡ self.old.view.program }
        ensures room { self.new.view.room ≡ self.old.view.room }
    {
        match self.phases.at(t) {
            FutexPhase::Act => {
                self.wait_act(t, address, expected, event)?;
                Ok(Told::Written)
            }
            FutexPhase::First => {
                let call = FutexCall::Wait { address, expected };
                self.call_step(t, call, FutexPhase::First, event)
            }
            FutexPhase::Compare => {
                let call = FutexCall::Wait { address, expected };
                self.call_step(t, call, FutexPhase::Compare, event)
            }
            // Only a requeue takes a second bucket.
            FutexPhase::Second => unreachable!(),
        }
    }

    // The last piece of the wait that thread `t` makes, which is awake. Apart, since it needs more registers than those
    // before it.
    #[inline(never)]
    fn wait_act(
        &mut self,
        t: u32,
        address: Addr,
        expected: u32,
        event: &mut Event,
    ) -> Result<(), StepFault>
        requires thread { t ≤ length self.old.view.threads }
        requires makes { MakesCall self.old.view t (Wait address expected) }
        requires phase { Act ≡ phase_in self.old.phases t }
        requires awake { (pieces self.old).base.asleep t ≡ None }
        ensures done { OnOk result (piece_of self.old.view.program (parts self.old) t
            ≡ Ok (parts self.new, event.new)) }
        ensures err { IfErr result
            (λ f. (piece_of self.old.view.program (parts self.old) t ≡ Err f)
            × (self.new ≡ self.old)) }
        ensures program { self.new.view.program ≡ self.old.view.program }
        ensures room { self.new.view.room ≡ self.old.view.room }
    {
        let call = FutexCall::Wait { address, expected };
        let told = self.call_step(t, call, FutexPhase::Act, event)?;
        told.write(event);
        Ok(())
    }

    /// A piece of the wake that thread `t` makes, which is awake. The one that takes its bucket stands where it is told of, the
    /// others apart.
    #[inline(always)]
    pub(crate) fn wake_step(
        &mut self,
        t: u32,
        address: Addr,
        wakes: u32,
        event: &mut Event,
    ) -> Result<Told, StepFault>
        requires thread { t ≤ length self.old.view.threads }
        requires makes { MakesCall self.old.view t (Wake address wakes) }
        requires awake { (pieces self.old).base.asleep t ≡ None }
        ensures done { IfOk result (λ told. piece_of self.old.view.program (parts self.old) t
            ≡ Ok (parts self.new, event_told told event.new)) }
        ensures err { IfErr result
            (λ f. (piece_of self.old.view.program (parts self.old) t ≡ Err f)
            × (self.new ≡ self.old)) }
        ensures program { self.new.view.program ≡ self.old.view.program }
        ensures room { self.new.view.room ≡ self.old.view.room }
    {
        match self.phases.at(t) {
            FutexPhase::Act => {
                self.wake_act(t, address, wakes, event)?;
                Ok(Told::Written)
            }
            FutexPhase::First => {
                let call = FutexCall::Wake { address, wakes };
                self.call_step(t, call, FutexPhase::First, event)
            }
            // Nor does a wake compare.
            FutexPhase::Second | FutexPhase::Compare => unreachable!(),
        }
    }

    // The last piece of the wake that thread `t` makes, which is awake. Apart as that of a wait.
    #[inline(never)]
    fn wake_act(
        &mut self,
        t: u32,
        address: Addr,
        wakes: u32,
        event: &mut Event,
    ) -> Result<(), StepFault>
        requires thread { t ≤ length self.old.view.threads }
        requires makes { MakesCall self.old.view t (Wake address wakes) }
        requires phase { Act ≡ phase_in self.old.phases t }
        requires awake { (pieces self.old).base.asleep t ≡ None }
        ensures done { OnOk result (piece_of self.old.view.program (parts self.old) t
            ≡ Ok (parts self.new, event.new)) }
        ensures err { IfErr result
            (λ f. (piece_of self.old.view.program (parts self.old) t ≡ Err f)
            × (self.new ≡ self.old)) }
        ensures program { self.new.view.program ≡ self.old.view.program }
        ensures room { self.new.view.room ≡ self.old.view.room }
    {
        let call = FutexCall::Wake { address, wakes };
        let told = self.call_step(t, call, FutexPhase::Act, event)?;
        told.write(event);
        Ok(())
    }

    /// A piece of the futex call that thread `t` makes, which is awake and in this phase; its event is put in its place.
    /// Apart, for pieces that few take.
    #[inline(never)]
    pub(crate) fn call_rest(
        &mut self,
        t: u32,
        call: FutexCall,
        phase: FutexPhase,
        event: &mut Event,
    ) -> Result<(), StepFault>
        requires thread { t ≤ length self.old.view.threads }
        requires makes { MakesCall self.old.view t call }
        requires phase { phase ≡ phase_in self.old.phases t }
        requires awake { (pieces self.old).base.asleep t ≡ None }
        ensures done { OnOk result (piece_of self.old.view.program (parts self.old) t
            ≡ Ok (parts self.new, event.new)) }
        ensures err { IfErr result
            (λ f. (piece_of self.old.view.program (parts self.old) t ≡ Err f)
            × (self.new ≡ self.old)) }
        ensures program { self.new.view.program ≡ self.old.view.program }
        ensures room { self.new.view.room ≡ self.old.view.room }
    {
        let told = self.call_step(t, call, phase, event)?;
        told.write(event);
        Ok(())
    }

    /// The same, and how it is told of.
    #[inline(always)]
    pub(crate) fn call_step(
        &mut self,
        t: u32,
        call: FutexCall,
        phase: FutexPhase,
        event: &mut Event,
    ) -> Result<Told, StepFault>
        requires thread { t ≤ length self.old.view.threads }
        requires makes { MakesCall self.old.view t call }
        requires phase { phase ≡ phase_in self.old.phases t }
        requires awake { (pieces self.old).base.asleep t ≡ None }
        ensures done { IfOk result (λ told. piece_of self.old.view.program (parts self.old) t
            ≡ Ok (parts self.new, event_told told event.new)) }
        ensures err { IfErr result
            (λ f. (piece_of self.old.view.program (parts self.old) t ≡ Err f)
            × (self.new ≡ self.old)) }
        ensures program { self.new.view.program ≡ self.old.view.program }
        ensures room { self.new.view.room ≡ self.old.view.room }
    {
        if !self.machine.has_words(call) {
            return Err(StepFault::Broken);
        }
        let bucket = self.machine.next_bucket(call, phase);
        match self.machine.take_piece(t, call, phase, event) {
            CallStep::Next(next) => {
                self.phases.put_from(t, phase, next);
                Ok(tell(bucket, call))
            }
            CallStep::Blocked => Err(StepFault::CannotMove),
            CallStep::Done => {
                self.phases.put_from(t, phase, FutexPhase::First);
                Ok(Told::Written)
            }
        }
    }
}
