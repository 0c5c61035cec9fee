ghost use Rattle.std.specs.Prelude.{◌≡◌, ◌≤◌, ◌<◌, ◌+◌, length, None, Some, Ok, Err, IfOk, IfErr, OnOk};
ghost use Rattle.buckets.specs.BucketCount.{IsBucketCount};
ghost use Rattle.locals.specs.Looks.{look};
ghost use Rattle.locals.specs.Requests.{next_step_of, short_call};
ghost use Rattle.locals.specs.Threads.{Thread};
ghost use Rattle.locals.specs.declared.request.NextStep.TheVariants.{Shared};
ghost use Rattle.machine.specs.PieceStates.{opening_pieces, call_of};
ghost use Rattle.machine.specs.RequestMeanings.{asked_of};
ghost use Rattle.machine.specs.States.{state_of, thread_of};
ghost use Rattle.machine.specs.Views.{concrete};
ghost use Rattle.piece_machine.specs.PieceConcrete.{opening_at, piece_of};
ghost use Rattle.piece_machine.specs.PieceDetermined.{IsFit};
ghost use Rattle.piece_machine.specs.PieceViews.{event_told, pieces, parts, IsComeTo, IsApart};

use crate::phases::Phases;
use crate::told::Told;
use futexcalls::FutexCall;
use isa::Image;
use locals::{NextStep, Request};
use machine::{Event, Machine, StepFault};
use std::alloc::{AllocError, Global};
use std::marker::Model;

/// A machine whose threads take futex calls in pieces. Contracts see the machine and its threads' phases.
#[derive(Drop)]
pub struct PieceMachine {
    pub(crate) machine: Machine,
    pub(crate) phases: Phases,
}

impl Model for PieceMachine {
    ghost use Rattle.piece_machine.specs.PieceViews.{PieceView, IsKept};

    ghost Value = { PieceView };

    ghost view = { λ m. record { view = m.machine; phases = m.phases } };

    ghost invariant = { λ m. IsKept m.machine m.phases };
}

/// The futex call that a request is, if it is one.
pub(crate) fn call_in(request: Request) -> Option<FutexCall>
    ensures { result ≡ call_of (asked_of request) }
{
    match request {
        Request::Wait { address, expected } => Some(FutexCall::Wait { address, expected }),
        Request::Wake { address, count } => Some(FutexCall::Wake {
            address,
            wakes: count,
        }),
        Request::Requeue {
            from,
            to,
            wake,
            moves,
            expected,
        } => Some(FutexCall::Requeue {
            address: from,
            target: to,
            wakes: wake,
            moves,
            expected,
        }),
        Request::Load(_)
        | Request::Store(..)
        | Request::Swap(..)
        | Request::CompareSwap { .. }
        | Request::FetchOr(..)
        | Request::FetchAdd(..)
        | Request::Print(_)
        | Request::Return
        | Request::ReturnValue(_)
        | Request::Fault(_) => None,
    }
}

impl PieceMachine {
    /// The machine at the start of an image, over so many buckets, which nobody holds. It keeps a copy of the image. From
    /// then on no step takes memory.
    pub fn new(alloc: Global, image: &Image, buckets: u32) -> Result<PieceMachine, AllocError>
        requires { IsBucketCount buckets }
        ensures program { IfOk result (λ m. m.view.program ≡ image.now) }
        ensures parts { IfOk result (λ m. parts m ≡ opening_at image.now buckets) }
        ensures opening { IfOk result (λ m. pieces m ≡ opening_pieces image.now buckets) }
    {
        let phases = Phases::new(alloc)?;
        let machine = Machine::new(alloc, image, buckets)?;
        Ok(PieceMachine { machine, phases })
    }

    /// Makes room for `n` printed numbers at least.
    #[inline(always)]
    pub fn make_room(&mut self, n: usize) -> Result<(), AllocError>
        ensures room { OnOk result (n ≤ self.new.view.room) }
        ensures same { (self.new.view.program ≡ self.old.view.program)
            × (pieces self.new ≡ pieces self.old) }
        ensures parts { parts self.new ≡ parts self.old }
    {
        self.machine.make_room(n)
    }

    /// The machine, which shows its words, its threads and what they printed. With it comes what always holds: a run of
    /// its program with futex calls in pieces leads to where it is, and its buckets are held as the phases say.
    pub fn machine(&self) -> &Machine
        ensures shows { result.now ≡ self.now.view }
        ensures come { IsComeTo self.now.view.program (pieces self.now) }
        ensures fit { IsFit self.now.view.program (parts self.now) }
    {
        &self.machine
    }

    /// The machine alone, as what a run leaves shows it.
    pub fn into_machine(self) -> Machine
        ensures { result ≡ self.view }
    {
        let PieceMachine { machine, .. } = self;
        machine
    }

    /// One step of thread `t`: a local one, a shared one, or a piece of its futex call.
    ///
    /// Refuses with `CannotMove` where there is no such thread, it sleeps, it has ended, or a held bucket is in its way,
    /// and with `Broken` where its step may not be; then nothing has changed.
    pub fn step(&mut self, t: u32, event: &mut Event) -> Result<(), StepFault>
        requires { 1 ≤ self.old.view.room }
        ensures done { OnOk result (piece_of self.old.view.program (parts self.old) t
            ≡ Ok (parts self.new, event.new)) }
        ensures err { IfErr result
            (λ f. (piece_of self.old.view.program (parts self.old) t ≡ Err f)
            × (self.new ≡ self.old)) }
        ensures program { self.new.view.program ≡ self.old.view.program }
        ensures room { self.old.view.room ≤ self.new.view.room + 1 }
    {
        if !self.machine.is_made(t) || self.machine.asleep(t).is_some() {
            return Err(StepFault::CannotMove);
        }
        let next = self.machine.next_step(t);
        self.step_as(t, next, event)
    }

    /// The step of thread `t`, which was made and is awake, whose next step is `next`. It is `step` for a caller that
    /// has asked for the next step already.
    #[inline(always)]
    pub fn step_as(&mut self, t: u32, next: NextStep, event: &mut Event) -> Result<(), StepFault>
        requires room { 1 ≤ self.old.view.room }
        requires thread { (0 < t) × (t ≤ length self.old.view.threads) }
        requires awake { (state_of (concrete self.old.view)).asleep t ≡ None }
        requires next { (x : Thread) → thread_of (concrete self.old.view) t ≡ Some x
            → next ≡ next_step_of (look self.old.view.program t x) }
        ensures done { OnOk result (piece_of self.old.view.program (parts self.old) t
            ≡ Ok (parts self.new, event.new)) }
        ensures err { IfErr result
            (λ f. (piece_of self.old.view.program (parts self.old) t ≡ Err f)
            × (self.new ≡ self.old)) }
        ensures program { self.new.view.program ≡ self.old.view.program }
        ensures room { self.old.view.room ≤ self.new.view.room + 1 }
    {
        match next {
            NextStep::Shared(request) => self.request_step(t, request, event),
            _ => self.other_step(t, event),
        }
    }

    // The same of this request. Apart, for callers that take few.
    #[inline(never)]
    fn request_step(&mut self, t: u32, request: Request, event: &mut Event) -> Result<(), StepFault>
        requires room { 1 ≤ self.old.view.room }
        requires thread { (0 < t) × (t ≤ length self.old.view.threads) }
        requires awake { (state_of (concrete self.old.view)).asleep t ≡ None }
        requires next { (x : Thread) → thread_of (concrete self.old.view) t ≡ Some x
            → Shared request ≡ next_step_of (look self.old.view.program t x) }
        ensures done { OnOk result (piece_of self.old.view.program (parts self.old) t
            ≡ Ok (parts self.new, event.new)) }
        ensures err { IfErr result
            (λ f. (piece_of self.old.view.program (parts self.old) t ≡ Err f)
            × (self.new ≡ self.old)) }
        ensures program { self.new.view.program ≡ self.old.view.program }
        ensures room { self.old.view.room ≤ self.new.view.room + 1 }
    {
        let told = self.request_told(t, request, event)?;
        told.write(event);
        Ok(())
    }

    /// The same, and how the step is told of: so the events of most waits and wakes needn't be written and read. These come
    /// first, since most such steps are pieces of theirs, and they print no number, which would want room.
    #[inline(always)]
    pub fn request_told(
        &mut self,
        t: u32,
        request: Request,
        event: &mut Event,
    ) -> Result<Told, StepFault>
        requires room { short_call request ≡ None → 1 ≤ self.old.view.room }
        requires thread { (0 < t) × (t ≤ length self.old.view.threads) }
        requires awake { (state_of (concrete self.old.view)).asleep t ≡ None }
        requires next { (x : Thread) → thread_of (concrete self.old.view) t ≡ Some x
            → Shared request ≡ next_step_of (look self.old.view.program t x) }
        ensures done { IfOk result (λ told. piece_of self.old.view.program (parts self.old) t
            ≡ Ok (parts self.new, event_told told event.new)) }
        ensures err { IfErr result
            (λ f. (piece_of self.old.view.program (parts self.old) t ≡ Err f)
            × (self.new ≡ self.old)) }
        ensures program { self.new.view.program ≡ self.old.view.program }
        ensures room { self.old.view.room ≤ self.new.view.room + 1 }
    {
        match request {
            Request::Wait { address, expected } => self.wait_step(t, address, expected, event),
            Request::Wake { address, count } => self.wake_step(t, address, count, event),
            _ => {
                self.other_step(t, event)?;
                Ok(Told::Written)
            }
        }
    }

    // The step of thread `t`, which was made and is awake. It asks for the next step anew, so that who has it at hand
    // needn't put it into memory once more for the few steps that come here.
    #[inline(never)]
    fn other_step(&mut self, t: u32, event: &mut Event) -> Result<(), StepFault>
        requires room { 1 ≤ self.old.view.room }
        requires thread { (0 < t) × (t ≤ length self.old.view.threads) }
        requires awake { (state_of (concrete self.old.view)).asleep t ≡ None }
        ensures done { OnOk result (piece_of self.old.view.program (parts self.old) t
            ≡ Ok (parts self.new, event.new)) }
        ensures err { IfErr result
            (λ f. (piece_of self.old.view.program (parts self.old) t ≡ Err f)
            × (self.new ≡ self.old)) }
        ensures program { self.new.view.program ≡ self.old.view.program }
        ensures room { self.old.view.room ≤ self.new.view.room + 1 }
    {
        let next = self.machine.next_step(t);
        match next {
            NextStep::Shared(request) => match call_in(request) {
                Some(call) => {
                    let phase = self.phases.at(t);
                    self.call_rest(t, call, phase, event)
                }
                None => self.whole_step(t, next, event),
            },
            NextStep::Exit(phase) => {
                if self.machine.is_held_up(t, phase) {
                    return Err(StepFault::CannotMove);
                }
                self.whole_step(t, next, event)
            }
            _ => self.whole_step(t, next, event),
        }
    }

    // A step of thread `t`, which is awake, that is none of a futex call, and that no held bucket is in the way of.
    fn whole_step(&mut self, t: u32, next: NextStep, event: &mut Event) -> Result<(), StepFault>
        requires room { 1 ≤ self.old.view.room }
        requires thread { (0 < t) × (t ≤ length self.old.view.threads) }
        requires apart { IsApart self.old.view.program (pieces self.old) t }
        requires next { (x : Thread) → thread_of (concrete self.old.view) t ≡ Some x
            → next ≡ next_step_of (look self.old.view.program t x) }
        ensures done { OnOk result (piece_of self.old.view.program (parts self.old) t
            ≡ Ok (parts self.new, event.new)) }
        ensures err { IfErr result
            (λ f. (piece_of self.old.view.program (parts self.old) t ≡ Err f)
            × (self.new ≡ self.old)) }
        ensures program { self.new.view.program ≡ self.old.view.program }
        ensures room { self.old.view.room ≤ self.new.view.room + 1 }
    {
        self.machine.step_as(t, next, event)?;
        Ok(())
    }
}
