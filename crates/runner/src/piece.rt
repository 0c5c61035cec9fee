ghost use Rattle.words.specs.Limits.{most_local_steps};
ghost use Rattle.std.specs.Prelude.{◌≡◌, ◌≤◌, ◌<◌, ◌+◌, [], true, MatchOption, Some, None};
ghost use Rattle.locals.specs.Accesses.{accessing};
ghost use Rattle.locals.specs.Looks.{look};
ghost use Rattle.locals.specs.Requests.{next_step_of};
ghost use Rattle.locals.specs.Sequences.{AreSequences};
ghost use Rattle.locals.specs.Steps.{local_step, local_after};
ghost use Rattle.locals.specs.Threads.{Exits};
ghost use Rattle.machine.specs.ConcreteSteps.{can_move};
ghost use Rattle.machine.specs.Views.{concrete};
ghost use Rattle.piece_machine.specs.PieceViews.{DoneFrom, GoesTo};
ghost use Rattle.robustexit.specs.declared.phase.ExitPhase.TheVariants.{Ended};

use crate::naming::RunName;
use isa::Image;
use locals::{Access, Local, NextStep, Sequences};
use piece_machine::PieceMachine;
use robustexit::ExitPhase;
use std::marker::{Model, PhantomData};
use words::{MOST_LOCAL_STEPS, Mem};

/// A thread away from the machine, between two entries of the log of run `J`. Its type keeps that it has come to where
/// it is by as many local steps of the run's program as it counts.
#[derive(Drop)]
pub struct Piece<J: RunName> {
    pub(crate) thread: u32,
    pub(crate) origin: Local,
    pub(crate) here: Local,
    pub(crate) count: u32,
    pub(crate) of: PhantomData<J>,
}

impl<J: RunName> Model for Piece<J> {
    ghost use Rattle.std.specs.Prelude.{◌≡◌, ◌≤◌, Some};
    ghost use Rattle.words.specs.Limits.{most_local_steps};
    ghost use Rattle.locals.specs.Steps.{local_after};
    ghost use Rattle.runner.specs.Views.{PieceView};

    ghost Value = { PieceView };

    ghost view = { λ p. record { thread = p.thread; origin = p.origin; here = p.here; count = p.count } };

    ghost invariant = { λ p. (local_after J.program p.thread p.count p.origin ≡ Some p.here)
        × (p.count ≤ most_local_steps) };
}

impl<J: RunName> Piece<J> {
    /// Takes the thread's local steps until another step comes or its turn is over.
    pub fn run(self, image: &Image) -> Piece<J>
        requires { image.now ≡ J.program }
        ensures same { (result.thread ≡ self.thread) × (result.origin ≡ self.origin) }
        ensures reached { local_after J.program result.thread result.count result.origin
            ≡ Some result.here }
        ensures within { result.count ≤ most_local_steps }
        ensures whole { result.count < most_local_steps
            → local_step J.program result.thread result.here ≡ None }
    {
        let mut piece = self;
        piece.go_on(image);
        piece
    }

    /// The same in its place, so that nothing is copied.
    pub fn go_on(&mut self, image: &Image)
        requires { image.now ≡ J.program }
        ensures same { (self.new.thread ≡ self.old.thread) × (self.new.origin ≡ self.old.origin) }
        ensures reached { local_after J.program self.new.thread self.new.count self.new.origin
            ≡ Some self.new.here }
        ensures within { self.new.count ≤ most_local_steps }
        ensures whole { self.new.count < most_local_steps
            → local_step J.program self.new.thread self.new.here ≡ None }
    {
        let budget = MOST_LOCAL_STEPS - self.count;
        self.count += self.here.run(image, self.thread, budget);
    }

    /// The same with frequent sequences of instructions taken in one go. The sequences are those of the image, and `nothing`
    /// is a memory without a word.
    pub fn go_on_by_sequences(&mut self, image: &Image, sequences: &Sequences, nothing: &mut Mem)
        requires image { image.now ≡ J.program }
        requires noted { AreSequences J.program.code sequences.now }
        requires nothing { nothing.old ≡ [] }
        ensures same { (self.new.thread ≡ self.old.thread) × (self.new.origin ≡ self.old.origin) }
        ensures reached { local_after J.program self.new.thread self.new.count self.new.origin
            ≡ Some self.new.here }
        ensures within { self.new.count ≤ most_local_steps }
        ensures whole { self.new.count < most_local_steps
            → local_step J.program self.new.thread self.new.here ≡ None }
        ensures nothing { nothing.new ≡ [] }
    {
        let left = MOST_LOCAL_STEPS - self.count;
        self.count += self
            .here
            .run_by_sequences(image, sequences, self.thread, left, nothing);
    }

    /// What its next step is.
    pub fn next_step(&self, image: &Image) -> NextStep
        requires { image.now ≡ J.program }
        ensures { result ≡ next_step_of (look J.program self.now.thread self.now.here) }
    {
        self.here.next_step(image, self.thread)
    }

    /// How many local steps it took.
    pub fn count(&self) -> u32
        ensures { result ≡ self.now.count }
    {
        self.count
    }

    /// A piece of thread `t` as if it had ended, to be begun anew.
    pub fn idle(t: u32) -> Piece<J>
        ensures { result ≡ record { thread = t; origin = Exits Ended; here = Exits Ended; count = 0 } }
    {
        Piece {
            thread: t,
            origin: Local::exiting(ExitPhase::Ended),
            here: Local::exiting(ExitPhase::Ended),
            count: 0,
            of: PhantomData,
        }
    }

    /// Begins anew where another piece has come.
    pub fn follow(&mut self, before: &Piece<J>)
        ensures { self.new ≡ record {
          thread = before.now.thread;
          origin = before.now.here;
          here = before.now.here;
          count = 0;
        } }
    {
        self.begin(before.thread, &before.here);
    }

    /// Begins anew where thread `t` is.
    pub(crate) fn begin(&mut self, t: u32, local: &Local)
        ensures { self.new ≡ record { thread = t; origin = local.now; here = local.now; count = 0 } }
    {
        self.thread = t;
        self.origin.copy_from(local);
        self.here.copy_from(local);
        self.count = 0;
    }

    /// Makes the access to a word that is its next step on itself, where one is, and begins anew where that led, as its
    /// thread does. Answers it. Where its next step is none nothing has changed.
    pub(crate) fn access(&mut self, machine: &mut PieceMachine) -> Option<Access>
        requires thread { can_move (concrete machine.old.view) self.old.thread ≡ true }
        requires goes { GoesTo machine.old.view self.old.thread self.old.here }
        ensures made { MatchOption result ((self.new ≡ self.old) × (machine.new ≡ machine.old)
            × (accessing (look machine.old.view.program self.old.thread self.old.here) machine.old.view.words ≡ None))
            (λ told. DoneFrom told machine.old self.old.thread self.old.here machine.new self.new.here
            × (self.new ≡ record { thread = self.old.thread; origin = self.new.here; here = self.new.here; count = 0 })) }
        ensures program { machine.new.view.program ≡ machine.old.view.program }
    {
        let access = machine.access_from(self.thread, &mut self.here)?;
        self.origin.copy_from(&self.here);
        self.count = 0;
        Some(access)
    }
}
