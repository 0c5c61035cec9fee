ghost use Rattle.std.specs.Prelude.{◌≡◌, ◌⊎◌, true, false, IfOk};
ghost use Rattle.locals.specs.Sequences.{AreSequences};
ghost use Rattle.locals.specs.Threads.{Exits};
ghost use Rattle.robustexit.specs.declared.phase.ExitPhase.TheVariants.{Ended};
ghost use Rattle.runner.specs.Speculations.{speculation_at, HasNoneLeft, IsFull, MakesOne};

use crate::naming::RunName;
use crate::piece::Piece;
use isa::Image;
use locals::{Local, Sequences};
use machine::SpeculativeAccess;
use robustexit::ExitPhase;
use std::alloc::{AllocError, Global};
use std::marker::{Model, PhantomData};
use words::{MOST_LOCAL_STEPS, Mem};

/// How many accesses a thread makes ahead of the machine at most before they are taken in.
pub const MOST_ACCESSES: usize = 64;

/// A thread ahead of the machine of run `J`: it takes local steps, and makes accesses on words of its own, which needn't be
/// the machine's. Its type keeps that the run's program leads it so wherever each access finds the word that it found.
#[derive(Drop)]
pub struct Speculation<J: RunName> {
    pub(crate) thread: u32,
    pub(crate) origin: Local,
    // With room for `MOST_ACCESSES`.
    pub(crate) made: Vec<SpeculativeAccess>,
    // How many local steps it took behind the last of them.
    pub(crate) count: u32,
    pub(crate) here: Local,
    // The steps of the accesses, with the local ones before each.
    pub(crate) cost: u32,
    pub(crate) of: PhantomData<J>,
}

impl<J: RunName> Model for Speculation<J> {
    ghost use Rattle.std.specs.Prelude.{◌≡◌, ◌≤◌, length, vec_capacity};
    ghost use Rattle.words.specs.Limits.{most_local_steps};
    ghost use Rattle.runner.specs.Speculations.{SpeculationView, HasCome, IsPriced, most_accesses};

    ghost Value = { SpeculationView };

    ghost view = { λ s. record { thread = s.thread; origin = s.origin; made = s.made.items; count = s.count; here = s.here } };

    ghost invariant = { λ s. HasCome J.program s.thread s.origin s.made.items s.count s.here
        × IsPriced s.made.items s.count s.cost × (most_accesses ≤ vec_capacity s.made) };
}

impl<J: RunName> Speculation<J> {
    /// None of thread `t` yet: as if it had ended, to be begun anew.
    pub fn idle(alloc: Global, t: u32) -> Result<Speculation<J>, AllocError>
        ensures { IfOk result (λ s. s ≡ speculation_at t (Exits Ended)) }
    {
        Ok(Speculation {
            thread: t,
            origin: Local::exiting(ExitPhase::Ended),
            made: Vec::with_capacity(alloc, MOST_ACCESSES)?,
            count: 0,
            here: Local::exiting(ExitPhase::Ended),
            cost: 0,
            of: PhantomData,
        })
    }

    /// Begins anew where a piece began.
    pub fn begin(&mut self, piece: &Piece<J>)
        ensures { self.new ≡ speculation_at piece.now.thread piece.now.origin }
    {
        self.thread = piece.thread;
        self.origin.copy_from(&piece.origin);
        self.made.clear();
        self.count = 0;
        self.here.copy_from(&piece.origin);
        self.cost = 0;
    }

    /// Begins anew where it began.
    pub fn restart(&mut self)
        ensures { self.new ≡ speculation_at self.old.thread self.old.origin }
    {
        self.made.clear();
        self.count = 0;
        self.here.copy_from(&self.origin);
        self.cost = 0;
    }

    /// Begins anew where it has come.
    pub(crate) fn settle(&mut self)
        ensures { self.new ≡ speculation_at self.old.thread self.old.here }
    {
        self.made.clear();
        self.count = 0;
        self.origin.copy_from(&self.here);
        self.cost = 0;
    }

    /// Goes on by local steps and the access to a word behind them, which it makes on these words. Answers whether it made
    /// one: it does unless a turn of local steps is over, another step comes, the address lies outside the words, or there
    /// are `MOST_ACCESSES` already. The sequences are those of the image.
    pub fn go_on(&mut self, image: &Image, sequences: &Sequences, words: &mut Mem) -> bool
        requires image { image.now ≡ J.program }
        requires noted { AreSequences J.program.code sequences.now }
        ensures same { (self.new.thread ≡ self.old.thread) × (self.new.origin ≡ self.old.origin) }
        ensures made { result ≡ true → (self.new.count ≡ 0)
            × MakesOne J.program self.old words.old self.new words.new }
        ensures none { result ≡ false → (self.new.made ≡ self.old.made) × (words.new ≡ words.old)
            × (IsFull self.old self.new ⊎ HasNoneLeft J.program self.new words.old) }
    {
        if self.made.len() >= MOST_ACCESSES {
            return false;
        }
        let left = MOST_LOCAL_STEPS - self.count;
        let (count, access) = self.here.walk(image, sequences, self.thread, left, words);
        let local = self.count + count;
        let Some(access) = access else {
            self.count = local;
            return false;
        };
        let after = words.load(access.address);
        self.made.push_reserved(SpeculativeAccess {
            local,
            access,
            after,
        });
        self.cost += local + 1;
        self.count = 0;
        true
    }

    /// The accesses that it made.
    pub fn made(&self) -> &[SpeculativeAccess]
        ensures { result.now ≡ self.now.made }
    {
        self.made.as_slice()
    }
}
