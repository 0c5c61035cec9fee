//! How far threads have come in their futex calls.
ghost use Rattle.std.specs.Prelude.{◌≡◌, ◌+◌, ◌<◌, ℕ, true, length, replicate, slice_set, IfOk};
ghost use Rattle.words.specs.Limits.{most_threads};
ghost use Rattle.futexcalls.specs.declared.pieces.FutexPhase.TheVariants.{First};
ghost use Rattle.piece_machine.specs.PieceViews.{phase_in, within};

use futexcalls::FutexPhase;
use std::alloc::{AllocError, Global};
use std::marker::Model;
use words::MOST_THREADS;

/// The phase of each thread from 0, which is the first for a thread outside calls. There is no thread 0. Contracts see
/// the list of phases.
#[derive(Drop)]
pub struct Phases {
    of_threads: Vec<FutexPhase>,
    // How many threads are within a call.
    inside: usize,
}

impl Model for Phases {
    ghost use Rattle.std.specs.Prelude.{◌≡◌, List};
    ghost use Rattle.futexcalls.specs.declared.pieces.FutexPhase.{FutexPhase};
    ghost use Rattle.piece_machine.specs.PieceViews.{count_within};

    ghost Value = { List FutexPhase };

    ghost view = { λ p. p.of_threads.items };

    ghost invariant = { λ p. p.inside ≡ count_within p.of_threads.items };
}

// 1 for a phase within a call, 0 for the first.
fn counted(phase: FutexPhase) -> usize
    ensures { result ≡ within phase }
{
    match phase {
        FutexPhase::First => 0,
        FutexPhase::Second | FutexPhase::Compare | FutexPhase::Act => 1,
    }
}

impl Phases {
    /// The phases at the start: each thread that can be made is outside calls.
    pub fn new(alloc: Global) -> Result<Phases, AllocError>
        ensures { IfOk result (λ p. p ≡ replicate (most_threads + 1) First) }
    {
        Ok(Phases {
            of_threads: vec![in alloc; FutexPhase::First; MOST_THREADS as usize + 1]?,
            inside: 0,
        })
    }

    /// Whether all threads are outside calls.
    pub fn all_first(&self) -> bool
        ensures { result ≡ true → (t : ℕ) → phase_in self.now t ≡ First }
    {
        self.inside == 0
    }

    /// The phase of thread `t`.
    pub fn at(&self, t: u32) -> FutexPhase
        requires { t < length self.now }
        ensures { result ≡ phase_in self.now t }
    {
        self.of_threads[t as usize]
    }

    /// Thread `t` comes to this phase.
    pub fn put(&mut self, t: u32, phase: FutexPhase)
        requires { t < length self.old }
        ensures { self.new ≡ slice_set self.old t phase }
    {
        let before = self.at(t);
        self.put_from(t, before, phase);
    }

    /// Thread `t`, which is in the phase `before`, comes to another. Who knows both spares looking and counting.
    #[inline(always)]
    pub fn put_from(&mut self, t: u32, before: FutexPhase, phase: FutexPhase)
        requires thread { t < length self.old }
        requires before { before ≡ phase_in self.old t }
        ensures { self.new ≡ slice_set self.old t phase }
    {
        self.of_threads[t as usize] = phase;
        self.inside = self.inside + counted(phase) - counted(before);
    }
}
