ghost use Rattle.std.specs.Prelude.{◌≡◌, ◌≢◌, ◌≤◌, ◌<◌, ℕ, MatchBool, Some, None, is_some, length, reverse};
ghost use Rattle.std.specs.Prelude.{[], IfSome, MatchOption};
ghost use Rattle.words.specs.declared.outcome.Cause.TheVariants.{Faulted, Killed};
ghost use Rattle.robustexit.specs.declared.phase.ExitPhase.TheVariants.{Ended};
ghost use Rattle.locals.specs.Accesses.{accessing};
ghost use Rattle.locals.specs.Limits.{most_operands};
ghost use Rattle.locals.specs.Threads.{Dies, Exits, is_dying, opening_thread, place_in_code};
ghost use Rattle.locals.specs.Looks.{look};
ghost use Rattle.locals.specs.Steps.{local_after, local_step};
ghost use Rattle.locals.specs.Requests.{call_in, next_step_of, after_answer, fork_child, CanBeAnswered};
ghost use Rattle.locals.specs.Sequences.{AreSequences};
ghost use Rattle.locals.specs.Walks.{Walks};

use crate::access::Access;
use crate::activation::Activation;
use crate::progress::Answered;
use crate::request::{NextStep, Request};
use crate::sequences::Sequences;
use crate::walking::Walked;
use isa::Image;
use robustexit::{ExitPhase, phase_at};
use std::marker::Model;
use words::{Cause, Fault, Mem};

/// What a thread does, or is about to do.
#[derive(Drop)]
enum Stage {
    Running(Activation),
    Dying(Cause),
    Exiting(ExitPhase),
}

/// The state of one thread, all but the words that it shares. Contracts see a `Thread`. It has a fixed size.
#[derive(Drop)]
pub struct Local {
    stage: Stage,
}

impl Model for Local {
    ghost use Rattle.locals.specs.Threads.{Thread};

    ghost Value = { Thread };

    ghost use Rattle.locals.specs.Views.{thread_of_stage};

    ghost view = { λ l. thread_of_stage l.stage };
}

/// A thread at the start of a procedure, with at most `MOST_OPERANDS` arguments from the lowest operand up. The first
/// thread of a program has none.
pub fn opening_local(start: u32, arguments: &[u32]) -> Local
    requires { length arguments.now ≤ most_operands }
    ensures { result ≡ opening_thread start (reverse arguments.now) }
{
    Local {
        stage: Stage::Running(Activation::start(start, arguments)),
    }
}

impl Local {
    /// A thread in a phase of its exit.
    pub fn exiting(phase: ExitPhase) -> Local
        ensures { result ≡ Exits phase }
    {
        Local {
            stage: Stage::Exiting(phase),
        }
    }

    /// Goes into a phase of its exit.
    pub fn enter_phase(&mut self, phase: ExitPhase)
        ensures { self.new ≡ Exits phase }
    {
        self.stage = Stage::Exiting(phase);
    }

    /// Whether the thread has begun to die, or is past it.
    pub fn is_dying(&self) -> bool
        ensures { result ≡ is_dying self.now }
    {
        !matches!(&self.stage, Stage::Running(_))
    }

    /// Begins to die, killed from outside.
    pub fn kill(&mut self)
        ensures { self.new ≡ Dies Killed }
    {
        self.stage = Stage::Dying(Cause::Killed);
    }

    /// A copy. It takes time in proportion to the operands and frames in use.
    pub fn copy(&self) -> Local
        ensures { result ≡ self.now }
    {
        let stage = match &self.stage {
            Stage::Running(activation) => Stage::Running(activation.copy()),
            Stage::Dying(cause) => Stage::Dying(*cause),
            Stage::Exiting(phase) => Stage::Exiting(*phase),
        };
        Local { stage }
    }

    /// Becomes a copy of another, in its place. Where both run it takes time in proportion to the operands and frames
    /// in use.
    pub fn copy_from(&mut self, other: &Local)
        ensures { self.new ≡ other.now }
    {
        match (&mut self.stage, &other.stage) {
            (Stage::Running(activation), Stage::Running(from)) => activation.copy_from(from),
            _ => self.replace(other),
        }
    }

    // The same by a whole copy. Inlined, it would cost its caller room for one at each call.
    #[cold]
    #[inline(never)]
    fn replace(&mut self, other: &Local)
        ensures { self.new ≡ other.now }
    {
        *self = other.copy();
    }

    /// Whether it is the same state as the other.
    pub fn equals(&self, other: &Local) -> bool
        ensures { MatchBool result (self.now ≡ other.now) (self.now ≢ other.now) }
    {
        match (&self.stage, &other.stage) {
            (Stage::Running(a), Stage::Running(b)) => a.equals(b),
            (Stage::Dying(a), Stage::Dying(b)) => a == b,
            (Stage::Exiting(a), Stage::Exiting(b)) => a == b,
            _ => false,
        }
    }

    /// Whether the thread has ended.
    pub fn has_ended(&self) -> bool
        ensures { MatchBool result (self.now ≡ Exits Ended) (self.now ≢ Exits Ended) }
    {
        matches!(&self.stage, Stage::Exiting(ExitPhase::Ended))
    }

    /// The place of the next instruction, where the thread runs its code.
    pub fn place(&self) -> Option<u32>
        ensures { result ≡ place_in_code self.now }
    {
        match &self.stage {
            Stage::Running(activation) => Some(activation.place),
            Stage::Dying(_) | Stage::Exiting(_) => None,
        }
    }

    /// What the next step of this state of thread `t` is.
    pub fn next_step(&self, image: &Image, t: u32) -> NextStep
        ensures { result ≡ next_step_of (look image.now t self.now) }
    {
        match &self.stage {
            Stage::Running(activation) => activation.next_step(image, t),
            Stage::Dying(cause) => NextStep::Shared(Request::Fault(*cause)),
            Stage::Exiting(ExitPhase::Ended) => NextStep::Ended,
            Stage::Exiting(phase) => NextStep::Exit(*phase),
        }
    }

    /// The wait or wake that is the next step of this state, if one is.
    #[inline(always)]
    pub fn call_ahead(&self, image: &Image) -> Option<Request>
        ensures { (t : ℕ) → result ≡ call_in (next_step_of (look image.now t self.now)) }
    {
        match &self.stage {
            Stage::Running(activation) => activation.call_ahead(image),
            Stage::Dying(_) | Stage::Exiting(_) => None,
        }
    }

    /// The thread that it forks, where that is what it asks for.
    pub fn child(&self, image: &Image, t: u32) -> Option<Local>
        ensures { result ≡ fork_child (look image.now t self.now) }
    {
        match &self.stage {
            Stage::Running(activation) => match activation.child(image, t) {
                Some(child) => Some(Local {
                    stage: Stage::Running(child),
                }),
                None => None,
            },
            Stage::Dying(_) | Stage::Exiting(_) => None,
        }
    }

    /// Goes on with the answer to the request that it makes. Where it makes none it stays as it is. A fork whose answer
    /// has no room is answered by 0 alone, that no thread can be made.
    pub fn go_on(&mut self, image: &Image, t: u32, answer: u32)
        requires { CanBeAnswered (look image.now t self.old) answer }
        ensures { self.new ≡ after_answer (look image.now t self.old) answer self.old }
    {
        if let Stage::Running(activation) = &mut self.stage {
            if activation.answer_call(image, answer) {
                return;
            }
        }
        self.go_on_else(image, t, answer)
    }

    // The same of any other. Apart, so that a wait or a wake needs few registers.
    #[inline(never)]
    fn go_on_else(&mut self, image: &Image, t: u32, answer: u32)
        requires { CanBeAnswered (look image.now t self.old) answer }
        ensures { self.new ≡ after_answer (look image.now t self.old) answer self.old }
    {
        match &mut self.stage {
            Stage::Running(activation) => match activation.go_on(image, t, answer) {
                Answered::GoesOn => {}
                Answered::Fails(fault) => self.stage = Stage::Dying(Cause::Faulted(fault)),
                Answered::Leaves(phase) => self.stage = Stage::Exiting(phase),
            },
            Stage::Dying(_) => self.stage = Stage::Exiting(phase_at(answer, 0)),
            Stage::Exiting(_) => {}
        }
    }

    /// Makes the access to a word that is the next step of thread `t`, where one is and its address lies in the memory,
    /// and goes on with its answer. Else nothing has changed.
    #[inline(always)]
    pub fn access(&mut self, image: &Image, t: u32, words: &mut Mem) -> Option<Access>
        ensures access { MatchOption result
            ((accessing (look image.now t self.old) words.old ≡ None) × (self.new ≡ self.old) × (words.new ≡ words.old))
            (λ told. accessing (look image.now t self.old) words.old
            ≡ Some (record { told = told; words = words.new; thread = self.new })) }
        ensures lives { IfSome result (λ told. self.new ≢ Exits Ended) }
    {
        match &mut self.stage {
            Stage::Running(activation) => activation.access(image, t, words),
            Stage::Dying(_) | Stage::Exiting(_) => None,
        }
    }

    /// Whether the next step of thread `t` is an access to a word, and its address lies in the memory.
    pub fn has_access(&self, image: &Image, t: u32, words: &Mem) -> bool
        ensures { result ≡ is_some (accessing (look image.now t self.now) words.now) }
    {
        match &self.stage {
            Stage::Running(activation) => activation.has_access(image, t, words),
            Stage::Dying(_) | Stage::Exiting(_) => false,
        }
    }

    /// Takes local steps of thread `t` in place until the next one isn't local or the budget is used. Answers how many.
    #[inline(always)]
    pub fn run(&mut self, image: &Image, t: u32, budget: u32) -> u32
        ensures reached { local_after image.now t result self.old ≡ Some self.new }
        ensures within { result ≤ budget }
        ensures whole { result < budget → local_step image.now t self.new ≡ None }
        ensures lives { self.old ≢ Exits Ended → self.new ≢ Exits Ended }
    {
        match &mut self.stage {
            Stage::Running(activation) => {
                let (count, failed) = activation.run(image, t, budget);
                if let Some(fault) = failed {
                    self.die(fault);
                }
                count
            }
            Stage::Dying(_) | Stage::Exiting(_) => 0,
        }
    }

    /// The same away from the words, frequent sequences in one go. The sequences are those of the image, and `nothing` is a
    /// memory without a word.
    #[inline(always)]
    pub fn run_by_sequences(
        &mut self,
        image: &Image,
        sequences: &Sequences,
        t: u32,
        budget: u32,
        nothing: &mut Mem,
    ) -> u32
        requires noted { AreSequences image.now.code sequences.now }
        requires nothing { nothing.old ≡ [] }
        ensures reached { local_after image.now t result self.old ≡ Some self.new }
        ensures within { result ≤ budget }
        ensures whole { result < budget → local_step image.now t self.new ≡ None }
        ensures nothing { nothing.new ≡ [] }
    {
        match &mut self.stage {
            Stage::Running(activation) => {
                let (count, failed) = activation.run_by_sequences(
                    image, sequences, t, budget, nothing,
                );
                if let Some(fault) = failed {
                    self.die(fault);
                }
                count
            }
            Stage::Dying(_) | Stage::Exiting(_) => 0,
        }
    }

    /// Takes local steps of thread `t` in place until the next one isn't local or the budget is used, and behind them the
    /// access to a word that comes next, where one does and its address lies in the memory. Answers how many local steps
    /// these were, and the access. The sequences are those of the image.
    #[inline(always)]
    pub fn walk(
        &mut self,
        image: &Image,
        sequences: &Sequences,
        t: u32,
        budget: u32,
        words: &mut Mem,
    ) -> (u32, Option<Access>)
        requires noted { AreSequences image.now.code sequences.now }
        ensures walks { Walks image.now t budget words.old words.new self.old self.new result.0 result.1 }
        ensures lives { IfSome result.1 (λ told. self.new ≢ Exits Ended) }
    {
        match &mut self.stage {
            Stage::Running(activation) => {
                let (count, end) = activation.walk(image, sequences, t, budget, words);
                match end {
                    Walked::Made(access) => (count, Some(access)),
                    Walked::Failed(fault) => {
                        self.die(fault);
                        (count, None)
                    }
                    Walked::Stands => (count, None),
                }
            }
            Stage::Dying(_) | Stage::Exiting(_) => (0, None),
        }
    }

    // Begins to die of a fault. Inlined, it would cost its caller room for a whole stage, which is filled at each call.
    #[cold]
    #[inline(never)]
    fn die(&mut self, fault: Fault)
        ensures { self.new ≡ Dies (Faulted fault) }
    {
        self.stage = Stage::Dying(Cause::Faulted(fault));
    }

    /// Takes a local step of thread `t` where the next one is, and says whether it did. Else it stays as it is.
    pub fn take_step(&mut self, image: &Image, t: u32) -> bool
        ensures { MatchBool result (local_step image.now t self.old ≡ Some self.new)
            ((local_step image.now t self.old ≡ None) × (self.new ≡ self.old)) }
    {
        self.run(image, t, 1) == 1
    }

    /// Whether the next step of this state of thread `t` is a local one.
    pub fn is_before_local(&self, image: &Image, t: u32) -> bool
        ensures { result ≡ is_some (local_step image.now t self.now) }
    {
        self.next_step(image, t) == NextStep::Local
    }
}
