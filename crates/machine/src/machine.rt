ghost use Rattle.std.specs.Prelude.{◌≡◌, ◌≢◌, ◌≤◌, ◌<◌, ◌+◌, ℕ, length, slice_index, slice_set, ◌-◌};
ghost use Rattle.std.specs.Prelude.{◌⊎◌, true, false, Some, None, Ok, Err, IfOk, IfErr, OnOk, OnErr, MatchBool, MatchOption, IfSome, is_some};
ghost use Rattle.words.specs.Limits.{most_threads};
ghost use Rattle.words.specs.Process.{process_word};
ghost use Rattle.words.specs.Updates.{put};
ghost use Rattle.words.specs.Outcomes.{outcome_of};
ghost use Rattle.isa.specs.Programs.{memory_size};
ghost use Rattle.buckets.specs.BucketCount.{IsBucketCount};
ghost use Rattle.buckets.specs.Places.{names};
ghost use Rattle.buckets.specs.Sleepers.{bucket_count, holder_of};
ghost use Rattle.futexcalls.specs.Pieces.{takes_at, held_at, IsPhase, LiesIn};
ghost use Rattle.robustexit.specs.ExitRules.{exit_of};
ghost use Rattle.locals.specs.Accesses.{accessing};
ghost use Rattle.locals.specs.Looks.{look};
ghost use Rattle.locals.specs.Requests.{call_in, next_step_of};
ghost use Rattle.locals.specs.Threads.{Thread};
ghost use Rattle.machine.specs.ConcretePieces.{MakesCall, DoesPiece, QueuesSo, IsHeldUp};
ghost use Rattle.locals.specs.Steps.{local_step};
ghost use Rattle.machine.specs.States.{thread_of, state_of, opening_concrete};
ghost use Rattle.machine.specs.Runs.{has_ended};
ghost use Rattle.machine.specs.ConcreteSteps.{step_of, can_move, fault_at};
ghost use Rattle.machine.specs.ConcreteOutside.{kill_of, stray_of};
ghost use Rattle.machine.specs.Accessing.{AccessesFrom, HasNoAccess, MakesAccess, told_access};
ghost use Rattle.machine.specs.Speculation.{Committed, FindsAll, SpeculatesAll};
ghost use Rattle.machine.specs.LocalRuns.{RunsOn, WalksOn};
ghost use Rattle.machine.specs.ThreadSets.{IsLeastFrom};
ghost use Rattle.machine.specs.Views.{concrete, AllEnded, IsQuiet, variable_address, address_of, printed_by};
ghost use Rattle.machine.specs.Views.{IsWellFormed};

use crate::able::is_able;
use crate::call_step::{CallProgress, CallStep};
use crate::common::Common;
use crate::event::{Event, EventName, StepFault};
use crate::parts::{opening_threads, step_parts, variable};
use crate::speculation::{SpeculativeAccess, commit_accesses};
use crate::thread_bits::ThreadBits;
use crate::thread_step::{take_access, take_walk};
use futexcalls::{FutexCall, FutexPhase};
use isa::Image;
use locals::{Access, Local, NextStep, Request, Sequences};
use robustexit::{ExitPhase, ExitRule};
use std::alloc::{AllocError, Global};
use std::marker::Model;
use words::{Addr, Outcome, ProcessWord, block};

/// The machine of an image: the words, who sleeps on which address, the threads that were made, numbered from 1, and
/// the numbers that were printed. Contracts see a `View`.
#[derive(Drop)]
pub struct Machine {
    image: Image,
    common: Common,
    // With room for all threads that can be made, so that a fork takes no memory.
    threads: Vec<Local>,
    // Who can move, so that nobody has to ask each thread.
    able: ThreadBits,
    // The frequent sequences of the image's code.
    sequences: Sequences,
}

impl Model for Machine {
    ghost use Rattle.std.specs.Prelude.{◌≤◌, ◌-◌, length, vec_capacity};
    ghost use Rattle.words.specs.Versions.{most_of};
    ghost use Rattle.locals.specs.Sequences.{AreSequences};
    ghost use Rattle.machine.specs.Views.{View, IsWellFormed, ShowsAble, parts_of};

    ghost Value = { View };

    ghost view = { λ m. record {
      program = m.image;
      words = m.common.words;
      sleepers = m.common.sleepers;
      threads = m.threads.items;
      output = m.common.output;
      room = m.common.capacity - length m.common.output;
    } };

    ghost invariant = { λ m. IsWellFormed m.image (parts_of m.common m.threads.items)
        × ((most_of m.image.version ≤ vec_capacity m.threads) × AreSequences m.image.code m.sequences)
        × ShowsAble m.able.words (parts_of m.common m.threads.items) };
}

impl Machine {
    /// The machine at the start of an image, over so many buckets of sleepers, which nobody holds: one thread, which
    /// stands at the image's start. It keeps a copy of the image. From then on no step takes memory.
    pub fn new(alloc: Global, image: &Image, buckets: u32) -> Result<Machine, AllocError>
        requires { IsBucketCount buckets }
        ensures program { IfOk result (λ m. m.program ≡ image.now) }
        ensures opening { IfOk result (λ m. concrete m ≡ opening_concrete image.now) }
        ensures buckets { IfOk result (λ m. bucket_count m.sleepers ≡ buckets) }
        ensures free { IfOk result (λ m. (k : ℕ) → holder_of m.sleepers k ≡ None) }
        ensures holds { IfOk result (λ m. IsWellFormed image.now (concrete m)) }
    {
        let mut able = ThreadBits::new();
        able.put(1, true);
        Ok(Machine {
            image: image.copy(alloc)?,
            common: Common::new(alloc, image, buckets)?,
            threads: opening_threads(alloc, image)?,
            able,
            sequences: Sequences::new(alloc, image)?,
        })
    }

    /// Makes room for `n` printed numbers at least. It is refused only where there is less room.
    #[inline(always)]
    pub fn make_room(&mut self, n: usize) -> Result<(), AllocError>
        ensures room { OnOk result (n ≤ self.new.room) }
        ensures err { OnErr result ((self.old.room < n) × (self.new.room ≡ self.old.room)) }
        ensures same { (self.new.program ≡ self.old.program)
            × (concrete self.new ≡ concrete self.old) }
        ensures sleepers { self.new.sleepers ≡ self.old.sleepers }
    {
        self.common.make_room(n)
    }

    /// How many numbers can be printed before room has to be made.
    pub fn room(&self) -> usize
        ensures { result ≡ self.now.room }
    {
        self.common.room()
    }

    /// How many threads were made, from 1 to `MOST_THREADS`. With it comes what always holds of a machine.
    pub fn threads(&self) -> u32
        ensures value { result ≡ length self.now.threads }
        ensures within { (1 ≤ result) × (result ≤ most_threads) }
        ensures holds { IsWellFormed self.now.program (concrete self.now) }
    {
        self.threads.len() as u32
    }

    /// The state of thread `t`.
    pub fn local(&self, t: u32) -> &Local
        requires { (0 < t) × (t ≤ length self.now.threads) }
        ensures { thread_of (concrete self.now) t ≡ Some result.now }
    {
        &self.threads[t as usize - 1]
    }

    /// How thread `t` ended, as its outcome word tells.
    pub fn outcome(&self, t: u32) -> Outcome
        requires { (0 < t) × (t ≤ length self.now.threads) }
        ensures { result ≡ outcome_of ((state_of (concrete self.now)).word (process_word t 5)) }
    {
        Outcome::of_word(self.common.word(block(t, ProcessWord::Outcome)))
    }

    /// Whether thread `t` was made.
    pub fn is_made(&self, t: u32) -> bool
        ensures { MatchBool result (thread_of (concrete self.now) t ≢ None)
            (thread_of (concrete self.now) t ≡ None) }
    {
        t > 0 && t as usize <= self.threads.len()
    }

    /// Whether thread `t` was made and has ended.
    pub fn has_ended(&self, t: u32) -> bool
        ensures { result ≡ has_ended (thread_of (concrete self.now) t) }
    {
        t > 0 && t as usize <= self.threads.len() && self.threads[t as usize - 1].has_ended()
    }

    /// Whether all threads that were made have ended.
    pub fn all_ended(&self) -> bool
        ensures { MatchBool result (AllEnded (concrete self.now)) ((t : ℕ) × (0 < t)
            × (t ≤ length self.now.threads)
            × (has_ended (thread_of (concrete self.now) t) ≡ false)) }
    {
        for t in 0..self.threads() {
            if !self.has_ended(t + 1) {
                return false;
            }
        }
        true
    }

    /// Where thread `t` sleeps, if it was made and does.
    pub fn asleep(&self, t: u32) -> Option<Addr>
        ensures { address_of result ≡ (state_of (concrete self.now)).asleep t }
    {
        if t == 0 || t as usize > self.threads.len() {
            return None;
        }
        self.common.asleep(t)
    }

    /// Whether thread `t` was made and can move: it neither sleeps nor has ended.
    pub fn can_move(&self, t: u32) -> bool
        ensures { result ≡ can_move (concrete self.now) t }
    {
        is_able(&self.common, &self.threads, t)
    }

    /// The first thread from this number on that can move, if there is one.
    pub fn next_able(&self, from: u32) -> Option<u32>
        ensures { IsLeastFrom (can_move (concrete self.now)) from result }
    {
        self.next_able_behind(from.saturating_sub(1))
    }

    /// The first thread behind this number that can move, if there is one. Most runs have few threads: then all are told by
    /// one word.
    #[inline(always)]
    pub fn next_able_behind(&self, t: u32) -> Option<u32>
        ensures { IsLeastFrom (can_move (concrete self.now)) (t + 1) result }
    {
        if let Some(next) = self.able.first_behind(t) {
            return Some(next);
        }
        self.able.next_of_rest(t, self.threads.len() as u32)
    }

    /// Whether no thread can move.
    pub fn quiet(&self) -> bool
        ensures { MatchBool result (IsQuiet (concrete self.now)) ((t : ℕ)
            × (can_move (concrete self.now) t ≡ true)) }
    {
        self.next_able(0).is_none()
    }

    /// The word of a member of a monitor. Monitors and their member words are numbered from 0.
    pub fn var(&self, monitor: u32, index: u32) -> u32
        requires monitor { monitor < length self.now.program.monitors }
        requires index { index < slice_index self.now.program.monitors monitor }
        ensures { result
            ≡ (state_of (concrete self.now)).word
            (variable_address self.now.program.version self.now.program.monitors
            monitor index) }
    {
        self.common.word(variable(&self.image, monitor, index))
    }

    /// How many words the memory has.
    pub fn memory_len(&self) -> usize
        ensures value { result ≡ length self.now.words }
        ensures size { result ≡ memory_size self.now.program }
    {
        self.common.memory_len()
    }

    /// The word at an address.
    pub fn word(&self, address: Addr) -> u32
        requires { address.0 < length self.now.words }
        ensures { result ≡ (state_of (concrete self.now)).word address.0 }
    {
        self.common.word(address)
    }

    /// The numbers that were printed.
    pub fn output(&self) -> &[i32]
        ensures { result.now ≡ self.now.output }
    {
        self.common.output()
    }

    /// What a step of thread `t` would be refused for, if it stood where its next step is `next` and were awake.
    pub fn refusal_as(&self, t: u32, next: NextStep) -> Option<StepFault>
        ensures { (x : Thread) → next ≡ next_step_of (look self.now.program t x)
            → result ≡ fault_at self.now.program (concrete self.now) t x }
    {
        self.common.refusal(self.threads(), t, next)
    }

    /// Whether the next step of thread `t` would be a local one, if it stood at `here`.
    pub fn is_before_local(&self, t: u32, here: &Local) -> bool
        ensures { result ≡ is_some (local_step self.now.program t here.now) }
    {
        here.is_before_local(&self.image, t)
    }

    /// Puts thread `t`, which can move, where its local steps led.
    pub fn put_local(&mut self, t: u32, local: Local)
        requires { can_move (concrete self.old) t ≡ true }
        ensures { self.new ≡ record self.old { threads = slice_set self.old.threads (t - 1) local } }
    {
        self.threads[t as usize - 1] = local;
        self.able.refresh(&self.common, &self.threads, t);
    }

    /// Puts thread `t`, which can move, where its local steps led, by a copy in its place.
    pub fn copy_local(&mut self, t: u32, local: &Local)
        requires { can_move (concrete self.old) t ≡ true }
        ensures { self.new ≡ record self.old { threads = slice_set self.old.threads (t - 1) local.now } }
    {
        self.threads[t as usize - 1].copy_from(local);
        self.able.refresh(&self.common, &self.threads, t);
    }

    /// Takes local steps of thread `t`, which can move, in its place, until another step comes or the budget is used.
    /// Answers how many.
    #[inline(always)]
    pub fn run_local(&mut self, t: u32, budget: u32) -> u32
        requires { can_move (concrete self.old) t ≡ true }
        ensures runs { RunsOn self.old t budget result self.new }
        ensures moves { can_move (concrete self.new) t ≡ true }
    {
        self.threads[t as usize - 1].run(&self.image, t, budget)
    }

    /// Makes the access to a word that is the next step of thread `t`, which can move, where one is and the word lies in
    /// the memory, and answers it. Else nothing has changed. It is the thread's `step`, which asks for nothing and is told
    /// no answer; its event is that of `access_name`, and wakes and moves nobody.
    #[inline(always)]
    pub fn access(&mut self, t: u32) -> Option<Access>
        requires { can_move (concrete self.old) t ≡ true }
        ensures made { MatchOption result ((self.new ≡ self.old) × HasNoAccess self.old t)
            (λ told. MakesAccess self.old t (told_access told) self.new) }
        ensures moves { IfSome result (λ told. can_move (concrete self.new) t ≡ true) }
    {
        let local = &mut self.threads[t as usize - 1];
        take_access(&self.image, &mut self.common, t, local)
    }

    /// Both in one go: local steps of thread `t`, which can move, in its place, until another step comes or the budget is
    /// used, and the access to a word behind them, if that is its next step then and the word lies in the memory. Answers how
    /// many local steps they were, and the access.
    #[inline(always)]
    pub fn walk(&mut self, t: u32, budget: u32) -> (u32, Option<Access>)
        requires { can_move (concrete self.old) t ≡ true }
        ensures walks { WalksOn self.old t budget result.0 result.1 self.new }
        ensures moves { can_move (concrete self.new) t ≡ true }
    {
        let local = &mut self.threads[t as usize - 1];
        take_walk(
            &self.image,
            &self.sequences,
            &mut self.common,
            t,
            local,
            budget,
        )
    }

    /// The same of thread `t` as if its local steps had led it to this state: the access is made in this state, of which
    /// the thread becomes a copy. Where its next step there is none nothing has changed, this state neither.
    pub fn access_from(&mut self, t: u32, local: &mut Local) -> Option<Access>
        requires { can_move (concrete self.old) t ≡ true }
        ensures { AccessesFrom result self.old t local.old self.new local.new }
    {
        let access = take_access(&self.image, &mut self.common, t, local)?;
        self.threads[t as usize - 1].copy_from(local);
        Some(access)
    }

    /// Takes in accesses that thread `t`, which can move, made ahead of the machine, from where it stands up to this state:
    /// each is made behind its local steps, and the thread stands there. It does where each finds the word that it found.
    /// Else nothing has changed.
    pub fn commit(&mut self, t: u32, accesses: &[SpeculativeAccess], there: &Local) -> bool
        requires moves { can_move (concrete self.old) t ≡ true }
        requires speculates { (x : Thread) → thread_of (concrete self.old) t ≡ Some x
            → SpeculatesAll self.old.program t x accesses.now there.now }
        ensures made { result ≡ true → Committed self.old t accesses.now self.new there.now }
        ensures none { result ≡ false → (self.new ≡ self.old) × (FindsAll accesses.now self.old.words → ⊥) }
    {
        if !commit_accesses(&mut self.common, accesses) {
            return false;
        }
        self.threads[t as usize - 1].copy_from(there);
        true
    }

    /// Whether the next step of thread `t` is an access to a word of the memory, if its local steps led it here.
    pub fn has_access_at(&self, t: u32, local: &Local) -> bool
        ensures { result ≡ is_some (accessing (look self.now.program t local.now) self.now.words) }
    {
        local.has_access(&self.image, t, &self.common.words)
    }

    /// One step of thread `t`, local or shared. A printed number lowers the room by one.
    ///
    /// Refuses with `CannotMove` where there is no such thread, it sleeps or it has ended, and with `Broken` where its
    /// step may not be; then nothing has changed.
    pub fn step(&mut self, t: u32, event: &mut Event) -> Result<(), StepFault>
        requires { 1 ≤ self.old.room }
        ensures done { OnOk result (step_of self.old.program (concrete self.old) t
            ≡ Ok (concrete self.new, event.new)) }
        ensures room { OnOk result (self.old.room ≡ self.new.room + printed_by event.new) }
        ensures err { IfErr result (λ f. (step_of self.old.program (concrete self.old) t ≡ Err f)
            × (self.new ≡ self.old)) }
        ensures program { self.new.program ≡ self.old.program }
        ensures holders { self.new.sleepers.holders ≡ self.old.sleepers.holders }
        ensures holds { IsWellFormed self.new.program (concrete self.new) }
    {
        if t == 0 || t as usize > self.threads.len() || self.asleep(t).is_some() {
            return Err(StepFault::CannotMove);
        }
        let next = self.next_step(t);
        self.step_as(t, next, event)
    }

    /// The step of thread `t`, which was made and is awake, whose next step is `next`. It is `step` for a caller that
    /// has asked for the next step already.
    pub fn step_as(&mut self, t: u32, next: NextStep, event: &mut Event) -> Result<(), StepFault>
        requires room { 1 ≤ self.old.room }
        requires thread { (0 < t) × (t ≤ length self.old.threads) }
        requires awake { (state_of (concrete self.old)).asleep t ≡ None }
        requires next { (x : Thread) → thread_of (concrete self.old) t ≡ Some x
            → next ≡ next_step_of (look self.old.program t x) }
        ensures done { OnOk result (step_of self.old.program (concrete self.old) t
            ≡ Ok (concrete self.new, event.new)) }
        ensures room { OnOk result (self.old.room ≡ self.new.room + printed_by event.new) }
        ensures err { IfErr result (λ f. (step_of self.old.program (concrete self.old) t ≡ Err f)
            × (self.new ≡ self.old)) }
        ensures program { self.new.program ≡ self.old.program }
        ensures holders { self.new.sleepers.holders ≡ self.old.sleepers.holders }
        ensures holds { IsWellFormed self.new.program (concrete self.new) }
    {
        let Machine {
            image,
            common,
            threads,
            able,
            ..
        } = self;
        let made = threads.len();
        let done = step_parts(image, common, threads, t, next, event);
        able.refresh_after(common, threads, made, t, &event.woken);
        done
    }

    /// What the next step of thread `t` is.
    pub fn next_step(&self, t: u32) -> NextStep
        requires { (0 < t) × (t ≤ length self.now.threads) }
        ensures { (x : Thread) → thread_of (concrete self.now) t ≡ Some x
            → result ≡ next_step_of (look self.now.program t x) }
    {
        self.threads[t as usize - 1].next_step(&self.image, t)
    }

    /// The wait or wake that is the next step of thread `t`, if one is.
    #[inline(always)]
    pub fn call_ahead(&self, t: u32) -> Option<Request>
        requires { (0 < t) × (t ≤ length self.now.threads) }
        ensures { (x : Thread) → thread_of (concrete self.now) t ≡ Some x
            → result ≡ call_in (next_step_of (look self.now.program t x)) }
    {
        self.threads[t as usize - 1].call_ahead(&self.image)
    }

    /// What the next step of thread `t` would be if it stood at `here`.
    pub fn next_step_at(&self, t: u32, here: &Local) -> NextStep
        ensures { result ≡ next_step_of (look self.now.program t here.now) }
    {
        here.next_step(&self.image, t)
    }

    /// Whether a thread holds the bucket of the word on which the step of thread `t`'s exit in this phase would wake.
    pub fn is_held_up(&self, t: u32, phase: ExitPhase) -> bool
        requires { (0 < t) × (t ≤ length self.now.threads) }
        ensures { MatchBool result (IsHeldUp (exit_of self.now.program.version) self.now.words self.now.sleepers t phase)
            (IsHeldUp (exit_of self.now.program.version) self.now.words self.now.sleepers t phase → ⊥) }
    {
        self.common
            .is_held_up(ExitRule::of(self.image.version()), t, phase)
    }

    /// Whether the words of a futex call lie in the memory.
    #[inline(always)]
    pub fn has_words(&self, call: FutexCall) -> bool
        ensures { MatchBool result (LiesIn (length self.now.words) call)
            (LiesIn (length self.now.words) call → ⊥) }
    {
        let size = self.memory_len();
        match call {
            FutexCall::Wait { address, .. } | FutexCall::Wake { address, .. } => {
                (address.0 as usize) < size
            }
            FutexCall::Requeue {
                address,
                target,
                ..
            } => (address.0 as usize) < size && (target.0 as usize) < size,
        }
    }

    /// The bucket that a futex call takes next, in the phase before which it stands, if it takes one.
    pub fn next_bucket(&self, call: FutexCall, phase: FutexPhase) -> Option<u32>
        ensures { result ≡ takes_at (bucket_count self.now.sleepers) phase call }
    {
        self.common.next_bucket(call, phase)
    }

    /// The thread that holds bucket `k`, if one does.
    pub fn holder(&self, k: u32) -> Option<u32>
        requires { k < bucket_count self.now.sleepers }
        ensures { result ≡ holder_of self.now.sleepers k }
    {
        self.common.holder(k)
    }

    /// Thread `t` gives up bucket `k`, which it holds.
    pub fn release(&mut self, t: u32, k: u32)
        requires inside { k < bucket_count self.old.sleepers }
        requires held { holder_of self.old.sleepers k ≡ Some t }
        ensures holder { holder_of self.new.sleepers ≡ put (holder_of self.old.sleepers) k None }
        ensures count { bucket_count self.new.sleepers ≡ bucket_count self.old.sleepers }
        ensures same { (self.new.program ≡ self.old.program)
            × (concrete self.new ≡ concrete self.old) × (self.new.room ≡ self.old.room) }
    {
        self.common.release(t, k)
    }

    /// Takes a piece of the futex call that thread `t` makes, which is awake, stands before this piece, and holds the
    /// buckets that its phase says; the words of the call lie in the memory. Behind the last piece the thread goes on
    /// with the call's answer.
    #[inline(always)]
    pub fn take_piece(
        &mut self,
        t: u32,
        call: FutexCall,
        phase: FutexPhase,
        event: &mut Event,
    ) -> CallStep
        requires makes { MakesCall self.old t call }
        requires lies { LiesIn (length self.old.words) call }
        requires awake { (state_of (concrete self.old)).asleep t ≡ None }
        requires stands { (phase ≡ FutexPhase.First)
            ⊎ IsPhase (bucket_count self.old.sleepers) phase call }
        requires held { (k : ℕ)
            → names (held_at (bucket_count self.old.sleepers) phase (Some call)) k ≡ true
            → holder_of self.old.sleepers k ≡ Some t }
        ensures piece { (phases : ℕ → FutexPhase) (x : Thread) → phases t ≡ phase
            → thread_of (concrete self.old) t ≡ Some x
            → DoesPiece self.old phases t call x result event.new self.new }
        ensures order { QueuesSo self.old.sleepers t call phase result event.new self.new.sleepers }
        ensures program { self.new.program ≡ self.old.program }
        ensures room { self.new.room ≡ self.old.room }
        ensures holds { IsWellFormed self.new.program (concrete self.new) }
    {
        match self.common.call_piece(t, call, phase, event) {
            CallProgress::Next(next) => CallStep::Next(next),
            CallProgress::Blocked => CallStep::Blocked,
            CallProgress::Done(answer) => {
                self.threads[t as usize - 1].go_on(&self.image, t, answer);
                let made = self.threads.len();
                self.able
                    .refresh_after(&self.common, &self.threads, made, t, &event.woken);
                CallStep::Done
            }
        }
    }

    /// Wakes thread `t` though nobody called for it, as the kernel may (futex(2): "spurious wake-up"). It is a step that
    /// no thread takes.
    ///
    /// Refuses with `CannotMove` where there is no such thread or it doesn't sleep; then nothing has changed.
    pub fn stray(&mut self, t: u32, event: &mut Event) -> Result<(), StepFault>
        ensures done { OnOk result (stray_of (concrete self.old) t ≡ Ok (concrete self.new, event.new)) }
        ensures room { OnOk result (self.new.room ≡ self.old.room) }
        ensures err { IfErr result (λ f. (stray_of (concrete self.old) t ≡ Err f)
            × (self.new ≡ self.old)) }
        ensures program { self.new.program ≡ self.old.program }
        ensures holders { self.new.sleepers.holders ≡ self.old.sleepers.holders }
        ensures holds { IsWellFormed self.new.program (concrete self.new) }
    {
        let Some(place) = self.asleep(t) else {
            return Err(StepFault::CannotMove);
        };
        self.common.drop_sleeper(t);
        self.able.refresh(&self.common, &self.threads, t);
        event.put_with(EventName::Stray, place.0, &[t], &[]);
        Ok(())
    }

    /// Kills thread `t`, wherever it stands, asleep or not. It is a step that no thread takes. The event's value is 1
    /// where the thread begins to die by it; a thread that is dying, in its exit or has ended isn't changed, and the
    /// value is 0. Which wakes it owed are made by its exit (robust-futex ABI).
    ///
    /// Refuses with `CannotMove` where there is no such thread; then nothing has changed.
    pub fn kill(&mut self, t: u32, event: &mut Event) -> Result<(), StepFault>
        ensures done { OnOk result (kill_of (concrete self.old) t ≡ Ok (concrete self.new, event.new)) }
        ensures unmade { OnErr result (thread_of (concrete self.old) t ≡ None) }
        ensures room { OnOk result (self.new.room ≡ self.old.room) }
        ensures err { IfErr result (λ f. (kill_of (concrete self.old) t ≡ Err f)
            × (self.new ≡ self.old)) }
        ensures program { self.new.program ≡ self.old.program }
        ensures holders { self.new.sleepers.holders ≡ self.old.sleepers.holders }
        ensures holds { IsWellFormed self.new.program (concrete self.new) }
    {
        if !self.is_made(t) {
            return Err(StepFault::CannotMove);
        }
        if self.local(t).is_dying() {
            event.put(EventName::Kill, 0);
            return Ok(());
        }
        self.common.drop_sleeper(t);
        self.threads[t as usize - 1].kill();
        self.able.refresh(&self.common, &self.threads, t);
        event.put(EventName::Kill, 1);
        Ok(())
    }
}
