ghost use Rattle.std.specs.Prelude.{◌≡◌, ◌≤◌, ◌<◌, ◌+◌, ◌||◌, length, take, true, false, is_some, Some, None, IfSome, IfNone};
ghost use Rattle.std.specs.Prelude.{◌⊎◌, MatchBool, IfErr, IfOk, OnErr, unwrap_or};
ghost use Rattle.words.specs.Limits.{most_threads};
ghost use Rattle.machine.specs.ConcreteSteps.{can_move};
ghost use Rattle.machine.specs.ThreadSets.{IsLeastFrom, IsThread};
ghost use Rattle.machine.specs.Views.{concrete};
ghost use Rattle.runner.specs.Speculations.{IsReady, speculation_at};
ghost use Rattle.runner.specs.declared.fault.RunFault.TheVariants.{Memory};
ghost use Rattle.runner.specs.declared.next.After.TheVariants.{Ends, Goes};
ghost use Rattle.workers.specs.Endings.{HasEnded, IsOver};
ghost use Rattle.workers.specs.Owning.{MakesOwn, MayGoAlone};
ghost use Rattle.workers.specs.SharedRuns.{HasCause, KeepsWorkers, StartsWorker, is_able, state_of};
ghost use Rattle.workers.specs.Taken.{AllTurns};
ghost use Rattle.workers.specs.BucketWaiters.{nobody, waits};
ghost use Rattle.workers.specs.Handed.{ComesIn, StaysAway, ComeIn, StopsAt, IsNextOf, IsNextOfFirst};
ghost use Rattle.workers.specs.Handed.{ComeInTogether, FirstComesIn, Frees, IsAfresh, IsUntouched, noted};
ghost use Rattle.workers.specs.WakeReasons.{Concerns, gives_up, gives_up_by, last_event, nobody_concerned};

use crate::bucket_waiters::BucketWaiters;
use crate::ended::Ended;
use crate::owed::Owed;
use crate::turns::Turns;
use machine::{EventName, Machine, ThreadSet};
use runner::{After, Piece, RunFault, RunName, Share, Shared, Speculation, run_alone};
use std::alloc::AllocError;
use std::marker::{Model, PhantomData};
use words::Gate;

/// What the lock of a run keeps.
#[derive(Drop)]
pub struct SharedRun<J: RunName> {
    shared: Shared<J>,
    fault: Option<RunFault>,
    started: u32,
    kept: Share<J>,
    // Whose entry was refused though their threads can move, since a bucket is held.
    waiting: BucketWaiters,
    // Who waited until buckets were given up, and wasn't called yet.
    freed: BucketWaiters,
    // Whose entry would have passed the limit. They end.
    refused: BucketWaiters,
}

impl<J: RunName> Model for SharedRun<J> {
    ghost use Rattle.workers.specs.SharedRuns.{SharedRunView, IsSharedRun};

    ghost Value = { SharedRunView };

    ghost view = { λ d. record {
      shared = d.shared;
      fault = d.fault;
      started = d.started;
      kept = d.kept;
      waiting = d.waiting;
      freed = d.freed;
      refused = d.refused;
    } };

    ghost invariant = { λ d. IsSharedRun J.program J.outside J.limit d.shared.given d.started d.fault };
}

/// The worker of a thread, by whose number, from 1 to 1,000, its entries come in. Nothing makes one but `next_worker`, one for
/// each thread that was made.
#[derive(Drop)]
pub struct Worker<J: RunName> {
    thread: u32,
    of: PhantomData<J>,
    ghost is: { IsThread thread },
}

impl<J: RunName> Worker<J> {
    /// The thread.
    pub fn thread(&self) -> u32
        ensures value { result ≡ self.now.thread }
        ensures is { IsThread result }
    {
        self.thread
    }
}

/// Whom an entry concerns. A worker keeps one, so that a set isn't written where nobody was woken.
#[derive(Drop)]
pub struct WakeReason {
    /// The threads that it woke.
    pub woken: ThreadSet,
    /// Whether it may have made a thread.
    pub forked: bool,
    /// Whether it gave buckets up.
    pub released: bool,
}

impl WakeReason {
    /// That of an entry which concerns nobody.
    pub fn new() -> WakeReason
        ensures { result ≡ nobody_concerned }
    {
        WakeReason {
            woken: ThreadSet::new(),
            forked: false,
            released: false,
        }
    }
}

impl<J: RunName> SharedRun<J> {
    /// A run, with the calling thread's part of its count, before any worker was started.
    pub fn new(shared: Shared<J>, kept: Share<J>) -> SharedRun<J>
        requires { shared.given ≡ 1 }
        ensures { result ≡ record {
          shared = shared;
          fault = None;
          started = 0;
          kept = kept;
          waiting = nobody;
          freed = nobody;
          refused = nobody;
        } }
    {
        SharedRun {
            shared,
            fault: None,
            started: 0,
            kept,
            waiting: BucketWaiters::new(),
            freed: BucketWaiters::new(),
            refused: BucketWaiters::new(),
        }
    }

    /// Whether thread `t` can make an entry: it was made, is awake and has not ended.
    pub fn can_move(&self, t: u32) -> bool
        ensures value { result ≡ can_move (state_of self.now) t }
        ensures thread { result ≡ true → IsThread t }
    {
        t <= self.threads() && self.shared.machine().can_move(t)
    }

    /// Whether thread `t` can move, and its worker doesn't wait for a bucket.
    pub fn is_able(&self, t: u32) -> bool
        ensures { result ≡ is_able self.now t }
    {
        self.can_move(t) && !self.waiting.contains(t)
    }

    // Whether the worker of thread `t` waits for a bucket or was refused with Limit.
    fn is_held_up(&self, t: u32) -> bool
        requires { IsThread t }
        ensures { result ≡ (waits self.now.waiting t || waits self.now.refused t) }
    {
        self.waiting.contains(t) || self.refused.contains(t)
    }

    /// Whether no worker is left to make an entry.
    pub fn is_over(&self) -> bool
        ensures { MatchBool result (IsOver self.now) (IsOver self.now → ⊥) }
    {
        if self.fault.is_some() {
            return true;
        }
        let mut from = 1;
        while let Some(t) = self.next_able(from) {
            if !self.is_held_up(t) {
                return false;
            }
            from = t + 1;
        }
        true
    }

    /// The first thread from `from` on that can move, if there is one.
    pub fn next_able(&self, from: u32) -> Option<u32>
        ensures least { IsLeastFrom (can_move (state_of self.now)) from result }
        ensures thread { IfSome result (λ t. IsThread t) }
    {
        self.shared.machine().next_able(from)
    }

    /// How many threads were made.
    pub fn threads(&self) -> u32
        ensures value { result ≡ length (state_of self.now).threads }
        ensures within { result ≤ most_threads }
    {
        self.shared.machine().threads()
    }

    /// Why the run ends before its time, if it does.
    pub fn fault(&self) -> Option<RunFault>
        ensures { result ≡ self.now.fault }
    {
        self.fault
    }

    /// Ends the run for want of memory, if nothing else has ended it.
    pub fn fail(&mut self)
        ensures { self.new ≡ record self.old { fault = Some (unwrap_or self.old.fault Memory) } }
    {
        if self.fault.is_none() {
            self.fault = Some(RunFault::Memory);
        }
    }

    /// Whether there is a thread without a worker.
    pub fn lacks_worker(&self) -> bool
        ensures whole { MatchBool result (self.now.started < length (state_of self.now).threads)
            (length (state_of self.now).threads ≤ self.now.started) }
        ensures few { result ≡ true → self.now.started < most_threads }
    {
        self.started < self.threads()
    }

    /// The next thread without a worker, with a part of the count for it.
    pub fn next_worker(&mut self) -> Option<(Worker<J>, Share<J>)>
        ensures some { IfSome result (λ worker. StartsWorker self.old worker.0.thread worker.1 self.new) }
        ensures none { IfNone result ((self.new ≡ self.old)
            × ((is_some self.old.fault ≡ true)
            ⊎ (length (state_of self.old).threads ≤ self.old.started))) }
    {
        if self.fault.is_some() || !self.lacks_worker() {
            return None;
        }
        let Some(share) = self.shared.share() else {
            unreachable!()
        };
        self.started += 1;
        let worker = Worker {
            thread: self.started,
            of: PhantomData,
        };
        Some((worker, share))
    }

    /// What thread `t` does: where it goes on, its piece begins anew. It ends where the run ends before its time.
    pub fn next(&self, t: u32, piece: &mut Piece<J>) -> After
        ensures { IsNextOf self.now t piece.new result }
    {
        if self.fault.is_some() {
            return After::Ends;
        }
        self.shared.next(t, piece)
    }

    /// How a worker goes on from where its thread is. Answers whether it does, on this piece, begun anew; else it parks, or it
    /// ends.
    pub fn resume(&self, worker: &Worker<J>, piece: &mut Piece<J>) -> Result<bool, Ended<J>>
        ensures goes { IfOk result (λ goes. goes ≡ true → (piece.new.thread ≡ worker.now.thread)
            × (piece.new.count ≡ 0) × (piece.new.here ≡ piece.new.origin)) }
        ensures ends { IfErr result (λ ended. ended.thread ≡ worker.now.thread) }
    {
        if self.is_able(worker.thread) {
            return self.follow(worker, piece);
        }
        // Also where the thread can move, and waits for a bucket that nobody is left to give up.
        if self.is_over() {
            return Err(Ended::of(self, worker));
        }
        Ok(false)
    }

    // The same where the thread can move.
    fn follow(&self, worker: &Worker<J>, piece: &mut Piece<J>) -> Result<bool, Ended<J>>
        ensures goes { IfOk result (λ goes. goes ≡ true → (piece.new.thread ≡ worker.now.thread)
            × (piece.new.count ≡ 0) × (piece.new.here ≡ piece.new.origin)) }
        ensures ends { IfErr result (λ ended. ended.thread ≡ worker.now.thread) }
    {
        let after = self.next(worker.thread, piece);
        match Ended::behind(after, self, worker) {
            Some(ended) => Err(ended),
            None => Ok(after == After::Goes),
        }
    }

    // Takes in the turns of the worker's thread, an entry for each, up to one that is refused, and says how it goes on. As long
    // as no other thread was made it goes on in its place. The gate is passed before each further entry.
    #[tactic(auto, using(crate::proofs::Owning::stopped_own, crate::proofs::Owning::gone_own))]
    fn hand_in<G: Gate>(
        &mut self,
        worker: &Worker<J>,
        turns: &mut Turns<J>,
        share: &mut Share<J>,
        gate: &G,
    ) -> After
        ensures goes_on { StopsAt J.program J.limit self.old worker.now.thread
            (take turns.old.taken turns.old.pieces.items) self.new
            share.old share.new result
            ⊎ IsNextOfFirst self.new worker.now.thread turns.new.pieces.items result }
        ensures own { MakesOwn J.program J.limit worker.now.thread self.old self.new }
        ensures workers { KeepsWorkers self.old self.new }
    {
        if let Some(after) = self.take_in(worker.thread, turns.taken(), share) {
            return after;
        }
        self.go_on_alone(worker.thread, share, gate);
        self.next(worker.thread, &mut turns.pieces[0])
    }

    /// Takes in the turns of the worker's thread, an entry for each, up to one that is refused, and says how it goes on. As long
    /// as no other thread was made it goes on in its place. The gate is passed before each further entry.
    ///
    /// Notes whom the last entry concerns, which its worker owes. Of the entries that are made now only the last one may wake
    /// threads or make one: a piece behind another begins where that one has come, and the thread is elsewhere behind a step that
    /// does so, which refuses the piece. Further entries are of the only thread there is. Who waited for buckets was noted at
    /// each entry.
    pub fn hand_in_owing<G: Gate>(
        &mut self,
        worker: &Worker<J>,
        turns: &mut Turns<J>,
        share: &mut Share<J>,
        gate: &G,
    ) -> (After, Owed)
        requires { AllTurns J.program turns.old.taken turns.old.pieces.items }
        ensures goes_on { IsAfresh worker.now.thread turns.new.pieces.items result.0 }
        ensures ends { result.0 ≡ Ends → HasEnded J.program J.limit self.new worker.now.thread }
        ensures own { MakesOwn J.program J.limit worker.now.thread self.old self.new }
        ensures concerns { Concerns (last_event self.new.shared.log) turns.new.wake_reason }
        ensures freed { self.new.freed ≡ nobody }
        ensures owed { (result.1.reason.value ≡ turns.new.wake_reason) × (result.1.freed.value ≡ turns.new.freed) }
        ensures over { (result.0 ≡ Goes → ⊥) → MatchBool result.1.over (IsOver self.new) (IsOver self.new → ⊥) }
        ensures workers { KeepsWorkers self.old self.new }
    {
        let after = self.hand_in(worker, turns, share, gate);
        self.tell_last(&mut turns.wake_reason);
        self.take_freed(&mut turns.freed);
        let over = after != After::Goes && self.is_over();
        let owed = Owed::new(&turns.wake_reason, &turns.freed, over);
        (after, owed)
    }

    /// Takes in one turn of the worker's thread that led to an access to a word, as most do, where others were made. It concerns
    /// nobody, and who waits for a bucket still does. Answers whether it came in: else nothing has changed.
    pub fn hand_in_access(
        &mut self,
        worker: &Worker<J>,
        turns: &mut Turns<J>,
        share: &mut Share<J>,
    ) -> bool
        ensures made { result ≡ true → FirstComesIn J.program J.limit self.old worker.now.thread turns.old.pieces.items
            self.new share.old share.new }
        ensures goes_on { result ≡ true → IsNextOfFirst self.new worker.now.thread turns.new.pieces.items Goes }
        ensures told { result ≡ true → Concerns (last_event self.new.shared.log) nobody_concerned }
        ensures none { result ≡ false → (self.new ≡ self.old) × (share.new ≡ share.old) × (turns.new.taken ≡ turns.old.taken)
            × (turns.new.pieces.items ≡ turns.old.pieces.items) }
        ensures workers { KeepsWorkers self.old self.new }
    {
        if self.fault.is_some() {
            return false;
        }
        if turns.taken != 1 || self.threads() == 1 {
            return false;
        }
        let piece = &mut turns.pieces[0];
        self.shared.hand_in_access(worker.thread, piece, share)
    }

    /// Takes in the accesses that the worker's thread made ahead of the machine, all together. They concern nobody, and who waits
    /// for a bucket still does. Answers whether they came in: else nothing has changed.
    pub fn commit(
        &mut self,
        worker: &Worker<J>,
        speculation: &mut Speculation<J>,
        share: &mut Share<J>,
    ) -> Result<bool, AllocError>
        ensures made { IfOk result (λ came. came ≡ true
            → ComeInTogether J.program J.limit self.old worker.now.thread speculation.old.made self.new share.old share.new
            × (speculation.new ≡ speculation_at worker.now.thread speculation.old.here)) }
        ensures away { IfOk result (λ came. came ≡ false → (is_some self.old.fault ≡ true)
            ⊎ (IsReady J.limit self.old.shared worker.now.thread speculation.old → ⊥)) }
        ensures none { IfOk result (λ came. came ≡ false → IsUntouched self.old self.new
            × (speculation.new ≡ speculation.old) × (share.new ≡ share.old)) }
        ensures err { OnErr result (IsUntouched self.old self.new
            × (speculation.new ≡ speculation.old) × (share.new ≡ share.old)) }
        ensures workers { KeepsWorkers self.old self.new }
    {
        if self.fault.is_some() {
            return Ok(false);
        }
        self.shared.commit(worker.thread, speculation, share)
    }

    /// The machine, which is where the log leads.
    pub fn machine(&self) -> &Machine
        ensures { concrete result.now ≡ state_of self.now }
    {
        self.shared.machine()
    }

    // Takes in these pieces of thread `t`, up to one that is refused, and says how its worker goes on where one is.
    fn take_in(&mut self, t: u32, pieces: &[Piece<J>], share: &mut Share<J>) -> Option<After>
        requires { IsThread t }
        ensures all { IfNone result
            (ComeIn J.program J.limit self.old t pieces.now self.new share.old share.new) }
        ensures some { IfSome result
            (λ after. StopsAt J.program J.limit self.old t pieces.now self.new share.old share.new
            after) }
        ensures workers { KeepsWorkers self.old self.new }
    {
        for piece in pieces {
            if let Some(after) = self.enter(t, piece, share) {
                return Some(after);
            }
        }
        None
    }

    // Lets thread `t` go on in its place, as long as no other was made: nobody waits for the lock meanwhile.
    fn go_on_alone<G: Gate>(&mut self, t: u32, share: &mut Share<J>, gate: &G)
        ensures workers { KeepsWorkers self.old self.new }
        ensures alone { MayGoAlone J.program J.limit t self.old self.new }
    {
        // Mostly others were, and then nothing is asked of the run.
        if self.threads() > 1 {
            return;
        }
        if let Err(fault) = run_alone(&mut self.shared, share, gate, t) {
            self.fault = Some(fault);
        }
    }

    // Takes in what thread `t` did, and says how its worker goes on where that is refused.
    fn enter(&mut self, t: u32, piece: &Piece<J>, share: &mut Share<J>) -> Option<After>
        requires { IsThread t }
        ensures comes_in { IfNone result
            (ComesIn J.program J.limit self.old t piece.now self.new share.old share.new) }
        ensures away { IfSome result
            (λ after. StaysAway J.program J.limit self.old t piece.now self.new after
            × (share.new ≡ share.old)) }
        ensures workers { KeepsWorkers self.old self.new }
    {
        if self.fault.is_some() {
            return Some(After::Ends);
        }
        match self.shared.enter(t, piece, share) {
            Ok(()) => {
                self.free();
                None
            }
            // The thread has gone on without this worker, which goes on from where the thread is.
            Err(RunFault::Stray) => Some(After::Sleeps),
            Err(RunFault::CannotMove) => {
                self.note(t);
                Some(After::Sleeps)
            }
            Err(RunFault::Limit) => {
                self.refused.add(t);
                Some(After::Ends)
            }
            Err(RunFault::Broken) => {
                self.fault = Some(RunFault::Broken);
                Some(After::Ends)
            }
            Err(RunFault::Memory) => {
                self.fault = Some(RunFault::Memory);
                Some(After::Ends)
            }
        }
    }

    // Notes that the worker of thread `t`, whose entry was refused, waits for a bucket, where its thread can move.
    fn note(&mut self, t: u32)
        ensures { self.new ≡ record self.old {
          waiting = noted (can_move (state_of self.old) t) self.old.waiting t;
        } }
    {
        if self.can_move(t) {
            self.waiting.add(t);
        }
    }

    // Where the last entry gave a bucket up nobody waits for one any more. It may be another's bucket: then whoever waited
    // is refused again.
    fn free(&mut self)
        ensures frees { Frees (gives_up (last_event self.old.shared.log)) self.old self.new }
        ensures same { self.new ≡ record self.old { waiting = self.new.waiting; freed = self.new.freed } }
    {
        if self.waiting.is_empty() {
            return;
        }
        let mut wake_reason = WakeReason::new();
        self.tell_last(&mut wake_reason);
        if wake_reason.released {
            self.freed.join(&self.waiting);
            self.waiting.clear();
        }
    }

    // Who waited for a bucket until one was given up, since this was asked last, put in its place. They are to be called.
    fn take_freed(&mut self, freed: &mut BucketWaiters)
        ensures { (freed.new ≡ self.old.freed) × (self.new ≡ record self.old { freed = nobody }) }
    {
        freed.clear();
        if !self.freed.is_empty() {
            self.hand_freed(freed);
        }
    }

    // The same where somebody waited. Apart, since a set is copied whole.
    #[cold]
    #[inline(never)]
    fn hand_freed(&mut self, freed: &mut BucketWaiters)
        ensures { (freed.new ≡ self.old.freed) × (self.new ≡ record self.old { freed = nobody }) }
    {
        *freed = self.freed;
        self.freed.clear();
    }

    // Whom the last entry concerns, put in its place.
    #[tactic(auto, using(crate::proofs::Waking::told, crate::proofs::Waking::untold))]
    fn tell_last(&self, wake_reason: &mut WakeReason)
        ensures { Concerns (last_event self.now.shared.log) wake_reason.new }
    {
        let Some(name) = self.shared.log().last_woken(&mut wake_reason.woken) else {
            wake_reason.forked = false;
            wake_reason.released = false;
            return;
        };
        wake_reason.forked = name == EventName::Fork;
        wake_reason.released = gives_up(name);
    }

    /// Takes back what a worker counted that makes no entry any more.
    pub fn give_back(&mut self, worker: Worker<J>, share: Share<J>, ended: &Ended<J>)
        requires { ended.now.thread ≡ worker.thread }
        ensures { self.new ≡ record self.old {
          kept = record {
            parts = self.old.kept.parts + share.parts;
            count = self.old.kept.count + share.count;
          };
        } }
    {
        let _worker = worker;
        let _ended = ended;
        self.kept.merge(share);
    }

    /// The run, why it ended before its time, and what the calling thread counted and was given back.
    pub fn into_parts(self) -> (Shared<J>, Option<RunFault>, Share<J>)
        ensures cause { HasCause J.program J.outside J.limit result.1 }
        ensures whole { (result.0 ≡ self.shared) × (result.1 ≡ self.fault)
            × (result.2 ≡ self.kept) }
    {
        let SharedRun {
            shared,
            fault,
            kept,
            ..
        } = self;
        (shared, fault, kept)
    }
}

// Whether a step of this kind gives buckets up.
fn gives_up(name: EventName) -> bool
    ensures { result ≡ gives_up_by name }
{
    matches!(
        name,
        EventName::Wait | EventName::Wake | EventName::Requeue | EventName::Kill
    )
}
