ghost use Rattle.std.specs.Prelude.{◌≡◌, ◌<◌, true, false, vec_len, [], IfErr, IfNone, IfOk, IfSome};
ghost use Rattle.words.specs.Limits.{most_threads};
ghost use Rattle.machine.specs.ThreadSets.{IsThread};
ghost use Rattle.runner.specs.declared.next.After.TheVariants.{Goes};
ghost use Rattle.workers.specs.BucketWaiters.{IsWhole, nobody};
ghost use Rattle.workers.specs.Calls.{AreTold, AreAllCalled, AreCalledToo, with_called};
ghost use Rattle.workers.specs.Hirings.{IsDone, asking_for, asked_all, with_failed};
ghost use Rattle.workers.specs.Handed.{IsAfresh};
ghost use Rattle.workers.specs.Parkers.{AreNumbered};
ghost use Rattle.workers.specs.PutOffs.{AreKeptOrMade, AreMadeInTime, AreNone};
ghost use Rattle.workers.specs.Taken.{AllTurns};

use crate::ahead::Row;
use crate::bucket_waiters::BucketWaiters;
use crate::ended::Ended;
use crate::hiring::Hiring;
use crate::image_ref::ImageRef;
use crate::lookout::Lookout;
use crate::moments::Moments;
use crate::owed::Owed;
use crate::parker::{Called, Parker};
use crate::precedence::{Grace, Precedence};
use crate::put_off::{Calls, PutOff};
use crate::shared_run::{SharedRun, WakeReason, Worker};
use crate::turns::Turns;
use crossbeam_utils::CachePadded;
use machine::ThreadSet;
use runner::{After, RunName, Share};
use std::alloc::{AllocError, Global};
use std::fmt::Write;
use std::sync::{Condvar, Mutex, MutexGuard, Wait};
use std::thread;
use std::thread::{Builder, JoinHandle, Scope, Threads};
use words::{Gate, MOST_THREADS};

// How often a worker tries for the lock before it sleeps, and how long it lingers in between: together about as long as being
// woken takes.
const TRIALS: u32 = 25;

const MOMENTS: u32 = 8;

// A worker's stack. It has room for a few pieces, which are what takes most of it.
const STACK_BYTES: usize = 256 * 1024;

/// The run under its lock, a parker for the worker of each thread that there can be, and where the calling thread
/// parks.
#[derive(Drop)]
pub struct Pool<J: RunName> {
    // Apart from the word of the lock, which those who try for it write.
    shared_run: Mutex<CachePadded<SharedRun<J>>>,
    parkers: Vec<CachePadded<Parker>>,
    made: Condvar,
    lookout: Lookout,
    precedence: Precedence,
    calls: Calls,
    ghost parked: { most_threads < vec_len parkers },
    ghost numbered: { AreNumbered parkers.items },
}

impl<J: RunName> Pool<J> {
    /// A pool without workers; parker number 0 is nobody's.
    pub fn new<R: Threads>(
        rt: &R,
        alloc: Global,
        calls: Calls,
        shared_run: SharedRun<J>,
    ) -> Result<Pool<J>, AllocError> {
        let mut parkers = Vec::with_capacity(alloc, MOST_THREADS as usize + 1)?;
        for t in 0..=MOST_THREADS {
            parkers.push(CachePadded::new(Parker::new(t)))?;
        }
        Ok(Pool {
            shared_run: Mutex::new(CachePadded::new(shared_run)),
            parkers,
            made: Condvar::new(),
            lookout: Lookout::new(rt),
            precedence: Precedence::new(),
            calls,
        })
    }

    /// What lay under the lock.
    pub fn into_shared_run(self) -> SharedRun<J> {
        let Pool { shared_run, .. } = self;
        shared_run.into_inner().into_inner()
    }

    /// Starts a worker for each thread that is made, and parks in between. It returns when all workers have ended.
    pub fn start<R: Threads + Wait + Sync, G: Gate>(
        &self,
        rt: &R,
        alloc: Global,
        image_ref: &ImageRef<J>,
        gate: &G,
    )
    where
        J: Send + Sync,
    {
        thread::scope(thread::scope_env(), rt, |scope| {
            let _hiring = self.start_all(rt, alloc, image_ref, gate, scope);
        });
    }

    // Starts a worker in this scope for each thread that is made, until nobody is left to make one. Where one can't be
    // started the run ends.
    #[tactic(auto, using(crate::proofs::Calling::started_too, crate::proofs::Calling::failed_too, crate::proofs::Calling::started_whole, crate::proofs::Calling::failed_whole))]
    fn start_all<'s, E, R: Threads + Wait + Sync, G: Gate>(
        &'s self,
        rt: &'s R,
        alloc: Global,
        image_ref: &'s ImageRef<'s, J>,
        gate: &'s G,
        scope: &Scope<'s, E>,
    ) -> Hiring
    where
        J: Send + Sync,
        ensures { IsDone result }
    {
        let mut hiring = Hiring::new();
        for _ in rt.forever() {
            let Some((worker, share)) = self.next_worker(rt, &mut hiring) else {
                break;
            };
            let t = worker.thread();
            match self.start_worker(rt, alloc, image_ref, gate, scope, worker, share) {
                Some(handle) => hiring.start(t, handle),
                None => self.fail(rt, t, &mut hiring),
            }
        }
        hiring
    }

    // The next thread without a worker, once it was made. None where nobody is left to make one.
    fn next_worker<R: Wait>(&self, rt: &R, hiring: &mut Hiring) -> Option<(Worker<J>, Share<J>)>
        ensures some { IfSome result (λ worker. (worker.1 ≡ record { parts = 1; count = 0 })
            × (hiring.new ≡ asking_for hiring.old worker.0.thread)) }
        ensures none { IfNone result (hiring.new ≡ asked_all hiring.old) }
    {
        let mut shared_run = self.made.wait_while(rt, self.lock(rt), |shared_run| {
            !shared_run.lacks_worker() && !shared_run.is_over()
        });
        hiring.ask(&mut shared_run)
    }

    // Starts a worker in this scope.
    fn start_worker<'s, E, R: Wait + Sync, G: Gate>(
        &'s self,
        rt: &'s R,
        alloc: Global,
        image_ref: &'s ImageRef<'s, J>,
        gate: &'s G,
        scope: &Scope<'s, E>,
        worker: Worker<J>,
        share: Share<J>,
    ) -> Option<JoinHandle<Ended<J>>>
    where
        J: Send + Sync,
    {
        let t = worker.thread();
        let Ok(turns) = Turns::new(alloc, t) else {
            return None;
        };
        let Ok(builder) = builder_of(alloc, t) else {
            return None;
        };
        let handle = builder.spawn_scoped(scope, move || {
            self.work(rt, image_ref, gate, worker, turns, share)
        });
        handle.ok()
    }

    // The work of a worker. It makes entries until there is a cause to end.
    fn work<R: Wait, G: Gate>(
        &self,
        rt: &R,
        image_ref: &ImageRef<J>,
        gate: &G,
        worker: Worker<J>,
        turns: Turns<J>,
        share: Share<J>,
    ) -> Ended<J>
        ensures { result.thread ≡ worker.thread }
    {
        let mut turns = turns;
        let mut share = share;
        let mut put_off = PutOff::new();
        let ended = self.make_entries(
            rt,
            image_ref,
            gate,
            &worker,
            &mut turns,
            &mut share,
            &mut put_off,
        );
        self.settle(&mut put_off);
        put_off.end();
        self.lock(rt).give_back(worker, share, &ended);
        ended
    }

    // Makes entries of the worker's thread, and parks in between, until it ends.
    fn make_entries<R: Wait, G: Gate>(
        &self,
        rt: &R,
        image_ref: &ImageRef<J>,
        gate: &G,
        worker: &Worker<J>,
        turns: &mut Turns<J>,
        share: &mut Share<J>,
        put_off: &mut PutOff,
    ) -> Ended<J>
        ensures { result.thread ≡ worker.now.thread }
    {
        for _ in rt.forever() {
            if let Some(ended) = self.wake(rt, worker, turns, put_off) {
                return ended;
            }
            if let Some(ended) = self.go_on(rt, image_ref, gate, worker, turns, share, put_off) {
                return ended;
            }
        }
        unreachable!()
    }

    // Goes on until the thread sleeps, or its worker has to look where it is. Some where the worker ends.
    fn go_on<R: Wait, G: Gate>(
        &self,
        rt: &R,
        image_ref: &ImageRef<J>,
        gate: &G,
        worker: &Worker<J>,
        turns: &mut Turns<J>,
        share: &mut Share<J>,
        put_off: &mut PutOff,
    ) -> Option<Ended<J>>
        ensures { IfSome result (λ ended. ended.thread ≡ worker.now.thread) }
    {
        for _ in rt.forever() {
            if turns.ahead.is_going() {
                if self.go_ahead(rt, image_ref, gate, worker, turns, share) {
                    continue;
                }
                // From where its thread is.
                return None;
            }
            turns.take(image_ref, gate, worker.thread());
            match self.hand_in(rt, image_ref, gate, worker, turns, share, put_off) {
                Ok(true) => {}
                Ok(false) => return None,
                Err(ended) => return Some(ended),
            }
        }
        unreachable!()
    }

    // Lets the worker's thread go ahead, and hands in the accesses that it made. Answers whether its worker goes on so.
    fn go_ahead<R: Wait, G: Gate>(
        &self,
        rt: &R,
        image_ref: &ImageRef<J>,
        gate: &G,
        worker: &Worker<J>,
        turns: &mut Turns<J>,
        share: &mut Share<J>,
    ) -> bool {
        let up_to_swap = turns.are_many();
        let goes = match turns
            .ahead
            .go_on(image_ref, gate, worker.thread(), up_to_swap)
        {
            Row::Whole => self.commit(rt, worker, turns, share),
            Row::Cut => {
                turns.ahead.look(self.lock(rt).machine());
                turns.ahead.make_again(image_ref) && self.commit(rt, worker, turns, share)
            }
            Row::Empty => false,
        };
        if !goes {
            turns.ahead.stop();
        }
        goes
    }

    // Takes in the accesses that the worker's thread made ahead. Where they don't come in its worker looks at their words anew.
    // Answers whether it goes on so.
    fn commit<R: Wait>(
        &self,
        rt: &R,
        worker: &Worker<J>,
        turns: &mut Turns<J>,
        share: &mut Share<J>,
    ) -> bool {
        let t = worker.thread();
        let count = turns.ahead.len();
        let keeps = turns.keep_precedence_ahead();
        self.precedence.take(rt, &self.lookout, t, Grace::Full);
        let mut shared_run = self.lock(rt);
        let came = matches!(
            shared_run.commit(worker, turns.ahead.speculation(), share),
            Ok(true)
        );
        if !came {
            turns.ahead.look(shared_run.machine());
        }
        drop(shared_run);
        self.precedence.pass_on(t, keeps, count, &mut turns.entries);
        turns.ahead.note_outcome(came)
    }

    // Calls whom it put off to call, and parks until the worker's thread can move and it waits for no bucket, or nobody is left
    // to call it. Then it goes on from the first of its turns, or ends.
    fn wake<R: Wait>(
        &self,
        rt: &R,
        worker: &Worker<J>,
        turns: &mut Turns<J>,
        put_off: &mut PutOff,
    ) -> Option<Ended<J>>
        ensures goes_on { IfNone result (IsAfresh worker.now.thread turns.new.pieces.items Goes) }
        ensures ends { IfSome result (λ ended. ended.thread ≡ worker.now.thread) }
    {
        let t = worker.thread();
        self.settle(put_off);
        for _ in rt.forever() {
            let resumed = self.lock(rt).resume(worker, &mut turns.pieces[0]);
            match resumed {
                Ok(true) => return None,
                Ok(false) => {}
                Err(ended) => return Some(ended),
            }
            self.parkers[t as usize].park(rt, put_off);
            let grace = Grace::by_patience(&turns.patience);
            self.precedence.take(rt, &self.lookout, t, grace);
        }
        unreachable!()
    }

    // Takes in the turns of the worker's thread, and calls whom they concern. Answers whether it goes on; else it looks where its
    // thread is, or ends.
    #[tactic(auto, using(crate::proofs::Delaying::made_in_time))]
    fn hand_in<R: Wait, G: Gate>(
        &self,
        rt: &R,
        image_ref: &ImageRef<J>,
        gate: &G,
        worker: &Worker<J>,
        turns: &mut Turns<J>,
        share: &mut Share<J>,
        put_off: &mut PutOff,
    ) -> Result<bool, Ended<J>>
        requires { AllTurns J.program turns.old.taken turns.old.pieces.items }
        ensures goes_on { IfOk result (λ goes. goes ≡ true → IsAfresh worker.now.thread turns.new.pieces.items Goes) }
        ensures ends { IfErr result (λ ended. ended.thread ≡ worker.now.thread) }
        ensures in_time { AreMadeInTime turns.new.wake_reason.woken put_off.old put_off.new }
    {
        let keeps = turns.keep_precedence(image_ref);
        let calls = turns.is_call_due(put_off, image_ref);
        self.precedence
            .take(rt, &self.lookout, worker.thread(), Grace::Full);
        let mut shared_run = self.lock(rt);
        // As most turns are. It concerns nobody.
        if shared_run.hand_in_access(worker, turns, share) {
            drop(shared_run);
            self.precedence
                .pass_on(worker.thread(), keeps, 1, &mut turns.entries);
            turns.note_access(keeps && put_off.is_empty(), image_ref);
            if calls {
                self.settle(put_off);
            }
            return Ok(true);
        }
        let handed = self.hand_in_any(rt, gate, worker, turns, share, put_off, keeps, shared_run);
        if calls {
            self.settle(put_off);
        }
        handed
    }

    // The same of any turns, under the lock.
    #[inline(never)]
    fn hand_in_any<R: Wait, G: Gate>(
        &self,
        rt: &R,
        gate: &G,
        worker: &Worker<J>,
        turns: &mut Turns<J>,
        share: &mut Share<J>,
        put_off: &mut PutOff,
        keeps: bool,
        shared_run: MutexGuard<'_, CachePadded<SharedRun<J>>>,
    ) -> Result<bool, Ended<J>>
        requires { AllTurns J.program turns.old.taken turns.old.pieces.items }
        ensures goes_on { IfOk result (λ goes. goes ≡ true → IsAfresh worker.now.thread turns.new.pieces.items Goes) }
        ensures ends { IfErr result (λ ended. ended.thread ≡ worker.now.thread) }
        ensures in_time { AreKeptOrMade turns.new.wake_reason.woken put_off.old put_off.new }
    {
        let t = worker.thread();
        let parker = &self.parkers[t as usize];
        let mut shared_run = shared_run;
        let calls = parker.calls();
        // Nobody is forgotten: what is owed can't be let go.
        let run = &mut **shared_run;
        let (after, owed) = run.hand_in_owing(worker, turns, share, gate);
        let ended = Ended::behind(after, run, worker);
        drop(shared_run);
        let goes = after == After::Goes;
        self.precedence
            .pass_on(t, keeps && goes, 1, &mut turns.entries);
        if !goes || turns.concern_others() {
            turns.ahead.stop();
        }
        self.discharge(turns, goes, put_off, owed);
        if after == After::Sleeps && parker.look(&self.lookout, &mut turns.patience, calls) {
            self.precedence.take(rt, &self.lookout, t, Grace::Full);
        }
        match ended {
            Some(ended) => Err(ended),
            None => Ok(goes),
        }
    }

    // Takes the lock. It is held for a moment only, so that it is worthwhile to try for a while before one sleeps.
    fn lock<R: Wait>(&self, rt: &R) -> MutexGuard<'_, CachePadded<SharedRun<J>>> {
        if let Some(shared_run) = self.shared_run.try_lock() {
            return shared_run;
        }
        if let Some(shared_run) = self.look_for_lock() {
            return shared_run;
        }
        self.shared_run.lock(rt)
    }

    // Tries for the lock, for a while.
    fn look_for_lock(&self) -> Option<MutexGuard<'_, CachePadded<SharedRun<J>>>> {
        if !self.lookout.enter() {
            return None;
        }
        let moments = Moments::new();
        let mut found = None;
        for _ in 0..TRIALS {
            moments.pass(MOMENTS);
            found = self.shared_run.try_lock();
            if found.is_some() {
                break;
            }
        }
        self.lookout.leave();
        found
    }

    // Ends the run for want of memory, where the worker of thread `t` couldn't be started.
    fn fail<R: Wait>(&self, rt: &R, t: u32, hiring: &mut Hiring)
        requires { IsThread t }
        ensures { hiring.new ≡ with_failed hiring.old t }
    {
        hiring.fail(t, &mut self.lock(rt));
        let _called = self.call_all();
    }

    // Meets what is owed behind an entry.
    #[tactic(auto, using(crate::proofs::Delaying::made_before))]
    fn discharge(&self, turns: &Turns<J>, goes: bool, put_off: &mut PutOff, owed: Owed)
        requires { (owed.reason.value ≡ turns.now.wake_reason) × (owed.freed.value ≡ turns.now.freed) }
        ensures { AreKeptOrMade turns.now.wake_reason.woken put_off.old put_off.new }
    {
        if owed.is_of_all() {
            self.settle(put_off);
            owed.meet_all(&self.call_all());
        } else if turns.concern_others() {
            self.settle(put_off);
            self.tell_or_put_off(turns, goes, put_off, owed);
        } else {
            owed.end();
            if !goes {
                self.settle(put_off);
            }
        }
    }

    // Calls whom these turns concern. Where they woke others alone, and the thread goes on, that may be put off. Apart, since a
    // note of who was called is written whole.
    #[cold]
    #[inline(never)]
    fn tell_or_put_off(&self, turns: &Turns<J>, goes: bool, put_off: &mut PutOff, owed: Owed)
        requires none { AreNone put_off.old }
        requires owed { (owed.reason.value ≡ turns.now.wake_reason) × (owed.freed.value ≡ turns.now.freed) }
        requires goes_on { owed.over ≡ false }
        ensures in_time { AreKeptOrMade turns.now.wake_reason.woken put_off.old put_off.new }
        ensures only { goes ≡ false → put_off.new ≡ put_off.old }
    {
        if goes && turns.may_put_off() && self.calls.are_put_off(&turns.patience) {
            owed.put_off(&turns.wake_reason.woken, put_off);
            return;
        }
        owed.meet(&self.tell(&turns.wake_reason, &turns.freed));
    }

    // Calls whom it put off to call.
    fn settle(&self, put_off: &mut PutOff)
        ensures { AreNone put_off.new }
    {
        if !put_off.is_empty() {
            self.call_put_off(put_off);
        }
    }

    // The same where there is somebody.
    #[cold]
    #[inline(never)]
    fn call_put_off(&self, put_off: &mut PutOff)
        ensures { AreNone put_off.new }
    {
        let mut called = Called::new();
        self.call_each(put_off.woken(), &mut called);
        put_off.meet(&called);
    }

    // Calls the workers of the threads that an entry woke and those who waited for a bucket, and the calling thread where
    // one was made.
    fn tell(&self, wake_reason: &WakeReason, freed: &BucketWaiters) -> Called
        ensures { AreTold wake_reason.now.woken freed.now wake_reason.now.forked result }
    {
        let mut called = self.call_starter_if(wake_reason.forked);
        self.call_each(&wake_reason.woken, &mut called);
        if !freed.is_empty() {
            self.call_each(&freed.threads(), &mut called);
        }
        called
    }

    // Calls the calling thread where a thread was made, and nobody else.
    fn call_starter_if(&self, forked: bool) -> Called
        ensures { result ≡ record { workers = nobody; starter = forked } }
    {
        let mut called = Called::new();
        if forked {
            called.call_starter(&self.made);
        }
        called
    }

    // Calls the workers of the threads of a set.
    fn call_each(&self, threads: &ThreadSet, called: &mut Called)
        requires { IsWhole called.old.workers }
        ensures { AreCalledToo threads.now called.old called.new }
    {
        let mut from = 1;
        while let Some(t) = threads.next_from(from) {
            if t > MOST_THREADS {
                return;
            }
            self.call(t, called);
            from = t + 1;
        }
    }

    // Calls the worker of thread `t`.
    fn call(&self, t: u32, called: &mut Called)
        requires { IsThread t }
        ensures { called.new ≡ with_called called.old t }
    {
        self.parkers[t as usize].call(called);
    }

    // Calls everybody who is parked. Apart for the same reason as above.
    #[cold]
    #[inline(never)]
    #[tactic(auto, using(crate::proofs::Calling::called_too, crate::proofs::Calling::called_whole))]
    fn call_all(&self) -> Called
        ensures { AreAllCalled result }
    {
        let mut called = Called::new();
        called.call_starter(&self.made);
        for t in 1..=MOST_THREADS {
            self.call(t, &mut called);
        }
        called
    }
}

// How the worker of thread `t` is started: under a name that tools show, and on a small stack.
fn builder_of(alloc: Global, t: u32) -> Result<Builder, AllocError> {
    let mut name = String::new(alloc);
    write!(name, "thread {t}")?;
    Ok(Builder::new().name(name).stack_size(STACK_BYTES))
}
