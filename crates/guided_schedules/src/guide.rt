use crate::handing::Locks;
use isa::Image;
use locals::NextStep;
use machine::{Event, EventName};
use piece_machine::PieceMachine;
use program::Member;
use runner::Turn;
use std::alloc::{AllocError, Global};
use words::{BUCKETS, MOST_THREADS};

// The most steps of a run, and the most rounds in which its threads are taken on.
const STEPS: u32 = 1_000_000;

// How many steps of others a thread waits for before it is woken from outside.
const PATIENCE: u32 = 10_000;

// What came of a try to take a thread on.
#[derive(Clone, Copy, PartialEq, Eq)]
enum Gone {
    // It can't take a step.
    Nowhere,
    // It took one that hands nothing over.
    Further,
    // It took one that hands something over.
    Handed,
}

// A thread on its way to sleep on a condition.
#[derive(Clone, Copy)]
struct Waiting {
    thread: u32,
    condition: Member,
}

/// A run of an image that is taken on thread by thread, and its turns so far.
#[derive(Drop)]
pub(crate) struct Guide<'a> {
    locks: Locks<'a>,
    turns: Vec<Turn>,
    // The threads that have given a monitor up to wait, and don't sleep yet.
    waiting: Vec<Waiting>,
    taken: Event,
    machine: PieceMachine,
}

impl<'a> Guide<'a> {
    /// The run before its first step.
    pub(crate) fn new(
        alloc: Global,
        image: &Image,
        locks: Locks<'a>,
    ) -> Result<Guide<'a>, AllocError> {
        Ok(Guide {
            locks,
            turns: Vec::new(alloc),
            waiting: Vec::new(alloc),
            taken: Event::new(EventName::Local, 0),
            machine: PieceMachine::new(alloc, image, BUCKETS)?,
        })
    }

    // Whether the last step woke thread `t`.
    fn woke(&self, t: u32) -> bool {
        t > 0 && t <= MOST_THREADS && self.taken.woken.contains(t)
    }

    /// Whether the last step, a wake of one thread at most, woke one of these and left none of them asleep.
    pub(crate) fn has_woken(&self, threads: &[u64]) -> bool {
        let mut is_one = self.taken.woken.is_empty();
        for thread in threads {
            let Ok(t) = u32::try_from(*thread) else {
                return false;
            };
            if self.machine.machine().asleep(t).is_some() {
                return false;
            }
            is_one = is_one || self.woke(t);
        }
        is_one
    }

    /// The turns of the run.
    pub(crate) fn into_turns(self) -> Vec<Turn> {
        self.turns
    }

    // What the next step of thread `t` is; None where it can't take one.
    fn next_step(&self, t: u32) -> Option<NextStep> {
        let machine = self.machine.machine();
        if machine.can_move(t) {
            Some(machine.next_step(t))
        } else {
            None
        }
    }

    // Takes this step of thread `t`, which is its next one; false where it is refused.
    fn take(&mut self, t: u32, step: NextStep) -> Result<bool, AllocError> {
        self.turns.push(Turn::Step(t))?;
        self.machine.make_room(1)?;
        let is_taken = match step {
            NextStep::Local => self.take_local(t),
            _ => self.machine.step(t, &mut self.taken).is_ok(),
        };
        if !is_taken {
            self.turns.pop();
        }
        Ok(is_taken)
    }

    fn take_local(&mut self, t: u32) -> bool {
        self.machine.machine().can_move(t) && self.machine.run_local(t, 1) == 1
    }

    // Takes the next step of thread `t`, if it can take one.
    fn go(&mut self, t: u32) -> Result<Gone, AllocError> {
        let Some(step) = self.next_step(t) else {
            return Ok(Gone::Nowhere);
        };
        let hands = self.locks.is_handed(self.machine.machine(), t, step);
        if !self.take(t, step)? {
            return Ok(Gone::Nowhere);
        }
        // A piece after which its futex call goes on hands nothing over yet.
        if hands
            && !matches!(
                self.taken.name,
                EventName::FutexLock | EventName::FutexCompare
            )
        {
            return Ok(Gone::Handed);
        }
        Ok(Gone::Further)
    }

    /// Takes the next step of thread `t` where it hands nothing over. False where that isn't so, or there is none.
    pub(crate) fn go_quietly(&mut self, t: u32) -> Result<bool, AllocError> {
        let Some(step) = self.next_step(t) else {
            return Ok(false);
        };
        if self.locks.is_handed(self.machine.machine(), t, step) {
            return Ok(false);
        }
        self.take(t, step)
    }

    // Takes each thread but this one a step on where that hands nothing over. Whether any took one.
    fn take_others_on(&mut self, t: u32) -> Result<bool, AllocError> {
        let mut any = false;
        for other in 1..=self.machine.machine().threads() {
            if other != t && self.go_quietly(other)? {
                any = true;
            }
        }
        Ok(any)
    }

    // Whether thread `t` sleeps on a lock word.
    fn is_at_lock(&self, t: u32) -> bool {
        match self.machine.machine().asleep(t) {
            Some(address) => self.locks.has(address),
            None => false,
        }
    }

    // Does what may let thread `t` go on, which can't and has waited so often: others go on, or it is woken from outside where
    // it sleeps on a lock. False where nothing could be done.
    fn free(&mut self, t: u32, waited: u32) -> Result<bool, AllocError> {
        if waited < PATIENCE && self.take_others_on(t)? {
            return Ok(true);
        }
        if self.is_at_lock(t) {
            return self.wake(t);
        }
        Ok(false)
    }

    /// Takes thread `t` on until it has handed something over. False where it can't come there.
    pub(crate) fn drive(&mut self, t: u32) -> Result<bool, AllocError> {
        let mut waited: u32 = 0;
        for _ in 0..STEPS {
            match self.go(t)? {
                Gone::Handed => return Ok(true),
                Gone::Further => waited = 0,
                Gone::Nowhere => {
                    if !self.free(t, waited)? {
                        return Ok(false);
                    }
                    waited = waited.saturating_add(1);
                }
            }
        }
        Ok(false)
    }

    /// Takes thread `t` on until it has given a lock up, behind which it is on its way to sleep on a condition. False where it
    /// can't come there.
    pub(crate) fn drive_to_wait(&mut self, t: u32, condition: Member) -> Result<bool, AllocError> {
        self.waiting.push(Waiting {
            thread: t,
            condition,
        })?;
        self.drive(t)
    }

    /// Whether a thread is on its way to sleep on this condition.
    pub(crate) fn awaits(&self, condition: Member) -> bool {
        for waiting in self.waiting.iter() {
            if waiting.condition == condition {
                return true;
            }
        }
        false
    }

    // Takes a thread off those that are on their way to sleep, on whatever condition. None where it isn't one.
    fn take_waiting(&mut self, thread: u64) -> Option<Waiting> {
        for place in 0..self.waiting.len() {
            if u64::from(self.waiting[place].thread) == thread {
                return Some(self.waiting.remove(place));
            }
        }
        None
    }

    /// Has these fall asleep, one after the other, as far as they are on their way to sleep on this condition.
    pub(crate) fn sleep_each(
        &mut self,
        threads: &[u64],
        condition: Member,
    ) -> Result<(), AllocError> {
        for thread in threads {
            let Some(waiting) = self.take_waiting(*thread) else {
                continue;
            };
            if waiting.condition == condition {
                self.settle_one(waiting.thread)?;
            } else {
                self.waiting.push(waiting)?;
            }
        }
        Ok(())
    }

    /// Has the first of these fall asleep that is on its way, and leaves the others of them awake.
    pub(crate) fn put_first_to_sleep(&mut self, threads: &[u64]) -> Result<(), AllocError> {
        let mut is_first = true;
        for thread in threads {
            if let Some(waiting) = self.take_waiting(*thread) {
                if is_first {
                    self.settle_one(waiting.thread)?;
                }
                is_first = false;
            }
        }
        Ok(())
    }

    /// Has all fall asleep that are on their way to sleep on this condition.
    pub(crate) fn sleep_on(&mut self, condition: Member) -> Result<(), AllocError> {
        for _ in 0..self.waiting.len() {
            if let Some(waiting) = self.take_on(condition) {
                self.settle_one(waiting.thread)?;
            }
        }
        Ok(())
    }

    // Takes one off that is on its way to sleep on this condition.
    fn take_on(&mut self, condition: Member) -> Option<Waiting> {
        for place in 0..self.waiting.len() {
            if self.waiting[place].condition == condition {
                return Some(self.waiting.remove(place));
            }
        }
        None
    }

    /// Wakes thread `t` from outside. False where it doesn't sleep.
    pub(crate) fn wake(&mut self, t: u32) -> Result<bool, AllocError> {
        self.turns.push(Turn::Stray(t))?;
        let is_woken = self.machine.stray(t, &mut self.taken).is_ok();
        if !is_woken {
            self.turns.pop();
        }
        Ok(is_woken)
    }

    /// Kills thread `t`. False where it was never made.
    pub(crate) fn kill(&mut self, t: u32) -> Result<bool, AllocError> {
        self.turns.push(Turn::Kill(t))?;
        let is_killed = self.machine.kill(t, &mut self.taken).is_ok();
        if !is_killed {
            self.turns.pop();
        }
        Ok(is_killed)
    }

    /// Takes all threads on as long as any takes a step that hands nothing over.
    pub(crate) fn settle(&mut self) -> Result<(), AllocError> {
        for _ in 0..STEPS {
            if !self.take_others_on(0)? {
                return Ok(());
            }
        }
        Ok(())
    }

    /// The same of one thread.
    pub(crate) fn settle_one(&mut self, t: u32) -> Result<(), AllocError> {
        for _ in 0..STEPS {
            if !self.go_quietly(t)? {
                return Ok(());
            }
        }
        Ok(())
    }
}
