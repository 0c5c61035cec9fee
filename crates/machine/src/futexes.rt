//! The futex calls of threads.
ghost use Rattle.std.specs.Prelude.{◌≡◌, ◌≤◌, ℕ, None, OnErr};
ghost use Rattle.buckets.specs.Sleepers.{place_of, thread_count};
ghost use Rattle.locals.specs.Looks.{AskWait, AskWake, AskRequeue};
ghost use Rattle.machine.specs.ConcreteServing.{serve};
ghost use Rattle.machine.specs.RequestMeanings.{with_common};
ghost use Rattle.machine.specs.Views.{common};

use crate::accesses::check_address;
use crate::common::Common;
use crate::event::{Event, EventName, StepFault};
use futexcalls::{WaitAnswer, cmp_requeue, wait, wake};
use words::Addr;

const AGAIN: u32 = u32::MAX;

impl Common {
    /// Puts thread `t` to sleep on an address where the word is `expected`; the answer is 0, or 1 where it isn't.
    pub fn wait(
        &mut self,
        t: u32,
        a: Addr,
        expected: u32,
        event: &mut Event,
    ) -> Result<u32, StepFault>
        requires thread { (1 ≤ t) × (t ≤ thread_count self.old.sleepers) }
        requires awake { place_of self.old.sleepers t ≡ None }
        ensures gives { (made : ℕ)
            → serve made t (AskWait a.0 expected) (common self.old)
            ≡ with_common result event.new (common self.new) }
        ensures capacity { self.new.capacity ≡ self.old.capacity }
        ensures holders { self.new.sleepers.holders ≡ self.old.sleepers.holders }
        ensures same { OnErr result (self.new ≡ self.old) }
    {
        check_address(&self.words, a)?;
        let answer = match wait(&self.words, &mut self.buckets, t, a, expected) {
            WaitAnswer::Sleeps => 0,
            WaitAnswer::Again => 1,
        };
        event.put(EventName::Wait, answer);
        Ok(answer)
    }

    /// Wakes the first `n` sleepers on an address; the answer is how many.
    pub fn wake(&mut self, a: Addr, n: u32, event: &mut Event) -> Result<u32, StepFault>
        ensures gives { (made t : ℕ)
            → serve made t (AskWake a.0 n) (common self.old)
            ≡ with_common result event.new (common self.new) }
        ensures capacity { self.new.capacity ≡ self.old.capacity }
        ensures holders { self.new.sleepers.holders ≡ self.old.sleepers.holders }
        ensures same { OnErr result (self.new ≡ self.old) }
    {
        check_address(&self.words, a)?;
        wake(&mut self.buckets, a, n, &mut self.lists.woken);
        let woken = self.lists.woken.as_slice();
        let count = woken.len() as u32;
        event.put_with(EventName::Wake, count, woken, &[]);
        Ok(count)
    }

    /// Where the word at `a` is `expected`, wakes the first `wake` sleepers on `a` and moves the first `moves` of the
    /// rest to `b`; the answer is how many of both, or 4294967295 where the word differs.
    pub fn requeue(
        &mut self,
        a: Addr,
        b: Addr,
        wake: u32,
        moves: u32,
        expected: u32,
        event: &mut Event,
    ) -> Result<u32, StepFault>
        ensures gives { (made t : ℕ) → serve made t (AskRequeue a.0 b.0 wake moves expected)
            (common self.old)
            ≡ with_common result event.new (common self.new) }
        ensures capacity { self.new.capacity ≡ self.old.capacity }
        ensures holders { self.new.sleepers.holders ≡ self.old.sleepers.holders }
        ensures same { OnErr result (self.new ≡ self.old) }
    {
        check_address(&self.words, a)?;
        check_address(&self.words, b)?;
        let Common {
            words,
            buckets,
            lists,
            ..
        } = self;
        let Ok(()) = cmp_requeue(words, buckets, a, b, wake, moves, expected, lists) else {
            event.put(EventName::Requeue, AGAIN);
            return Ok(AGAIN);
        };
        let count = lists.count();
        let (woken, moved) = (lists.woken.as_slice(), lists.moved.as_slice());
        event.put_with(EventName::Requeue, count, woken, moved);
        Ok(count)
    }
}
