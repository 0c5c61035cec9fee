//! The futex calls of threads, in pieces.
ghost use Rattle.std.specs.Prelude.{◌≡◌, ◌≤◌, ◌⊎◌, ℕ, None, Some, true, length};
ghost use Rattle.std.specs.List.{All};
ghost use Rattle.buckets.specs.Places.{names};
ghost use Rattle.buckets.specs.Sleepers.{place_of, thread_count, bucket_count, holder_of, IsSound};
ghost use Rattle.futexcalls.specs.Answers.{word_of};
ghost use Rattle.futexcalls.specs.Progress.{PieceProgress, answered};
ghost use Rattle.futexcalls.specs.Pieces.{takes_at, held_at, IsPhase, LiesIn};
ghost use Rattle.futexcalls.specs.PieceResults.{PieceSo, answer_of};
ghost use Rattle.machine.specs.ThreadSets.{IsThread};
ghost use Rattle.machine.specs.ConcreteServing.{event_of};
ghost use Rattle.machine.specs.ConcretePieces.{call_name, woken_in, moved_in, Tells};

use crate::call_step::CallProgress;
use crate::common::Common;
use crate::event::{Event, EventName};
use futexcalls::{
    FutexAnswer, FutexCall, FutexLists, FutexPhase, FutexProgress, futex_step, next_bucket,
};

// How a call that is over is told.
fn name_of(call: FutexCall) -> EventName
    ensures { result ≡ call_name call }
{
    match call {
        FutexCall::Wait { .. } => EventName::Wait,
        FutexCall::Wake { .. } => EventName::Wake,
        FutexCall::Requeue { .. } => EventName::Requeue,
    }
}

// The answer of a call that is over, to which these lists were lent; its event is put in its place.
#[inline(always)]
fn tell(call: FutexCall, answer: FutexAnswer, lists: &FutexLists, event: &mut Event) -> u32
    requires woken { All IsThread (woken_in (answered answer lists.now)) }
    requires moved { All IsThread (moved_in (answered answer lists.now)) }
    ensures answer { result ≡ answer_of call (answered answer lists.now) }
    ensures event { let told = answered answer lists.now in event.new
        ≡ event_of (call_name call) (answer_of call told) (woken_in told) (moved_in told) }
{
    let value = answer.value(call, lists);
    match answer {
        FutexAnswer::Again => event.put(name_of(call), value),
        FutexAnswer::Acted => event.put_with(
            name_of(call),
            value,
            lists.woken.as_slice(),
            lists.moved.as_slice(),
        ),
    }
    value
}

impl Common {
    /// The bucket that a futex call takes next, in the phase before which it stands, if it takes one.
    pub fn next_bucket(&self, call: FutexCall, phase: FutexPhase) -> Option<u32>
        ensures { result ≡ takes_at (bucket_count self.now.sleepers) phase call }
    {
        next_bucket(&self.buckets, call, phase)
    }

    /// Takes the next piece of a futex call of thread `t`, which is awake and holds the buckets that its phase says.
    #[inline(always)]
    pub fn call_piece(
        &mut self,
        t: u32,
        call: FutexCall,
        phase: FutexPhase,
        event: &mut Event,
    ) -> CallProgress
        requires thread { (1 ≤ t) × (t ≤ thread_count self.old.sleepers) }
        requires lies { LiesIn (length self.old.words) call }
        requires awake { place_of self.old.sleepers t ≡ None }
        requires stands { (phase ≡ FutexPhase.First)
            ⊎ IsPhase (bucket_count self.old.sleepers) phase call }
        requires held { (k : ℕ)
            → names (held_at (bucket_count self.old.sleepers) phase (Some call)) k ≡ true
            → holder_of self.old.sleepers k ≡ Some t }
        ensures piece { (progress : PieceProgress)
            × PieceSo (word_of self.old.words) t call phase self.old.sleepers progress self.new.sleepers
            × Tells call progress result event.new }
        ensures words { self.new.words ≡ self.old.words }
        ensures output { self.new.output ≡ self.old.output }
        ensures capacity { self.new.capacity ≡ self.old.capacity }
        ensures count { bucket_count self.new.sleepers ≡ bucket_count self.old.sleepers }
        ensures threads { thread_count self.new.sleepers ≡ thread_count self.old.sleepers }
        ensures sound { IsSound self.new.sleepers }
    {
        let Common {
            words,
            buckets,
            lists,
            ..
        } = self;
        match futex_step(words, buckets, t, call, phase, lists) {
            FutexProgress::Next(next) => CallProgress::Next(next),
            FutexProgress::Blocked => CallProgress::Blocked,
            FutexProgress::Done(answer) => CallProgress::Done(tell(call, answer, lists, event)),
        }
    }
}
