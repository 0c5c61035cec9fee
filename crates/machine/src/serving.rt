ghost use Rattle.std.specs.Prelude.{◌≡◌, ◌<◌, ◌≤◌, ℕ, None, OnErr, length};
ghost use Rattle.buckets.specs.Sleepers.{place_of, thread_count};
ghost use Rattle.machine.specs.ConcreteServing.{serve};
ghost use Rattle.machine.specs.RequestMeanings.{asked_of, with_common};
ghost use Rattle.machine.specs.Views.{common};

use crate::common::Common;
use crate::event::{Event, StepFault};
use locals::Request;

impl Common {
    /// Serves a request of thread `t`, which is awake, and answers what the thread is answered.
    pub fn serve(&mut self, t: u32, request: Request, event: &mut Event) -> Result<u32, StepFault>
        requires room { length self.old.output < self.old.capacity }
        requires thread { (1 ≤ t) × (t ≤ thread_count self.old.sleepers) }
        requires awake { place_of self.old.sleepers t ≡ None }
        ensures gives { (made : ℕ)
            → serve made t (asked_of request) (common self.old)
            ≡ with_common result event.new (common self.new) }
        ensures capacity { self.new.capacity ≡ self.old.capacity }
        ensures holders { self.new.sleepers.holders ≡ self.old.sleepers.holders }
        ensures same { OnErr result (self.new ≡ self.old) }
    {
        match request {
            Request::Load(a) => self.load(a, event),
            Request::Store(a, v) => self.store(a, v, event),
            Request::Swap(a, v) => self.swap(a, v, event),
            Request::CompareSwap {
                address,
                expected,
                new,
            } => self.compare_swap(address, expected, new, event),
            Request::FetchOr(a, v) => self.fetch_or(a, v, event),
            Request::FetchAdd(a, v) => self.fetch_add(a, v, event),
            Request::Print(number) => Ok(self.print(number, event)),
            Request::Wait { address, expected } => self.wait(t, address, expected, event),
            Request::Wake { address, count } => self.wake(address, count, event),
            Request::Requeue {
                from,
                to,
                wake,
                moves,
                expected,
            } => self.requeue(from, to, wake, moves, expected, event),
            Request::Return => Ok(self.end(t, event)),
            Request::ReturnValue(value) => Ok(self.end_with(t, value, event)),
            Request::Fault(cause) => Ok(self.die(t, cause, event)),
        }
    }
}
