ghost use Rattle.std.specs.Prelude.{◌≡◌, ℕ, Some, None, if◌then◌else◌, nat_lt, length};
ghost use Rattle.robustexit.specs.declared.rule.ExitRule.{ExitRule};
ghost use Rattle.locals.specs.Looks.{Look};
ghost use Rattle.locals.specs.Requests.{next_step_of};
ghost use Rattle.machine.specs.ConcreteServing.{serve};
ghost use Rattle.machine.specs.ConcreteSteps.{thread_step, fault_of};
ghost use Rattle.machine.specs.RequestMeanings.{asked_of};
ghost use Rattle.machine.specs.Views.{common};

use crate::common::Common;
use crate::event::StepFault;
use locals::{NextStep, Request};
use words::Addr;

impl Common {
    // Whether an address lies in the memory.
    fn has(&self, a: Addr) -> bool
        ensures { result ≡ nat_lt a.0 (length self.now.words) }
    {
        (a.0 as usize) < self.words.len()
    }

    // Whether a request would be served.
    fn can_serve(&self, request: Request) -> bool
        ensures { (made t : ℕ) → fault_of (serve made t (asked_of request) (common self.now))
            ≡ (if result then None else Some StepFault.Broken) }
    {
        match request {
            Request::Load(a)
            | Request::Store(a, _)
            | Request::Swap(a, _)
            | Request::FetchOr(a, _)
            | Request::FetchAdd(a, _) => self.has(a),
            Request::CompareSwap {
                address,
                expected: _,
                new: _,
            }
            | Request::Wait {
                address,
                expected: _,
            }
            | Request::Wake { address, count: _ } => self.has(address),
            Request::Requeue {
                from,
                to,
                wake: _,
                moves: _,
                expected: _,
            } => self.has(from) && self.has(to),
            Request::Print(_) | Request::Return | Request::ReturnValue(_) | Request::Fault(_) => {
                true
            }
        }
    }

    /// What the next step of thread `t`, where it is `next`, the thread is awake and so many threads were made, would
    /// be refused for.
    pub fn refusal(&self, made: u32, t: u32, next: NextStep) -> Option<StepFault>
        ensures { (rule : ExitRule) (l : Look) → next ≡ next_step_of l
            → result ≡ fault_of (thread_step rule made t (common self.now) l) }
    {
        match next {
            NextStep::Local | NextStep::Exit(_) => None,
            NextStep::Shared(request) => {
                if self.can_serve(request) {
                    None
                } else {
                    Some(StepFault::Broken)
                }
            }
            NextStep::Fork {
                entry: _,
                count: _,
                has_room,
            } => {
                if has_room || made == self.threads() {
                    None
                } else {
                    Some(StepFault::Broken)
                }
            }
            NextStep::Broken => Some(StepFault::Broken),
            NextStep::Ended => Some(StepFault::CannotMove),
        }
    }
}
