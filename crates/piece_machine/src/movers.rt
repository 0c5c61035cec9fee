//! Which threads can take a step, and what one would be refused for.
ghost use Rattle.std.specs.Prelude.{◌≡◌, ◌≤◌, ◌<◌, ℕ, Some, None, true, length, MatchBool};
ghost use Rattle.locals.specs.Looks.{look};
ghost use Rattle.locals.specs.Requests.{next_step_of};
ghost use Rattle.locals.specs.Threads.{Thread};
ghost use Rattle.machine.specs.PieceSteps.{BlocksCall, CanTakePiece};
ghost use Rattle.piece_machine.specs.PieceConcrete.{can_take, piece_fault_at};
ghost use Rattle.piece_machine.specs.PieceViews.{pieces, parts, GoesTo, IsBlocked, IsAtRest, RefusesCall};

use crate::piece_machine::{PieceMachine, call_in};
use futexcalls::FutexCall;
use locals::NextStep;
use machine::StepFault;

impl PieceMachine {
    /// Whether thread `t` can take a step: it was made, neither sleeps nor has ended, and no held bucket is in its way.
    pub fn can_move(&self, t: u32) -> bool
        ensures value { result ≡ can_take self.now.view.program (parts self.now) t }
        ensures exact { MatchBool result (CanTakePiece self.now.view.program (pieces self.now) t)
            (CanTakePiece self.now.view.program (pieces self.now) t → ⊥) }
    {
        self.machine.can_move(t) && !self.is_blocked(t)
    }

    /// Whether no thread can take a step. Then nobody holds a bucket.
    pub fn quiet(&self) -> bool
        ensures value { MatchBool result (IsAtRest self.now.view.program (pieces self.now)) ((t : ℕ)
            × CanTakePiece self.now.view.program (pieces self.now) t) }
        ensures free { result ≡ true → (b : ℕ) → (pieces self.now).holder b ≡ None }
    {
        for t in 0..self.machine.threads() {
            if self.can_move(t + 1) {
                return false;
            }
        }
        true
    }

    /// Whether nobody holds a bucket, since no thread is within a call.
    pub fn holds_none(&self) -> bool
        ensures { result ≡ true → (b : ℕ) → (pieces self.now).holder b ≡ None }
    {
        self.phases.all_first()
    }

    /// What a step of thread `t` would be refused for, if its local steps had led it to where its next step is `next`.
    pub fn refusal_as(&self, t: u32, next: NextStep) -> Option<StepFault>
        ensures { (here : Thread) → GoesTo self.now.view t here
            → next ≡ next_step_of (look self.now.view.program t here)
            → result ≡ piece_fault_at self.now.view.program (parts self.now) t here }
    {
        if !self.machine.is_made(t) || self.machine.asleep(t).is_some() {
            return Some(StepFault::CannotMove);
        }
        match next {
            NextStep::Shared(request) => match call_in(request) {
                Some(call) => self.call_refusal(t, call),
                None => self.machine.refusal_as(t, next),
            },
            NextStep::Exit(phase) => {
                if self.machine.is_held_up(t, phase) {
                    return Some(StepFault::CannotMove);
                }
                self.machine.refusal_as(t, next)
            }
            _ => self.machine.refusal_as(t, next),
        }
    }

    // What the next piece of this call would be refused for, if thread `t` were awake and made it.
    fn call_refusal(&self, t: u32, call: FutexCall) -> Option<StepFault>
        requires { (0 < t) × (t ≤ length self.now.view.threads) }
        ensures { RefusesCall (pieces self.now) t call result }
    {
        if !self.machine.has_words(call) {
            Some(StepFault::Broken)
        } else if self.waits_for_bucket(t, call) {
            Some(StepFault::CannotMove)
        } else {
            None
        }
    }

    // Whether a held bucket is in the way of thread `t`.
    fn is_blocked(&self, t: u32) -> bool
        requires { (0 < t) × (t ≤ length self.now.view.threads) }
        ensures { MatchBool result (IsBlocked self.now.view.program (pieces self.now) t)
            (IsBlocked self.now.view.program (pieces self.now) t → ⊥) }
    {
        match self.machine.next_step(t) {
            NextStep::Shared(request) => match call_in(request) {
                Some(call) => self.waits_for_bucket(t, call),
                None => false,
            },
            NextStep::Exit(phase) => self.machine.is_held_up(t, phase),
            _ => false,
        }
    }

    // Whether a thread holds the bucket that the call of thread `t` takes next.
    fn waits_for_bucket(&self, t: u32, call: FutexCall) -> bool
        requires { (0 < t) × (t ≤ length self.now.view.threads) }
        ensures { MatchBool result (BlocksCall (pieces self.now) t (Some call))
            (BlocksCall (pieces self.now) t (Some call) → ⊥) }
    {
        if !self.machine.has_words(call) {
            return false;
        }
        match self.machine.next_bucket(call, self.phases.at(t)) {
            Some(bucket) => self.machine.holder(bucket).is_some(),
            None => false,
        }
    }
}
