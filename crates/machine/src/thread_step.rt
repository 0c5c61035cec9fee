ghost use Rattle.std.specs.Prelude.{◌≢◌, ◌≡◌, ◌≤◌, ◌<◌, ℕ, None, Ok, Err, IfOk, IfErr, IfSome, IfNone, OnOk, OnErr, IsSome, length};
ghost use Rattle.buckets.specs.Sleepers.{place_of, thread_count};
ghost use Rattle.robustexit.specs.declared.phase.ExitPhase.TheVariants.{Ended};
ghost use Rattle.robustexit.specs.ExitRules.{exit_of};
ghost use Rattle.locals.specs.Sequences.{AreSequences};
ghost use Rattle.locals.specs.Looks.{look};
ghost use Rattle.locals.specs.Requests.{next_step_of};
ghost use Rattle.locals.specs.declared.request.NextStep.TheVariants as next;
ghost use Rattle.locals.specs.Threads.{Exits};
ghost use Rattle.machine.specs.Accessing.{AccessedSo};
ghost use Rattle.machine.specs.LocalRuns.{WalkedSo};
ghost use Rattle.machine.specs.ConcreteSteps.{thread_step};
ghost use Rattle.machine.specs.RequestMeanings.{AsksFork};
ghost use Rattle.machine.specs.States.{Common as CommonOf};
ghost use Rattle.machine.specs.Views.{common};

use crate::common::Common;
use crate::event::{Event, EventName, StepFault};
use isa::Image;
use locals::{Access, Local, Request, Sequences};
use robustexit::{ExitPhase, ExitRule};

/// A local step of thread `t`.
pub fn take_local(image: &Image, t: u32, local: &mut Local, event: &mut Event)
    requires asks { next_step_of (look image.now t local.old) ≡ next.Local }
    ensures { (made : ℕ) (c : CommonOf) → thread_step (exit_of image.now.version) made t c (look image.now t local.old)
        ≡ Ok (record { common = c; thread = local.new; child = None; event = event.new }) }
{
    local.take_step(image, t);
    event.put(EventName::Local, 0);
}

/// A step of the exit of thread `t`.
pub fn take_exit(
    image: &Image,
    shared: &mut Common,
    t: u32,
    local: &mut Local,
    phase: ExitPhase,
    event: &mut Event,
)
    requires thread { (1 ≤ t) × (t ≤ thread_count shared.old.sleepers) }
    requires asks { next_step_of (look image.now t local.old) ≡ next.Exit phase }
    ensures done { (made : ℕ) → thread_step (exit_of image.now.version) made t (common shared.old) (look image.now t local.old)
        ≡ Ok (record { common = common shared.new; thread = local.new; child = None; event = event.new }) }
    ensures capacity { shared.new.capacity ≡ shared.old.capacity }
    ensures holders { shared.new.sleepers.holders ≡ shared.old.sleepers.holders }
{
    let next = shared.leave(ExitRule::of(image.version()), t, phase, event);
    local.enter_phase(next);
}

/// An access of thread `t` to a word, which it makes in its place, if that is its next step and the word lies in the
/// memory. Else nothing has changed.
#[inline(always)]
pub fn take_access(image: &Image, shared: &mut Common, t: u32, local: &mut Local) -> Option<Access>
    ensures access { AccessedSo result (look image.now t local.old) shared.old shared.new local.new }
    ensures none { IfNone result ((local.new ≡ local.old) × (shared.new ≡ shared.old)) }
    ensures lives { IfSome result (λ told. local.new ≢ Exits Ended) }
{
    let Common { words, .. } = shared;
    local.access(image, t, words)
}

/// Local steps of thread `t`, which it takes in its place until another step comes or the budget is used, and the access to
/// a word behind them, if that is its next step then and the word lies in the memory. Answers how many they were, and the
/// access.
#[inline(always)]
pub fn take_walk(
    image: &Image,
    sequences: &Sequences,
    shared: &mut Common,
    t: u32,
    local: &mut Local,
    budget: u32,
) -> (u32, Option<Access>)
    requires { AreSequences image.now.code sequences.now }
    ensures { WalkedSo image.now t budget shared.old shared.new local.old local.new result.0 result.1 }
{
    let Common { words, .. } = shared;
    local.walk(image, sequences, t, budget, words)
}

/// A request of thread `t`, which is awake.
pub fn take_request(
    image: &Image,
    shared: &mut Common,
    t: u32,
    local: &mut Local,
    request: Request,
    event: &mut Event,
) -> Result<(), StepFault>
    requires room { length shared.old.output < shared.old.capacity }
    requires thread { (1 ≤ t) × (t ≤ thread_count shared.old.sleepers) }
    requires awake { place_of shared.old.sleepers t ≡ None }
    requires asks { next_step_of (look image.now t local.old) ≡ next.Shared request }
    ensures done { OnOk result ((made : ℕ)
        → thread_step (exit_of image.now.version) made t (common shared.old) (look image.now t local.old)
        ≡ Ok (record { common = common shared.new; thread = local.new; child = None; event = event.new })) }
    ensures err { IfErr result (λ f. (made : ℕ)
        → thread_step (exit_of image.now.version) made t (common shared.old) (look image.now t local.old) ≡ Err f) }
    ensures same { OnErr result ((local.new ≡ local.old) × (shared.new ≡ shared.old)) }
    ensures capacity { shared.new.capacity ≡ shared.old.capacity }
    ensures holders { shared.new.sleepers.holders ≡ shared.old.sleepers.holders }
{
    let answer = shared.serve(t, request, event)?;
    local.go_on(image, t, answer);
    Ok(())
}

/// A fork of thread `t`, which answers the thread that it made. Where as many threads were made as there can be the
/// answer is 0, whether or not it has room.
pub fn take_fork(
    image: &Image,
    shared: &mut Common,
    made: u32,
    t: u32,
    local: &mut Local,
    has_room: bool,
    event: &mut Event,
) -> Result<Option<Local>, StepFault>
    requires few { made ≤ thread_count shared.old.sleepers }
    requires asks { AsksFork (look image.now t local.old) has_room }
    ensures done { IfOk result
        (λ child. thread_step (exit_of image.now.version) made t (common shared.old) (look image.now t local.old)
        ≡ Ok (record { common = common shared.new; thread = local.new; child = child; event = event.new })) }
    ensures err { IfErr result
        (λ f. thread_step (exit_of image.now.version) made t (common shared.old) (look image.now t local.old) ≡ Err f) }
    ensures child { IfOk result (λ child. IsSome child → made < thread_count shared.old.sleepers) }
    ensures same { OnErr result ((local.new ≡ local.old) × (shared.new ≡ shared.old)) }
    ensures capacity { shared.new.capacity ≡ shared.old.capacity }
    ensures holders { shared.new.sleepers.holders ≡ shared.old.sleepers.holders }
{
    if made == shared.threads() {
        local.go_on(image, t, 0);
        event.put(EventName::Fork, 0);
        return Ok(None);
    }
    if !has_room {
        return Err(StepFault::Broken);
    }
    let number = made + 1;
    shared.open_thread(number);
    let child = local.child(image, t);
    local.go_on(image, t, number);
    event.put(EventName::Fork, number);
    Ok(child)
}
