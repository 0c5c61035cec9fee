ghost use Rattle.words.specs.Limits.{most_local_steps, most_threads};
ghost use Rattle.std.specs.Prelude.{◌≡◌, ◌≢◌, ◌≤◌, ◌<◌, ◌+◌, ◌++◌, ◌∷◌, ℕ, [], length, true, None, Some, Err, IfErr, IfOk, is_some};
ghost use Rattle.std.specs.Prelude.{IfNone, IfSome, MatchBool, OnErr, OnOk};
ghost use Rattle.locals.specs.Looks.{look};
ghost use Rattle.locals.specs.Requests.{next_step_of, short_call};
ghost use Rattle.locals.specs.declared.request.NextStep.TheVariants.{Local as LocalStep, Shared};
ghost use Rattle.locals.specs.Threads.{Thread};
ghost use Rattle.machine.specs.Accessing.{told_access};
ghost use Rattle.machine.specs.ConcreteSteps.{can_move};
ghost use Rattle.machine.specs.declared.event.Event.{Event as EventOf};
ghost use Rattle.machine.specs.declared.event.StepFault.TheVariants.{CannotMove};
ghost use Rattle.machine.specs.States.{state_of, thread_of};
ghost use Rattle.machine.specs.Views.{concrete};
ghost use Rattle.piece_machine.specs.PieceConcrete.{PieceConcrete, piece_fault_at};
ghost use Rattle.piece_machine.specs.PieceDetermined.{IsFit};
ghost use Rattle.piece_machine.specs.PieceViews.{GoesTo, event_told, parts};
ghost use Rattle.runner.specs.Attempts.{AsksFirst, WantsIf, is_made};
ghost use Rattle.runner.specs.Entries.{BreaksAfter, entry_end, taken_entry, taken_event};
ghost use Rattle.runner.specs.Logs.{EntersOwn};
ghost use Rattle.runner.specs.Reports.{IsHeldUp, IsNextEntry};
ghost use Rattle.runner.specs.Walks.{EndsWalk, FailsAfter, Turns, Walked};
ghost use Rattle.runner.specs.declared.attempt.Attempt;
ghost use Rattle.runner.specs.declared.attempt.Obstacle;

use crate::attempt::{Attempt, Obstacle};
use crate::calling::call_in;
use crate::fault::RunFault;
use crate::stepping::is_local;
use futexcalls::FutexPhase;
use isa::Image;
use locals::{Access, Local, NextStep, Request};
use machine::{Event, EventName, Machine, StepFault, access_name};
use packed_log::PackedLog;
use piece_machine::{PieceMachine, Told};
use words::MOST_LOCAL_STEPS;

/// What comes behind the local steps of an entry that a thread made in its place.
#[derive(Clone, Copy)]
pub enum Behind {
    /// No shared step.
    Nothing,
    /// This access to a word, as of most entries.
    Accessed(Access),
    /// Another shared step, whose event stands elsewhere.
    Stepped,
}

/// An entry that a thread made in its place.
#[derive(Clone, Copy)]
pub struct Taken {
    /// How many local steps it has.
    pub local: u32,
    /// What comes behind them.
    pub behind: Behind,
}

/// Whether a shared step comes behind the local steps.
#[inline(always)]
pub fn is_shared(behind: Behind) -> bool
    ensures { (event : EventOf) → result ≡ is_some (taken_event behind event) }
{
    !matches!(behind, Behind::Nothing)
}

/// What came of the try of an entry that was made in its place.
#[inline(always)]
pub fn attempt_of(taken: Taken, event: &Event) -> Attempt
    ensures made { is_made result ≡ true }
    ensures other { result ≢ Attempt.Accessed }
{
    if matches!(taken.behind, Behind::Stepped) && event.name == EventName::FutexLock {
        Attempt::Took(event.value)
    } else {
        Attempt::Made
    }
}

/// Puts the entry of thread `t` that was made in its place at the end of a log that has room for it, with the event of its
/// shared step, if it has one.
#[inline(always)]
pub fn push_taken(log: &mut PackedLog, t: u32, taken: Taken, event: &Event)
    requires { 1 ≤ log.old.room }
    ensures { log.new.items ≡ log.old.items ++ taken_entry t taken event.now ∷ [] }
{
    match taken.behind {
        Behind::Nothing => log.push_parts(t, taken.local, None),
        Behind::Accessed(access) => {
            log.push_plain(t, taken.local, access_name(access.kind), access.value);
        }
        Behind::Stepped => log.push_parts(t, taken.local, Some(event)),
    }
}

/// Lets thread `t` take the local steps of its turn in its place, and the access to a word behind them, where that is its
/// next step, as it mostly is: then its entry is made, and nothing was asked for and answered. Answers how many they were,
/// and the access.
#[inline(always)]
pub fn walk(machine: &mut PieceMachine, t: u32) -> (u32, Option<Access>)
    requires { can_move (concrete machine.old.view) t ≡ true }
    ensures accessed { IfSome result.1 (λ access. EntersOwn machine.old.view.program (parts machine.old)
        (record { thread = t; local = result.0; event = Some (told_access access) }) (parts machine.new)) }
    ensures walked { IfNone result.1 (Walked machine.old.view.program (parts machine.old) t result.0 (parts machine.new)
        × (machine.new.view.room ≡ machine.old.view.room)) }
    ensures turn { result.0 ≤ most_local_steps }
    ensures moves { can_move (concrete machine.new.view) t ≡ true }
    ensures program { machine.new.view.program ≡ machine.old.view.program }
{
    machine.walk(t, MOST_LOCAL_STEPS)
}

/// Ends the entry of thread `t`, which has taken the local steps of its turn in its place, so many, and stands before no
/// access: with the shared step that it stands before, if any, whose event is put in its place. Where that step may not be,
/// or there is no memory for the number that it may print, the entry has the local steps alone. Puts it at the end of a log
/// that has room for it, tells what came of it, and answers how many steps it has. Waits and wakes come first, as most do.
#[inline(never)]
pub fn end_walk(
    machine: &mut PieceMachine,
    log: &mut PackedLog,
    t: u32,
    local: u32,
    event: &mut Event,
    told: &mut Result<Attempt, RunFault>,
) -> u32
    requires moves { can_move (concrete machine.old.view) t ≡ true }
    requires turn { local ≤ most_local_steps }
    requires room { 1 ≤ log.old.room }
    ensures ends { (k : PieceConcrete) → Walked machine.old.view.program k t local (parts machine.old)
        → EndsWalk machine.old.view.program k t local log.old.items (parts machine.new) log.new.items result told.new }
    ensures few { result ≤ local + 1 }
    ensures program { machine.new.view.program ≡ machine.old.view.program }
{
    match machine.machine().call_ahead(t) {
        Some(request) => end_call(machine, log, t, local, request, event, told),
        None => end_other(machine, log, t, local, event, told),
    }
}

// The same of a thread that stands before a wait or a wake.
#[inline(always)]
fn end_call(
    machine: &mut PieceMachine,
    log: &mut PackedLog,
    t: u32,
    local: u32,
    request: Request,
    event: &mut Event,
    told: &mut Result<Attempt, RunFault>,
) -> u32
    requires moves { can_move (concrete machine.old.view) t ≡ true }
    requires turn { local ≤ most_local_steps }
    requires room { 1 ≤ log.old.room }
    requires number { (0 < t) × (t ≤ most_threads) }
    requires short { Some request ≡ short_call request }
    requires next { (x : Thread) → thread_of (concrete machine.old.view) t ≡ Some x
        → Shared request ≡ next_step_of (look machine.old.view.program t x) }
    ensures ends { (k : PieceConcrete) → Walked machine.old.view.program k t local (parts machine.old)
        → EndsWalk machine.old.view.program k t local log.old.items (parts machine.new) log.new.items result told.new }
    ensures few { result ≤ local + 1 }
    ensures program { machine.new.view.program ≡ machine.old.view.program }
{
    match machine.request_told(t, request, event) {
        Ok(Told::Plain(name, value)) => {
            log.push_small(t, local, name, value);
            *told = Ok(attempt_as(name, value));
            local + 1
        }
        Ok(Told::Written) => {
            log.push_parts(t, local, Some(event));
            *told = Ok(Attempt::Made);
            local + 1
        }
        Err(_) => {
            log.push_parts(t, local, None);
            *told = Err(RunFault::Broken);
            local
        }
    }
}

/// Takes the next entry of thread `t`, which may be held up and stands before this wait or wake: refused with the held bucket
/// that is in its way, and then nothing has changed. Puts it at the end of a log that has room for it, tells what came of it,
/// and answers how many steps it has.
#[inline(always)]
pub fn take_call(
    machine: &mut PieceMachine,
    log: &mut PackedLog,
    t: u32,
    request: Request,
    event: &mut Event,
    told: &mut Result<Attempt, RunFault>,
) -> Result<u32, Obstacle>
    requires moves { can_move (concrete machine.old.view) t ≡ true }
    requires number { (0 < t) × (t ≤ most_threads) }
    requires fit { IsFit machine.old.view.program (parts machine.old) }
    requires room { 1 ≤ log.old.room }
    requires short { Some request ≡ short_call request }
    requires next { (x : Thread) → thread_of (concrete machine.old.view) t ≡ Some x
        → Shared request ≡ next_step_of (look machine.old.view.program t x) }
    ensures ends { IfOk result (λ steps. EndsWalk machine.old.view.program (parts machine.old) t 0 log.old.items
        (parts machine.new) log.new.items steps told.new) }
    ensures breaks { OnOk result (IfErr told.new (λ fault. (fault ≡ RunFault.Broken)
        × BreaksAfter machine.old.view.program (parts machine.old) t 0)) }
    ensures held { OnErr result ((parts machine.new ≡ parts machine.old) × (log.new.items ≡ log.old.items)
        × IsHeldUp machine.old.view.program (parts machine.old) t) }
    ensures wants { IfErr result (λ obstacle. WantsIf machine.old.view.program (parts machine.old) t obstacle) }
    ensures program { machine.new.view.program ≡ machine.old.view.program }
{
    match machine.request_told(t, request, event) {
        Ok(Told::Plain(name, value)) => {
            log.push_small(t, 0, name, value);
            *told = Ok(attempt_as(name, value));
            Ok(1)
        }
        Ok(Told::Written) => {
            log.push_parts(t, 0, Some(event));
            *told = Ok(Attempt::Made);
            Ok(1)
        }
        Err(StepFault::Broken) => {
            log.push_parts(t, 0, None);
            *told = Err(RunFault::Broken);
            Ok(0)
        }
        Err(StepFault::CannotMove) => Err(obstacle_of(machine, t, NextStep::Shared(request))),
    }
}

// What came of an entry whose shared step is of this kind and value.
#[inline(always)]
fn attempt_as(name: EventName, value: u32) -> Attempt
    ensures made { is_made result ≡ true }
    ensures other { result ≢ Attempt.Accessed }
{
    if name == EventName::FutexLock {
        Attempt::Took(value)
    } else {
        Attempt::Made
    }
}

// The same of a thread that stands before neither.
#[inline(never)]
fn end_other(
    machine: &mut PieceMachine,
    log: &mut PackedLog,
    t: u32,
    local: u32,
    event: &mut Event,
    told: &mut Result<Attempt, RunFault>,
) -> u32
    requires moves { can_move (concrete machine.old.view) t ≡ true }
    requires turn { local ≤ most_local_steps }
    requires room { 1 ≤ log.old.room }
    ensures ends { (k : PieceConcrete) → Walked machine.old.view.program k t local (parts machine.old)
        → EndsWalk machine.old.view.program k t local log.old.items (parts machine.new) log.new.items result told.new }
    ensures few { result ≤ local + 1 }
    ensures program { machine.new.view.program ≡ machine.old.view.program }
{
    let (taken, outcome) = take_end(machine, t, local, event);
    push_taken(log, t, taken, event);
    let attempt = attempt_of(taken, event);
    *told = outcome.and(Ok(attempt));
    taken.local + u32::from(is_shared(taken.behind))
}

// Takes the shared step that thread `t` stands before, if any, behind the local steps of its turn.
#[inline(always)]
fn take_end(
    machine: &mut PieceMachine,
    t: u32,
    local: u32,
    event: &mut Event,
) -> (Taken, Result<(), RunFault>)
    requires moves { can_move (concrete machine.old.view) t ≡ true }
    ensures count { result.0.local ≡ local }
    ensures enters { (k : PieceConcrete) → Walked machine.old.view.program k t local (parts machine.old)
        → EntersOwn machine.old.view.program k (taken_entry t result.0 event.new) (parts machine.new) }
    ensures next { (k : PieceConcrete) → Walked machine.old.view.program k t local (parts machine.old)
        → OnOk result.1 (IsNextEntry machine.old.view.program k t result.0.local
        (taken_event result.0.behind event.new)) }
    ensures fails { IfErr result.1 (λ fault. (k : PieceConcrete)
        (w : Walked machine.old.view.program k t local (parts machine.old))
        → (entry_end machine.old.view.program k t w.here ≢ Err CannotMove)
        → FailsAfter machine.old.view.program k t local fault) }
    ensures program { machine.new.view.program ≡ machine.old.view.program }
{
    if machine.make_room(1).is_err() {
        let behind = Behind::Nothing;
        return (Taken { local, behind }, Err(RunFault::Memory));
    }
    end_with_room(machine, t, local, event)
}

// The same where there is memory for the number that it may print.
#[inline(always)]
fn end_with_room(
    machine: &mut PieceMachine,
    t: u32,
    local: u32,
    event: &mut Event,
) -> (Taken, Result<(), RunFault>)
    requires moves { can_move (concrete machine.old.view) t ≡ true }
    requires room { 1 ≤ machine.old.view.room }
    ensures count { result.0.local ≡ local }
    ensures enters { (k : PieceConcrete) → Walked machine.old.view.program k t local (parts machine.old)
        → EntersOwn machine.old.view.program k (taken_entry t result.0 event.new) (parts machine.new) }
    ensures next { (k : PieceConcrete) → Walked machine.old.view.program k t local (parts machine.old)
        → OnOk result.1 (IsNextEntry machine.old.view.program k t result.0.local
        (taken_event result.0.behind event.new)) }
    ensures breaks { IfErr result.1 (λ fault. (k : PieceConcrete)
        (w : Walked machine.old.view.program k t local (parts machine.old))
        → (entry_end machine.old.view.program k t w.here ≢ Err CannotMove)
        → (fault ≡ RunFault.Broken) × BreaksAfter machine.old.view.program k t result.0.local) }
    ensures program { machine.new.view.program ≡ machine.old.view.program }
{
    let next = machine.machine().next_step(t);
    end_entry(machine, t, local, &next, event)
}

/// Takes the next entry of thread `t`, which may be held up: refused with the held bucket that is in its way, and then
/// nothing has changed. Where it begins with local steps, the thread takes them ahead of the machine first, in `ahead`.
pub fn take_if_free(
    machine: &mut PieceMachine,
    image: &Image,
    t: u32,
    ahead: &mut Local,
    event: &mut Event,
) -> Result<(Taken, Result<(), RunFault>), Obstacle>
    requires image { image.now ≡ machine.old.view.program }
    requires thread { can_move (concrete machine.old.view) t ≡ true }
    requires fit { IsFit machine.old.view.program (parts machine.old) }
    requires room { 1 ≤ machine.old.view.room }
    ensures enters { IfOk result (λ taken. EntersOwn machine.old.view.program (parts machine.old)
        (taken_entry t taken.0 event.new) (parts machine.new)) }
    ensures turn { IfOk result (λ taken. taken.0.local ≤ most_local_steps) }
    ensures next { IfOk result (λ taken. OnOk taken.1 (IsNextEntry machine.old.view.program (parts machine.old) t
        taken.0.local (taken_event taken.0.behind event.new))) }
    ensures breaks { IfOk result (λ taken. IfErr taken.1
        (λ fault. (fault ≡ RunFault.Broken)
        × BreaksAfter machine.old.view.program (parts machine.old) t taken.0.local)) }
    ensures held { OnErr result ((parts machine.new ≡ parts machine.old)
        × IsHeldUp machine.old.view.program (parts machine.old) t) }
    ensures wants { IfErr result (λ obstacle. WantsIf machine.old.view.program (parts machine.old) t obstacle) }
    ensures program { machine.new.view.program ≡ machine.old.view.program }
{
    let next = machine.machine().next_step(t);
    if is_local(&next) {
        take_ahead(machine, image, t, ahead, event)
    } else {
        take_at_once(machine, t, next, event)
    }
}

// The same of a thread whose next step, `next`, is none of its own alone. A step that is refused changes nothing.
#[inline(always)]
fn take_at_once(
    machine: &mut PieceMachine,
    t: u32,
    next: NextStep,
    event: &mut Event,
) -> Result<(Taken, Result<(), RunFault>), Obstacle>
    requires thread { can_move (concrete machine.old.view) t ≡ true }
    requires fit { IsFit machine.old.view.program (parts machine.old) }
    requires room { 1 ≤ machine.old.view.room }
    requires next { (x : Thread) → thread_of (concrete machine.old.view) t ≡ Some x
        → next ≡ next_step_of (look machine.old.view.program t x) }
    requires shared { next ≢ LocalStep }
    ensures enters { IfOk result (λ taken. EntersOwn machine.old.view.program (parts machine.old)
        (taken_entry t taken.0 event.new) (parts machine.new)) }
    ensures turn { IfOk result (λ taken. taken.0.local ≤ most_local_steps) }
    ensures next { IfOk result (λ taken. OnOk taken.1 (IsNextEntry machine.old.view.program (parts machine.old) t
        taken.0.local (taken_event taken.0.behind event.new))) }
    ensures breaks { IfOk result (λ taken. IfErr taken.1
        (λ fault. (fault ≡ RunFault.Broken)
        × BreaksAfter machine.old.view.program (parts machine.old) t taken.0.local)) }
    ensures held { OnErr result ((parts machine.new ≡ parts machine.old)
        × IsHeldUp machine.old.view.program (parts machine.old) t) }
    ensures wants { IfErr result (λ obstacle. WantsIf machine.old.view.program (parts machine.old) t obstacle) }
    ensures program { machine.new.view.program ≡ machine.old.view.program }
{
    let mut taken = Taken {
        local: 0,
        behind: Behind::Nothing,
    };
    match machine.step_as(t, next, event) {
        Ok(()) => {
            taken.behind = Behind::Stepped;
            Ok((taken, Ok(())))
        }
        Err(StepFault::Broken) => Ok((taken, Err(RunFault::Broken))),
        Err(StepFault::CannotMove) => Err(obstacle_of(machine, t, next)),
    }
}

// The same of a thread that takes its local steps ahead of the machine first. Apart, since most steps that are tried behind a
// held bucket have none before them, and needn't pay for its loops.
#[inline(never)]
fn take_ahead(
    machine: &mut PieceMachine,
    image: &Image,
    t: u32,
    ahead: &mut Local,
    event: &mut Event,
) -> Result<(Taken, Result<(), RunFault>), Obstacle>
    requires image { image.now ≡ machine.old.view.program }
    requires thread { can_move (concrete machine.old.view) t ≡ true }
    requires fit { IsFit machine.old.view.program (parts machine.old) }
    requires room { 1 ≤ machine.old.view.room }
    ensures enters { IfOk result (λ taken. EntersOwn machine.old.view.program (parts machine.old)
        (taken_entry t taken.0 event.new) (parts machine.new)) }
    ensures turn { IfOk result (λ taken. taken.0.local ≤ most_local_steps) }
    ensures next { IfOk result (λ taken. OnOk taken.1 (IsNextEntry machine.old.view.program (parts machine.old) t
        taken.0.local (taken_event taken.0.behind event.new))) }
    ensures breaks { IfOk result (λ taken. IfErr taken.1
        (λ fault. (fault ≡ RunFault.Broken)
        × BreaksAfter machine.old.view.program (parts machine.old) t taken.0.local)) }
    ensures held { OnErr result ((parts machine.new ≡ parts machine.old)
        × IsHeldUp machine.old.view.program (parts machine.old) t) }
    ensures wants { IfErr result (λ obstacle. WantsIf machine.old.view.program (parts machine.old) t obstacle) }
    ensures program { machine.new.view.program ≡ machine.old.view.program }
{
    let local = run_ahead(machine.machine(), image, t, ahead);
    if let Some(access) = machine.access_from(t, ahead) {
        let behind = Behind::Accessed(access);
        return Ok((Taken { local, behind }, Ok(())));
    }
    let next = machine.machine().next_step_at(t, ahead);
    if waits_for_bucket(machine, t, next) {
        return Err(obstacle_of(machine, t, next));
    }
    machine.copy_local(t, ahead);
    Ok(end_entry(machine, t, local, &next, event))
}

// Lets thread `t` take the local steps of its turn ahead of the machine. Answers how many.
fn run_ahead(machine: &Machine, image: &Image, t: u32, ahead: &mut Local) -> u32
    requires image { image.now ≡ machine.now.program }
    requires thread { (0 < t) × (t ≤ length machine.now.threads) }
    ensures { (origin : Thread) → thread_of (concrete machine.now) t ≡ Some origin
        → Turns machine.now.program t result origin ahead.new }
{
    ahead.copy_from(machine.local(t));
    ahead.run(image, t, MOST_LOCAL_STEPS)
}

// Whether a held bucket is in the way of thread `t`, if its local steps led it to where its next step is `next`.
fn waits_for_bucket(machine: &PieceMachine, t: u32, next: NextStep) -> bool
    ensures { (here : Thread) → GoesTo machine.now.view t here
        → next ≡ next_step_of (look machine.now.view.program t here)
        → MatchBool result (piece_fault_at machine.now.view.program (parts machine.now) t here ≡ Some CannotMove)
        (piece_fault_at machine.now.view.program (parts machine.now) t here ≢ Some CannotMove) }
{
    match machine.refusal_as(t, next) {
        Some(StepFault::CannotMove) => true,
        Some(StepFault::Broken) | None => false,
    }
}

// Which held bucket is in the way of thread `t`, as one is, if its local steps led it to where its next step is `next`.
fn obstacle_of(machine: &PieceMachine, t: u32, next: NextStep) -> Obstacle
    ensures { (bucket : ℕ) (here : Thread) → result ≡ Obstacle.First bucket → GoesTo machine.now.view t here
        → next ≡ next_step_of (look machine.now.view.program t here)
        → AsksFirst machine.now.view.program (parts machine.now) t bucket here }
{
    let NextStep::Shared(request) = next else {
        return Obstacle::Other;
    };
    let Some(call) = call_in(request) else {
        return Obstacle::Other;
    };
    let machine = machine.machine();
    let Some(bucket) = machine.next_bucket(call, FutexPhase::First) else {
        return Obstacle::Other;
    };
    let Some(holder) = machine.holder(bucket) else {
        return Obstacle::Other;
    };
    if holder == t {
        return Obstacle::Other;
    }
    Obstacle::First(bucket)
}

// Ends the entry of thread `t`, which stands behind its local steps, where its next step is `next`.
#[inline(always)]
fn end_entry(
    machine: &mut PieceMachine,
    t: u32,
    local: u32,
    next: &NextStep,
    event: &mut Event,
) -> (Taken, Result<(), RunFault>)
    requires thread { (0 < t) × (t ≤ length machine.old.view.threads) }
    requires awake { (state_of (concrete machine.old.view)).asleep t ≡ None }
    requires next { (x : Thread) → thread_of (concrete machine.old.view) t ≡ Some x
        → next.now ≡ next_step_of (look machine.old.view.program t x) }
    requires room { 1 ≤ machine.old.view.room }
    ensures count { result.0.local ≡ local }
    ensures enters { (k : PieceConcrete) → Walked machine.old.view.program k t local (parts machine.old)
        → EntersOwn machine.old.view.program k (taken_entry t result.0 event.new) (parts machine.new) }
    ensures next { (k : PieceConcrete) → Walked machine.old.view.program k t local (parts machine.old)
        → OnOk result.1 (IsNextEntry machine.old.view.program k t result.0.local
        (taken_event result.0.behind event.new)) }
    ensures breaks { IfErr result.1 (λ fault. (k : PieceConcrete)
        (w : Walked machine.old.view.program k t local (parts machine.old))
        → (entry_end machine.old.view.program k t w.here ≢ Err CannotMove)
        → (fault ≡ RunFault.Broken) × BreaksAfter machine.old.view.program k t result.0.local) }
    ensures program { machine.new.view.program ≡ machine.old.view.program }
{
    let mut taken = Taken {
        local,
        behind: Behind::Nothing,
    };
    if is_local(next) {
        return (taken, Ok(()));
    }
    match machine.step_as(t, *next, event) {
        Ok(()) => {
            taken.behind = Behind::Stepped;
            (taken, Ok(()))
        }
        Err(_) => (taken, Err(RunFault::Broken)),
    }
}
