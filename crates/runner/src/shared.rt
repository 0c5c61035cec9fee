ghost use Rattle.words.specs.Limits.{most_local_steps};
ghost use Rattle.std.specs.Prelude.{suc, ◌≡◌, ◌≢◌, ◌≤◌, ◌<◌, ◌+◌, ◌⊎◌, [], length, true, false, Some, None, Ok, IfOk};
ghost use Rattle.std.specs.Prelude.{◌++◌, IfErr, OnOk, OnErr, IfSome, IfNone, MatchBool, MatchOption, is_some};
ghost use Rattle.locals.specs.Accesses.{accessing};
ghost use Rattle.locals.specs.Looks.{look};
ghost use Rattle.locals.specs.Requests.{next_step_of, short_call};
ghost use Rattle.locals.specs.Threads.{Thread};
ghost use Rattle.machine.specs.States.{thread_of};
ghost use Rattle.machine.specs.ConcreteSteps.{can_move};
ghost use Rattle.piece_machine.specs.PieceDetermined.{IsFit};
ghost use Rattle.piece_machine.specs.PieceViews.{parts};
ghost use Rattle.runner.specs.Attempts.{TriedSo, came, is_made};
ghost use Rattle.runner.specs.Logs.{HasOnly, Runs, cost, kills_in, opening};
ghost use Rattle.runner.specs.Entries.{Takes, TakesOutside, RefusesEntry, RefusesOutside, IsFine, Stands};
ghost use Rattle.runner.specs.Entries.{TakesKill, RefusesKill, Begins, BringsNoAccess, TellsAccess};
ghost use Rattle.runner.specs.Speculations.{Goes, IsAtHand, IsReady, TakesAll, access_entries, speculation_at};
ghost use Rattle.runner.specs.Nexts.{IsNext};
ghost use Rattle.runner.specs.Afters.{IsAfter};
ghost use Rattle.runner.specs.declared.next.After;
ghost use Rattle.runner.specs.Orders.{HasMade};
ghost use Rattle.runner.specs.Reports.{CanFail, IsHeldUp, MeetsBroken};
ghost use Rattle.runner.specs.declared.fault.RunFault;
ghost use Rattle.machine.specs.Views.{concrete};
ghost use Rattle.runner.specs.Views.{log_state};

use crate::attempt::Attempt;
use crate::calm_places::CalmPlaces;
use crate::entering::{enter, enter_access, enter_kill, enter_outside, make_room, push_accesses};
use crate::fault::RunFault;
use crate::in_place::{attempt_of, end_walk, is_shared, push_taken, take_call, take_if_free, walk};
use crate::naming::RunName;
use crate::next::{After, Next};
use crate::piece::Piece;
use crate::share::{PARTS, Share};
use crate::speculation::Speculation;
use crate::stepping::is_local;
use isa::Image;
use locals::{Local, NextStep, Request};
use machine::{Event, EventName, Machine, StepFault, access_name};
use packed_log::PackedLog;
use piece_machine::PieceMachine;
use robustexit::ExitPhase;
use std::alloc::{AllocError, Global};
use std::marker::{Model, PhantomData};
use std::sync::ledger;
use std::sync::ledger::{Blank, Book};
use words::{BUCKETS, MOST_LOCAL_STEPS};

/// The machine of run `J` and its log. Its type keeps that the log is legal for the run's program, that it has no more
/// from outside than the run's name allows, that the machine is where the log leads, that the log's cost is
/// within the run's limit, and that all shares together have counted each entry once.
#[derive(Drop)]
pub struct Shared<J: RunName> {
    machine: PieceMachine,
    log: PackedLog,
    // How many steps may be taken yet, within the limit.
    left: u32,
    // How many entries are kills.
    kills: u32,
    limit: u32,
    book: Book<J>,
    // The parts of the count that were not given out.
    rest: ledger::Share<J>,
    given: u32,
    // Where a thread goes on ahead of the machine while its entry may still be refused.
    ahead: Local,
    // The event of the last step, in which each step puts its own.
    event: Event,
    // Where no held bucket can be in a thread's way.
    calm: CalmPlaces<J>,
}

impl<J: RunName> Model for Shared<J> {
    ghost use Rattle.piece_machine.specs.PieceViews.{parts};
    ghost use Rattle.runner.specs.Views.{SharedView};
    ghost use Rattle.runner.specs.Legal.{IsLegal, IsCounted};

    ghost Value = { SharedView };

    ghost view = { λ s. record { log = s.log.items; room = s.log.room; machine = s.machine; given = s.given } };

    ghost invariant = { λ s. IsLegal J.program J.outside J.limit s.machine.view.program
        (parts s.machine) s.log.items s.left s.limit s.kills
        × IsCounted J.parts s.book.total s.rest.parts s.rest.amount s.given s.log.items };
}

impl<J: RunName> Shared<J> {
    /// A machine at the start of the run's image, with an empty log. The blank, of `PARTS` parts, counts its entries.
    pub fn new(
        alloc: Global,
        image: &Image,
        limit: u32,
        blank: Blank,
    ) -> Result<Shared<J>, AllocError>
        requires image { image.now ≡ J.program }
        requires limit { limit ≡ J.limit }
        requires blank { (blank.name ≡ J.name) × (blank.parts ≡ J.parts) × (J.parts ≡ 1024) }
        ensures { IfOk result (λ s. (s.log ≡ [])
            × ((log_state s).concrete ≡ opening J.program)
            × (s.given ≡ 0)) }
    {
        let calm = CalmPlaces::new(alloc, image)?;
        let machine = PieceMachine::new(alloc, image, BUCKETS)?;
        let (book, rest) = blank.open::<J>();
        Ok(Shared {
            machine,
            log: PackedLog::new(alloc),
            left: limit,
            kills: 0,
            limit,
            book,
            rest,
            given: 0,
            ahead: Local::exiting(ExitPhase::Ended),
            event: Event::new(EventName::Local, 0),
            calm,
        })
    }

    /// One part of the count of entries, which has counted none. There is none where all `PARTS` were given out.
    pub fn share(&mut self) -> Option<Share<J>>
        ensures some { IfSome result (λ s. (s ≡ record { parts = 1; count = 0 })
            × (self.new ≡ record self.old { given = self.old.given + 1 })
            × (self.old.given < 1024)) }
        ensures none { IfNone result ((self.old.given ≡ 1024) × (self.new ≡ self.old)) }
    {
        if self.given == PARTS {
            return None;
        }
        self.given += 1;
        Some(Share {
            inner: self.rest.split_off(1, 0),
            parts: 1,
            count: 0,
        })
    }

    /// Whether a share has all parts that were given out. Then its count is the number of entries of the log.
    pub fn audit(&mut self, share: &mut Share<J>) -> bool
        ensures whole { MatchBool result (share.old.parts
            ≡ self.old.given) (share.old.parts ≢ self.old.given) }
        ensures count { result ≡ true → share.old.count ≡ length self.old.log }
        ensures same { (self.new ≡ self.old) × (share.new ≡ share.old) }
    {
        if share.parts != self.given {
            return false;
        }
        let rest = u64::from(PARTS - self.given);
        self.rest.give(&mut share.inner, rest, 0);
        self.book.audit(&mut share.inner);
        share.inner.give(&mut self.rest, rest, 0);
        true
    }

    /// The machine, which is where the log leads, but for the phases of its threads.
    pub fn machine(&self) -> &Machine
        ensures concrete { concrete result.now ≡ (log_state self.now).concrete.concrete }
        ensures program { result.now.program ≡ J.program }
        ensures legal { Runs J.program (opening J.program) self.now.log
            (log_state self.now).concrete }
        ensures fit { IsFit J.program (log_state self.now).concrete }
    {
        self.machine.machine()
    }

    /// The machine with the phases of its threads, which is where the log leads.
    pub fn piece_machine(&self) -> &PieceMachine
        ensures parts { parts result.now ≡ (log_state self.now).concrete }
        ensures program { result.now.view.program ≡ J.program }
        ensures legal { Runs J.program (opening J.program) self.now.log
            (log_state self.now).concrete }
    {
        &self.machine
    }

    /// The log.
    pub fn log(&self) -> &PackedLog
        ensures value { result.now.items ≡ self.now.log }
        ensures legal { Runs J.program (opening J.program) self.now.log
            (log_state self.now).concrete }
        ensures own { HasOnly J.outside self.now.log }
    {
        &self.log
    }

    /// How many steps were taken: the cost of the log.
    pub fn steps(&self) -> u32
        ensures value { result ≡ cost self.now.log }
        ensures within { result ≤ J.limit }
    {
        self.limit - self.left
    }

    /// How many entries of the log are kills.
    pub fn kills(&self) -> u32
        ensures value { result ≡ kills_in self.now.log }
        ensures within { result ≤ J.outside.kills }
    {
        self.kills
    }

    /// What a run leaves: its log and its machine.
    pub fn into_parts(self) -> (PackedLog, PieceMachine)
        ensures log { result.0.items ≡ self.log }
        ensures concrete { parts result.1 ≡ (log_state self).concrete }
        ensures program { result.1.view.program ≡ J.program }
        ensures legal { Runs J.program (opening J.program) self.log
            (log_state self).concrete }
        ensures own { HasOnly J.outside self.log }
        ensures within { cost self.log ≤ J.limit }
    {
        let Shared { log, machine, .. } = self;
        (log, machine)
    }

    /// The piece that thread `t` goes on from, if it can move.
    pub fn piece(&self, t: u32) -> Option<Piece<J>>
        ensures some { IfSome result (λ p. (p.thread ≡ t) × (p.count ≡ 0) × (p.here ≡ p.origin)
            × (thread_of (log_state self.now).concrete.concrete t ≡ Some p.origin)) }
        ensures legal { Runs J.program (opening J.program) self.now.log
            (log_state self.now).concrete }
        ensures variant { MatchOption result (can_move (log_state self.now).concrete.concrete t ≡ false)
            (λ _. can_move (log_state self.now).concrete.concrete t ≡ true) }
    {
        let machine = self.machine.machine();
        if !machine.can_move(t) {
            return None;
        }
        let local = machine.local(t);
        Some(Piece {
            thread: t,
            origin: local.copy(),
            here: local.copy(),
            count: 0,
            of: PhantomData,
        })
    }

    /// Takes in what thread `t` did, as one entry of the log: the piece's local steps, and the shared step that it
    /// stands before, if any. The share counts it.
    ///
    /// Refuses in this order: `Stray`, `CannotMove`, `Broken`, `Limit`, `Memory`; then nothing has changed.
    pub fn step(
        &mut self,
        t: u32,
        piece: Piece<J>,
        share: &mut Share<J>,
    ) -> Result<Next<J>, RunFault>
        ensures ok { IfOk result
            (λ next. Takes J.program J.limit (log_state self.old) t piece (log_state self.new)
            × IsNext (log_state self.new).concrete t next) }
        ensures counted { OnOk result (share.new
            ≡ record share.old { count = share.old.count + 1 }) }
        ensures err { IfErr result (λ fault. (log_state self.new ≡ log_state self.old)
            × (share.new ≡ share.old)
            × RefusesEntry J.program J.limit (log_state self.old) t piece fault) }
        ensures broken { IfErr result (λ fault. fault ≡ RunFault.Broken
            → MeetsBroken J.program J.outside J.limit) }
        ensures given { self.new.given ≡ self.old.given }
        ensures legal { Runs J.program (opening J.program) self.new.log
            (log_state self.new).concrete }
        ensures within { cost self.new.log ≤ J.limit }
    {
        let mut piece = piece;
        Ok(match self.hand_in(t, &mut piece, share)? {
            After::Goes => Next::Go(piece),
            After::Sleeps => Next::Sleep,
            After::Ends => Next::End,
        })
    }

    /// The same with a piece that begins anew in its place where the thread goes on, so that only the operands and
    /// frames in use are copied. After a refusal it is as before.
    pub fn hand_in(
        &mut self,
        t: u32,
        piece: &mut Piece<J>,
        share: &mut Share<J>,
    ) -> Result<After, RunFault>
        ensures ok { IfOk result (λ after. Takes J.program J.limit (log_state self.old) t piece.old
            (log_state self.new) × IsAfter (log_state self.new).concrete t piece.new after) }
        ensures counted { OnOk result (share.new
            ≡ record share.old { count = share.old.count + 1 }) }
        ensures err { IfErr result (λ fault. (log_state self.new ≡ log_state self.old)
            × (piece.new ≡ piece.old)
            × (share.new ≡ share.old)
            × RefusesEntry J.program J.limit (log_state self.old) t piece.old fault) }
        ensures broken { IfErr result (λ fault. fault ≡ RunFault.Broken
            → MeetsBroken J.program J.outside J.limit) }
        ensures given { self.new.given ≡ self.old.given }
        ensures legal { Runs J.program (opening J.program) self.new.log
            (log_state self.new).concrete }
        ensures within { cost self.new.log ≤ J.limit }
    {
        // As most pieces do.
        if self.hand_in_access(t, piece, share) {
            return Ok(After::Goes);
        }
        self.enter_any(t, piece, share)?;
        Ok(self.next(t, piece))
    }

    /// The same where the piece's next step is an access to a word, in whose way nothing can be: the access is made on the
    /// piece, which begins anew where that led, and its thread goes on. Answers whether it came in: it does where the log
    /// has room for an entry without growing, and nothing refuses the piece. Else nothing has changed, and `hand_in` says
    /// why, or takes it in.
    pub fn hand_in_access(&mut self, t: u32, piece: &mut Piece<J>, share: &mut Share<J>) -> bool
        ensures made { result ≡ true → Takes J.program J.limit (log_state self.old) t piece.old (log_state self.new)
            × (share.new ≡ record share.old { count = share.old.count + 1 })
            × IsAfter (log_state self.new).concrete t piece.new After.Goes }
        ensures told { result ≡ true → TellsAccess self.old.log t piece.old.count self.new.log }
        ensures none { result ≡ false → (self.new ≡ self.old) × (piece.new ≡ piece.old) × (share.new ≡ share.old) }
        ensures why { result ≡ false → (self.old.room ≡ 0)
            ⊎ BringsNoAccess J.program J.limit self.old t piece.old }
        ensures given { self.new.given ≡ self.old.given }
        ensures legal { Runs J.program (opening J.program) self.new.log
            (log_state self.new).concrete }
        ensures within { cost self.new.log ≤ J.limit }
    {
        if !self.log.has_room() {
            return false;
        }
        // Whether its next step is an access is told as it is made, since for most it is.
        if !self.is_fine(t, piece) {
            return false;
        }
        let count = piece.count;
        let Some(access) = piece.access(&mut self.machine) else {
            return false;
        };
        self.log
            .push_plain(t, count, access_name(access.kind), access.value);
        self.left -= count + 1;
        share.count_one(&mut self.book);
        true
    }

    /// Takes in the accesses of a thread that went ahead, all together: an entry for each, which the share counts. Then it
    /// begins anew where they led. Answers whether they came in: they do where it is thread `t`'s, began where that is, took
    /// no local step behind its last access, has room within the limit, and each access finds its word. Else nothing has
    /// changed.
    pub fn commit(
        &mut self,
        t: u32,
        speculation: &mut Speculation<J>,
        share: &mut Share<J>,
    ) -> Result<bool, AllocError>
        ensures made { IfOk result (λ came. came ≡ true
            → TakesAll J.program J.limit (log_state self.old) t speculation.old.made (log_state self.new)
            × (self.new.log ≡ self.old.log ++ access_entries t speculation.old.made)
            × (share.new ≡ record share.old { count = share.old.count + length speculation.old.made })
            × (speculation.new ≡ speculation_at t speculation.old.here)
            × Goes self.new t speculation.old.here) }
        ensures away { IfOk result (λ came. came ≡ false → IsReady J.limit self.old t speculation.old → ⊥) }
        ensures none { IfOk result (λ came. came ≡ false → (log_state self.new ≡ log_state self.old)
            × (speculation.new ≡ speculation.old) × (share.new ≡ share.old)) }
        ensures err { OnErr result ((log_state self.new ≡ log_state self.old)
            × (speculation.new ≡ speculation.old) × (share.new ≡ share.old)) }
        ensures given { self.new.given ≡ self.old.given }
        ensures legal { Runs J.program (opening J.program) self.new.log
            (log_state self.new).concrete }
        ensures within { cost self.new.log ≤ J.limit }
    {
        if !self.is_ready(t, speculation) {
            return Ok(false);
        }
        let count = speculation.made.len();
        self.log.make_room_for(count)?;
        let made = speculation.made.as_slice();
        if !self.machine.commit(t, made, &speculation.here) {
            return Ok(false);
        }
        push_accesses(&mut self.log, t, made);
        self.left -= speculation.cost;
        share.count_all(&mut self.book, count);
        speculation.settle();
        Ok(true)
    }

    // Whether the accesses can come in, if each finds its word.
    fn is_ready(&self, t: u32, speculation: &Speculation<J>) -> bool
        ensures ready { result ≡ true → IsAtHand J.limit self.now t speculation.now }
        ensures away { result ≡ false → IsAtHand J.limit self.now t speculation.now → ⊥ }
    {
        let machine = self.machine.machine();
        speculation.thread == t
            && t > 0
            && t <= machine.threads()
            && speculation.count == 0
            && self.left >= speculation.cost
            && machine.can_move(t)
            && machine.local(t).equals(&speculation.origin)
    }

    /// The same, and the piece stays as it is.
    pub fn enter(&mut self, t: u32, piece: &Piece<J>, share: &mut Share<J>) -> Result<(), RunFault>
        ensures ok { OnOk result
            (Takes J.program J.limit (log_state self.old) t piece.now (log_state self.new)) }
        ensures counted { OnOk result (share.new
            ≡ record share.old { count = share.old.count + 1 }) }
        ensures err { IfErr result (λ fault. (log_state self.new ≡ log_state self.old)
            × (share.new ≡ share.old)
            × RefusesEntry J.program J.limit (log_state self.old) t piece.now fault) }
        ensures broken { IfErr result (λ fault. fault ≡ RunFault.Broken
            → MeetsBroken J.program J.outside J.limit) }
        ensures given { self.new.given ≡ self.old.given }
        ensures legal { Runs J.program (opening J.program) self.new.log
            (log_state self.new).concrete }
        ensures within { cost self.new.log ≤ J.limit }
    {
        // As most entries do.
        if self.enter_access(t, piece, share) {
            return Ok(());
        }
        self.enter_any(t, piece, share)
    }

    // The same where the piece's next step is an access to a word, in whose way nothing can be. Answers whether it came in:
    // else nothing has changed.
    fn enter_access(&mut self, t: u32, piece: &Piece<J>, share: &mut Share<J>) -> bool
        ensures made { result ≡ true → Takes J.program J.limit (log_state self.old) t piece.now (log_state self.new)
            × (share.new ≡ record share.old { count = share.old.count + 1 }) }
        ensures none { result ≡ false → (log_state self.new ≡ log_state self.old) × (share.new ≡ share.old) }
        ensures given { self.new.given ≡ self.old.given }
        ensures legal { Runs J.program (opening J.program) self.new.log
            (log_state self.new).concrete }
        ensures within { cost self.new.log ≤ J.limit }
    {
        if !self.may_access(t, piece) || make_room(&mut self.machine, &mut self.log).is_err() {
            return false;
        }
        enter_access(
            &mut self.machine,
            &mut self.log,
            t,
            &piece.here,
            piece.count,
        );
        self.left -= piece.count + 1;
        share.count_one(&mut self.book);
        true
    }

    // Whether the piece can come in, and its next step is an access to a word, which takes less to tell.
    fn may_access(&self, t: u32, piece: &Piece<J>) -> bool
        ensures fine { result ≡ true → Stands (log_state self.now) t piece.now
            × (can_move (log_state self.now).concrete.concrete t ≡ true)
            × (cost self.now.log + (piece.now.count + 1) ≤ J.limit) }
        ensures access { result ≡ true
            → is_some (accessing (look J.program t piece.now.here) self.now.machine.view.words) ≡ true }
    {
        self.machine.machine().has_access_at(t, &piece.here) && self.is_fine(t, piece)
    }

    // Whether the piece can come in, if its next step is an access to a word.
    fn is_fine(&self, t: u32, piece: &Piece<J>) -> bool
        ensures fine { result ≡ true → Stands (log_state self.now) t piece.now
            × (can_move (log_state self.now).concrete.concrete t ≡ true)
            × (cost self.now.log + (piece.now.count + 1) ≤ J.limit) }
        ensures none { result ≡ false → BringsNoAccess J.program J.limit self.now t piece.now }
    {
        if !self.stands(t, piece) || !self.machine.machine().can_move(t) {
            return false;
        }
        self.left > piece.count
    }

    // The same of a piece with any step.
    fn enter_any(&mut self, t: u32, piece: &Piece<J>, share: &mut Share<J>) -> Result<(), RunFault>
        ensures ok { OnOk result
            (Takes J.program J.limit (log_state self.old) t piece.now (log_state self.new)) }
        ensures counted { OnOk result (share.new
            ≡ record share.old { count = share.old.count + 1 }) }
        ensures err { IfErr result (λ fault. (log_state self.new ≡ log_state self.old)
            × (share.new ≡ share.old)
            × RefusesEntry J.program J.limit (log_state self.old) t piece.now fault) }
        ensures broken { IfErr result (λ fault. fault ≡ RunFault.Broken
            → MeetsBroken J.program J.outside J.limit) }
        ensures given { self.new.given ≡ self.old.given }
        ensures legal { Runs J.program (opening J.program) self.new.log
            (log_state self.new).concrete }
        ensures within { cost self.new.log ≤ J.limit }
    {
        let next = self.machine.machine().next_step_at(t, &piece.here);
        if let Some(fault) = self.refusal(t, piece, next) {
            return Err(fault);
        }
        let count = piece.count;
        let Ok(shared) = enter(
            &mut self.machine,
            &mut self.log,
            t,
            &piece.here,
            &next,
            count,
            &mut self.event,
        ) else {
            return Err(RunFault::Memory);
        };
        self.left -= count + u32::from(shared);
        share.count_one(&mut self.book);
        Ok(())
    }

    /// Wakes thread `t`, which sleeps, though no thread called for it: a step of no thread, and one entry of the log.
    /// The share counts it.
    ///
    /// Refuses in this order: `CannotMove` where the thread doesn't sleep, `Limit`, `Memory`; then nothing has changed.
    pub fn stray(&mut self, t: u32, share: &mut Share<J>) -> Result<(), RunFault>
        requires strays { J.outside.strays ≡ true }
        ensures ok { OnOk result
            (TakesOutside J.limit (log_state self.old) t (log_state self.new)) }
        ensures counted { OnOk result (share.new
            ≡ record share.old { count = share.old.count + 1 }) }
        ensures err { IfErr result (λ fault. (log_state self.new ≡ log_state self.old)
            × (share.new ≡ share.old)
            × RefusesOutside J.limit (log_state self.old) t fault) }
        ensures given { self.new.given ≡ self.old.given }
        ensures legal { Runs J.program (opening J.program) self.new.log
            (log_state self.new).concrete }
        ensures within { cost self.new.log ≤ J.limit }
    {
        if self.machine.machine().asleep(t).is_none() {
            return Err(RunFault::CannotMove);
        }
        if self.left == 0 {
            return Err(RunFault::Limit);
        }
        if enter_outside(&mut self.machine, &mut self.log, t, &mut self.event).is_err() {
            return Err(RunFault::Memory);
        }
        self.left -= 1;
        share.count_one(&mut self.book);
        Ok(())
    }

    /// Kills thread `t`, which was made, from outside: a step of no thread, and one entry of the log. The share counts
    /// it. A thread that is dying, in its exit or has ended isn't changed; of another a piece that is out is refused as
    /// `Stray` from then on, since the thread's state is another one.
    ///
    /// Refuses in this order: `CannotMove` where no such thread was made, `Limit`, `Memory`; then nothing has changed.
    pub fn kill(&mut self, t: u32, share: &mut Share<J>) -> Result<(), RunFault>
        requires kills { kills_in self.old.log < J.outside.kills }
        ensures ok { OnOk result (TakesKill J.program J.limit (log_state self.old) t (log_state self.new)) }
        ensures counted { OnOk result (share.new
            ≡ record share.old { count = share.old.count + 1 }) }
        ensures err { IfErr result (λ fault. (log_state self.new ≡ log_state self.old)
            × (share.new ≡ share.old)
            × RefusesKill J.limit (log_state self.old) t fault) }
        ensures given { self.new.given ≡ self.old.given }
        ensures legal { Runs J.program (opening J.program) self.new.log
            (log_state self.new).concrete }
        ensures within { cost self.new.log ≤ J.limit }
    {
        if !self.machine.machine().is_made(t) {
            return Err(RunFault::CannotMove);
        }
        if self.left == 0 {
            return Err(RunFault::Limit);
        }
        if enter_kill(&mut self.machine, &mut self.log, t, &mut self.event).is_err() {
            return Err(RunFault::Memory);
        }
        self.left -= 1;
        self.kills += 1;
        share.count_one(&mut self.book);
        Ok(())
    }

    /// What thread `t` does next. Where it goes on, the piece begins anew as its own, so that only the operands and
    /// frames in use are copied.
    pub fn next(&self, t: u32, piece: &mut Piece<J>) -> After
        ensures next { IsAfter (log_state self.now).concrete t piece.new result }
        ensures legal { Runs J.program (opening J.program) self.now.log
            (log_state self.now).concrete }
    {
        let machine = self.machine.machine();
        if machine.can_move(t) {
            piece.begin(t, machine.local(t));
            After::Goes
        } else if machine.has_ended(t) {
            After::Ends
        } else {
            After::Sleeps
        }
    }

    /// Whether the limit leaves room for any thread's next entry.
    pub(crate) fn has_room(&self) -> bool
        ensures { MatchBool result (cost self.now.log + suc most_local_steps ≤ J.limit)
            (J.limit < cost self.now.log + suc most_local_steps) }
    {
        self.left > MOST_LOCAL_STEPS
    }

    /// Whether the limit leaves room for one step more.
    pub(crate) fn has_step_left(&self) -> bool
        ensures { MatchBool result (cost self.now.log < J.limit) (cost self.now.log ≡ J.limit) }
    {
        self.left > 0
    }

    /// Lets a piece begin anew where thread `t` is, if it can move, and says whether it can.
    pub(crate) fn begin(&self, t: u32, piece: &mut Piece<J>) -> bool
        ensures { MatchBool result
            ((can_move (log_state self.now).concrete.concrete t ≡ true)
            × Begins (log_state self.now).concrete t piece.new)
            (can_move (log_state self.now).concrete.concrete t ≡ false) }
    {
        let machine = self.machine.machine();
        if !machine.can_move(t) {
            return false;
        }
        piece.begin(t, machine.local(t));
        true
    }

    /// Whether no held bucket is in the way of the next entry of thread `t`, as far as is seen without its local steps.
    pub(crate) fn is_free(&self, t: u32) -> bool
        requires { can_move (log_state self.now).concrete.concrete t ≡ true }
        ensures { result ≡ true → IsHeldUp J.program (log_state self.now).concrete t → ⊥ }
    {
        let machine = self.machine.machine();
        if self.machine.holds_none() {
            return true;
        }
        if machine.is_before_local(t, machine.local(t)) {
            return false;
        }
        self.machine.can_move(t)
    }

    /// Takes the next entry of thread `t`, which can move and isn't held up, in its place on the machine, so that nothing
    /// is copied: its local steps until another step comes or its turn is over, and the shared step that it stands
    /// before, if any. Answers whether it ended with an access, as most do: so these have a way of their own. What came of
    /// any other is told beside it.
    ///
    /// Refuses with `Memory`, and then nothing has changed, or the local steps are an entry; and with `Broken`, and then they
    /// are. `C` is who calls it (`caller.rt`), and decides nothing.
    #[inline(always)]
    pub(crate) fn go_on<C>(
        &mut self,
        t: u32,
        share: &mut Share<J>,
        told: &mut Result<Attempt, RunFault>,
    ) -> bool
        requires thread { can_move (log_state self.old).concrete.concrete t ≡ true }
        requires free { IsHeldUp J.program (log_state self.old).concrete t → ⊥ }
        requires room { cost self.old.log + suc most_local_steps ≤ J.limit }
        ensures ok { OnOk (came result told.new) (cost self.old.log < cost self.new.log) }
        ensures made { IfOk (came result told.new) (λ a. is_made a ≡ true) }
        ensures entry { OnOk (came result told.new) (HasMade J.program t (log_state self.old) (log_state self.new)) }
        ensures tried { IfOk (came result told.new) (λ a. TriedSo J.program (log_state self.old).concrete t a
            (log_state self.new).concrete) }
        ensures given { self.new.given ≡ self.old.given }
        ensures err { IfErr (came result told.new) (λ fault. CanFail J.program J.outside J.limit fault) }
        ensures within { cost self.new.log ≤ J.limit }
    {
        if self.log.make_room().is_err() {
            *told = Err(RunFault::Memory);
            return false;
        }
        let (local, access) = walk(&mut self.machine, t);
        if let Some(access) = access {
            let name = access_name(access.kind);
            self.log.push_small(t, local, name, access.value);
            self.left -= local + 1;
            share.count_one(&mut self.book);
            return true;
        }
        let (machine, event) = (&mut self.machine, &mut self.event);
        self.left -= end_walk(machine, &mut self.log, t, local, event, told);
        share.count_one(&mut self.book);
        false
    }

    /// The same of a thread that may be held up: one that is makes no entry, and then nothing has changed.
    #[inline(always)]
    pub(crate) fn try_on<C>(
        &mut self,
        image: &Image,
        t: u32,
        share: &mut Share<J>,
        told: &mut Result<Attempt, RunFault>,
    ) -> bool
        requires image { image.now ≡ J.program }
        requires thread { can_move (log_state self.old).concrete.concrete t ≡ true }
        requires fit { IsFit J.program (log_state self.old).concrete }
        requires room { cost self.old.log + suc most_local_steps ≤ J.limit }
        ensures made { IfOk (came result told.new) (λ a. is_made a ≡ true → cost self.old.log < cost self.new.log) }
        ensures entry { IfOk (came result told.new) (λ a. is_made a ≡ true → HasMade J.program t
            (log_state self.old) (log_state self.new)) }
        ensures none { IfOk (came result told.new) (λ a. is_made a ≡ false → (log_state self.new ≡ log_state self.old)
            × IsHeldUp J.program (log_state self.new).concrete t) }
        ensures tried { IfOk (came result told.new) (λ a. TriedSo J.program (log_state self.old).concrete t a
            (log_state self.new).concrete) }
        ensures err { IfErr (came result told.new) (λ fault. CanFail J.program J.outside J.limit fault) }
        ensures within { cost self.new.log ≤ J.limit }
    {
        if self.goes_freely(t) {
            return self.go_on::<C>(t, share, told);
        }
        self.tell_held(image, t, share, told);
        false
    }

    // Whether nobody holds a bucket, or thread `t` stands where none can be in the way of its next entry.
    #[inline(always)]
    fn goes_freely(&self, t: u32) -> bool
        requires { can_move (log_state self.now).concrete.concrete t ≡ true }
        ensures { result ≡ true → IsHeldUp J.program (log_state self.now).concrete t → ⊥ }
    {
        let machine = self.machine.machine();
        if self.machine.holds_none() {
            return true;
        }
        match machine.local(t).place() {
            Some(place) => self.calm.contains(place),
            None => false,
        }
    }

    // The same where some bucket is held. What came of it is told in its place, so that the callers have no place for another.
    #[inline(never)]
    fn tell_held(
        &mut self,
        image: &Image,
        t: u32,
        share: &mut Share<J>,
        told: &mut Result<Attempt, RunFault>,
    )
        requires image { image.now ≡ J.program }
        requires thread { can_move (log_state self.old).concrete.concrete t ≡ true }
        requires fit { IsFit J.program (log_state self.old).concrete }
        requires room { cost self.old.log + suc most_local_steps ≤ J.limit }
        ensures made { IfOk told.new (λ a. is_made a ≡ true → cost self.old.log < cost self.new.log) }
        ensures entry { IfOk told.new (λ a. is_made a ≡ true → HasMade J.program t
            (log_state self.old) (log_state self.new)) }
        ensures none { IfOk told.new (λ a. is_made a ≡ false → (log_state self.new ≡ log_state self.old)
            × IsHeldUp J.program (log_state self.new).concrete t) }
        ensures tried { IfOk told.new (λ a. TriedSo J.program (log_state self.old).concrete t a
            (log_state self.new).concrete) }
        ensures err { IfErr told.new (λ fault. CanFail J.program J.outside J.limit fault) }
        ensures within { cost self.new.log ≤ J.limit }
    {
        // Waits and wakes come first, as most do.
        match self.machine.machine().call_ahead(t) {
            Some(request) => self.tell_call(t, request, share, told),
            None => *told = self.try_other(image, t, share),
        }
    }

    // Tries such an entry of a thread that stands before this wait or wake.
    #[inline(always)]
    fn tell_call(
        &mut self,
        t: u32,
        request: Request,
        share: &mut Share<J>,
        told: &mut Result<Attempt, RunFault>,
    )
        requires thread { can_move (log_state self.old).concrete.concrete t ≡ true }
        requires fit { IsFit J.program (log_state self.old).concrete }
        requires room { cost self.old.log + suc most_local_steps ≤ J.limit }
        requires short { Some request ≡ short_call request }
        requires next { (x : Thread) → thread_of (log_state self.old).concrete.concrete t ≡ Some x
            → NextStep.Shared request ≡ next_step_of (look J.program t x) }
        ensures made { IfOk told.new (λ a. is_made a ≡ true → cost self.old.log < cost self.new.log) }
        ensures entry { IfOk told.new (λ a. is_made a ≡ true → HasMade J.program t
            (log_state self.old) (log_state self.new)) }
        ensures none { IfOk told.new (λ a. is_made a ≡ false → (log_state self.new ≡ log_state self.old)
            × IsHeldUp J.program (log_state self.new).concrete t) }
        ensures tried { IfOk told.new (λ a. TriedSo J.program (log_state self.old).concrete t a
            (log_state self.new).concrete) }
        ensures err { IfErr told.new (λ fault. CanFail J.program J.outside J.limit fault) }
        ensures within { cost self.new.log ≤ J.limit }
    {
        if self.log.make_room().is_err() {
            *told = Err(RunFault::Memory);
            return;
        }
        let (machine, log) = (&mut self.machine, &mut self.log);
        match take_call(machine, log, t, request, &mut self.event, told) {
            Ok(steps) => {
                self.left -= steps;
                share.count_one(&mut self.book);
            }
            Err(obstacle) => *told = Ok(obstacle.attempt()),
        }
    }

    // The same of a thread that stands before neither.
    #[inline(never)]
    fn try_other(
        &mut self,
        image: &Image,
        t: u32,
        share: &mut Share<J>,
    ) -> Result<Attempt, RunFault>
        requires image { image.now ≡ J.program }
        requires thread { can_move (log_state self.old).concrete.concrete t ≡ true }
        requires fit { IsFit J.program (log_state self.old).concrete }
        requires room { cost self.old.log + suc most_local_steps ≤ J.limit }
        ensures made { IfOk result (λ a. is_made a ≡ true → cost self.old.log < cost self.new.log) }
        ensures entry { IfOk result (λ a. is_made a ≡ true → HasMade J.program t
            (log_state self.old) (log_state self.new)) }
        ensures none { IfOk result (λ a. is_made a ≡ false → (log_state self.new ≡ log_state self.old)
            × IsHeldUp J.program (log_state self.new).concrete t) }
        ensures tried { IfOk result (λ a. TriedSo J.program (log_state self.old).concrete t a
            (log_state self.new).concrete) }
        ensures err { IfErr result (λ fault. CanFail J.program J.outside J.limit fault) }
        ensures within { cost self.new.log ≤ J.limit }
    {
        if make_room(&mut self.machine, &mut self.log).is_err() {
            return Err(RunFault::Memory);
        }
        let machine = &mut self.machine;
        match take_if_free(machine, image, t, &mut self.ahead, &mut self.event) {
            Err(obstacle) => Ok(obstacle.attempt()),
            Ok((taken, outcome)) => {
                push_taken(&mut self.log, t, taken, &self.event);
                self.left -= taken.local + u32::from(is_shared(taken.behind));
                share.count_one(&mut self.book);
                let attempt = attempt_of(taken, &self.event);
                outcome.and(Ok(attempt))
            }
        }
    }

    // Why the piece, which stands where its next step is `next`, is refused, if not for memory.
    fn refusal(&self, t: u32, piece: &Piece<J>, next: NextStep) -> Option<RunFault>
        requires next { next ≡ next_step_of (look J.program t piece.now.here) }
        ensures some { IfSome result
            (λ fault. RefusesEntry J.program J.limit (log_state self.now) t piece.now fault) }
        ensures none { IfNone result (IsFine J.program J.limit (log_state self.now) t piece.now) }
    {
        if !self.stands(t, piece) {
            return Some(RunFault::Stray);
        }
        if !self.machine.machine().can_move(t) {
            return Some(RunFault::CannotMove);
        }
        let count = piece.count;
        match self.machine.refusal_as(t, next) {
            Some(StepFault::CannotMove) => return Some(RunFault::CannotMove),
            Some(StepFault::Broken) => return Some(RunFault::Broken),
            None => {}
        }
        let shared = !is_local(&next);
        if self.left < count + u32::from(shared) {
            return Some(RunFault::Limit);
        }
        None
    }

    // Whether the piece is the thread's, and began where the thread is.
    fn stands(&self, t: u32, piece: &Piece<J>) -> bool
        ensures { MatchBool result (Stands (log_state self.now) t piece.now)
            (Stands (log_state self.now) t piece.now → ⊥) }
    {
        piece.thread == t
            && t > 0
            && t <= self.machine.machine().threads()
            && self.machine.machine().local(t).equals(&piece.origin)
    }
}
