ghost use Rattle.std.specs.Prelude.{◌≡◌, ◌≢◌, ◌⊎◌, ◌<◌, ◌≤◌, [], ◌∷◌, vec_len, take, true, false, IfOk, MatchBool};
ghost use Rattle.machine.specs.ThreadSets.{set_of};
ghost use Rattle.workers.specs.BucketWaiters.{nobody};
ghost use Rattle.workers.specs.PutOffs.{AreDue, AreNone};
ghost use Rattle.workers.specs.Taken.{AreTurns, IsTurn, IsGrown, StartsAt, idle};

use crate::ahead::Ahead;
use crate::bucket_waiters::BucketWaiters;
use crate::image_ref::ImageRef;
use crate::no_words::NoWords;
use crate::patience::Patience;
use crate::put_off::PutOff;
use crate::shared_run::WakeReason;
use locals::{NextStep, Request};
use runner::{Piece, RunName};
use std::alloc::{AllocError, Global};
use words::{Gate, MOST_LOCAL_STEPS};

// How many turns a worker takes at most before it hands them in. Each has a piece of some 12 kilobytes.
const MOST_TURNS: usize = 16;

// How many local steps are few: it takes less time to take them than to hand the lock to and fro.
const FEW_STEPS: u32 = 64;

// Behind so many entries a worker gives precedence up as soon as its thread gives a lock up: some half a millisecond, so that
// what it takes to give it to another one is little beside it.
const MANY_ENTRIES: usize = 16_384;

// And behind so many anyhow.
const MOST_ENTRIES: usize = 16_512;

/// The turns of one thread that its worker has taken and not handed in: a piece for each, which began where the one
/// before has come. So the lock is taken once for all of them.
#[derive(Drop)]
pub struct Turns<J: RunName> {
    /// The pieces, of which there is always a first one. More are made when they are wanted.
    pub pieces: Vec<Piece<J>>,
    /// How many of them are turns that were taken.
    pub taken: usize,
    /// Whom the last entry concerned.
    pub wake_reason: WakeReason,
    /// Who waited for a bucket until one was given up.
    pub freed: BucketWaiters,
    /// How many entries were made since its worker gave precedence up.
    pub entries: usize,
    /// Whether its worker looks for a call before it parks.
    pub patience: Patience,
    /// What its worker does ahead of the machine.
    pub ahead: Ahead<J>,
    nothing: NoWords,
    ghost some: { 0 < vec_len pieces },
    ghost within: { taken ≤ vec_len pieces },
}

impl<J: RunName> Turns<J> {
    /// None yet, of thread `t`.
    pub fn new(alloc: Global, t: u32) -> Result<Turns<J>, AllocError>
        ensures { IfOk result (λ turns. (turns.pieces.items ≡ idle t ∷ []) × (turns.taken ≡ 0)) }
    {
        let mut pieces = Vec::new(alloc);
        pieces.push(Piece::idle(t))?;
        let nothing = NoWords::new(alloc)?;
        Ok(Turns {
            pieces,
            taken: 0,
            wake_reason: WakeReason::new(),
            freed: BucketWaiters::new(),
            entries: 0,
            patience: Patience::new(),
            ahead: Ahead::new(alloc, t)?,
            nothing,
        })
    }

    /// The pieces of the turns, in order.
    pub fn taken(&self) -> &[Piece<J>]
        ensures { result.now ≡ take self.now.taken self.now.pieces.items }
    {
        &self.pieces.as_slice()[..self.taken]
    }

    /// Whether few local steps were taken: fewer than others could take meanwhile with profit.
    pub fn are_few(&self) -> bool {
        self.taken == 1 && self.pieces[0].count() < FEW_STEPS
    }

    /// Whether its worker keeps precedence behind its entry: where few steps were taken, up to a number of entries, and then
    /// until its thread gives a lock up. One that gave precedence up with a lock held would hold others up by that lock.
    pub fn keep_precedence(&self, image_ref: &ImageRef<J>) -> bool {
        self.are_few()
            && (!self.are_many() || self.entries < MOST_ENTRIES && !self.give_lock_up(image_ref))
    }

    /// The same behind accesses that were made ahead.
    pub fn keep_precedence_ahead(&self) -> bool {
        !self.are_many() || self.entries < MOST_ENTRIES && !self.ahead.ends_by_swap()
    }

    /// Whether there were many entries since its worker gave precedence up.
    pub fn are_many(&self) -> bool {
        self.entries >= MANY_ENTRIES
    }

    /// Notes that the first piece came in as an access, and its worker has precedence and no call put off, or not. Behind many such
    /// entries it goes ahead.
    pub fn note_access(&mut self, keeps: bool, image_ref: &ImageRef<J>)
        ensures { self.new.pieces ≡ self.old.pieces }
    {
        if keeps {
            self.ahead.note(&self.pieces[0], image_ref.memory);
        } else {
            self.ahead.stop();
        }
    }

    /// Counts one more entry for the calls that were put off, and answers whether they are due behind it: where it gives a lock
    /// up, where many local steps were taken, and behind many entries.
    #[tactic(auto, using(crate::proofs::Delaying::due_later))]
    pub fn is_call_due(&self, put_off: &mut PutOff, image_ref: &ImageRef<J>) -> bool
        ensures same { put_off.new.woken ≡ put_off.old.woken }
        ensures none { AreNone put_off.old → result ≡ false }
        ensures counted { result ≡ false → AreDue put_off.old put_off.new }
    {
        !put_off.is_empty() && (put_off.count() || !self.are_few() || self.give_lock_up(image_ref))
    }

    // Whether the next step is a swap, by which a lock is given up.
    fn give_lock_up(&self, image_ref: &ImageRef<J>) -> bool {
        matches!(
            self.pieces[0].next_step(image_ref.image),
            NextStep::Shared(Request::Swap(..))
        )
    }

    /// Whether the last entry concerns another thread or the calling one, or somebody waited for a bucket until one was
    /// given up.
    pub fn concern_others(&self) -> bool
        ensures { result ≡ false → (self.now.wake_reason.woken ≡ set_of [])
            × (self.now.wake_reason.forked ≡ false) × (self.now.freed ≡ nobody) }
    {
        self.wake_reason.forked || !self.wake_reason.woken.is_empty() || !self.freed.is_empty()
    }

    /// Whether it concerns the threads that it woke, and nobody else: their calls may be put off.
    pub fn may_put_off(&self) -> bool
        ensures { MatchBool result ((self.now.wake_reason.forked ≡ false) × (self.now.freed ≡ nobody))
            ((self.now.wake_reason.forked ≡ true) ⊎ (self.now.freed ≢ nobody)) }
    {
        !self.wake_reason.forked && self.freed.is_empty()
    }

    /// Takes turns from the first piece on, until another step than a local one comes, or there is no piece left. The
    /// gate is passed after each.
    pub fn take<G: Gate>(&mut self, image_ref: &ImageRef<J>, gate: &G, t: u32)
        ensures { AreTurns J.program self.old.pieces.items self.new.pieces.items self.new.taken }
    {
        self.taken = take_turns(&mut self.pieces, image_ref, &mut self.nothing, gate, t);
    }
}

// Takes turns on these pieces, and answers how many.
fn take_turns<J: RunName, G: Gate>(
    pieces: &mut Vec<Piece<J>>,
    image_ref: &ImageRef<J>,
    nothing: &mut NoWords,
    gate: &G,
    t: u32,
) -> usize
    requires { 0 < vec_len pieces.old }
    ensures { AreTurns J.program pieces.old.items pieces.new.items result }
{
    take_turn(&mut pieces[0], image_ref, nothing, gate, t);
    let mut taken = 1;
    while pieces[taken - 1].count() == MOST_LOCAL_STEPS && has_piece(pieces, taken, t) {
        follow(pieces, taken);
        take_turn(&mut pieces[taken], image_ref, nothing, gate, t);
        taken += 1;
    }
    taken
}

// Takes a turn, or what is left of one.
fn take_turn<J: RunName, G: Gate>(
    piece: &mut Piece<J>,
    image_ref: &ImageRef<J>,
    nothing: &mut NoWords,
    gate: &G,
    t: u32,
)
    ensures same { (piece.new.thread ≡ piece.old.thread) × (piece.new.origin ≡ piece.old.origin) }
    ensures turn { IsTurn J.program piece.new }
{
    piece.go_on_by_sequences(
        image_ref.image,
        image_ref.sequences.list(),
        &mut nothing.mem,
    );
    gate.pass(t);
}

// Whether there is a piece of this number, from 0. It is made where there is room for it.
fn has_piece<J: RunName>(pieces: &mut Vec<Piece<J>>, at: usize, t: u32) -> bool
    requires { at ≤ vec_len pieces.old }
    ensures { MatchBool result
        ((at < vec_len pieces.new) × (at < 16) × IsGrown t pieces.old.items pieces.new.items)
        (pieces.new.items ≡ pieces.old.items) }
{
    at < MOST_TURNS && (at < pieces.len() || pieces.push(Piece::idle(t)).is_ok())
}

// Lets a piece begin where the one before it has come.
fn follow<J: RunName>(pieces: &mut Vec<Piece<J>>, at: usize)
    requires { (0 < at) × (at < vec_len pieces.old) }
    ensures { StartsAt at pieces.old.items pieces.new.items }
{
    let (before, rest) = pieces.as_mut_slice().split_at_mut(at);
    rest[0].follow(&before[at - 1]);
}
