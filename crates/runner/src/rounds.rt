ghost use Rattle.words.specs.Limits.{most_threads};
ghost use Rattle.std.specs.Prelude.{suc, ◌≡◌, ◌≤◌, ◌<◌, ◌+◌, ◌⊎◌, List, length, true, false, Some, IfOk, IfErr, IfSome, OnOk};
ghost use Rattle.machine.specs.ConcreteSteps.{can_move};
ghost use Rattle.machine.specs.declared.event.Entry.{Entry};
ghost use Rattle.piece_machine.specs.PieceDetermined.{IsFit};
ghost use Rattle.runner.specs.Attempts.{TriedSo, came, is_made};
ghost use Rattle.runner.specs.Logs.{cost};
ghost use Rattle.runner.specs.Orders.{GoesOn, HasBegun, HasGoneAlone, HasMade};
ghost use Rattle.runner.specs.Reports.{CanFail, IsStopped};
ghost use Rattle.runner.specs.Rounds.{AllPast, AreTried, HasTurned, Idle, IsTurn};
ghost use Rattle.runner.specs.Seeds.{MarksIf};
ghost use Rattle.runner.specs.Views.{log_state};
ghost use Rattle.runner.specs.Waits.{AllWait, IsNextAround};

use crate::attempt::Attempt;
use crate::caller::{Alone, Drawn, InRounds};
use crate::fault::RunFault;
use crate::naming::RunName;
use crate::passing_over::Waiting;
use crate::piece::Piece;
use crate::share::Share;
use crate::shared::Shared;
use isa::Image;
use words::{Gate, MOST_THREADS};

/// Makes entries, round after round, until no thread can make one. A round goes through the threads by rising number,
/// those made in the round included. A thread that was refused with `Limit` is passed over from then on, and one that a
/// held bucket is in the way of as long as it's held.
pub fn run_rounds<J: RunName, G: Gate>(
    shared: &mut Shared<J>,
    image: &Image,
    share: &mut Share<J>,
    gate: &G,
) -> Result<(), RunFault>
    requires image { image.now ≡ J.program }
    ensures ok { OnOk result (Idle J.program J.limit (log_state shared.new)) }
    ensures order { OnOk result (GoesOn J.program J.limit shared.old.log shared.new.log) }
    ensures err { IfErr result (λ fault. CanFail J.program J.outside J.limit fault) }
{
    let forked = run_first(shared, share, gate)?;
    let mut refused = [false; MOST_THREADS as usize + 1];
    let mut piece = Piece::idle(1);
    end_round(shared, &mut refused, image, share, gate, &mut piece, forked)?;
    let mut waiting = Waiting::new();
    let mut told = Ok(Attempt::Refused);
    take_turns(
        shared,
        &mut refused,
        &mut waiting,
        image,
        share,
        gate,
        &mut piece,
        &mut told,
    )
}

// As long as thread 1 is the only one, a round is an entry of it. Says whether it has made another: then its round isn't
// over.
fn run_first<J: RunName, G: Gate>(
    shared: &mut Shared<J>,
    share: &mut Share<J>,
    gate: &G,
) -> Result<bool, RunFault>
    ensures order { IfOk result (λ forked. HasBegun forked J.program J.limit shared.old.log (log_state shared.new)) }
    ensures err { IfErr result (λ fault. CanFail J.program J.outside J.limit fault) }
{
    if shared.machine().threads() > 1 {
        return Ok(false);
    }
    run_alone(shared, share, gate, 1)?;
    Ok(shared.machine().threads() > 1)
}

// Ends the round in which thread 1 has forked, if it has, with an entry for each thread behind it that can make one. Apart,
// since it is called once.
#[cold]
#[inline(never)]
fn end_round<J: RunName, G: Gate>(
    shared: &mut Shared<J>,
    refused: &mut [bool],
    image: &Image,
    share: &mut Share<J>,
    gate: &G,
    piece: &mut Piece<J>,
    forked: bool,
) -> Result<(), RunFault>
    requires image { image.now ≡ J.program }
    requires room { length refused.old ≡ suc most_threads }
    requires past { AllPast J.program J.limit (log_state shared.old) refused.old }
    ensures past { OnOk result (AllPast J.program J.limit (log_state shared.new) refused.new) }
    ensures order { OnOk result ((start : List Entry) → HasBegun forked J.program J.limit start (log_state shared.old)
        → HasBegun false J.program J.limit start (log_state shared.new)) }
    ensures err { IfErr result (λ fault. CanFail J.program J.outside J.limit fault) }
{
    if !forked {
        return Ok(());
    }
    let mut t = 1;
    while t < shared.machine().threads() {
        t += 1;
        make_entry(shared, refused, image, share, gate, t, piece)?;
    }
    Ok(())
}

/// Makes entries of thread `t` in its place on the machine, as long as no other was made, it can move, no bucket that it
/// holds may be in its own way, and each entry is within the limit. So one that has made no other yet isn't copied.
pub fn run_alone<J: RunName, G: Gate>(
    shared: &mut Shared<J>,
    share: &mut Share<J>,
    gate: &G,
    t: u32,
) -> Result<(), RunFault>
    ensures given { shared.new.given ≡ shared.old.given }
    ensures order { OnOk result (HasGoneAlone J.program J.limit t (log_state shared.old) (log_state shared.new)) }
    ensures err { IfErr result (λ fault. CanFail J.program J.outside J.limit fault) }
{
    let mut moves = shared.machine().can_move(t);
    let mut told = Ok(Attempt::Refused);
    while moves && shared.machine().threads() == 1 && shared.is_free(t) && shared.has_room() {
        gate.pass(t);
        // Who made an access can move still, as most entries end.
        if !shared.go_on::<Alone>(t, share, &mut told) {
            told?;
            moves = shared.machine().can_move(t);
        }
    }
    Ok(())
}

// Makes entries until no thread can make one: turn after turn, of threads that can move and aren't known to be held up. What
// came of an entry is told in a place that each of them uses.
#[inline(always)]
fn take_turns<J: RunName, G: Gate>(
    shared: &mut Shared<J>,
    refused: &mut [bool],
    waiting: &mut Waiting,
    image: &Image,
    share: &mut Share<J>,
    gate: &G,
    piece: &mut Piece<J>,
    told: &mut Result<Attempt, RunFault>,
) -> Result<(), RunFault>
    requires image { image.now ≡ J.program }
    requires room { length refused.old ≡ suc most_threads }
    requires past { AllPast J.program J.limit (log_state shared.old) refused.old }
    requires waits { AllWait J.program (log_state shared.old).concrete waiting.old }
    ensures ok { OnOk result (Idle J.program J.limit (log_state shared.new)) }
    ensures order { OnOk result ((start : List Entry) → HasBegun false J.program J.limit start (log_state shared.old)
        → GoesOn J.program J.limit start shared.new.log) }
    ensures err { IfErr result (λ fault. CanFail J.program J.outside J.limit fault) }
{
    // So many steps were taken when a round last ended behind a turn without an entry, or before the first turn.
    let mut before = shared.steps();
    let Some(mut t) = waiting.next_behind(shared.piece_machine(), 0) else {
        return Ok(());
    };
    loop {
        let made = take_turn(shared, refused, waiting, image, share, gate, t, piece, told)?;
        if made {
            let Some(u) = waiting.next_around(shared.piece_machine(), t) else {
                return Ok(());
            };
            t = u;
        } else {
            let Some(u) = next_untried(shared, waiting, &mut before, t) else {
                return Ok(());
            };
            t = u;
        }
    }
}

// Whose turn it is behind thread `t`, which could make no entry. At a round's end it is nobody's where no entry was made
// since `before`, so that all threads were tried. Apart, since most turns make an entry, and needn't ask that.
#[cold]
#[inline(never)]
fn next_untried<J: RunName>(
    shared: &Shared<J>,
    waiting: &Waiting,
    before: &mut u32,
    t: u32,
) -> Option<u32>
    requires thread { (0 < t) × (t ≤ most_threads) }
    requires waits { AllWait J.program (log_state shared.now).concrete waiting.now }
    requires tried { AreTried J.program J.limit before.old (log_state shared.now) (t + 1) }
    requires within { before.old ≤ J.limit }
    ensures next { IsTurn J.program J.limit before.new (log_state shared.now) result }
    ensures around { IfSome result (λ u. IsNextAround J.program (log_state shared.now).concrete t (Some u)) }
    ensures on { IfSome result (λ u. (before.new ≡ before.old × (t < u)) ⊎ (before.old < before.new)) }
    ensures within { before.new ≤ J.limit }
{
    if let Some(u) = waiting.next_behind(shared.piece_machine(), t) {
        return Some(u);
    }
    let steps = shared.steps();
    if steps == *before {
        return None;
    }
    *before = steps;
    waiting.next_behind(shared.piece_machine(), 0)
}

// Makes the next entry of thread `t`, which can move, and keeps who waits for which bucket. Says whether it made one.
#[inline(always)]
fn take_turn<J: RunName, G: Gate>(
    shared: &mut Shared<J>,
    refused: &mut [bool],
    waiting: &mut Waiting,
    image: &Image,
    share: &mut Share<J>,
    gate: &G,
    t: u32,
    piece: &mut Piece<J>,
    told: &mut Result<Attempt, RunFault>,
) -> Result<bool, RunFault>
    requires image { image.now ≡ J.program }
    requires room { length refused.old ≡ suc most_threads }
    requires thread { (0 < t) × (t ≤ most_threads) }
    requires moves { can_move (log_state shared.old).concrete.concrete t ≡ true }
    requires kept { IsFit J.program (log_state shared.old).concrete }
    requires past { AllPast J.program J.limit (log_state shared.old) refused.old }
    requires waits { AllWait J.program (log_state shared.old).concrete waiting.old }
    ensures past { OnOk result (AllPast J.program J.limit (log_state shared.new) refused.new) }
    ensures waits { OnOk result (AllWait J.program (log_state shared.new).concrete waiting.new) }
    ensures turned { IfOk result (λ made. HasTurned made J.program J.limit (log_state shared.old) (log_state shared.new) t) }
    ensures entry { IfOk result (λ made. made ≡ true → HasMade J.program t
        (log_state shared.old) (log_state shared.new)) }
    ensures err { IfErr result (λ fault. CanFail J.program J.outside J.limit fault) }
{
    if attempt_entry::<J, G, InRounds>(shared, refused, image, share, gate, t, piece, told) {
        waiting.follow_access(shared.piece_machine(), t);
        return Ok(true);
    }
    let attempt = (*told)?;
    waiting.follow(shared.piece_machine(), t, attempt);
    Ok(attempt.is_made())
}

/// Makes the next entry of thread `t`, if it can make one and wasn't refused before. Says whether it did. A thread whose
/// entry would pass the limit is refused from then on; one that a held bucket is in the way of isn't. The piece is any:
/// near the limit the thread goes on in it.
pub(crate) fn make_entry<J: RunName, G: Gate>(
    shared: &mut Shared<J>,
    refused: &mut [bool],
    image: &Image,
    share: &mut Share<J>,
    gate: &G,
    t: u32,
    piece: &mut Piece<J>,
) -> Result<bool, RunFault>
    requires image { image.now ≡ J.program }
    requires room { length refused.old ≡ suc most_threads }
    requires thread { (0 < t) × (t ≤ most_threads) }
    requires kept { IsFit J.program (log_state shared.old).concrete }
    requires past { AllPast J.program J.limit (log_state shared.old) refused.old }
    ensures past { OnOk result (AllPast J.program J.limit (log_state shared.new) refused.new) }
    ensures made { IfOk result (λ made. made ≡ true → (cost shared.old.log < cost shared.new.log)
        × (cost shared.new.log ≤ J.limit)) }
    ensures entry { IfOk result (λ made. made ≡ true → HasMade J.program t
        (log_state shared.old) (log_state shared.new)) }
    ensures none { IfOk result (λ made. made ≡ false → (log_state shared.new ≡ log_state shared.old)
        × (can_move (log_state shared.new).concrete.concrete t ≡ true
        → IsStopped J.program J.limit shared.new.log (log_state shared.new).concrete t)) }
    ensures same { IfOk result (λ made. made ≡ true → refused.new ≡ refused.old) }
    ensures marks { IfOk result (λ made. made ≡ false → MarksIf J.program J.limit
        (log_state shared.old) t refused.old refused.new) }
    ensures err { IfErr result (λ fault. CanFail J.program J.outside J.limit fault) }
{
    if !shared.machine().can_move(t) {
        return Ok(false);
    }
    let mut told = Ok(Attempt::Refused);
    if attempt_entry::<J, G, Drawn>(shared, refused, image, share, gate, t, piece, &mut told) {
        return Ok(true);
    }
    Ok(told?.is_made())
}

// The same of a thread that can move. Answers whether the entry ended with an access; what came of any other try is told
// beside it.
#[inline(always)]
fn attempt_entry<J: RunName, G: Gate, C>(
    shared: &mut Shared<J>,
    refused: &mut [bool],
    image: &Image,
    share: &mut Share<J>,
    gate: &G,
    t: u32,
    piece: &mut Piece<J>,
    told: &mut Result<Attempt, RunFault>,
) -> bool
    requires image { image.now ≡ J.program }
    requires room { length refused.old ≡ suc most_threads }
    requires thread { (0 < t) × (t ≤ most_threads) }
    requires moves { can_move (log_state shared.old).concrete.concrete t ≡ true }
    requires kept { IsFit J.program (log_state shared.old).concrete }
    requires past { AllPast J.program J.limit (log_state shared.old) refused.old }
    ensures past { OnOk (came result told.new) (AllPast J.program J.limit (log_state shared.new) refused.new) }
    ensures made { IfOk (came result told.new) (λ a. is_made a ≡ true → (cost shared.old.log < cost shared.new.log)
        × (cost shared.new.log ≤ J.limit)) }
    ensures entry { IfOk (came result told.new) (λ a. is_made a ≡ true → HasMade J.program t
        (log_state shared.old) (log_state shared.new)) }
    ensures none { IfOk (came result told.new) (λ a. is_made a ≡ false → (log_state shared.new ≡ log_state shared.old)
        × (can_move (log_state shared.new).concrete.concrete t ≡ true
        → IsStopped J.program J.limit shared.new.log (log_state shared.new).concrete t)) }
    ensures tried { IfOk (came result told.new) (λ a. TriedSo J.program (log_state shared.old).concrete t a
        (log_state shared.new).concrete) }
    ensures same { IfOk (came result told.new) (λ a. is_made a ≡ true → refused.new ≡ refused.old) }
    ensures marks { IfOk (came result told.new) (λ a. is_made a ≡ false → MarksIf J.program J.limit
        (log_state shared.old) t refused.old refused.new) }
    ensures err { IfErr (came result told.new) (λ fault. CanFail J.program J.outside J.limit fault) }
{
    if !shared.has_room() {
        tell_entry(shared, refused, image, share, gate, t, piece, told);
        return false;
    }
    gate.pass(t);
    shared.try_on::<C>(image, t, share, told)
}

// The same near the limit, and what came of it is told in its place, so that the callers have no place for another.
#[cold]
#[inline(never)]
fn tell_entry<J: RunName, G: Gate>(
    shared: &mut Shared<J>,
    refused: &mut [bool],
    image: &Image,
    share: &mut Share<J>,
    gate: &G,
    t: u32,
    piece: &mut Piece<J>,
    told: &mut Result<Attempt, RunFault>,
)
    requires image { image.now ≡ J.program }
    requires room { length refused.old ≡ suc most_threads }
    requires thread { (0 < t) × (t ≤ most_threads) }
    requires kept { IsFit J.program (log_state shared.old).concrete }
    requires past { AllPast J.program J.limit (log_state shared.old) refused.old }
    ensures past { OnOk told.new (AllPast J.program J.limit (log_state shared.new) refused.new) }
    ensures made { IfOk told.new (λ a. is_made a ≡ true → (cost shared.old.log < cost shared.new.log)
        × (cost shared.new.log ≤ J.limit)) }
    ensures entry { IfOk told.new (λ a. is_made a ≡ true → HasMade J.program t
        (log_state shared.old) (log_state shared.new)) }
    ensures none { IfOk told.new (λ a. is_made a ≡ false → (log_state shared.new ≡ log_state shared.old)
        × (can_move (log_state shared.new).concrete.concrete t ≡ true
        → IsStopped J.program J.limit shared.new.log (log_state shared.new).concrete t)) }
    ensures tried { IfOk told.new (λ a. TriedSo J.program (log_state shared.old).concrete t a
        (log_state shared.new).concrete) }
    ensures same { IfOk told.new (λ a. is_made a ≡ true → refused.new ≡ refused.old) }
    ensures marks { IfOk told.new (λ a. is_made a ≡ false → MarksIf J.program J.limit
        (log_state shared.old) t refused.old refused.new) }
    ensures err { IfErr told.new (λ fault. CanFail J.program J.outside J.limit fault) }
{
    *told = try_entry(shared, refused, image, share, gate, t, piece);
}

// Tries an entry near the limit: the thread goes on away from the machine, in this piece, since its entry may be refused.
fn try_entry<J: RunName, G: Gate>(
    shared: &mut Shared<J>,
    refused: &mut [bool],
    image: &Image,
    share: &mut Share<J>,
    gate: &G,
    t: u32,
    piece: &mut Piece<J>,
) -> Result<Attempt, RunFault>
    requires image { image.now ≡ J.program }
    requires room { length refused.old ≡ suc most_threads }
    requires thread { (0 < t) × (t ≤ most_threads) }
    requires kept { IsFit J.program (log_state shared.old).concrete }
    requires past { AllPast J.program J.limit (log_state shared.old) refused.old }
    ensures past { OnOk result (AllPast J.program J.limit (log_state shared.new) refused.new) }
    ensures made { IfOk result (λ a. is_made a ≡ true → (cost shared.old.log < cost shared.new.log)
        × (cost shared.new.log ≤ J.limit)) }
    ensures entry { IfOk result (λ a. is_made a ≡ true → HasMade J.program t
        (log_state shared.old) (log_state shared.new)) }
    ensures none { IfOk result (λ a. is_made a ≡ false → (log_state shared.new ≡ log_state shared.old)
        × (can_move (log_state shared.new).concrete.concrete t ≡ true
        → IsStopped J.program J.limit shared.new.log (log_state shared.new).concrete t)) }
    ensures tried { IfOk result (λ a. TriedSo J.program (log_state shared.old).concrete t a
        (log_state shared.new).concrete) }
    ensures same { IfOk result (λ a. is_made a ≡ true → refused.new ≡ refused.old) }
    ensures marks { IfOk result (λ a. is_made a ≡ false → MarksIf J.program J.limit
        (log_state shared.old) t refused.old refused.new) }
    ensures err { IfErr result (λ fault. CanFail J.program J.outside J.limit fault) }
{
    if refused[t as usize] {
        return Ok(Attempt::Refused);
    }
    if !shared.begin(t, piece) {
        return Ok(Attempt::Refused);
    }
    piece.go_on(image);
    gate.pass(t);
    match shared.enter(t, piece, share) {
        Ok(()) => Ok(Attempt::Made),
        Err(RunFault::Limit) => {
            refused[t as usize] = true;
            Ok(Attempt::Refused)
        }
        // A held bucket is in its way.
        Err(RunFault::CannotMove) => Ok(Attempt::HeldUp),
        Err(fault) => Err(fault),
    }
}
