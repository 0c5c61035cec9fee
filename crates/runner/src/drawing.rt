ghost use Rattle.words.specs.Limits.{most_threads};
ghost use Rattle.std.specs.Prelude.{suc, ◌≡◌, ◌≢◌, ◌+◌, ◌<◌, ◌≤◌, ◌⊎◌, ◌++◌, [], ◌∷◌, length, slice_get, true, false};
ghost use Rattle.std.specs.Prelude.{if◌then◌else◌, Some, None};
ghost use Rattle.std.specs.Prelude.{is_some, IfErr, IfNone, IfOk, IfSome, MatchBool, MatchOption, OnOk};
ghost use Rattle.std.specs.List.{All, Contains};
ghost use Rattle.rand_core.specs.Stream.{Stream};
ghost use Rattle.machine.specs.States.{thread_of};
ghost use Rattle.machine.specs.ConcreteSteps.{can_move};
ghost use Rattle.machine.specs.Views.{concrete};
ghost use Rattle.piece_machine.specs.PieceDetermined.{IsFit};
ghost use Rattle.runner.specs.Logs.{Runs, cost, kills_in, opening};
ghost use Rattle.runner.specs.Reports.{CanFail};
ghost use Rattle.runner.specs.Rounds.{AllPast, AllStopped, Idle, IsAsleep, IsDrawn, IsPickable, IsUnrefused, MayBeDrawn};
ghost use Rattle.runner.specs.Rounds.{NobodyPassed, NoneLeft, left};
ghost use Rattle.runner.specs.Seeds.{EndsBehind, HasDrawn, IsOver, IsPassedOver, MakesDrawn, begun_at, behind, drawn_at};
ghost use Rattle.runner.specs.Seeds.{is_alive, is_asleep, is_living, is_mover, kill_due, living_drawn, living_of, marked};
ghost use Rattle.runner.specs.Seeds.{moment_of, movers_of, next_of, numbers_from, outside_by, picked, sleeper_drawn};
ghost use Rattle.runner.specs.Seeds.{sleepers_of, stray_due};
ghost use Rattle.runner.specs.Views.{log_state};

use crate::fault::RunFault;
use crate::naming::RunName;
use crate::piece::Piece;
use crate::rounds::make_entry;
use crate::share::Share;
use crate::shared::Shared;
use arrayvec::ArrayVec;
use isa::Image;
use machine::Machine;
use rand_core::Rng;
use rand_xoshiro::SplitMix64;
use words::{MOST_THREADS, OpenGate};

/// What was drawn to be the next entry.
#[derive(Clone, Copy)]
pub enum Drawn {
    /// That of this thread, which can move.
    Mover(u32),
    /// A wake from outside of this thread, which sleeps.
    Sleeper(u32),
    /// The kill of this thread, which lives.
    Living(u32),
}

// How many threads there can be.
const PLACES: usize = MOST_THREADS as usize;

// Threads among which one is drawn. Both lists are made once a run and filled anew for each entry, which so writes no more
// places than there are such threads.
#[derive(Drop)]
struct Lists {
    movers: ArrayVec<u32, PLACES>,
    // Those that sleep, or those that live, where one of these is drawn.
    others: ArrayVec<u32, PLACES>,
}

// About one entry in so many is a kill, as long as there may be one more: 2 at least, and 2^12 at most.
const MOST_DOUBLINGS: u64 = 12;

/// What comes from outside in a run by a seed, and how often.
#[derive(Clone, Copy)]
pub struct Outside {
    // Where there is a number but 0, about one entry in so many is a wake.
    strays: Option<u32>,
    // There are so many kills at most.
    kills: u32,
    // About one entry in 2 to the power of so many is a kill, as long as there may be one more.
    doublings: u32,
}

impl Outside {
    /// What comes from outside where these are asked for. Where there may be kills, the generator's next number says how
    /// often they come.
    pub fn new(strays: Option<u32>, kills: u32, generator: &mut SplitMix64) -> Outside
        ensures value { (result.strays ≡ strays) × (result.kills ≡ kills) }
        ensures begun { (result, numbers_from generator.new) ≡ outside_by strays kills (numbers_from generator.old) }
    {
        if kills == 0 {
            return Outside {
                strays,
                kills,
                doublings: 0,
            };
        }
        let doublings = 1 + (next_number(generator) % MOST_DOUBLINGS) as u32;
        Outside {
            strays,
            kills,
            doublings,
        }
    }
}

/// Makes entries until no thread can make one, each of a thread that is drawn anew among those that can move, or one
/// that comes from outside. A thread that was refused with `Limit` is passed over from then on, and one that a held
/// bucket is in the way of until an entry is made.
pub fn run_drawn<J: RunName>(
    shared: &mut Shared<J>,
    image: &Image,
    share: &mut Share<J>,
    generator: &mut SplitMix64,
    outside: Outside,
) -> Result<(), RunFault>
    requires image { image.now ≡ J.program }
    requires strays { is_some outside.strays ≡ J.outside.strays }
    requires kills { outside.kills ≡ J.outside.kills }
    ensures ok { OnOk result (Idle J.program J.limit (log_state shared.new)) }
    ensures ends { OnOk result (EndsBehind J.program outside J.limit
        (begun_at (log_state shared.old) (numbers_from generator.old)) shared.new.log) }
    ensures err { IfErr result (λ fault. CanFail J.program J.outside J.limit fault) }
{
    let mut refused = [false; PLACES + 1];
    let mut passed = [false; PLACES + 1];
    let mut lists = Lists {
        movers: ArrayVec::new(),
        others: ArrayVec::new(),
    };
    let mut piece = Piece::idle(1);
    while make_next(
        shared,
        &mut refused,
        &mut passed,
        &mut lists,
        image,
        share,
        generator,
        outside,
        &mut piece,
    )? {}
    Ok(())
}

// Draws until an entry was made, and says whether one was: else no thread can make one. A thread that was drawn and made
// none is passed over meanwhile: nobody is before, nor behind an entry.
fn make_next<J: RunName>(
    shared: &mut Shared<J>,
    refused: &mut [bool],
    passed: &mut [bool],
    lists: &mut Lists,
    image: &Image,
    share: &mut Share<J>,
    generator: &mut SplitMix64,
    outside: Outside,
    piece: &mut Piece<J>,
) -> Result<bool, RunFault>
    requires image { image.now ≡ J.program }
    requires room { (length refused.old ≡ suc most_threads) × (length passed.old ≡ suc most_threads) }
    requires strays { is_some outside.strays ≡ J.outside.strays }
    requires kills { outside.kills ≡ J.outside.kills }
    requires past { AllPast J.program J.limit (log_state shared.old) refused.old }
    requires nobody { NobodyPassed passed.old }
    ensures past { OnOk result (AllPast J.program J.limit (log_state shared.new) refused.new) }
    ensures nobody { IfOk result (λ made. made ≡ true → NobodyPassed passed.new) }
    ensures made { IfOk result (λ made. made ≡ true → (cost shared.old.log < cost shared.new.log)
        × (cost shared.new.log ≤ J.limit)) }
    ensures none { IfOk result (λ made. made ≡ false
        → Idle J.program J.limit (log_state shared.new)) }
    ensures drawn { OnOk result (HasDrawn J.program outside J.limit
        (moment_of (log_state shared.old) (numbers_from generator.old) refused.old passed.old)
        (moment_of (log_state shared.new) (numbers_from generator.new) refused.new passed.new)) }
    ensures over { IfOk result (λ made. made ≡ false → IsOver outside J.limit
        (moment_of (log_state shared.new) (numbers_from generator.new) refused.new passed.new)) }
    ensures legal { IfOk result (λ made. made ≡ false
        → Runs J.program (opening J.program) shared.new.log (log_state shared.new).concrete) }
    ensures err { IfErr result (λ fault. CanFail J.program J.outside J.limit fault) }
{
    let mut skipped = false;
    while let Some(drawn) = draw_entry(shared, refused, passed, lists, generator, outside) {
        if make_drawn(shared, refused, passed, image, share, drawn, piece)? {
            clear_where(passed, skipped);
            return Ok(true);
        }
        skipped = true;
    }
    Ok(false)
}

// Passes nobody over any more. Where nobody was skipped nobody is passed over, and nothing is written.
fn clear_where(passed: &mut [bool], skipped: bool)
    requires { skipped ≡ false → NobodyPassed passed.old }
    ensures nobody { NobodyPassed passed.new }
    ensures room { length passed.new ≡ length passed.old }
{
    if skipped {
        passed.fill(false);
    }
}

// Makes the entry that was drawn, if it can be made, and says whether it did: else its thread is passed over, and
// where the entry would pass the limit it is refused from then on.
fn make_drawn<J: RunName>(
    shared: &mut Shared<J>,
    refused: &mut [bool],
    passed: &mut [bool],
    image: &Image,
    share: &mut Share<J>,
    drawn: Drawn,
    piece: &mut Piece<J>,
) -> Result<bool, RunFault>
    requires image { image.now ≡ J.program }
    requires room { (length refused.old ≡ suc most_threads) × (length passed.old ≡ suc most_threads) }
    requires kept { IsFit J.program (log_state shared.old).concrete }
    requires drawn { MayBeDrawn J.outside J.limit (log_state shared.old) refused.old passed.old drawn }
    requires past { AllPast J.program J.limit (log_state shared.old) refused.old }
    requires stopped { AllStopped J.program J.limit (log_state shared.old) passed.old }
    ensures past { OnOk result (AllPast J.program J.limit (log_state shared.new) refused.new) }
    ensures made { IfOk result (λ made. made ≡ true → (cost shared.old.log < cost shared.new.log)
        × (cost shared.new.log ≤ J.limit) × (passed.new ≡ passed.old)) }
    ensures none { IfOk result (λ made. made ≡ false → (log_state shared.new ≡ log_state shared.old)
        × AllStopped J.program J.limit (log_state shared.new) passed.new
        × (left passed.new < left passed.old)) }
    ensures makes { IfOk result (λ made. made ≡ true → (refused.new ≡ refused.old)
        × MakesDrawn J.program J.limit (log_state shared.old) drawn (log_state shared.new)) }
    ensures passes { IfOk result (λ made. made ≡ false → (before after : Stream) → IsPassedOver J.program J.limit
        (moment_of (log_state shared.old) before refused.old passed.old) drawn
        (moment_of (log_state shared.new) after refused.new passed.new)) }
    ensures err { IfErr result (λ fault. CanFail J.program J.outside J.limit fault) }
{
    match drawn {
        Drawn::Mover(t) => {
            let made = make_entry(shared, refused, image, share, &OpenGate, t, piece)?;
            if !made {
                passed[t as usize] = true;
            }
            Ok(made)
        }
        Drawn::Sleeper(t) => {
            shared.stray(t, share)?;
            Ok(true)
        }
        Drawn::Living(t) => {
            shared.kill(t, share)?;
            Ok(true)
        }
    }
}

// Draws the next entry: where a wake from outside is due, that of a thread that sleeps; else, where a kill is due, that
// of a thread that lives; else that of a thread that can move, wasn't refused and isn't passed over. None where there is
// no thread of the last, and then no number is drawn.
fn draw_entry<J: RunName>(
    shared: &Shared<J>,
    refused: &[bool],
    passed: &[bool],
    lists: &mut Lists,
    generator: &mut SplitMix64,
    outside: Outside,
) -> Option<Drawn>
    requires room { (length refused.now ≡ suc most_threads) × (length passed.now ≡ suc most_threads) }
    requires strays { is_some outside.strays ≡ J.outside.strays }
    requires kills { outside.kills ≡ J.outside.kills }
    ensures drawn { MatchOption result (NoneLeft (log_state shared.now).concrete.concrete refused.now passed.now)
        (λ drawn. MayBeDrawn J.outside J.limit (log_state shared.now) refused.now passed.now drawn) }
    ensures draws { (result, numbers_from generator.new) ≡ drawn_at outside J.limit
        (moment_of (log_state shared.now) (numbers_from generator.old) refused.now passed.now) }
    ensures still { IfNone result (numbers_from generator.new ≡ numbers_from generator.old) }
    ensures legal { Runs J.program (opening J.program) shared.now.log (log_state shared.now).concrete }
    ensures kept { IsFit J.program (log_state shared.now).concrete }
{
    let Lists { movers, others } = lists;
    list_movers(movers, shared.machine(), refused, passed);
    if movers.is_empty() {
        return None;
    }
    if let Some(t) = draw_sleeper(shared, others, generator, outside.strays) {
        return Some(Drawn::Sleeper(t));
    }
    if let Some(t) = draw_living(shared, refused, others, generator, outside) {
        return Some(Drawn::Living(t));
    }
    Some(Drawn::Mover(pick(movers, generator)))
}

// Draws a thread that sleeps, where a wake from outside is due, some thread sleeps, and the limit leaves room.
fn draw_sleeper<J: RunName>(
    shared: &Shared<J>,
    sleepers: &mut ArrayVec<u32, PLACES>,
    generator: &mut SplitMix64,
    strays: Option<u32>,
) -> Option<u32>
    ensures may { IfSome result (λ t. (is_some strays ≡ true) × IsAsleep (log_state shared.now).concrete.concrete t
        × (cost shared.now.log < J.limit)) }
    ensures drawn { (result, numbers_from generator.new)
        ≡ sleeper_drawn strays J.limit (log_state shared.now) (numbers_from generator.old) }
{
    if !is_due(strays, generator) {
        return None;
    }
    if !shared.has_step_left() {
        return None;
    }
    list_sleepers(sleepers, shared.machine());
    if sleepers.is_empty() {
        return None;
    }
    Some(pick(sleepers, generator))
}

// Draws a thread that lives and wasn't refused, where there may be a kill more, one is due, there is such a thread, and
// the limit leaves room.
fn draw_living<J: RunName>(
    shared: &Shared<J>,
    refused: &[bool],
    living: &mut ArrayVec<u32, PLACES>,
    generator: &mut SplitMix64,
    outside: Outside,
) -> Option<u32>
    requires room { length refused.now ≡ suc most_threads }
    ensures may { IfSome result (λ t. (kills_in shared.now.log < outside.kills)
        × IsUnrefused (log_state shared.now).concrete.concrete refused.now t × (cost shared.now.log < J.limit)) }
    ensures drawn { (result, numbers_from generator.new)
        ≡ living_drawn outside J.limit (log_state shared.now) (marked refused.now) (numbers_from generator.old) }
{
    if shared.kills() >= outside.kills {
        return None;
    }
    if !is_kill_due(outside.doublings, generator) {
        return None;
    }
    if !shared.has_step_left() {
        return None;
    }
    list_living(living, shared.machine(), refused);
    if living.is_empty() {
        return None;
    }
    Some(pick(living, generator))
}

// Whether a wake from outside is due: where the generator's next number is a multiple of that which `strays` has. No
// number is drawn where it has none, or 0.
fn is_due(strays: Option<u32>, generator: &mut SplitMix64) -> bool
    ensures may { result ≡ true → is_some strays ≡ true }
    ensures due { result ≡ (stray_due strays (numbers_from generator.old)).0 }
    ensures rest { numbers_from generator.new ≡ (stray_due strays (numbers_from generator.old)).1 }
{
    let Some(n) = strays else {
        return false;
    };
    if n == 0 {
        return false;
    }
    next_number(generator) % u64::from(n) == 0
}

// Whether a kill is due: where the generator's next number is a multiple of 2 to the power of so many doublings.
fn is_kill_due(doublings: u32, generator: &mut SplitMix64) -> bool
    ensures due { result ≡ kill_due doublings (next_of (numbers_from generator.old)) }
    ensures rest { numbers_from generator.new ≡ behind (numbers_from generator.old) }
{
    doublings <= next_number(generator).trailing_zeros()
}

// The generator's next number, as one of those that follow from its state.
#[inline(always)]
fn next_number(generator: &mut SplitMix64) -> u64
    ensures number { result ≡ next_of (numbers_from generator.old) }
    ensures rest { numbers_from generator.new ≡ behind (numbers_from generator.old) }
{
    generator.next_u64()
}

// The thread that the generator's next number picks: of these, that at the number modulo how many they are.
fn pick(threads: &[u32], generator: &mut SplitMix64) -> u32
    requires some { 0 < length threads.now }
    ensures among { Contains threads.now result }
    ensures drawn { (Some result, numbers_from generator.new) ≡ picked threads.now (numbers_from generator.old) }
{
    let place = next_number(generator) % threads.len() as u64;
    threads[place as usize]
}

// Lists the threads that can move, weren't refused and aren't passed over, by rising number.
fn list_movers(
    movers: &mut ArrayVec<u32, PLACES>,
    machine: &Machine,
    refused: &[bool],
    passed: &[bool],
)
    requires few { length (concrete machine.now).threads ≤ most_threads }
    requires room { (length refused.now ≡ suc most_threads) × (length passed.now ≡ suc most_threads) }
    ensures drawn { All (IsDrawn (concrete machine.now) refused.now passed.now) movers.new.items }
    ensures none { length movers.new.items ≡ 0 → NoneLeft (concrete machine.now) refused.now passed.now }
    ensures all { movers.new.items ≡ movers_of (concrete machine.now) (marked refused.now) (marked passed.now) }
{
    movers.clear();
    let mut from = 1;
    while let Some(t) = machine.next_able(from) {
        add_pickable(movers, machine, refused, passed, t);
        from = t + 1;
    }
}

// Adds thread `t`, if it can move, wasn't refused and isn't passed over.
fn add_pickable(
    movers: &mut ArrayVec<u32, PLACES>,
    machine: &Machine,
    refused: &[bool],
    passed: &[bool],
    t: u32,
)
    requires space { length movers.old.items < most_threads }
    requires room { (length refused.now ≡ suc most_threads) × (length passed.now ≡ suc most_threads) }
    requires thread { (0 < t) × (t ≤ most_threads) }
    ensures drawn { All (IsDrawn (concrete machine.now) refused.now passed.now) movers.old.items
        → All (IsDrawn (concrete machine.now) refused.now passed.now) movers.new.items }
    ensures few { length movers.new.items ≤ length movers.old.items + 1 }
    ensures none { length movers.new.items ≡ 0 → (length movers.old.items ≡ 0)
        × (can_move (concrete machine.now) t ≡ true
        → (slice_get refused.now t ≡ Some true) ⊎ (slice_get passed.now t ≡ Some true)) }
    ensures items { movers.new.items ≡ movers.old.items
        ++ (if is_mover (concrete machine.now) (marked refused.now) (marked passed.now) t then t ∷ [] else []) }
{
    if !is_pickable(machine, refused, passed, t) {
        return;
    }
    movers.push(t);
}

// Whether thread `t` can move, wasn't refused and isn't passed over.
fn is_pickable(machine: &Machine, refused: &[bool], passed: &[bool], t: u32) -> bool
    requires room { (length refused.now ≡ suc most_threads) × (length passed.now ≡ suc most_threads) }
    requires thread { t ≤ most_threads }
    ensures tells { MatchBool result (IsPickable (concrete machine.now) refused.now passed.now t)
        (can_move (concrete machine.now) t ≡ true
        → (slice_get refused.now t ≡ Some true) ⊎ (slice_get passed.now t ≡ Some true)) }
    ensures value { result ≡ is_mover (concrete machine.now) (marked refused.now) (marked passed.now) t }
{
    machine.can_move(t) && !refused[t as usize] && !passed[t as usize]
}

// Lists the threads that sleep, by rising number.
fn list_sleepers(sleepers: &mut ArrayVec<u32, PLACES>, machine: &Machine)
    ensures asleep { All (IsAsleep (concrete machine.now)) sleepers.new.items }
    ensures all { sleepers.new.items ≡ sleepers_of (concrete machine.now) }
{
    sleepers.clear();
    for before in 0..machine.threads() {
        add_sleeper(sleepers, machine, before + 1);
    }
}

// Adds thread `t`, if it sleeps.
fn add_sleeper(sleepers: &mut ArrayVec<u32, PLACES>, machine: &Machine, t: u32)
    requires space { length sleepers.old.items < most_threads }
    ensures asleep { All (IsAsleep (concrete machine.now)) sleepers.old.items
        → All (IsAsleep (concrete machine.now)) sleepers.new.items }
    ensures few { length sleepers.new.items ≤ length sleepers.old.items + 1 }
    ensures items { sleepers.new.items ≡ sleepers.old.items
        ++ (if is_asleep (concrete machine.now) t then t ∷ [] else []) }
{
    if machine.asleep(t).is_some() {
        sleepers.push(t);
    }
}

// Lists the threads that live, which aren't dying yet nor ended, and weren't refused, by rising number.
fn list_living(living: &mut ArrayVec<u32, PLACES>, machine: &Machine, refused: &[bool])
    requires room { length refused.now ≡ suc most_threads }
    ensures living { All (IsUnrefused (concrete machine.now) refused.now) living.new.items }
    ensures all { living.new.items ≡ living_of (concrete machine.now) (marked refused.now) }
{
    living.clear();
    for before in 0..machine.threads() {
        add_living(living, machine, refused, before + 1);
    }
}

// Adds thread `t`, if it lives and wasn't refused.
fn add_living(living: &mut ArrayVec<u32, PLACES>, machine: &Machine, refused: &[bool], t: u32)
    requires space { length living.old.items < most_threads }
    requires room { length refused.now ≡ suc most_threads }
    requires thread { (0 < t) × (t ≤ most_threads) }
    ensures living { All (IsUnrefused (concrete machine.now) refused.now) living.old.items
        → All (IsUnrefused (concrete machine.now) refused.now) living.new.items }
    ensures few { length living.new.items ≤ length living.old.items + 1 }
    ensures items { living.new.items ≡ living.old.items
        ++ (if is_living (concrete machine.now) (marked refused.now) t then t ∷ [] else []) }
{
    if lives(machine, t) && !refused[t as usize] {
        living.push(t);
    }
}

// Whether thread `t` was made and isn't dying: a kill of it changes it.
fn lives(machine: &Machine, t: u32) -> bool
    ensures made { result ≡ true → thread_of (concrete machine.now) t ≢ None }
    ensures value { result ≡ is_alive (thread_of (concrete machine.now) t) }
{
    machine.is_made(t) && !machine.local(t).is_dying()
}
