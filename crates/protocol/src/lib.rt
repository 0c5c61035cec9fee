//! The protocol of locks, conditions, joins and exits, at the grain of shared steps: what threads do to shared words
//! and sleepers keeps the table of monitors, conditions and processes, and loses no wake.
#![tactic(auto)]

ghost use Rattle.std.specs.Prelude.{◌≡◌, ℕ, ◌<◌, ◌≤◌, Bool, List, None};
ghost use Rattle.words.specs.declared.version.ImageVersion.{ImageVersion};
ghost use Rattle.protocol.specs.Points.{Point};
ghost use Rattle.protocol.specs.World.{World, opening_world, opening_under};
ghost use Rattle.protocol.specs.Rules.{Rules, AreSafe, rules_of, release_of};
ghost use Rattle.protocol.specs.Rules.{WakesUnowned, ClearsWord, TidiesWaiters};
ghost use Rattle.protocol.specs.Losses.{LosesWake, cleared_run, tidied_run};
ghost use Rattle.protocol.specs.Moves.{Move};
ghost use Rattle.protocol.specs.Runs.{Leads, IsExplainedByMoves, IsExplainedUnder};
ghost use Rattle.protocol.specs.Requests.{request};
ghost use Rattle.protocol.specs.Answers.{Serves};
ghost use Rattle.protocol.specs.Served.{IsMove};
ghost use Rattle.protocol.specs.Ruled.{request_under, ServesUnder, IsMoveUnder};
ghost use Rattle.protocol.specs.Memory.{StoresFollow};
ghost use Rattle.protocol.specs.Starts.{StartsMove};
ghost use Rattle.protocol.specs.WordLaws.{AreLockWords};
ghost use Rattle.protocol.specs.Exits.{ExitsFollow, PhasesFollow};
ghost use Rattle.protocol.specs.Cells.{Cell};
ghost use Rattle.protocol.specs.Memory.{IsApart};
ghost use Rattle.protocol.specs.Calls.{CallsFollow};

/// For each version of an image, by the exit of its machine and the release of its templates: each run of moves is
/// explained by the source: the labels that it carries, in order, are allowed one after another, to a table that is
/// that of the last world, in which no wake was lost.
pub fn no_wake_lost()
    ensures { (version : ImageVersion) (ss : List (ℕ × Move)) (w : World)
        → Leads (opening_world version) ss w
        → IsExplainedByMoves version ss w }
{}

/// Where a run has come, each step of a thread inside a template is a move: what its point asks for, and the shared
/// words answer, leads to the next point of the template.
pub fn every_step_is_a_move()
    ensures { (version : ImageVersion) (ss : List (ℕ × Move)) (w : World)
        → Leads (opening_world version) ss w
        → (t : ℕ) (p : Point) (r : ℕ) (w' : World) →
        0 < t → t ≤ w.made → w.asleep t ≡ None → (w.at t).point ≡ p
        → Serves w t p (request (release_of version) t p) r w'
        → IsMove w t p r w' }
{}

/// A store into a flat memory that holds the words of a world is a write in the world: so the two go on to agree.
pub fn memory_follows()
    ensures { StoresFollow }
{}

/// Where a run has come, a claim, a return and a fork of a thread that runs its own code are moves.
pub fn every_start_is_a_move()
    ensures { (version : ImageVersion) (ss : List (ℕ × Move)) (w : World)
        → Leads (opening_world version) ss w → StartsMove w }
{}

/// The parts of lock words are those of the robust-futex ABI.
pub fn lock_words()
    ensures { (v : ℕ) → AreLockWords v }
{}

/// Over a flat memory that shares words and sleepers with a world, each step of robust exit by the world's rule is a
/// step of the protocol's.
pub fn exits_follow()
    ensures { ExitsFollow }
{}

/// Over a flat memory that shares words and sleepers with a world, a wait that sleeps, a wake of one and a requeue of
/// all are what the protocol's words serve.
pub fn calls_follow()
    ensures { (place : Cell → ℕ) (valid : Cell → Bool) → IsApart place valid
        → CallsFollow place valid }
{}

/// Each step of robust exit leads to the phase of the protocol's next point, before the limit of a walk.
pub fn phases_follow()
    ensures { PhasesFollow }
{}

/// Under other rules of exits and releases than those of a version the first law holds too, where they are safe: any
/// release where an exit always wakes, or passes only words whose waiters bit is set; and, where it wakes at unowned
/// words alone (Linux from 6.2 on), the releases that keep the waiters bit for good.
pub fn no_wake_lost_under()
    ensures { (version : ImageVersion) (rules : Rules) → AreSafe rules
        → (ss : List (ℕ × Move)) (w : World)
        → Leads (opening_under version rules) ss w
        → IsExplainedUnder version rules ss w }
{}

/// Under safe rules each step of a thread inside a template is a move.
pub fn every_step_is_a_move_under()
    ensures { (version : ImageVersion) (rules : Rules) → AreSafe rules
        → (ss : List (ℕ × Move)) (w : World) → Leads (opening_under version rules) ss w
        → (t : ℕ) (p : Point) (r : ℕ) (w' : World) →
        0 < t → t ≤ w.made → w.asleep t ≡ None → (w.at t).point ≡ p
        → ServesUnder rules w t p (request_under rules.release t p) r w'
        → IsMoveUnder rules w t p r w' }
{}

/// Under safe rules claims, returns and forks are moves.
pub fn every_start_is_a_move_under()
    ensures { (version : ImageVersion) (rules : Rules) → AreSafe rules
        → (ss : List (ℕ × Move)) (w : World)
        → Leads (opening_under version rules) ss w → StartsMove w }
{}

/// Under the other rules a wake is lost, by one kill. Where an exit wakes at unowned words alone, so does a release that
/// swaps the word for 0, and one that keeps the waiters bit and clears it once a wake has found nobody: at the end of
/// the run no thread can move, and the process of a thread that sleeps can.
pub fn a_wake_is_lost()
    ensures cleared { LosesWake (rules_of WakesUnowned ClearsWord) cleared_run }
    ensures tidied { LosesWake (rules_of WakesUnowned TidiesWaiters) tidied_run }
{}
