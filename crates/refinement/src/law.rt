ghost use Rattle.std.specs.Prelude.{◌≡◌, ℕ, List, Some};
ghost use Rattle.isa.specs.Programs.{Program as Image};
ghost use Rattle.locals.specs.Threads.{Thread};
ghost use Rattle.machine.specs.PieceStates.{PieceState};
ghost use Rattle.machine.specs.Runs.{CanStep, Step};
ghost use Rattle.machine.specs.States.{State};
ghost use Rattle.proof_thread.specs.Builds.{IsBuild, IsFollowed, IsHeld, IsSettled};
ghost use Rattle.program.specs.Trees.{Program};
ghost use Rattle.program.specs.WellFormed.{WellFormed};
ghost use Rattle.refinement.specs.Built.{build_of};
ghost use Rattle.refinement.specs.Pieces.{ExplainedInPieces, RestsInPieces};
ghost use Rattle.refinement.specs.Refines.{Explained, HasEnded};
ghost use Rattle.refinement.specs.Resting.{AreOver, HaveEnded, IsHung};

/// In the code of a checked program each piece stands where its calls lead, and a thread that stands for a process
/// comes to what the process offers, however many processes were made; and what it offers depends on the variables of
/// its own monitor alone.
pub fn code_of_processes_follows()
    ensures stands { (p : Program) (w : WellFormed p) → (made : ℕ) → IsBuild (build_of p w made) }
    ensures goes { (p : Program) (w : WellFormed p) → (made : ℕ) → IsFollowed (build_of p w made) }
    ensures settles { (p : Program) (w : WellFormed p) → (made : ℕ)
        → IsSettled (build_of p w made) }
    ensures holds { (p : Program) (w : WellFormed p) → (made : ℕ) → IsHeld (build_of p w made) }
{}

/// Of a run of the machine that a run of the program explains: where all threads have ended, each process is over; where
/// no thread can move, and some thread hasn't ended, the source is stuck, and each process waits that isn't over; and
/// where no thread can move, and each process is over, all threads have ended. The same is so of a run in pieces.
pub fn ends_are_the_sources()
    ensures done { (p : Program) (image : Image) (steps : List Step) (s : State)
        (e : Explained p image steps s) → HaveEnded s → AreOver e.source }
    ensures stuck { (p : Program) (image : Image) (steps : List Step) (s : State)
        (e : Explained p image steps s)
        → ((t : ℕ) → CanStep s t → ⊥)
        → (t : ℕ) (x : Thread) → s.thread t ≡ Some x → (HasEnded s t → ⊥) → IsHung p e.source }
    ensures ended { (p : Program) (image : Image) (steps : List Step) (s : State)
        (e : Explained p image steps s)
        → ((t : ℕ) → CanStep s t → ⊥) → AreOver e.source → HaveEnded s }
    ensures done_in_pieces { (p : Program) (image : Image) (steps : List Step) (s : PieceState)
        (e : ExplainedInPieces p image steps s) → HaveEnded s.base → AreOver e.source }
    ensures stuck_in_pieces { (p : Program) (image : Image) (steps : List Step) (s : PieceState)
        (e : ExplainedInPieces p image steps s)
        → RestsInPieces image s
        → (t : ℕ) (x : Thread) → s.base.thread t ≡ Some x → (HasEnded s.base t → ⊥)
        → IsHung p e.source }
    ensures ended_in_pieces { (p : Program) (image : Image) (steps : List Step) (s : PieceState)
        (e : ExplainedInPieces p image steps s)
        → RestsInPieces image s → AreOver e.source → HaveEnded s.base }
{}
