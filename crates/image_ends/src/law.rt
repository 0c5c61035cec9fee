ghost use Rattle.std.specs.Prelude.{◌≡◌, ◌<◌, ◌^◌, ℕ, List, Some, length};
ghost use Rattle.words.specs.declared.outcome.Outcome.TheVariants.{Aborted};
ghost use Rattle.isa.specs.Programs.{Program as Image};
ghost use Rattle.machine.specs.PieceStates.{PieceState};
ghost use Rattle.machine.specs.PieceSteps.{PieceRun};
ghost use Rattle.machine.specs.Runs.{CanStep, MachineRun, Step};
ghost use Rattle.machine.specs.States.{State};
ghost use Rattle.program.specs.Trees.{Program};
ghost use Rattle.words.specs.declared.outcome.Cause.{Cause};
ghost use Rattle.proof_exploration.specs.Exploring.{IsStuck};
ghost use Rattle.refinement.specs.Pieces.{RefinesInPieces, RestsInPieces};
ghost use Rattle.refinement.specs.Refines.{Refines};
ghost use Rattle.refinement.specs.Seen.{machine_end};
ghost use Rattle.source_search.specs.Found.{HasFailed, IsCounted, LeadsNowhere};
ghost use Rattle.source_search.specs.declared.outside.Outside.{Outside};
ghost use Rattle.image_ends.specs.Ending.{AllOver, IsSearched};

/// Of each run of an image that refines a program, under whatever schedule, of fewer than 2^32 steps: where no run of
/// the program gets stuck, and no thread can move, each process of the run of the program that explains it is over, and
/// each thread, of which there is one for each process, has ended; and where no process aborts in any run of the program, no thread has aborted; where kills are searched, none by a fault.
/// This is said of the runs of the image in which no more are killed than in the runs of the program; and where those are
/// the ones without stray wake-ups, of those in which nobody who waits on a condition is woken from outside. The same is
/// said of the runs in which futex calls are taken in pieces, over any number of buckets.
pub fn image_laws()
    ensures never_hangs { (p : Program) (image : Image) (may : Outside) (steps : List Step)
        (s : State)
        → Refines p image → LeadsNowhere p may (IsStuck p) → MachineRun image steps s
        → length steps < 2 ^ 32 → IsSearched p may steps
        → ((t : ℕ) → CanStep s t → ⊥) → AllOver p s }
    ensures never_aborts { (p : Program) (image : Image) (may : Outside) (steps : List Step)
        (s : State) (q : ℕ)
        (cause : Cause)
        → Refines p image → LeadsNowhere p may (HasFailed may) → MachineRun image steps s
        → length steps < 2 ^ 32 → IsSearched p may steps
        → machine_end s q ≡ Some (Aborted cause) → IsCounted may cause → ⊥ }
    ensures pieces_never_hang { (p : Program) (image : Image) (may : Outside) (buckets : ℕ)
        (steps : List Step) (s : PieceState)
        → RefinesInPieces p image → LeadsNowhere p may (IsStuck p) → 0 < buckets
        → PieceRun image buckets steps s → length steps < 2 ^ 32 → IsSearched p may steps
        → RestsInPieces image s → AllOver p s.base }
    ensures pieces_never_abort { (p : Program) (image : Image) (may : Outside) (buckets : ℕ)
        (steps : List Step) (s : PieceState) (q : ℕ) (cause : Cause)
        → RefinesInPieces p image → LeadsNowhere p may (HasFailed may) → 0 < buckets
        → PieceRun image buckets steps s → length steps < 2 ^ 32 → IsSearched p may steps
        → machine_end s.base q ≡ Some (Aborted cause) → IsCounted may cause → ⊥ }
{}
