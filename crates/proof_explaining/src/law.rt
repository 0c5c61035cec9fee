ghost use Rattle.std.specs.Prelude.{[], ◌≡◌, ◌+◌, ◌++◌, ◌<◌, ◌==◌, ◌^◌, ◌∷◌, ℕ, true, false, List, Ok, Some, length};
ghost use Rattle.lowering.specs.Pieces.{code_of};
ghost use Rattle.locals.specs.Looks.{look};
ghost use Rattle.locals.specs.Threads.{Thread};
ghost use Rattle.machine.specs.ConcretePieces.{is_piece};
ghost use Rattle.machine.specs.FrontRuns.{EventStep};
ghost use Rattle.machine.specs.PieceStates.{IsHeldRight, PieceState};
ghost use Rattle.machine.specs.PieceSteps.{IsOwnPiece, PieceRun};
ghost use Rattle.machine.specs.Runs.{Step};
ghost use Rattle.machine.specs.States.{opening_state, state_of, thread_of};
ghost use Rattle.machine.specs.declared.event.Event.{Event};
ghost use Rattle.piece_machine.specs.PieceConcrete.{PieceConcrete, kill_piece, opening_at, piece_of, pieces_at};
ghost use Rattle.piece_machine.specs.PieceConcrete.{stray_piece};
ghost use Rattle.program.specs.Trees.{Program};
ghost use Rattle.program.specs.WellFormed.{WellFormed};
ghost use Rattle.proof_commutation.specs.Placed.{actions_up_to};
ghost use Rattle.proof_explaining.specs.Events.{ComesTo, progress_killed, progress_strayed, progress_told, whole_of};
ghost use Rattle.proof_explaining.specs.PieceProgress.{explanation_of_pieces, piece_is_visible, progress_of_pieces};
ghost use Rattle.proof_pieces.specs.Silence.{is_silent};
ghost use Rattle.proof_pieces.specs.Traces.{Trace, none_taken};
ghost use Rattle.proof_pieces.specs.Whole.{whole};
ghost use Rattle.proof_simulation.specs.Explaining.{IsDue, IsReached};
ghost use Rattle.proof_simulation.specs.Progress.{Progress, opening_progress, progress_of_trace, visible_step};
ghost use Rattle.refinement.specs.Pieces.{ExplainedInPieces};

/// The run of the source that explains a run in pieces is a function of that run, as `explanation` is of one with whole
/// calls: a bucket that is taken, a requeue's comparison that finds its word equal, and the last piece of a wait, lead
/// nowhere; any other piece leads where a step with whole calls leads that has its answer. That is what the source comes
/// to along the trace that the run is. So it is a run of the program, which goes with the state of whole calls behind
/// the run; at a visible piece, what is deferred of its process is possible, and then a visible action of it. With its
/// explanation a run in pieces is explained in all that `RefinesInPieces` says.
pub fn pieces_explain()
    ensures traced { (p : Program) (n : ℕ) (steps : List Step) (s : PieceState) → 0 < n
        → (run : PieceRun (code_of p) n steps s)
        → (trace : Trace (code_of p) (opening_state (code_of p)) none_taken steps
        (whole (code_of p) s))
        × (progress_of_trace p steps (whole (code_of p) s) trace
        ≡ progress_of_pieces p n steps s run) }
    ensures reached { (p : Program) (n : ℕ) (steps : List Step) (s : PieceState) → 0 < n
        → (run : PieceRun (code_of p) n steps s) → (w : WellFormed p) → length steps < 2 ^ 32
        → IsReached p w (length steps) (whole (code_of p) s)
        (progress_of_pieces p n steps s run) }
    ensures due { (p : Program) (w : WellFormed p) (many : ℕ) (s : PieceState) (g : Progress)
        → IsReached p w many (whole (code_of p) s) g → IsHeldRight (code_of p) s
        → (l : Step) (s' : PieceState) (own : IsOwnPiece (code_of p) s l s') → many + 1 < 2 ^ 32
        → is_silent (code_of p) s l.thread own.thread l.woken s' own.piece ≡ false
        → piece_is_visible p s l.thread own.thread l.woken s' own.piece ≡ true
        → IsDue p (whole (code_of p) s') l.thread g }
    ensures explained { (p : Program) (n : ℕ) (steps : List Step) (s : PieceState) → 0 < n
        → (run : PieceRun (code_of p) n steps s) → WellFormed p → length steps < 2 ^ 32
        → (e : ExplainedInPieces p (code_of p) steps s)
        × (e.actions ≡ explanation_of_pieces p n steps s run) }
{}

/// What the source has come to behind the events of a machine in pieces is a function of the events: a piece behind which
/// its call goes on is nothing, and any other step is what it is with whole calls, by the value of its event and by the
/// state of whole calls behind it. A wait, whose thread sleeps with whole calls from its comparison on, is nothing in the
/// source in any of its pieces. What is due of a visible step, of a wake from outside and of a kill, and how the whole is
/// explained, follows from what the source has come to.
pub fn events_explain()
    ensures opens { (p : Program) (n : ℕ) → 0 < n
        → ComesTo p n [] (opening_at (code_of p) n) (opening_progress p) }
    ensures steps { (p : Program) (n : ℕ) (events : List EventStep) (k k' : PieceConcrete) (t : ℕ)
        (event : Event) (g : Progress)
        → ComesTo p n events k g → (here : Thread) → thread_of k.concrete t ≡ Some here
        → piece_of (code_of p) k t ≡ Ok (k', event)
        → ComesTo p n (events ++ record { thread = t; event = event } ∷ []) k'
        (progress_told p t here (state_of k.concrete).word event (whole_of p k') g) }
    ensures reached { (p : Program) (n : ℕ) (events : List EventStep) (k : PieceConcrete) (g : Progress)
        (h : ComesTo p n events k g) → (w : WellFormed p) → length events < 2 ^ 32
        → IsReached p w (length h.steps) (whole_of p k) g }
    ensures due { (p : Program) (n : ℕ) (events : List EventStep) (k k' : PieceConcrete) (t : ℕ)
        (event : Event) (g : Progress)
        → ComesTo p n events k g → (here : Thread) → thread_of k.concrete t ≡ Some here
        → piece_of (code_of p) k t ≡ Ok (k', event) → WellFormed p
        → is_piece event.name ≡ false
        → visible_step p (state_of k.concrete).word t (look (code_of p) t here) event.value ≡ true
        → length events + 1 < 2 ^ 32 → IsDue p (whole_of p k') t g }
    ensures strays { (p : Program) (n : ℕ) (events : List EventStep) (k k' : PieceConcrete) (t : ℕ)
        (event : Event) (g : Progress)
        → ComesTo p n events k g → stray_piece k t ≡ Ok (k', event)
        → ComesTo p n (events ++ record { thread = t; event = event } ∷ []) k'
        (progress_strayed p t event.value g) }
    ensures kills { (p : Program) (n : ℕ) (events : List EventStep) (k k' : PieceConcrete) (t : ℕ)
        (event : Event) (g : Progress)
        → ComesTo p n events k g → kill_piece (code_of p) k t ≡ Ok (k', event)
        → ComesTo p n (events ++ record { thread = t; event = event } ∷ []) k'
        (progress_killed p (event.value == 1) (state_of k.concrete).word (whole_of p k') t g) }
    ensures explained { (p : Program) (n : ℕ) (events : List EventStep) (k : PieceConcrete) (g : Progress)
        (h : ComesTo p n events k g) → WellFormed p → length events < 2 ^ 32
        → (e : ExplainedInPieces p (code_of p) h.steps (pieces_at k))
        × (e.actions ≡ g.actions ++ actions_up_to (length k.concrete.threads) g.deferred) }
{}
