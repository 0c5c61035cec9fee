ghost use Rattle.std.specs.Prelude.{◌≡◌, ◌+◌, ◌<◌, ◌^◌, ◌∷◌, [], ℕ, suc, Bool, true, false, List, Option, Some, length};
ghost use Rattle.robustexit.specs.ExitRules.{exit_of};
ghost use Rattle.lowering.specs.Pieces.{code_of, marks_of};
ghost use Rattle.proof_commutation.specs.Deferring.{is_internal};
ghost use Rattle.proof_thread.specs.Variables.{IsVariable, variable_address};
ghost use Rattle.locals.specs.Looks.{look};
ghost use Rattle.locals.specs.Threads.{Thread, is_dying};
ghost use Rattle.machine.specs.PieceStates.{IsHeldRight, PieceState};
ghost use Rattle.machine.specs.Runs.{IsOwnStep, MachineRun, Step};
ghost use Rattle.machine.specs.States.{State, opening_state};
ghost use Rattle.meaning.specs.Labels.{Kind, Label, kind_of};
ghost use Rattle.meaning.specs.Runs.{IsStep as IsSourceStep, Leads};
ghost use Rattle.meaning.specs.States.{SourceState, opening};
ghost use Rattle.proof_simulation.specs.Ordering.{MovesSo, Resumes, StepsSo, act};
ghost use Rattle.proof_simulation.specs.Deferred.{deferred_then, raised_at, raised_then};
ghost use Rattle.proof_simulation.specs.Corresponding.{Corresponds};
ghost use Rattle.proof_commutation.specs.Placed.{actions_up_to};
ghost use Rattle.proof_thread.specs.Deferrals.{mark_of};
ghost use Rattle.proof_simulation.specs.Explaining.{IsDue, IsReached, explanation, explanation_of_trace};
ghost use Rattle.proof_simulation.specs.Progress.{Progress, answer_in, visible_step, progress, progress_of_trace};
ghost use Rattle.proof_pieces.specs.Traces.{Trace, none_taken};
ghost use Rattle.proof_pieces.specs.Whole.{whole};
ghost use Rattle.words.specs.Updates.{put};
ghost use Rattle.proof_simulation.specs.Tracking.{CanTake, HasDeferred, RaisedSo, Tracks, TracksKill, TracksStray};
ghost use Rattle.proof_simulation.specs.Strays.{stray_condition};
ghost use Rattle.program.specs.Trees.{Program};
ghost use Rattle.program.specs.WellFormed.{WellFormed};
ghost use Rattle.program.specs.declared.kinds.Member.{Member};
ghost use Rattle.refinement.specs.Refines.{Explained, Refines};
ghost use Rattle.refinement.specs.Pieces.{ExplainedInPieces, RefinesInPieces};
ghost use Rattle.refinement.specs.Seen.{machine_end, source_end};
ghost use Rattle.words.specs.Signed.{word_of};

/// The code of each checked program refines it, in the whole language: locals, expressions, IF, WHILE, procedures with
/// arguments and results, PRINT, ABORT, faults, FORK, and JOIN with INTO and ABORTED; monitors with ENTRY and INTERNAL
/// procedures, nested calls and re-entry; WAIT, NOTIFY and BROADCAST; abandoned monitors and RECOVER parts; over every
/// schedule of the machine, with wakes that nobody called for, and kills between any two steps. It does so where a futex
/// call is one step, and where it takes the buckets of its words, compares and acts in steps of its own, between which
/// steps of other threads, such wakes and kills come, over any number of buckets.
pub fn code_refines()
    ensures whole { (p : Program) → WellFormed p → Refines p (code_of p) }
    ensures pieces { (p : Program) → WellFormed p → RefinesInPieces p (code_of p) }
{}

/// The source follows the machine, step by step. It tracks the machine's opening state; a step of the machine that is
/// no visible action (`MovesSo` says which steps are, by the request and its answer) leaves it where it is; at one
/// that is, the deferred actions of the process are possible one by one, and then that action is, whose label the
/// offer of the process tells; a notify or a broadcast resumes those who wait and don't sleep on the word of the
/// condition. Where it tracks the machine, the same is printed, variables have the same values, and processes the same
/// ends.
pub fn source_follows()
    ensures opens { (p : Program) (w : WellFormed p)
        → Tracks p w 0 (opening_state (code_of p)) (opening p) }
    ensures tracks { (p : Program) (w : WellFormed p) (steps : ℕ) (s : State) (a : SourceState)
        → Tracks p w steps s a
        → (l : Step) (s' : State) (st : IsOwnStep (code_of p) s l s') (done : Bool)
        → MovesSo p done s l.thread l.woken (look (code_of p) l.thread st.thread) s'
        → steps + 1 < 2 ^ 32
        → (done ≡ false → Tracks p w (suc steps) s' a)
        × (done ≡ true → (ks : List Kind) × HasDeferred p w (suc steps) s' l.thread a ks) }
    ensures catches_up { (p : Program) (w : WellFormed p) (steps : ℕ) (s : State) (t : ℕ)
        (a : SourceState) (k : Kind)
        (ks : List Kind) → HasDeferred p w steps s t a (k ∷ ks)
        → (label : Label) × (k ≡ kind_of label) × (is_internal label ≡ true) × CanTake p a t label
        × ((a' : SourceState) → IsSourceStep p a (act t k) a' → HasDeferred p w steps s t a' ks) }
    ensures takes_visible { (p : Program) (w : WellFormed p) (steps : ℕ) (s : State) (t : ℕ)
        (a : SourceState)
        → HasDeferred p w steps s t a []
        → (label : Label) × (is_internal label ≡ false) × CanTake p a t label
        × Resumes p s a.table label
        × ((a' : SourceState) → IsSourceStep p a (act t (kind_of label)) a'
        → Tracks p w steps s a') }
    ensures output { (p : Program) (w : WellFormed p) (steps : ℕ) (s : State) (a : SourceState)
        → Tracks p w steps s a → s.output ≡ a.printed }
    ensures variables { (p : Program) (w : WellFormed p) (steps : ℕ) (s : State) (a : SourceState)
        → Tracks p w steps s a → (m : Member) (i : ℕ) → IsVariable p m i
        → s.word (variable_address p m i) ≡ word_of (a.variable m.monitor m.number i) }
    ensures ends { (p : Program) (w : WellFormed p) (steps : ℕ) (s : State) (a : SourceState)
        → Tracks p w steps s a → (q : ℕ) → machine_end s q ≡ source_end a q }
{}

/// What is deferred behind the machine follows from the code's marks. At a step that isn't visible, the process has
/// one more deferred action just where the step has one (`StepsSo` says which steps have, and which action, by the
/// mark at which the thread stands, the request and its answer): an assignment of a local, a test, a call, a return, a
/// fault, which is deferred once. Behind a visible one, all that is deferred of the process is taken first, in order,
/// and then nothing is deferred of it. At a kill of a thread that isn't dying, too, and then the process can be killed:
/// if the thread has raised the number of a condition's word and woken nobody yet, it resumes those who wait on the
/// condition and don't sleep on its word; and it abandons the monitor that was pending last, if the thread owns it. At
/// any time all that is deferred may be taken, by rising number of process, and then the source is where the machine
/// is.
pub fn source_defers()
    ensures opens { (p : Program) (w : WellFormed p)
        → (o : Tracks p w 0 (opening_state (code_of p)) (opening p)) × (o.deferred ≡ (λ t. []))
        × ((u : ℕ) → raised_at o.ties.world u ≡ false) }
    ensures defers { (p : Program) (w : WellFormed p) (steps : ℕ) (s : State) (a : SourceState)
        (r : Tracks p w steps s a)
        (l : Step) (s' : State) (st : IsOwnStep (code_of p) s l s') (done raises : Bool)
        (deferral : Option Kind)
        → StepsSo p done raises deferral (mark_of (marks_of p) st.thread) s l.thread l.woken
        (look (code_of p) l.thread st.thread) s'
        → steps + 1 < 2 ^ 32
        → (done ≡ false → (n : Tracks p w (suc steps) s' a)
        × (n.deferred ≡ put r.deferred l.thread (deferred_then deferral (r.deferred l.thread)))
        × RaisedSo r.ties.world n.ties.world l.thread
        (raised_then done raises (raised_at r.ties.world l.thread)))
        × (done ≡ true → (o : HasDeferred p w (suc steps) s' l.thread a (r.deferred l.thread))
        × (o.deferred ≡ r.deferred)
        × RaisedSo r.ties.world o.ties.world l.thread
        (raised_then done raises (raised_at r.ties.world l.thread))) }
    ensures catches_up { (p : Program) (w : WellFormed p) (steps : ℕ) (s : State) (t : ℕ)
        (a : SourceState) (k : Kind)
        (ks : List Kind) (o : HasDeferred p w steps s t a (k ∷ ks))
        → (label : Label) × (k ≡ kind_of label) × (is_internal label ≡ true) × CanTake p a t label
        × ((a' : SourceState) → IsSourceStep p a (act t k) a'
        → (n : HasDeferred p w steps s t a' ks) × (n.deferred ≡ put o.deferred t ks)
        × ((u : ℕ) → raised_at n.ties.world u ≡ raised_at o.ties.world u)) }
    ensures takes_visible { (p : Program) (w : WellFormed p) (steps : ℕ) (s : State) (t : ℕ)
        (a : SourceState)
        (o : HasDeferred p w steps s t a [])
        → (label : Label) × (is_internal label ≡ false) × CanTake p a t label
        × Resumes p s a.table label
        × ((a' : SourceState) → IsSourceStep p a (act t (kind_of label)) a'
        → (n : Tracks p w steps s a') × (n.deferred ≡ o.deferred)
        × ((u : ℕ) → raised_at n.ties.world u ≡ raised_at o.ties.world u)) }
    ensures strays { (p : Program) (w : WellFormed p) (steps : ℕ) (s : State) (a : SourceState)
        (r : Tracks p w steps s a) (t address : ℕ) → s.asleep t ≡ Some address
        → TracksStray p w steps s t a r.deferred r.ties.world
        (stray_condition p address (a.table.waits t)) }
    ensures kills { (p : Program) (w : WellFormed p) (steps : ℕ) (s : State) (a : SourceState)
        (r : Tracks p w steps s a) (t : ℕ) (x : Thread) → s.thread t ≡ Some x → is_dying x ≡ false
        → TracksKill p w steps s t a r.deferred (raised_at r.ties.world t) r.ties.world }
    ensures finishes { (p : Program) (w : WellFormed p) (steps : ℕ) (s : State) (a : SourceState)
        (r : Tracks p w steps s a)
        → (source : SourceState) × Leads p a (actions_up_to s.made r.deferred) source
        × Corresponds p w steps s source }
{}

/// The run of the source that explains a run of the machine is a function of the machine's run (`explanation`): at a
/// visible step comes what is deferred of its process by the code's marks, and then the action that the process
/// offers; what is deferred at the end comes last, by rising number of process. What the source has come to behind
/// each step (`progress`) is a run of the program, which goes with the machine; at a visible step, what is deferred of
/// its process is possible, and then a visible action of it. With its explanation a run of the machine is explained in
/// all that `Refines` says: it is a run of the program, the same is seen of both, and it keeps pace.
pub fn run_explains()
    ensures reached { (p : Program) (w : WellFormed p) (steps : List Step) (s : State)
        (run : MachineRun (code_of p) steps s)
        → length steps < 2 ^ 32 → IsReached p w (length steps) s (progress p steps s run) }
    ensures due { (p : Program) (w : WellFormed p) (steps : ℕ) (s : State) (g : Progress)
        → IsReached p w steps s g
        → (l : Step) (s' : State) (st : IsOwnStep (code_of p) s l s') → steps + 1 < 2 ^ 32
        → visible_step p s.word l.thread (look (code_of p) l.thread st.thread)
        (answer_in (exit_of p.version) s s' l.thread l.woken (look (code_of p) l.thread st.thread) st.moves) ≡ true
        → IsDue p s' l.thread g }
    ensures explained { (p : Program) → WellFormed p → (steps : List Step) (s : State)
        (run : MachineRun (code_of p) steps s)
        → length steps < 2 ^ 32
        → (e : Explained p (code_of p) steps s) × (e.actions ≡ explanation p steps s run) }
{}

/// A run whose futex calls are taken in pieces is explained by the same means, as a trace of steps with whole calls:
/// each of its steps is loud, one of those, or silent, none of them. A run of the machine is a trace along which the
/// source comes to the same. What the source has come to behind each step of a trace is a run of the program, which
/// goes with the state with whole calls; and its explanation explains it in all that `Refines` says of that state and
/// of the run's own steps: it keeps pace, though a stretch counts pieces too.
pub fn traces_explain()
    ensures traced { (p : Program) (steps : List Step) (s : State)
        (run : MachineRun (code_of p) steps s)
        → (trace : Trace (code_of p) (opening_state (code_of p)) none_taken steps s)
        × (progress_of_trace p steps s trace ≡ progress p steps s run) }
    ensures reached { (p : Program) (w : WellFormed p) (steps : List Step) (s : State)
        (trace : Trace (code_of p) (opening_state (code_of p)) none_taken steps s)
        → length steps < 2 ^ 32
        → IsReached p w (length steps) s (progress_of_trace p steps s trace) }
    ensures explained { (p : Program) → WellFormed p → (steps : List Step) (s : State)
        (trace : Trace (code_of p) (opening_state (code_of p)) none_taken steps s)
        → length steps < 2 ^ 32
        → (e : Explained p (code_of p) steps s)
        × (e.actions ≡ explanation_of_trace p steps s trace) }
{}

/// A state that a run in pieces has come to is explained by the explanation of the run's trace (`pieces_are_whole_calls`
/// of `proof_pieces` gives it), in all that `RefinesInPieces` says: what is seen there is what is seen of its state with
/// whole calls, and where no thread can take a piece no bucket is held, and the two are one.
pub fn piece_runs_explain()
    ensures { (p : Program) → WellFormed p → (steps : List Step) (s : PieceState)
        → IsHeldRight (code_of p) s
        → (trace : Trace (code_of p) (opening_state (code_of p)) none_taken steps
        (whole (code_of p) s))
        → length steps < 2 ^ 32
        → (e : ExplainedInPieces p (code_of p) steps s)
        × (e.actions ≡ explanation_of_trace p steps (whole (code_of p) s) trace) }
{}
