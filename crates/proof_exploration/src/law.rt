ghost use Rattle.std.specs.Prelude.{◌≡◌, ℕ, List, Option, Contains, length, false, true};
ghost use Rattle.program.specs.Trees.{Program};
ghost use Rattle.program.specs.WellFormed.{WellFormed};
ghost use Rattle.meaning.specs.Labels.{Action, Kind};
ghost use Rattle.meaning.specs.Runs.{IsAction, IsRun};
ghost use Rattle.meaning.specs.States.{SourceState, opening};
ghost use Rattle.proof_exploration.specs.Exploring.{AreOwn, AreUnkilled, Follows, HasAborted, IsCalm, IsCalmKind, IsLike, IsStuck};
ghost use Rattle.proof_exploration.specs.Exploring.{LeadsAlone, MovesCalmly, PicksCalm};
ghost use Rattle.proof_exploration.specs.Searching.{IsComplete, IsCovered};

/// Who need not be interleaved. In a state that a run leads to, the calm action of a process and any action of another
/// are possible in either order, and both orders lead to one state, but for what was printed. So for each run to a
/// state in which no process can move there is one as long, to the same end but for what was printed, in which where a
/// process with a calm next action is picked, it acts.
pub fn following_laws()
    ensures commute { (p : Program) (done : List Action) (s s1 s2 : SourceState) (t u : ℕ)
        (k j : Kind)
        (x : IsAction p s (record { process = t; kind = k }) s1)
        → WellFormed p → LeadsAlone p (opening p) done s → IsCalm x.label
        → IsAction p s (record { process = u; kind = j }) s2 → (t ≡ u → ⊥)
        → (left : SourceState) × (right : SourceState)
        × IsAction p s1 (record { process = u; kind = j }) left
        × IsAction p s2 (record { process = t; kind = k }) right × IsLike left right }
    ensures follows { (p : Program) (pick : SourceState → Option ℕ)
        (actions : List Action) (s : SourceState)
        → WellFormed p → PicksCalm p pick → LeadsAlone p (opening p) actions s → IsStuck p s
        → (others : List Action) × (end : SourceState) × Follows p pick (opening p) others end
        × IsLike end s
        × (length others ≡ length actions) }
{}

/// A search is complete where the states that it keeps are closed under what may come next, and between them one process
/// with a calm next action may be followed alone. Then no run gets stuck where no kept state is stuck, and no process
/// aborts in any run where none has in a kept state. It is so of runs with stray wake-ups too, where a process that waits
/// may take its monitor again at once: each stray wake-up may be put off until then. What is covered stays so while more
/// is kept. By its name an action is calm. A run without actions from outside is one of processes' own actions.
pub fn searching_laws()
    ensures stuck { (p : Program) (kept : List SourceState) (actions : List Action)
        (s : SourceState)
        → WellFormed p → IsComplete p false kept → ((r : SourceState) → Contains kept r → IsStuck p r → ⊥)
        → LeadsAlone p (opening p) actions s → IsStuck p s → ⊥ }
    ensures aborted { (p : Program) (kept : List SourceState) (actions : List Action)
        (s : SourceState)
        → WellFormed p → IsComplete p false kept
        → ((r : SourceState) → Contains kept r → HasAborted r → ⊥)
        → LeadsAlone p (opening p) actions s → HasAborted s → ⊥ }
    ensures stuck_waking { (p : Program) (kept : List SourceState) (actions : List Action)
        (s : SourceState)
        → WellFormed p → IsComplete p true kept → ((r : SourceState) → Contains kept r → IsStuck p r → ⊥)
        → IsRun p actions s → AreUnkilled actions → IsStuck p s → ⊥ }
    ensures aborted_waking { (p : Program) (kept : List SourceState) (actions : List Action)
        (s : SourceState)
        → WellFormed p → IsComplete p true kept
        → ((r : SourceState) → Contains kept r → HasAborted r → ⊥)
        → IsRun p actions s → AreUnkilled actions → HasAborted s → ⊥ }
    ensures grows { (p : Program) (kept more : List SourceState) (n : ℕ) (s : SourceState)
        → ((r : SourceState) → Contains kept r → Contains more r)
        → IsCovered p kept n s → IsCovered p more n s }
    ensures calm { (p : Program) (s s' : SourceState) (t : ℕ) (k : Kind)
        → IsAction p s (record { process = t; kind = k }) s' → IsCalmKind k → MovesCalmly p s t }
    ensures own { (p : Program) (actions : List Action) (s : SourceState)
        → IsRun p actions s → AreOwn actions → LeadsAlone p (opening p) actions s }
{}
