ghost use Rattle.std.specs.Prelude.{◌≡◌, ℕ, List, Option, Some, Contains, ◌∷◌, [], false};
ghost use Rattle.program.specs.Trees.{Program};
ghost use Rattle.program.specs.WellFormed.{WellFormed};
ghost use Rattle.meaning.specs.Labels.{Action};
ghost use Rattle.meaning.specs.Processes.{Process};
ghost use Rattle.meaning.specs.Runs.{CanMove, IsRun};
ghost use Rattle.meaning.specs.States.{SourceState, opening};
ghost use Rattle.proof_exploration.specs.Exploring.{IsLike, IsStuck, LeadsAlone};
ghost use Rattle.proof_exploration.specs.Blocking.{ComesTo, GoesOn, IsBlocked, IsHeldUp, IsLive, MayWait};
ghost use Rattle.proof_exploration.specs.Searching.{IsComplete, IsCovered, IsExpanded};

/// Who is blocked for good. A process may do something still where it can move, or where it is over, and where processes'
/// own actions lead to a state in which it may; and what is covered by one state comes to it. So where a search is
/// complete, and each process may do something still in each kept state, no process is blocked for good in any run. But
/// where kept states are closed under what may come next, and a process stands in all of them where it stood in the
/// state that they cover, and can't move, it is blocked for good there. A stuck state is a special case.
pub fn blocking_laws()
    ensures moves { (p : Program) (s : SourceState) (q : ℕ) → CanMove p s q → IsLive p s q }
    ensures over { (p : Program) (s : SourceState) (q : ℕ) → (GoesOn s q → ⊥) → IsLive p s q }
    ensures back { (p : Program) (s r : SourceState) (q : ℕ) → ComesTo p s r → IsLive p r q → IsLive p s q }
    ensures comes { (p : Program) (n : ℕ) (s r : SourceState) → IsCovered p (r ∷ []) n s → ComesTo p s r }
    ensures never { (p : Program) (kept : List SourceState) (actions : List Action) (s : SourceState) (q : ℕ)
        → WellFormed p → IsComplete p false kept → ((r : SourceState) → Contains kept r → (t : ℕ) → IsLive p r t)
        → LeadsAlone p (opening p) actions s → IsBlocked p s q → ⊥ }
    ensures here { (p : Program) (kept : List SourceState) (actions : List Action) (s : SourceState) (q : ℕ)
        (at : Process)
        → WellFormed p → ((r : SourceState) → Contains kept r → IsExpanded p kept r) → IsRun p actions s
        → (n : ℕ) × IsCovered p kept n s → MayWait at
        → ((r : SourceState) → Contains kept r → IsHeldUp p r q at)
        → s.process q ≡ Some at → IsBlocked p s q }
    ensures stuck { (p : Program) (s : SourceState) → IsStuck p s → (q : ℕ) × IsBlocked p s q }
    ensures like { (p : Program) (s r : SourceState) (q : ℕ) → IsLike s r → IsBlocked p s q → IsBlocked p r q }
{}
