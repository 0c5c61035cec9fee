ghost use Rattle.std.specs.Prelude.{◌≡◌, ◌+◌, ◌∷◌, ◌++◌, [], ◌↔◌, ℕ, List, Some, None};
ghost use Rattle.words.specs.Updates.{put};
ghost use Rattle.program.specs.Trees.{Program};
ghost use Rattle.meaning.specs.Labels.{End, Kind, Label, kind_of};
ghost use Rattle.meaning.specs.Processes.{Over, Process};
ghost use Rattle.meaning.specs.Runs.{IsAction, IsStep};
ghost use Rattle.meaning.specs.States.{SourceState};
ghost use Rattle.meaning.specs.Table.{HeldBy};
ghost use Rattle.proof_commutation.specs.Deferring.{IsBehind, MayDefer};

/// Internal actions may be deferred. A state is behind itself with nothing deferred; an internal action of the state
/// ahead is one more that is deferred; the first that is deferred of a process is possible in the state behind, and
/// then is deferred no more; an action of a process of which nothing is deferred is possible in the state behind,
/// where it is in the one ahead; and the same processes are over in both.
pub fn deferral_laws()
    ensures begins { (p : Program) (c : SourceState) → IsBehind p (λ t. []) c c }
    ensures defers { (p : Program) (deferred : ℕ → List Kind)
        (a c c' : SourceState) (t : ℕ) (q r : Process)
        (label : Label)
        → IsBehind p deferred a c → c.process t ≡ Some q → MayDefer p t c.variable c.table q label r
        → c'.table ≡ c.table → c'.variable ≡ c.variable → c'.printed ≡ c.printed
        → c'.process ≡ put c.process t (Some r)
        → IsBehind p (put deferred t (deferred t ++ kind_of label ∷ [])) a c' }
    ensures takes { (p : Program) (deferred : ℕ → List Kind)
        (a c : SourceState) (t : ℕ) (k : Kind) (ks : List Kind)
        → IsBehind p deferred a c → deferred t ≡ k ∷ ks
        → (a' : SourceState) × IsStep p a (record { process = t; kind = k }) a'
        × IsBehind p (put deferred t ks) a' c }
    ensures goes_on { (p : Program) (deferred : ℕ → List Kind)
        (a c c' : SourceState) (t : ℕ) (k : Kind)
        → IsBehind p deferred a c → deferred t ≡ []
        → IsAction p c (record { process = t; kind = k }) c'
        → ((m n i : ℕ) → (c.table.hold m ≡ HeldBy t → ⊥) → c'.variable m n i ≡ c.variable m n i)
        → ((u m : ℕ) → (u ≡ t → ⊥) → c.table.hold m ≡ HeldBy u → c'.table.hold m ≡ HeldBy u)
        → c.process (c.table.made + 1) ≡ None
        → (a' : SourceState) × IsStep p a (record { process = t; kind = k }) a'
        × IsBehind p deferred a' c' }
    ensures over { (p : Program) (deferred : ℕ → List Kind) (a c : SourceState) (q : ℕ) (end : End)
        → IsBehind p deferred a c
        → (a.process q ≡ Some (Over end)) ↔ (c.process q ≡ Some (Over end)) }
{}
