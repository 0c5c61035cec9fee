ghost use Rattle.std.specs.Prelude.{◌≡◌, ◌++◌, ◌∷◌, [], ℕ, ℤ, List, Some, None, Contains};
ghost use Rattle.words.specs.declared.version.ImageVersion.{ImageVersion};
ghost use Rattle.program.specs.Trees.{Program, as_version};
ghost use Rattle.program.specs.declared.kinds.Member.{Member};
ghost use Rattle.meaning.specs.Labels.{Action, Broadcasts, End, Notifies};
ghost use Rattle.meaning.specs.Processes.{Over};
ghost use Rattle.meaning.specs.Runs.{CanMove, IsRun, IsStep, Leads};
ghost use Rattle.meaning.specs.States.{SourceState, opening};
ghost use Rattle.meaning.specs.Table.{Allows, Table};

/// Runs: the beginning of a run is a run, a run goes on by each action that is possible, and an action leads to at most
/// one state.
pub fn run_laws()
    ensures opens { (p : Program) → IsRun p [] (opening p) }
    ensures goes_on { (p : Program) (actions : List Action) (a : Action) (s s' : SourceState)
        → IsRun p actions s → IsStep p s a s' → IsRun p (actions ++ a ∷ []) s' }
    ensures begins { (p : Program) (first later : List Action) (s : SourceState)
        → IsRun p (first ++ later) s
        → (mid : SourceState) × IsRun p first mid × Leads p mid later s }
    ensures one { (p : Program) (a : Action) (s left right : SourceState)
        → IsStep p s a left → IsStep p s a right → left ≡ right }
    ensures one_end { (p : Program) (actions : List Action) (left right : SourceState)
        → IsRun p actions left → IsRun p actions right → left ≡ right }
{}

/// The version of a program says how many processes there can be at its opening, and no step depends on it otherwise.
pub fn step_laws()
    ensures as_other { (v : ImageVersion) (p : Program) (a : Action) (s s' : SourceState)
        → IsStep p s a s' → IsStep (as_version v p) s a s' }
    ensures of_other { (v : ImageVersion) (p : Program) (a : Action) (s s' : SourceState)
        → IsStep (as_version v p) s a s' → IsStep p s a s' }
{}

/// A notify resumes a process at least where any waits on the condition; after a broadcast nobody waits on it.
pub fn wait_laws()
    ensures notify { (p : ℕ) (c : Member) (resumed : List ℕ) (t t' : Table) (q : ℕ)
        → Allows p (Notifies c resumed) t t' → t.waits q ≡ Some c
        → (r : ℕ) × Contains resumed r × (t.waits r ≡ Some c) × (t'.waits r ≡ None) }
    ensures broadcast { (p : ℕ) (c : Member) (resumed : List ℕ) (t t' : Table) (q : ℕ)
        → Allows p (Broadcasts c resumed) t t' → t'.waits q ≡ Some c → ⊥ }
{}

/// What is printed stays printed; a process that is over stays as it is, and moves no more.
pub fn end_laws()
    ensures printed { (p : Program) (a : Action) (s s' : SourceState)
        → IsStep p s a s' → (more : List ℤ) × (s'.printed ≡ s.printed ++ more) }
    ensures stays { (p : Program) (actions : List Action) (a : Action) (s s' : SourceState) (q : ℕ)
        (end : End)
        → IsRun p actions s → IsStep p s a s' → s.process q ≡ Some (Over end)
        → s'.process q ≡ Some (Over end) }
    ensures moves { (p : Program) (s : SourceState) (q : ℕ) (end : End)
        → s.process q ≡ Some (Over end) → CanMove p s q → ⊥ }
{}
