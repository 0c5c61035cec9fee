ghost use Rattle.std.specs.Prelude.{◌≡◌, ℕ, List, Some, Contains};
ghost use Rattle.program.specs.Trees.{Program};
ghost use Rattle.program.specs.WellFormed.{WellFormed};
ghost use Rattle.program.specs.declared.kinds.Member.{Member};
ghost use Rattle.meaning.specs.Labels.{Action, Notify, Broadcast};
ghost use Rattle.meaning.specs.Processes.{Process, holds};
ghost use Rattle.meaning.specs.Runs.{IsAction, IsRun, IsStep};
ghost use Rattle.meaning.specs.States.{SourceState};
ghost use Rattle.meaning.specs.Table.{HeldBy};

/// Monitors, in each state that a run of a well-formed program leads to: who holds what, by the table and by where the
/// processes stand, is one thing; at most one process holds a monitor; its variables change only by an action of a
/// process that holds it; only such a one notifies or broadcasts a condition of it; and a process that waits on a
/// condition doesn't hold the condition's monitor.
pub fn monitor_laws()
    ensures held { (p : Program) (actions : List Action) (s : SourceState) (q m : ℕ) (b : Process)
        → WellFormed p → IsRun p actions s → s.process q ≡ Some b → Contains (holds b) m
        → s.table.hold m ≡ HeldBy q }
    ensures holder { (p : Program) (actions : List Action) (s : SourceState) (q m : ℕ)
        → WellFormed p → IsRun p actions s → s.table.hold m ≡ HeldBy q
        → (b : Process) × (s.process q ≡ Some b) × Contains (holds b) m }
    ensures one { (p : Program) (actions : List Action) (s : SourceState) (q r m : ℕ)
        (b d : Process)
        → WellFormed p → IsRun p actions s → s.process q ≡ Some b → s.process r ≡ Some d
        → Contains (holds b) m → Contains (holds d) m → q ≡ r }
    ensures variables { (p : Program) (actions : List Action) (s : SourceState) (a : Action)
        (s' : SourceState)
        (m n i : ℕ)
        → WellFormed p → IsRun p actions s → IsStep p s a s'
        → (s.table.hold m ≡ HeldBy a.process → ⊥)
        → s'.variable m n i ≡ s.variable m n i }
    ensures notify { (p : Program) (actions : List Action) (s : SourceState) (q : ℕ) (c : Member)
        (resumed : List ℕ)
        (s' : SourceState)
        → WellFormed p → IsRun p actions s
        → IsAction p s (record { process = q; kind = Notify c resumed }) s'
        → s.table.hold c.monitor ≡ HeldBy q }
    ensures broadcast { (p : Program) (actions : List Action) (s : SourceState) (q : ℕ) (c : Member)
        (resumed : List ℕ) (s' : SourceState)
        → WellFormed p → IsRun p actions s
        → IsAction p s (record { process = q; kind = Broadcast c resumed }) s'
        → s.table.hold c.monitor ≡ HeldBy q }
    ensures waits { (p : Program) (actions : List Action) (s : SourceState) (q : ℕ) (c : Member)
        → WellFormed p → IsRun p actions s → s.table.waits q ≡ Some c
        → s.table.hold c.monitor ≡ HeldBy q → ⊥ }
{}
