ghost use Rattle.std.specs.Prelude.{◌≡◌, Some, ℕ};
ghost use Rattle.meaning.specs.Labels.{Action, Label, kind_of};
ghost use Rattle.meaning.specs.Offers.{Does, Effect, TakesUp, offer};
ghost use Rattle.meaning.specs.Processes.{Process};
ghost use Rattle.meaning.specs.Runs.{IsAction};
ghost use Rattle.meaning.specs.States.{SourceState};
ghost use Rattle.program.specs.Trees.{Program};
ghost use Rattle.meaning.specs.Table.{Allows, Table};
ghost use Rattle.source_states.specs.Done.{IsDone};
ghost use Rattle.source_states.specs.Internal.{if_internal, next_internal};

/// A process that offers one action can do this action and no other, and it leads where its label and effect say.
pub fn offer_laws()
    ensures does { (p : Program) (s s' : SourceState) (n : ℕ) (before after : Process)
        (label : Label)
        (effect : Effect)
        → s.process n ≡ Some before → offer p s.variable before ≡ Does label effect after
        → IsDone n label effect after s s'
        → IsAction p s (record { process = n; kind = kind_of label }) s' }
    ensures only { (p : Program) (s s' : SourceState) (a : Action) (before after : Process)
        (label : Label)
        (effect : Effect)
        → s.process a.process ≡ Some before → offer p s.variable before ≡ Does label effect after
        → IsAction p s a s'
        → (a.kind ≡ kind_of label) × IsDone a.process label effect after s s' }
{}

/// Of a process that can take an action of its own, the internal action is that one where it is internal, and else
/// there is none.
pub fn internal_laws()
    ensures { (p : Program) (s : SourceState) (n : ℕ) (before after : Process) (label : Label)
        (effect : Effect)
        (t : Table)
        → s.process n ≡ Some before → TakesUp (offer p s.variable before) label effect after
        → Allows n label s.table t → next_internal p s n ≡ if_internal label }
{}
