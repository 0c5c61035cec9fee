ghost use Rattle.std.specs.Prelude.{◌≡◌, ◌<◌, ◌≤◌, ℕ, List, map};
ghost use Rattle.program.specs.Trees.{Program};
ghost use Rattle.program.specs.WellFormed.{WellFormed};
ghost use Rattle.meaning.specs.Runs.{IsRun};
ghost use Rattle.meaning.specs.States.{SourceState, opening};
ghost use Rattle.proof_commutation.specs.Placed.{LeadsMarked, Marked, action_of, kinds_of, placed_actions};

/// A run of a well-formed program may be reordered: where each action that may be deferred is put right before the
/// next of its process that isn't, and what is deferred at the end comes last, the actions are a run to the same
/// state. Each process does the same in it, in the same order.
pub fn ordering_laws()
    ensures same_end { (p : Program) (actions : List Marked) (s : SourceState)
        → WellFormed p → LeadsMarked p (opening p) actions s
        → IsRun p (placed_actions s.table.made actions) s }
    ensures same_actions { (n t : ℕ) (actions : List Marked)
        → 0 < t → t ≤ n → kinds_of t (placed_actions n actions)
        ≡ kinds_of t (map action_of actions) }
{}
