ghost use Rattle.std.specs.Prelude.{◌≡◌, None};
ghost use Rattle.meaning.specs.Labels.{Action};
ghost use Rattle.program.specs.Names.{Naming};
ghost use Rattle.actionlines.specs.Lines.{line};
ghost use Rattle.action_text.specs.ActionText.{action_line, last_in};

/// The line of an action is the one that is shown, but for a kill that says which monitor is abandoned last.
pub fn action_text_laws()
    ensures shown { (names : Naming) (a : Action) → last_in a.kind ≡ None
        → action_line names a ≡ line names a }
{}
