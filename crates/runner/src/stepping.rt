ghost use Rattle.std.specs.Prelude.{◌≡◌, is_some};
ghost use Rattle.locals.specs.Looks.{Look};
ghost use Rattle.locals.specs.Requests.{next_step_of};
ghost use Rattle.locals.specs.Steps.{local_next};

use locals::NextStep;

/// Whether a thread's next step is a local one. So who has asked for it once needn't ask the thread again.
pub fn is_local(next: &NextStep) -> bool
    ensures { (l : Look) → next.now ≡ next_step_of l → result ≡ is_some (local_next l) }
{
    matches!(*next, NextStep::Local)
}
