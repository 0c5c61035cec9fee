ghost use Rattle.std.specs.Prelude.{◌≡◌};
ghost use Rattle.program.specs.Trees.{Program};
ghost use Rattle.meaning.specs.Labels.{Cause};
ghost use Rattle.meaning.specs.Offers.{offer};
ghost use Rattle.meaning.specs.Processes.{Dying};
ghost use Rattle.meaning.specs.Values.{Variables};
ghost use Rattle.meaning.specs.Dying.{offer_dying};

/// Takes the monitor that a dying process abandons next from those that it holds, innermost first; None where it holds
/// none, and is over next.
pub fn abandon_next(held: &mut Vec<u32>) -> Option<u32>
    ensures { (p : Program) (v : Variables) (cause : Cause)
        → offer p v (Dying cause held.old.items) ≡ offer_dying result cause held.new.items }
{
    if held.is_empty() {
        return None;
    }
    Some(held.remove(0))
}
