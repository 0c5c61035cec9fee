ghost use Rattle.std.specs.Prelude.{◌≡◌, IfOk, option_map};
ghost use Rattle.program.specs.Views.{program_of};
ghost use Rattle.meaning.specs.Offers.{offer as offer_by};
ghost use Rattle.source_offers.specs.NextAction.{offer_of};

use crate::state::SourceState;
use program::Checked;
use source_offers::{Offer, Process, next_offer};
use std::alloc::{AllocError, Global};

impl<'a> SourceState<'a> {
    ghost use Rattle.source_states.specs.States.{state_of};

    /// What a process offers to do next, and beside it the process, which stands after that already where it does
    /// something for itself alone; None where there is no such process. The state stays as it is.
    pub fn offered(
        &self,
        alloc: Global,
        checked: &'a Checked,
        process: u64,
    ) -> Result<Option<(Offer<'a>, Process<'a>)>, AllocError>
        ensures { let p = program_of checked.now.tree in IfOk result
            (λ o. option_map (λ n. offer_of p n.0 n.1) o
            ≡ option_map (offer_by p (state_of self.now).variable)
            ((state_of self.now).process process)) }
    {
        let Some(found) = self.process(process) else {
            return Ok(None);
        };
        let mut process = found.copy(alloc)?;
        let offer = next_offer(alloc, checked.program(), &self.variables, &mut process)?;
        Ok(Some((offer, process)))
    }
}
