ghost use Rattle.std.specs.Prelude.{IfOk, IfSome, option_map};
ghost use Rattle.program.specs.Views.{program_of};
ghost use Rattle.source_table.specs.Tables.{table_of};
ghost use Rattle.source_states.specs.Actions.{kind_of};
ghost use Rattle.source_states.specs.Own.{AreToResume};

use crate::action::ActionKind;
use crate::state::SourceState;
use program::Program;
use source_offers::{Foreseen, Offer, Offered, foresee, next_offer};
use source_table::Table;
use std::alloc::{AllocError, Global};

// The processes that an action resumes where it is the only one; None where there may be another, or none.
fn to_resume(
    alloc: Global,
    table: &Table,
    foreseen: Foreseen,
) -> Result<Option<Vec<u64>>, AllocError>
    ensures { IfOk result (λ o. IfSome o (λ v. AreToResume foreseen (table_of table.now) v.items)) }
{
    match foreseen {
        Foreseen::Unknown => Ok(None),
        Foreseen::Acts => Ok(Some(Vec::new(alloc))),
        Foreseen::Broadcasts(condition) => Ok(Some(table.waiting(alloc, condition)?)),
        Foreseen::Notifies(condition) => {
            let waiting = table.waiting(alloc, condition)?;
            if waiting.len() > 1 {
                return Ok(None);
            }
            Ok(Some(waiting))
        }
    }
}

impl<'a> SourceState<'a> {
    ghost use Rattle.source_states.specs.Own.{IsOwnTaken};
    ghost use Rattle.source_states.specs.States.{state_of};

    /// Takes the next action of a process, where it is the only one that the process can take of its own whatever the
    /// others do, and tells which it was; None, and nothing is done, where that isn't known beforehand. The process is
    /// changed in its place.
    pub fn take_own(
        &mut self,
        alloc: Global,
        program: &'a Program,
        number: u64,
    ) -> Result<Option<ActionKind>, AllocError>
        ensures { IfOk result (λ o. IsOwnTaken (program_of program.now) number (option_map kind_of o)
            (state_of self.old) (state_of self.new)) }
    {
        let Some(process) = self.processes.get_mut(number) else {
            return Ok(None);
        };
        let Some(resumed) = to_resume(alloc, &self.table, foresee(process))? else {
            return Ok(None);
        };
        match next_offer(alloc, program, &self.variables, process)? {
            Offer::Own(Offered::Does(label, effect)) => self.perform_named(number, label, effect),
            Offer::Own(Offered::NotifiesSome(condition)) => {
                let _done = self.table.notify(condition, resumed.as_slice());
                Ok(Some(ActionKind::Notify(condition, resumed)))
            }
            Offer::Own(Offered::NotifiesAll(condition)) => {
                let _done = self.table.broadcast(condition, resumed.as_slice());
                Ok(Some(ActionKind::Broadcast(condition, resumed)))
            }
            _ => Ok(None),
        }
    }
}
