ghost use Rattle.std.specs.Prelude.{◌≡◌, IfOk, Some, is_some, option_map};
ghost use Rattle.program.specs.Views.{program_of};
ghost use Rattle.meaning.specs.Labels.{Fails as FailsKind};
ghost use Rattle.meaning.specs.Offers.{Offer as OfferOf, dies};
ghost use Rattle.source_offers.specs.Ahead.{ahead_of};
ghost use Rattle.source_offers.specs.Frames.{callers_of, frame_of};
ghost use Rattle.source_offers.specs.Stages.{process_of};
ghost use Rattle.source_table.specs.Tables.{table_of};
ghost use Rattle.source_states.specs.Actions.{kind_of};
ghost use Rattle.source_states.specs.Internal.{internal_kind};

use crate::action::ActionKind;
use crate::state::SourceState;
use program::Program;
use source_offers::{Ahead, Offer, Offered, Process, look_ahead, next_offer};
use source_table::Table;
use std::alloc::{AllocError, Global};
use words::{Cause, Fault};

// Whether what comes next is internal by this table.
fn is_internal(table: &Table, ahead: Ahead) -> bool
    ensures { (o : OfferOf) → ahead ≡ ahead_of o
        → result ≡ is_some (internal_kind o (table_of table.now)) }
{
    match ahead {
        Ahead::Internal => true,
        Ahead::Visible => false,
        Ahead::Makes => table.made() >= table.most(),
        Ahead::Claims(child) => table.claimed(child),
    }
}

// A process faults for this reason.
fn fail(
    alloc: Global,
    process: &mut Process,
    reason: Fault,
) -> Result<Option<ActionKind>, AllocError>
    ensures { IfOk result (λ o. (option_map kind_of o ≡ Some (FailsKind reason))
        × (process_of process.new
        ≡ dies reason (frame_of process.old.frame) (callers_of process.old.callers.items))) }
{
    process.die(alloc, Cause::Faulted(reason))?;
    Ok(Some(ActionKind::Fails(reason)))
}

impl<'a> SourceState<'a> {
    ghost use Rattle.source_states.specs.Internal.{IsInternalTaken};
    ghost use Rattle.source_states.specs.States.{state_of};

    /// Takes the internal action that a process can take next, one that no other process sees, and tells which it was;
    /// None, and nothing is done, where the process can't take one. It takes time in proportion to what the action
    /// touches.
    pub fn take_internal(
        &mut self,
        alloc: Global,
        program: &'a Program,
        number: u64,
    ) -> Result<Option<ActionKind>, AllocError>
        ensures { IfOk result
            (λ o. IsInternalTaken (program_of program.now) number (option_map kind_of o)
            (state_of self.old) (state_of self.new)) }
    {
        let Some(process) = self.processes.get_mut(number) else {
            return Ok(None);
        };
        if !is_internal(&self.table, look_ahead(program, &self.variables, process)) {
            return Ok(None);
        }
        match next_offer(alloc, program, &self.variables, process)? {
            Offer::Own(Offered::Does(label, effect)) => self.perform_named(number, label, effect),
            Offer::Own(Offered::Makes(_, _)) => fail(alloc, process, Fault::ProcessTableFull),
            Offer::Own(Offered::Claims { .. }) => fail(alloc, process, Fault::HandleNotJoinable),
            _ => Ok(None),
        }
    }
}
