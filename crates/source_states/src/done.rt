ghost use Rattle.std.specs.Prelude.{◌≡◌, IfOk, OnOk, Some, option_map};
ghost use Rattle.meaning.specs.Labels.{kind_of as name_of};
ghost use Rattle.meaning.specs.Processes.{Process as ProcessOf};
ghost use Rattle.meaning.specs.States.{printed_after, variables_after};
ghost use Rattle.meaning.specs.Table.{Allows};
ghost use Rattle.source_offers.specs.Offered.{effect_of, label_of};
ghost use Rattle.source_table.specs.Tables.{table_of};

use crate::action::ActionKind;
use crate::naming::named;
use crate::state::SourceState;
use source_offers::{Effect, Label};
use source_table::Table;
use std::alloc::AllocError;

/// What an action of this label does to monitors, conditions and the process table, which allow it always.
pub fn permit(table: &mut Table, process: u64, label: Label) -> Result<(), AllocError>
    ensures { OnOk result
        (Allows process (label_of label) (table_of table.old) (table_of table.new)) }
{
    match label {
        Label::Exits(monitor) => table.exit(monitor)?,
        Label::Waits(condition) => table.wait(process, condition)?,
        Label::Abandons(monitor) => table.abandon(monitor)?,
        Label::Ends(end) => table.finish(process, end)?,
        _ => {}
    }
    Ok(())
}

impl<'a> SourceState<'a> {
    ghost use Rattle.source_states.specs.Actions.{kind_of};
    ghost use Rattle.source_states.specs.Done.{IsDone};
    ghost use Rattle.source_states.specs.States.{state_of};

    // What an effect does to variables and output.
    fn affect(&mut self, effect: Effect) -> Result<(), AllocError>
        ensures { OnOk result (state_of self.new ≡ record (state_of self.old) {
          variable = variables_after (effect_of effect) (state_of self.old).variable;
          printed = printed_after (effect_of effect) (state_of self.old).printed;
        }) }
    {
        match effect {
            Effect::Nothing => {}
            Effect::Puts(place, value) => self.variables.put(place, value)?,
            Effect::Writes(number) => self.printed.push(number)?,
        }
        Ok(())
    }

    /// Does an action of a process that stands after it already.
    #[inline(always)]
    pub fn perform(&mut self, process: u64, label: Label, effect: Effect) -> Result<(), AllocError>
        ensures { OnOk result ((after : ProcessOf)
            → (state_of self.old).process process ≡ Some after
            → IsDone process (label_of label) (effect_of effect) after (state_of self.old)
            (state_of self.new)) }
    {
        permit(&mut self.table, process, label)?;
        self.affect(effect)?;
        Ok(())
    }
    // The same, and tells which action it was.
    #[inline(always)]
    pub(crate) fn perform_named(
        &mut self,
        number: u64,
        label: Label,
        effect: Effect,
    ) -> Result<Option<ActionKind>, AllocError>
        ensures { IfOk result (λ o. (option_map kind_of o ≡ Some (name_of (label_of label)))
            × ((after : ProcessOf) → (state_of self.old).process number ≡ Some after
            → IsDone number (label_of label) (effect_of effect) after (state_of self.old)
            (state_of self.new))) }
    {
        self.perform(number, label, effect)?;
        Ok(Some(named(label)))
    }
}
