ghost use Rattle.std.specs.Prelude.{IfOk};
ghost use Rattle.program.specs.Views.{program_of};
ghost use Rattle.meaning.specs.Runs.{IsKill};

use crate::dying::{entered, given_up, held, is_killable, left, notified};
use crate::state::SourceState;
use program::Program;
use source_offers::{Stage, next_offer};
use std::alloc::{AllocError, Global};
use words::Cause;

impl<'a> SourceState<'a> {
    ghost use Rattle.source_states.specs.States.{state_of};
    ghost use Rattle.source_states.specs.Taken.{IsAnswer};

    /// A process dies where it stands: false where that isn't possible, and then nothing is known of the state.
    pub(crate) fn kill(
        &mut self,
        alloc: Global,
        program: &'a Program,
        number: u64,
        resumed: &[u64],
        last: Option<u32>,
    ) -> Result<bool, AllocError>
        ensures { IfOk result (λ b. IsAnswer b
            (IsKill (program_of program.now) (state_of self.old) number resumed.now last)
            (state_of self.new)) }
    {
        let Some(process) = self.processes.get_mut(number) else {
            return Ok(false);
        };
        if !is_killable(process) {
            return Ok(false);
        }
        let monitors = held(alloc, process)?;
        let taken = entered(process);
        let offer = next_offer(alloc, program, &self.variables, process)?;
        let Some(monitors) = left(alloc, monitors, taken, given_up(&offer), last)? else {
            return Ok(false);
        };
        if !self.table.kill(number, notified(&offer), resumed) {
            return Ok(false);
        }
        process.stage = Stage::Dying(Cause::Killed, monitors);
        Ok(true)
    }
}
