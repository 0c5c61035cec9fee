ghost use Rattle.std.specs.Prelude.{◌≡◌, IfOk, OnOk, Some, if◌then◌else◌};
ghost use Rattle.words.specs.Updates.{put};
ghost use Rattle.program.specs.Views.{program_of};
ghost use Rattle.meaning.specs.Processes.{goes_on, recovers};
ghost use Rattle.source_offers.specs.NextAction.{offer_of};
ghost use Rattle.source_offers.specs.Frames.{callers_of, frame_of};
ghost use Rattle.source_offers.specs.declared.next_action.Offer.TheVariants.{Enters, Resumes};

use crate::action::ActionKind;
use crate::state::SourceState;
use program::Program;
use source_offers::Process;
use std::alloc::{AllocError, Global};

impl<'a> SourceState<'a> {
    ghost use Rattle.source_states.specs.Actions.{kind_of};
    ghost use Rattle.source_states.specs.States.{state_of};
    ghost use Rattle.source_states.specs.Taken.{IsAnswer, IsTakenUp};

    // A process that took a monitor goes on, or recovers where the monitor was abandoned.
    fn go_in(
        &mut self,
        alloc: Global,
        program: &'a Program,
        number: u64,
        monitor: u32,
        was_abandoned: bool,
        process: Process<'a>,
    ) -> Result<(), AllocError>
        ensures { OnOk result (state_of self.new ≡ record (state_of self.old) {
          process = put (state_of self.old).process number (Some (if was_abandoned
              then recovers (program_of program.now) monitor (frame_of process.entry.frame)
              (callers_of process.entry.callers.items)
              else goes_on (Some monitor) (frame_of process.entry.frame)
              (callers_of process.entry.callers.items)));
        }) }
    {
        let mut process = process;
        if was_abandoned {
            process.recover(alloc, program, monitor)?;
        } else {
            process.go_on(Some(monitor));
        }
        self.place(number, process)
    }

    // A process enters a monitor.
    pub(crate) fn enter(
        &mut self,
        alloc: Global,
        program: &'a Program,
        number: u64,
        kind: &ActionKind,
        monitor: u32,
        process: Process<'a>,
    ) -> Result<bool, AllocError>
        ensures { IfOk result (λ b. IsAnswer b
            (IsTakenUp number (kind_of kind.now)
            (offer_of (program_of program.now) (Enters monitor) process.entry)
            (state_of self.old)) (state_of self.new)) }
    {
        let ActionKind::Enter(named) = kind else {
            return Ok(false);
        };
        if *named != monitor {
            return Ok(false);
        }
        let Some(was_abandoned) = self.table.enter(number, monitor)? else {
            return Ok(false);
        };
        self.go_in(alloc, program, number, monitor, was_abandoned, process)?;
        Ok(true)
    }

    // A process takes its monitor again after a WAIT.
    pub(crate) fn resume(
        &mut self,
        alloc: Global,
        program: &'a Program,
        number: u64,
        kind: &ActionKind,
        monitor: u32,
        process: Process<'a>,
    ) -> Result<bool, AllocError>
        ensures { IfOk result (λ b. IsAnswer b
            (IsTakenUp number (kind_of kind.now)
            (offer_of (program_of program.now) (Resumes monitor) process.entry)
            (state_of self.old)) (state_of self.new)) }
    {
        let ActionKind::Resume(named) = kind else {
            return Ok(false);
        };
        if *named != monitor {
            return Ok(false);
        }
        let Some(was_abandoned) = self.table.resume(number, monitor)? else {
            return Ok(false);
        };
        self.go_in(alloc, program, number, monitor, was_abandoned, process)?;
        Ok(true)
    }
}
