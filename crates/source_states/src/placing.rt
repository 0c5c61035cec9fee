ghost use Rattle.std.specs.Prelude.{◌≡◌, IfOk, MatchBool, OnOk, Some};
ghost use Rattle.words.specs.Updates.{put};
ghost use Rattle.meaning.specs.Labels.{Fails as FailsKind};
ghost use Rattle.meaning.specs.Offers.{dies};
ghost use Rattle.source_offers.specs.Frames.{callers_of, frame_of};
ghost use Rattle.source_offers.specs.Stages.{process_of};

use crate::action::ActionKind;
use crate::state::SourceState;
use program::Role;
use source_offers::{Frame, Process, Stage};
use std::alloc::{AllocError, Global};
use words::{Cause, Fault};

// What stands in a process's place while it acts. It takes no memory.
pub(crate) fn blank<'a>(alloc: Global) -> Process<'a> {
    Process {
        frame: Frame {
            role: Role::External,
            locals: Vec::new(alloc),
            rest: Vec::new(alloc),
            into: None,
        },
        callers: Vec::new(alloc),
        stage: Stage::Leaving(0),
    }
}

impl<'a> SourceState<'a> {
    ghost use Rattle.source_states.specs.Actions.{kind_of};
    ghost use Rattle.source_states.specs.States.{state_of};

    /// Puts a process into the state, in place of the one of its number, where there is one.
    pub fn place(&mut self, number: u64, process: Process<'a>) -> Result<(), AllocError>
        ensures { OnOk result (state_of self.new ≡ record (state_of self.old) {
          process = put (state_of self.old).process number (Some (process_of process.entry));
        }) }
    {
        self.processes.insert(number, process)
    }

    // A process faults, where the action is named so.
    pub(crate) fn refuse(
        &mut self,
        alloc: Global,
        number: u64,
        kind: &ActionKind,
        reason: Fault,
        process: Process<'a>,
    ) -> Result<bool, AllocError>
        ensures { IfOk result (λ b. MatchBool b
            ((kind_of kind.now ≡ FailsKind reason)
            × (state_of self.new ≡ record (state_of self.old) {
              process = put (state_of self.old).process number
                  (Some (dies reason (frame_of process.entry.frame)
                  (callers_of process.entry.callers.items)));
            }))
            (kind_of kind.now ≡ FailsKind reason → ⊥)) }
    {
        let ActionKind::Fails(named) = kind else {
            return Ok(false);
        };
        if *named != reason {
            return Ok(false);
        }
        let mut process = process;
        process.die(alloc, Cause::Faulted(reason))?;
        self.place(number, process)?;
        Ok(true)
    }
}
