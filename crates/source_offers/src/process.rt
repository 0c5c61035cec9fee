ghost use Rattle.std.specs.Prelude.{◌≡◌, None, OnOk, Some};
ghost use Rattle.program.specs.Views.{program_of};
ghost use Rattle.meaning.specs.Offers.{after_join};
ghost use Rattle.meaning.specs.Processes.{Dying, all_monitors, begins, goes_on, hands_over, recovers};

use crate::frame::Frame;
use crate::monitors::{add_monitor, add_monitors, recover_part};
use crate::rest::upcoming;
use program::{Member, Program, Role, Statement};
use std::alloc::{AllocError, Global};
use std::mem;
use words::{Cause, Fault};

/// How a process is over.
#[derive(Clone, Copy, PartialEq, Eq)]
pub enum End {
    /// By its return, with this value.
    Ended(i64),
    /// It aborted.
    Aborted(Cause),
}

/// Where a process stands in its uppermost procedure, or past all of them.
#[derive(Drop)]
pub enum Stage<'a> {
    /// Called an ENTRY procedure of this monitor, and hasn't entered it.
    Entering(u32),
    /// Before the next statement, with the monitor that its last action entered.
    Before(Option<u32>),
    /// Gave up the monitor at a WAIT.
    Suspended(Member),
    /// Claimed the child, and joins it.
    Joining {
        /// The child.
        child: u64,
        /// The local that takes the result.
        into: Option<u32>,
        /// What stands behind ABORTED, where there is one.
        aborted: Option<&'a [Statement]>,
    },
    /// Gave up the monitor at the end of an ENTRY procedure, and hands this result to the caller next.
    Returning(i64),
    /// Faults next; with the monitor that its last action entered.
    Failing(Fault, Option<u32>),
    /// Gives up these monitors, one by one.
    Dying(Cause, Vec<u32>),
    /// Ends next, with this value.
    Leaving(i64),
    /// Is over.
    Over(End),
}

/// A process. `process_of` makes it a process of the meaning.
#[derive(Drop)]
pub struct Process<'a> {
    /// The procedure that runs.
    pub frame: Frame<'a>,
    /// Those that wait for one that they called, the innermost last.
    pub callers: Vec<Frame<'a>>,
    /// Where it stands.
    pub stage: Stage<'a>,
}

impl<'a> Process<'a> {
    ghost use Rattle.source_offers.specs.Frames.{callers_of, frame_of};
    ghost use Rattle.source_offers.specs.Stages.{end_of, part_at, process_of};

    /// Goes on before the next statement.
    #[inline(always)]
    pub fn go_on(&mut self, entered: Option<u32>)
        ensures { process_of self.new ≡ goes_on entered (frame_of self.old.frame)
            (callers_of self.old.callers.items) }
    {
        self.stage = Stage::Before(entered);
        match self.frame.role {
            Role::Recover(_) => match upcoming(self.frame.rest.as_slice()) {
                None => match self.callers.pop() {
                    None => self.stage = Stage::Leaving(0),
                    Some(caller) => self.frame = caller,
                },
                Some(_) => {}
            },
            Role::Main => match upcoming(self.frame.rest.as_slice()) {
                None | Some(Statement::Return(_)) => self.stage = Stage::Leaving(0),
                Some(_) => {}
            },
            _ => {}
        }
    }

    /// The uppermost procedure begins: an ENTRY procedure enters its monitor first.
    pub fn begin(&mut self)
        ensures { process_of self.new ≡ begins (frame_of self.old.frame)
            (callers_of self.old.callers.items) }
    {
        match self.frame.role {
            Role::Entry(m) => self.stage = Stage::Entering(m),
            _ => self.go_on(None),
        }
    }

    /// Hands a result to the caller; without one, leaves with it.
    pub fn hand_over(&mut self, value: i64)
        ensures { process_of self.new ≡ hands_over value (callers_of self.old.callers.items) }
    {
        match self.callers.pop() {
            None => self.stage = Stage::Leaving(value),
            Some(caller) => {
                self.frame = caller;
                let into = self.frame.into;
                self.frame.put(into, value);
                self.go_on(None);
            }
        }
    }

    /// An abandoned monitor was taken: its RECOVER part comes next, or without one a fault.
    pub fn recover(
        &mut self,
        alloc: Global,
        program: &'a Program,
        monitor: u32,
    ) -> Result<(), AllocError>
        ensures { OnOk result (process_of self.new ≡ recovers (program_of program.now) monitor
            (frame_of self.old.frame) (callers_of self.old.callers.items)) }
    {
        let Some(part) = recover_part(program, monitor) else {
            self.stage = Stage::Failing(Fault::AbandonedMonitor, Some(monitor));
            return Ok(());
        };
        let frame = Frame::new(alloc, program, part, Vec::new(alloc))?;
        let mut interrupted = mem::replace(&mut self.frame, frame);
        interrupted.into = None;
        self.callers.push(interrupted)?;
        self.go_on(Some(monitor));
        Ok(())
    }

    /// What comes of a JOIN: the result, or the ABORTED part, or a fault where there is none.
    pub fn join(
        &mut self,
        into: Option<u32>,
        aborted: Option<&'a [Statement]>,
        end: End,
    ) -> Result<(), AllocError>
        ensures { OnOk result (process_of self.new ≡ after_join into (part_at aborted.entry)
            (frame_of self.old.frame) (callers_of self.old.callers.items) (end_of end)) }
    {
        match (end, aborted) {
            (End::Ended(value), _) => {
                self.frame.put(into, value);
                self.go_on(None);
            }
            (End::Aborted(_), None) => self.stage = Stage::Failing(Fault::JoinedAborted, None),
            (End::Aborted(_), Some(block)) => {
                self.frame.rest.push(block)?;
                self.go_on(None);
            }
        }
        Ok(())
    }

    /// Begins to die, with the monitors that its procedures hold, innermost first.
    pub fn die(&mut self, alloc: Global, cause: Cause) -> Result<(), AllocError>
        ensures { OnOk result (process_of self.new ≡ Dying cause
            (all_monitors (frame_of self.old.frame) (callers_of self.old.callers.items))) }
    {
        let mut monitors = Vec::new(alloc);
        add_monitor(&mut monitors, self.frame.role)?;
        add_monitors(&mut monitors, self.callers.as_slice())?;
        self.stage = Stage::Dying(cause, monitors);
        Ok(())
    }
}
