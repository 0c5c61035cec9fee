ghost use Rattle.std.specs.Prelude.{◌≡◌, IfOk, OnErr, OnOk, ℕ};
ghost use Rattle.words.specs.Updates.{put};
ghost use Rattle.meaning.specs.Labels.{Abandons, Enters, Exits, Resumes};
ghost use Rattle.meaning.specs.Table.{Allows};

use crate::table::{Hold, Table};
use std::alloc::AllocError;

impl Table {
    ghost use Rattle.source_table.specs.Tables.{hold_of, table_of};
    ghost use Rattle.source_table.specs.Decided.{IsTaken};

    // Puts who holds a monitor.
    pub(crate) fn put_hold(&mut self, monitor: u32, hold: Hold) -> Result<(), AllocError>
        ensures ok { OnOk result (table_of self.new
            ≡ record (table_of self.old) { hold = put (table_of self.old).hold monitor (hold_of hold) }) }
        ensures err { OnErr result (table_of self.new ≡ table_of self.old) }
    {
        self.holds.insert(monitor, hold)
    }

    /// A process enters a monitor: whether that was abandoned; None, and nothing is done, where it is held.
    pub fn enter(&mut self, process: u64, monitor: u32) -> Result<Option<bool>, AllocError>
        ensures ok { IfOk result
            (λ o. IsTaken o process (Enters monitor) (table_of self.old) (table_of self.new)) }
        ensures err { OnErr result (table_of self.new ≡ table_of self.old) }
    {
        let was_abandoned = match self.hold(monitor) {
            Hold::HeldBy(_) => return Ok(None),
            Hold::Free => false,
            Hold::Abandoned => true,
        };
        self.put_hold(monitor, Hold::HeldBy(process))?;
        Ok(Some(was_abandoned))
    }

    /// A process takes its monitor again after a WAIT: whether that was abandoned; None, and nothing is done, where
    /// the process waits or the monitor is held.
    pub fn resume(&mut self, process: u64, monitor: u32) -> Result<Option<bool>, AllocError>
        ensures ok { IfOk result
            (λ o. IsTaken o process (Resumes monitor) (table_of self.old) (table_of self.new)) }
        ensures err { OnErr result (table_of self.new ≡ table_of self.old) }
    {
        if self.waits(process).is_some() {
            return Ok(None);
        }
        self.enter(process, monitor)
    }

    /// A process gives up a monitor.
    pub fn exit(&mut self, monitor: u32) -> Result<(), AllocError>
        ensures ok { OnOk result
            ((p : ℕ) → Allows p (Exits monitor) (table_of self.old) (table_of self.new)) }
        ensures err { OnErr result (table_of self.new ≡ table_of self.old) }
    {
        self.put_hold(monitor, Hold::Free)
    }

    /// A process gives up a monitor, dying.
    pub fn abandon(&mut self, monitor: u32) -> Result<(), AllocError>
        ensures ok { OnOk result
            ((p : ℕ) → Allows p (Abandons monitor) (table_of self.old) (table_of self.new)) }
        ensures err { OnErr result (table_of self.new ≡ table_of self.old) }
    {
        self.put_hold(monitor, Hold::Abandoned)
    }
}
