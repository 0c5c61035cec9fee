ghost use Rattle.std.specs.Prelude.{◌≡◌, IfOk, option_map, true};
ghost use Rattle.words.specs.Versions.{most_of};
ghost use Rattle.meaning.specs.Table.{first_table};
ghost use Rattle.source_offers.specs.Stages.{end_of};

use program::Member;
use sorted_map::SortedMap;
use source_offers::End;
use std::alloc::{AllocError, Global};
use words::ImageVersion;

/// Whether a monitor is free.
#[derive(Clone, Copy, PartialEq, Eq, Debug)]
pub enum Hold {
    /// Nobody holds it.
    Free,
    /// A process died in it.
    Abandoned,
    /// This process holds it.
    HeldBy(u64),
}

/// Monitors, conditions and the process table. `table_of` makes it the table of the meaning.
#[derive(PartialEq, Drop)]
pub struct Table {
    // Says how many processes there can be.
    pub(crate) version: ImageVersion,
    // Of each monitor that was entered once; every other is free.
    pub(crate) holds: SortedMap<u32, Hold>,
    // The condition of each process that waits.
    pub(crate) waits: SortedMap<u64, Member>,
    // The processes that were claimed for a JOIN.
    pub(crate) claimed: SortedMap<u64, ()>,
    // How many processes were made.
    pub(crate) made: u64,
    // How each process is over that is.
    pub(crate) over: SortedMap<u64, End>,
}

impl Table {
    ghost use Rattle.source_table.specs.Tables.{hold_of, table_of};

    /// The table as it begins, for an image of this version.
    pub fn new(alloc: Global, version: ImageVersion) -> Table
        ensures { table_of result ≡ first_table (most_of version) }
    {
        Table {
            version,
            holds: SortedMap::new(alloc),
            waits: SortedMap::new(alloc),
            claimed: SortedMap::new(alloc),
            made: 1,
            over: SortedMap::new(alloc),
        }
    }

    /// How many processes there can be.
    pub fn most(&self) -> u64
        ensures { result ≡ (table_of self.now).most }
    {
        u64::from(self.version.most_processes())
    }

    /// Who holds a monitor.
    pub fn hold(&self, monitor: u32) -> Hold
        ensures { hold_of result ≡ (table_of self.now).hold monitor }
    {
        match self.holds.get(monitor) {
            None => Hold::Free,
            Some(hold) => hold,
        }
    }

    /// The condition that a process waits on.
    pub fn waits(&self, process: u64) -> Option<Member>
        ensures { result ≡ (table_of self.now).waits process }
    {
        self.waits.get(process)
    }

    /// Whether a process was claimed for a JOIN.
    pub fn claimed(&self, process: u64) -> bool
        ensures { result ≡ (table_of self.now).claimed process }
    {
        self.claimed.get(process).is_some()
    }

    /// How many processes were made.
    pub fn made(&self) -> u64
        ensures { result ≡ (table_of self.now).made }
    {
        self.made
    }

    /// How a process is over, where it is.
    pub fn over(&self, process: u64) -> Option<End>
        ensures { option_map end_of result ≡ (table_of self.now).over process }
    {
        self.over.get(process)
    }

    /// The same table once more.
    pub fn copy(&self) -> Result<Table, AllocError>
        ensures { IfOk result (λ t. table_of t ≡ table_of self.now) }
    {
        Ok(Table {
            version: self.version,
            holds: self.holds.copy()?,
            waits: self.waits.copy()?,
            claimed: self.claimed.copy()?,
            made: self.made,
            over: self.over.copy()?,
        })
    }

    /// Whether the same was noted in both, so that they are the same.
    pub fn is_same(&self, other: &Table) -> bool
        ensures { result ≡ true → table_of self.now ≡ table_of other.now }
    {
        *self == *other
    }
}
