ghost use Rattle.std.specs.Prelude.{◌≡◌, IfOk, MatchBool, MatchOption, OnErr, OnOk, ℕ};
ghost use Rattle.meaning.specs.Labels.{Claims, Ends, FindsClaimed, FindsFull, Forks};
ghost use Rattle.meaning.specs.Table.{Allows};
ghost use Rattle.source_offers.specs.Stages.{end_of};

use crate::table::Table;
use source_offers::End;
use std::alloc::AllocError;

impl Table {
    ghost use Rattle.source_table.specs.Tables.{table_of};

    /// Makes a process, and tells its number; None where no more can be made.
    pub fn fork(&mut self) -> Option<u64>
        ensures { (p : ℕ) → MatchOption result
            (Allows p FindsFull (table_of self.old) (table_of self.new))
            (λ child. Allows p (Forks child) (table_of self.old) (table_of self.new)) }
    {
        if self.made >= self.most() {
            return None;
        }
        self.made += 1;
        Some(self.made)
    }

    /// Claims a process for a JOIN; false where it was claimed already.
    pub fn claim(&mut self, child: u64) -> Result<bool, AllocError>
        ensures ok { (p : ℕ) → IfOk result (λ b.
            MatchBool b (Allows p (Claims child) (table_of self.old) (table_of self.new))
            (Allows p (FindsClaimed child) (table_of self.old) (table_of self.new))) }
        ensures err { OnErr result (table_of self.new ≡ table_of self.old) }
    {
        if self.claimed(child) {
            return Ok(false);
        }
        self.claimed.insert(child, ())?;
        Ok(true)
    }

    /// A process is over.
    pub fn finish(&mut self, process: u64, end: End) -> Result<(), AllocError>
        ensures ok { OnOk result
            (Allows process (Ends (end_of end)) (table_of self.old) (table_of self.new)) }
        ensures err { OnErr result (table_of self.new ≡ table_of self.old) }
    {
        self.over.insert(process, end)
    }
}
