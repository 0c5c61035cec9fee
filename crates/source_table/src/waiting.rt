ghost use Rattle.std.specs.Prelude.{◌≡◌, ◌↔◌, Contains, IfOk, MatchBool, OnOk, Some, ℕ};
ghost use Rattle.std.specs.List.Sorted.{IsStrictlyIncreasing};
ghost use Rattle.meaning.specs.Labels.{Broadcasts, Notifies, Waits};
ghost use Rattle.meaning.specs.Table.{AllWait, Allows, AllowsKill, AllowsStray, AreResumed, without_waiters};

use crate::table::{Hold, Table};
use program::Member;
use std::alloc::{AllocError, Global};

// Whether a process that waits on this is one of those resumed, where it waits on the condition.
fn is_named(process: u64, waits: Member, condition: Member, resumed: &[u64]) -> bool
    ensures { MatchBool result (waits ≡ condition → Contains resumed.now process)
        ((waits ≡ condition) × (Contains resumed.now process → ⊥)) }
{
    waits != condition || resumed.contains(&process)
}

// Whether each number is below the next one, so that they name a set.
fn are_rising(numbers: &[u64]) -> bool
    ensures { MatchBool result (IsStrictlyIncreasing numbers.now)
        (IsStrictlyIncreasing numbers.now → ⊥) }
{
    for place in 1..numbers.len() {
        if numbers[place - 1] >= numbers[place] {
            return false;
        }
    }
    true
}

impl Table {
    ghost use Rattle.source_table.specs.Tables.{table_of};
    ghost use Rattle.source_table.specs.Decided.{IsDecided};

    /// A process gives up the monitor of a condition, and waits on it.
    pub fn wait(&mut self, process: u64, condition: Member) -> Result<(), AllocError>
        ensures { OnOk result
            (Allows process (Waits condition) (table_of self.old) (table_of self.new)) }
    {
        self.waits.insert(process, condition)?;
        self.put_hold(condition.monitor, Hold::Free)
    }

    /// Whether a process waits on this condition.
    pub fn waits_on(&self, process: u64, condition: Member) -> bool
        ensures { MatchBool result ((table_of self.now).waits process ≡ Some condition)
            ((table_of self.now).waits process ≡ Some condition → ⊥) }
    {
        self.waits(process) == Some(condition)
    }

    /// The processes that wait on this condition, rising.
    pub fn waiting(&self, alloc: Global, condition: Member) -> Result<Vec<u64>, AllocError>
        ensures rising { IfOk result (λ v. IsStrictlyIncreasing v.items) }
        ensures all { IfOk result (λ v. (q : ℕ)
            → Contains v.items q ↔ ((table_of self.now).waits q ≡ Some condition)) }
    {
        let mut waiting = Vec::new(alloc);
        for (process, waits) in self.waits.entries() {
            if *waits == condition {
                waiting.push(*process)?;
            }
        }
        Ok(waiting)
    }

    // Whether all of these wait on the condition.
    fn all_wait(&self, condition: Member, resumed: &[u64]) -> bool
        ensures { MatchBool result (AllWait (table_of self.now) condition resumed.now)
            (AllWait (table_of self.now) condition resumed.now → ⊥) }
    {
        for process in resumed {
            if !self.waits_on(*process, condition) {
                return false;
            }
        }
        true
    }

    // Whether these are some that wait on the condition, or none where there is no condition.
    fn may_resume(&self, notified: Option<Member>, resumed: &[u64]) -> bool
        ensures { MatchBool result (AreResumed (table_of self.now) notified resumed.now)
            (AreResumed (table_of self.now) notified resumed.now → ⊥) }
    {
        match notified {
            None => resumed.is_empty(),
            Some(condition) => are_rising(resumed) && self.all_wait(condition, resumed),
        }
    }

    // Whether every process that waits on the condition is one of these.
    fn names_all(&self, condition: Member, resumed: &[u64]) -> bool
        ensures { MatchBool result
            ((q : ℕ) → (table_of self.now).waits q ≡ Some condition → Contains resumed.now q)
            (((q : ℕ) → (table_of self.now).waits q ≡ Some condition → Contains resumed.now q)
            → ⊥) }
    {
        for (process, waits) in self.waits.entries() {
            if !is_named(*process, *waits, condition, resumed) {
                return false;
            }
        }
        true
    }

    // These wait no longer.
    fn let_go(&mut self, resumed: &[u64])
        ensures { table_of self.new
            ≡ record (table_of self.old) { waits = without_waiters resumed.now (table_of self.old).waits } }
    {
        for process in resumed {
            self.waits.remove(*process);
        }
    }

    /// A process notifies a condition and resumes these; false, and nothing is done, where their numbers don't rise,
    /// where one of them doesn't wait on it, or where somebody waits on it and these are none.
    pub fn notify(&mut self, condition: Member, resumed: &[u64]) -> bool
        ensures { (p : ℕ) → IsDecided result
            (Allows p (Notifies condition resumed.now) (table_of self.old))
            (table_of self.old) (table_of self.new) }
    {
        if !are_rising(resumed) || !self.all_wait(condition, resumed) {
            return false;
        }
        if resumed.is_empty() && !self.names_all(condition, resumed) {
            return false;
        }
        self.let_go(resumed);
        true
    }

    /// A process broadcasts a condition and resumes these; false, and nothing is done, where their numbers don't
    /// rise, or they aren't all that wait on it.
    pub fn broadcast(&mut self, condition: Member, resumed: &[u64]) -> bool
        ensures { (p : ℕ) → IsDecided result
            (Allows p (Broadcasts condition resumed.now) (table_of self.old))
            (table_of self.old) (table_of self.new) }
    {
        if !are_rising(resumed) || !self.all_wait(condition, resumed) {
            return false;
        }
        if !self.names_all(condition, resumed) {
            return false;
        }
        self.let_go(resumed);
        true
    }

    /// A stray wake-up: a process resumes that waits on the condition; false, and nothing is done, where it doesn't.
    pub fn stray(&mut self, process: u64, condition: Member) -> bool
        ensures { IsDecided result (AllowsStray process condition (table_of self.old))
            (table_of self.old) (table_of self.new) }
    {
        if !self.waits_on(process, condition) {
            return false;
        }
        self.waits.remove(process);
        true
    }

    /// A process dies where it stands, and has resumed these of those that wait on a condition; false, and nothing is
    /// done, where their numbers don't rise, or one of them doesn't wait on it.
    pub fn kill(&mut self, process: u64, notified: Option<Member>, resumed: &[u64]) -> bool
        ensures { IsDecided result (AllowsKill process notified resumed.now (table_of self.old))
            (table_of self.old) (table_of self.new) }
    {
        if !self.may_resume(notified, resumed) {
            return false;
        }
        self.let_go(resumed);
        self.waits.remove(process);
        true
    }
}
