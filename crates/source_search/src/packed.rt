ghost use Rattle.std.specs.Prelude.{◌≡◌, ◌<◌, IfOk, IfSome, Some, length, suc, true, ℕ};
ghost use Rattle.std.specs.List.{slice_get, slice_set};
ghost use Rattle.source_search.specs.Known.{EndSo, IsMovedTo, IsPutBehind, IsPutWith};
ghost use Rattle.source_search.specs.Packed.{IsSameKey};
ghost use Rattle.source_search.specs.Spots.{IsPutAt, IsSpotOf};

use crate::memo::Outcome;
use crate::spot::Spot;
use std::alloc::{AllocError, Global};

/// A kept state: the numbers of the parts of which it is made. `unpacked` makes it a state of the meaning.
#[derive(Drop)]
pub(crate) struct Packed {
    /// Monitors, conditions and the process table.
    pub table: u32,
    /// The values of the variables.
    pub variables: u32,
    /// The processes, from 1.
    pub processes: Vec<u32>,
}

// The number at a place of these with this part at another.
fn number_at(others: &[u32], place: usize, part: u32, at: usize) -> u32
    requires { at < length others.now }
    ensures { slice_get (slice_set others.now place part) at ≡ Some result }
{
    if at == place {
        return part;
    }
    others[at]
}

// Whether these numbers begin with others that have this part at a place.
fn begin_so(numbers: &[u32], others: &[u32], place: usize, part: u32) -> bool
    ensures { result ≡ true → (k : ℕ) → k < length others.now
        → slice_get numbers.now k ≡ slice_get (slice_set others.now place part) k }
{
    if numbers.len() < others.len() {
        return false;
    }
    for k in 0..others.len() {
        if numbers[k] != number_at(others, place, part, k) {
            return false;
        }
    }
    true
}

// Whether so many numbers are followed by the part of the process of this number, and by nothing where it is 0.
fn end_so(numbers: &[u32], before: usize, made: u16, child: u32) -> bool
    ensures { result ≡ true → EndSo numbers.now before child made }
{
    if made == 0 {
        return numbers.len() == before;
    }
    let last = usize::from(made) - 1;
    if last != before || numbers.len() != usize::from(made) {
        return false;
    }
    numbers[last] == child
}

// Whether these numbers are others with what an outcome puts at a place, and behind the last one.
fn are_put(numbers: &[u32], others: &[u32], place: usize, outcome: Outcome) -> bool
    ensures { result ≡ true → IsPutWith others.now (suc place) outcome numbers.now }
{
    if place >= others.len() {
        return false;
    }
    if !end_so(numbers, others.len(), outcome.made, outcome.child) {
        return false;
    }
    begin_so(numbers, others, place, outcome.part)
}

// Puts a part at a place; false where there is none.
fn put_own(processes: &mut Vec<u32>, place: usize, part: u32) -> bool
    ensures { result ≡ true → IsPutAt processes.old.items (suc place) part processes.new.items }
{
    if place >= processes.len() {
        return false;
    }
    processes[place] = part;
    true
}

// Puts the part of the process of this number behind the others, unless that is 0; false where it isn't the next one.
fn put_child(processes: &mut Vec<u32>, made: u16, child: u32) -> Result<bool, AllocError>
    ensures { IfOk result (λ b. b ≡ true → IsPutBehind processes.old.items child processes.new.items made) }
{
    if made == 0 {
        return Ok(true);
    }
    if usize::from(made) - 1 != processes.len() {
        return Ok(false);
    }
    processes.push(child)?;
    Ok(true)
}

impl Packed {
    /// Whether two kept states are of the same parts.
    pub fn is_same(&self, other: &Packed) -> bool
        ensures { result ≡ true → IsSameKey self.now other.now }
    {
        if self.table != other.table {
            return false;
        }
        if self.variables != other.variables {
            return false;
        }
        self.processes == other.processes
    }

    /// Whether it is another with the process at this place, the table and the variables as an outcome has them, and with
    /// the process that was made.
    pub fn is_moved(&self, other: &Packed, place: usize, outcome: Outcome) -> bool
        ensures { result ≡ true → IsMovedTo other.now place outcome self.now }
    {
        if self.table != outcome.table {
            return false;
        }
        if self.variables != outcome.variables {
            return false;
        }
        let numbers = self.processes.as_slice();
        are_put(numbers, other.processes.as_slice(), place, outcome)
    }

    /// The same once more.
    pub fn copy(&self, alloc: Global) -> Result<Packed, AllocError>
        ensures { IfOk result (IsSameKey self.now) }
    {
        Ok(Packed {
            table: self.table,
            variables: self.variables,
            processes: Vec::from_slice(alloc, self.processes.as_slice())?,
        })
    }

    /// Where the process at this place stands; None where there is none.
    pub fn spot(&self, place: usize) -> Option<Spot>
        ensures { IfSome result (IsSpotOf self.now place) }
    {
        let part = self.processes.get(place).copied()?;
        let Ok(before) = u32::try_from(place) else {
            return None;
        };
        let process = before.checked_add(1)?;
        Some(Spot {
            process,
            part,
            table: self.table,
            variables: self.variables,
        })
    }

    /// The same with the process at this place, the table and the variables as an outcome has them, and with the process
    /// that was made; None where there is no such process, or the one that was made hasn't the next number.
    pub fn moved(
        &self,
        alloc: Global,
        place: usize,
        outcome: Outcome,
    ) -> Result<Option<Packed>, AllocError>
        ensures { IfOk result (λ o. IfSome o (IsMovedTo self.now place outcome)) }
    {
        let mut processes = Vec::from_slice(alloc, self.processes.as_slice())?;
        if !put_own(&mut processes, place, outcome.part) {
            return Ok(None);
        }
        if !put_child(&mut processes, outcome.made, outcome.child)? {
            return Ok(None);
        }
        Ok(Some(Packed {
            table: outcome.table,
            variables: outcome.variables,
            processes,
        }))
    }
}
