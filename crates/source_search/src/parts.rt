ghost use Rattle.std.specs.Prelude.{◌≡◌, ◌<◌, All, IfOk, IfSome, IsSome, None, OnOk, Some, length, true, ℕ};
ghost use Rattle.source_offers.specs.Stages.{process_of};
ghost use Rattle.source_offers.specs.Stores.{variables_of};
ghost use Rattle.source_table.specs.Tables.{table_of};
ghost use Rattle.source_states.specs.States.{state_of};

use crate::digest::{digest_process, digest_table, digest_variables};
use crate::packed::Packed;
use digest_map::DigestMap;
use program::Program;
use source_offers::{Process, Variables};
use source_sameness::same_process;
use source_states::SourceState;
use source_table::Table;
use std::alloc::{AllocError, Global};

/// How many numbers of one digest are looked at.
pub(crate) const TRIES: u64 = 1 << 20;

/// The parts of kept states, each once, by their numbers, and these by their digests. None is ever given up.
#[derive(Drop)]
pub(crate) struct Parts<'a> {
    /// The tables.
    pub tables: Vec<Table>,
    /// The values of variables.
    pub variables: Vec<Variables>,
    /// The processes.
    pub processes: Vec<Process<'a>>,
    // The numbers of the tables.
    table_numbers: DigestMap,
    // Those of the values of variables.
    variables_numbers: DigestMap,
    // Those of the processes.
    process_numbers: DigestMap,
}

impl<'a> Parts<'a> {
    ghost use Rattle.source_search.specs.Packed.{ArePacked, IsGrown, IsPackedOf, process_in, processes_at, table_in};
    ghost use Rattle.source_search.specs.Packed.{IsWithin, unpacked, variables_in};

    /// No parts yet.
    pub fn new(alloc: Global) -> Parts<'a> {
        Parts {
            tables: Vec::new(alloc),
            variables: Vec::new(alloc),
            processes: Vec::new(alloc),
            table_numbers: DigestMap::new(alloc),
            variables_numbers: DigestMap::new(alloc),
            process_numbers: DigestMap::new(alloc),
        }
    }

    // Whether the table of this number is this one.
    fn has_table(&self, number: u32, table: &Table) -> bool
        ensures { result ≡ true → table_in self.now.tables.items number ≡ Some (table_of table.now) }
    {
        match self.tables.get(number as usize) {
            None => false,
            Some(part) => part.is_same(table),
        }
    }

    // The number of a table, where it is noted.
    fn find_table(&self, table: &Table, digest: u64) -> Option<u32>
        ensures { IfSome result (λ n. table_in self.now.tables.items n ≡ Some (table_of table.now)) }
    {
        let mut tried = 0;
        for _ in 0..TRIES {
            let Some(found) = self.table_numbers.next(digest, tried) else {
                return None;
            };
            if self.has_table(found.number, table) {
                return Some(found.number);
            }
            tried = found.tries.wrapping_add(1);
        }
        None
    }

    /// The number of the table of a state in which so many processes were made, which is a part from now on; None where
    /// there are too many. Often it is the one of the state before, which has this number.
    pub fn table_number(
        &mut self,
        alloc: Global,
        program: &Program,
        state: &SourceState<'a>,
        made: u64,
        before: u32,
    ) -> Result<Option<u32>, AllocError>
        ensures grown { OnOk result (IsGrown self.old self.new) }
        ensures there { IfOk result (λ o. IfSome o
            (λ n. table_in self.new.tables.items n ≡ Some (state_of state.now).table)) }
    {
        let table = state.table();
        if self.has_table(before, table) {
            return Ok(Some(before));
        }
        let digest = digest_table(program, state, made);
        if let Some(number) = self.find_table(table, digest) {
            return Ok(Some(number));
        }
        let Ok(number) = u32::try_from(self.tables.len()) else {
            return Ok(None);
        };
        self.table_numbers.note(alloc, digest, number)?;
        self.tables.push(table.copy()?)?;
        Ok(Some(number))
    }

    // Whether the values of this number are these.
    fn has_variables(&self, number: u32, variables: &Variables) -> bool
        ensures { result ≡ true
            → variables_in self.now.variables.items number ≡ Some (variables_of variables.now) }
    {
        match self.variables.get(number as usize) {
            None => false,
            Some(part) => part.is_same(variables),
        }
    }

    // The number of the values of variables, where it is noted.
    fn find_variables(&self, variables: &Variables, digest: u64) -> Option<u32>
        ensures { IfSome result
            (λ n. variables_in self.now.variables.items n ≡ Some (variables_of variables.now)) }
    {
        let mut tried = 0;
        for _ in 0..TRIES {
            let Some(found) = self.variables_numbers.next(digest, tried) else {
                return None;
            };
            if self.has_variables(found.number, variables) {
                return Some(found.number);
            }
            tried = found.tries.wrapping_add(1);
        }
        None
    }

    /// The number of the values of variables, which are a part from now on; None where there are too many. Often they
    /// are those of the state before, which have this number.
    pub fn variables_number(
        &mut self,
        alloc: Global,
        variables: &Variables,
        before: u32,
    ) -> Result<Option<u32>, AllocError>
        ensures grown { OnOk result (IsGrown self.old self.new) }
        ensures there { IfOk result (λ o. IfSome o
            (λ n. variables_in self.new.variables.items n ≡ Some (variables_of variables.now))) }
    {
        if self.has_variables(before, variables) {
            return Ok(Some(before));
        }
        let digest = digest_variables(variables);
        if let Some(number) = self.find_variables(variables, digest) {
            return Ok(Some(number));
        }
        let Ok(number) = u32::try_from(self.variables.len()) else {
            return Ok(None);
        };
        self.variables_numbers.note(alloc, digest, number)?;
        self.variables.push(variables.copy()?)?;
        Ok(Some(number))
    }

    // Whether the process of this number stands where this one does.
    fn has_process(&self, number: u32, process: &Process) -> bool
        ensures { result ≡ true → process_in self.now.processes.items number ≡ Some (process_of process.now) }
    {
        match self.processes.get(number as usize) {
            None => false,
            Some(part) => same_process(part, process),
        }
    }

    // The number of a process, where it is noted.
    fn find_process(&self, process: &Process, digest: u64) -> Option<u32>
        ensures { IfSome result (λ n. process_in self.now.processes.items n ≡ Some (process_of process.now)) }
    {
        let mut tried = 0;
        for _ in 0..TRIES {
            let Some(found) = self.process_numbers.next(digest, tried) else {
                return None;
            };
            if self.has_process(found.number, process) {
                return Some(found.number);
            }
            tried = found.tries.wrapping_add(1);
        }
        None
    }

    /// The number of a process, which is a part from now on; None where there are too many.
    pub fn process_number(
        &mut self,
        alloc: Global,
        process: &Process<'a>,
    ) -> Result<Option<u32>, AllocError>
        ensures grown { OnOk result (IsGrown self.old self.new) }
        ensures there { IfOk result (λ o. IfSome o
            (λ n. process_in self.new.processes.items n ≡ Some (process_of process.now))) }
    {
        let digest = digest_process(process);
        if let Some(number) = self.find_process(process, digest) {
            return Ok(Some(number));
        }
        let Ok(number) = u32::try_from(self.processes.len()) else {
            return Ok(None);
        };
        self.process_numbers.note(alloc, digest, number)?;
        self.processes.push(process.copy(alloc)?)?;
        Ok(Some(number))
    }

    // The numbers of the processes of a state, of which these are all; None where there are too many, or they aren't
    // the first numbers.
    fn pack_processes(
        &mut self,
        alloc: Global,
        state: &SourceState<'a>,
        numbers: &[u64],
    ) -> Result<Option<Vec<u32>>, AllocError>
        ensures grown { OnOk result (IsGrown self.old self.new) }
        ensures packed { IfOk result (λ o. IfSome o
            (λ v. ArePacked self.new.processes.items v.items numbers.now (state_of state.now).process)) }
    {
        let mut parts = Vec::with_capacity(alloc, numbers.len())?;
        for k in 0..numbers.len() {
            let number = numbers[k];
            if number != k as u64 + 1 {
                return Ok(None);
            }
            let Some(process) = state.process(number) else {
                return Ok(None);
            };
            let Some(part) = self.process_number(alloc, process)? else {
                return Ok(None);
            };
            parts.push(part)?;
        }
        Ok(Some(parts))
    }

    /// A state, packed; None where there are too many parts. The table and the values of the variables are often those of
    /// the state before, which have these numbers.
    pub fn pack(
        &mut self,
        alloc: Global,
        program: &Program,
        state: &SourceState<'a>,
        table: u32,
        variables: u32,
    ) -> Result<Option<Packed>, AllocError>
        ensures grown { OnOk result (IsGrown self.old self.new) }
        ensures packed { IfOk result (λ o. IfSome o (λ x. IsPackedOf self.new x (state_of state.now))) }
    {
        let all = state.numbers(alloc)?;
        let numbers = all.as_slice();
        let Some(processes) = self.pack_processes(alloc, state, numbers)? else {
            return Ok(None);
        };
        let made = numbers.len() as u64;
        let Some(table) = self.table_number(alloc, program, state, made, table)? else {
            return Ok(None);
        };
        let values = state.variables();
        let Some(variables) = self.variables_number(alloc, values, variables)? else {
            return Ok(None);
        };
        Ok(Some(Packed {
            table,
            variables,
            processes,
        }))
    }

    // Puts the processes of these parts into a state without processes; false where one is missing.
    fn unpack_processes(
        &self,
        alloc: Global,
        parts: &[u32],
        state: &mut SourceState<'a>,
    ) -> Result<bool, AllocError>
        requires { (q : ℕ) → (state_of state.old).process q ≡ None }
        ensures all { IfOk result (λ b. b ≡ true → state_of state.new ≡ record (state_of state.old) {
          process = processes_at self.now.processes.items parts.now;
        }) }
        ensures there { All (λ n. n < length self.now.processes.items) parts.now → IfOk result (λ b. b ≡ true) }
    {
        for k in 0..parts.len() {
            let Some(process) = self.processes.get(parts[k] as usize) else {
                return Ok(false);
            };
            state.place(k as u64 + 1, process.copy(alloc)?)?;
        }
        Ok(true)
    }

    /// A kept state, whole; None where a part of it isn't there.
    pub fn unpack(
        &self,
        alloc: Global,
        packed: &Packed,
    ) -> Result<Option<SourceState<'a>>, AllocError>
        ensures state { IfOk result (λ o. IfSome o (λ s. state_of s ≡ unpacked self.now packed.now)) }
        ensures there { IsWithin self.now packed.now → IfOk result (λ o. IsSome o) }
    {
        let Some(table) = self.tables.get(packed.table as usize) else {
            return Ok(None);
        };
        let Some(variables) = self.variables.get(packed.variables as usize) else {
            return Ok(None);
        };
        let mut state = SourceState::unpeopled(alloc, table.copy()?, variables.copy()?);
        if !self.unpack_processes(alloc, packed.processes.as_slice(), &mut state)? {
            return Ok(None);
        }
        Ok(Some(state))
    }
}
