ghost use Rattle.std.specs.Prelude.{◌≡◌, ◌↔◌, [], Contains, IfOk, IsSome, MatchBool, option_map, ℕ};
ghost use Rattle.std.specs.List.Sorted.{IsStrictlyIncreasing};
ghost use Rattle.program.specs.Trees.{as_version};
ghost use Rattle.program.specs.Views.{program_of};
ghost use Rattle.meaning.specs.Processes.{begins, opening_frame};
ghost use Rattle.meaning.specs.Runs.{IsStray};
ghost use Rattle.meaning.specs.States.{SourceState as SourceStateOf, opening};
ghost use Rattle.source_offers.specs.Stages.{end_of, process_of};
ghost use Rattle.source_offers.specs.Stores.{variables_of};
ghost use Rattle.source_table.specs.Tables.{hold_of, table_of};

use program::{Checked, Member, Program};
use sorted_map::SortedMap;
use source_offers::{End, Frame, Place, Process, Stage, Variables};
use source_table::{Hold, Table};
use std::alloc::{AllocError, Global};
use words::ImageVersion;

/// A state of a source program. `state_of` makes it a state of the meaning.
#[derive(Drop)]
pub struct SourceState<'a> {
    // Monitors, conditions and the process table.
    pub(crate) table: Table,
    // The value of each variable.
    pub(crate) variables: Variables,
    // The processes that were made, by number.
    pub(crate) processes: SortedMap<u64, Process<'a>>,
    // The numbers printed.
    pub(crate) printed: Vec<i64>,
}

impl<'a> SourceState<'a> {
    ghost use Rattle.source_states.specs.States.{state_of, unpeopled};

    // The process of the main part, which is the last piece.
    fn main_process(
        alloc: Global,
        program: &'a Program,
        piece: u32,
    ) -> Result<Process<'a>, AllocError>
        ensures { IfOk result (λ q. process_of q
            ≡ begins (opening_frame (program_of program.now) piece []) []) }
    {
        let mut main = Process {
            frame: Frame::new(alloc, program, piece, Vec::new(alloc))?,
            callers: Vec::new(alloc),
            stage: Stage::Before(None),
        };
        main.begin();
        Ok(main)
    }

    /// The state in which every run begins, in an image of this version.
    pub fn opening(
        alloc: Global,
        checked: &'a Checked,
        version: ImageVersion,
    ) -> Result<SourceState<'a>, AllocError>
        ensures { IfOk result (λ s. state_of s
            ≡ opening (as_version version (program_of checked.now.tree))) }
    {
        let program = checked.program();
        let last = program.procedures.len().saturating_sub(1);
        let main = SourceState::main_process(alloc, program, last as u32)?;
        let mut processes = SortedMap::new(alloc);
        processes.insert(1, main)?;
        Ok(SourceState {
            table: Table::new(alloc, version),
            variables: Variables::new(alloc),
            processes,
            printed: Vec::new(alloc),
        })
    }

    /// A state of this table and these variables in which there is no process, and nothing was printed.
    pub fn unpeopled(alloc: Global, table: Table, variables: Variables) -> SourceState<'a>
        ensures { state_of result ≡ unpeopled (table_of table) (variables_of variables) }
    {
        SourceState {
            table,
            variables,
            processes: SortedMap::new(alloc),
            printed: Vec::new(alloc),
        }
    }

    /// The numbers printed.
    pub fn printed(&self) -> &[i64]
        ensures { result.now ≡ (state_of self.now).printed }
    {
        self.printed.as_slice()
    }

    /// The value of a variable.
    pub fn variable(&self, place: Place) -> i64
        ensures { result ≡ (state_of self.now).variable place.monitor place.member place.index }
    {
        self.variables.get(place)
    }

    /// The value of each variable.
    pub fn variables(&self) -> &Variables
        ensures { variables_of result.now ≡ (state_of self.now).variable }
    {
        &self.variables
    }

    /// Monitors, conditions and the process table.
    pub fn table(&self) -> &Table
        ensures { table_of result.now ≡ (state_of self.now).table }
    {
        &self.table
    }

    /// The numbers of the processes that were made, rising.
    pub fn numbers(&self, alloc: Global) -> Result<Vec<u64>, AllocError>
        ensures rising { IfOk result (λ v. IsStrictlyIncreasing v.items) }
        ensures all { IfOk result (λ v. (q : ℕ)
            → Contains v.items q ↔ IsSome ((state_of self.now).process q)) }
    {
        let processes = self.processes.entries();
        let mut numbers = Vec::with_capacity(alloc, processes.len())?;
        for (number, _) in processes {
            numbers.push(*number)?;
        }
        Ok(numbers)
    }

    /// Who holds a monitor.
    pub fn hold(&self, monitor: u32) -> Hold
        ensures { hold_of result ≡ (state_of self.now).table.hold monitor }
    {
        self.table.hold(monitor)
    }

    /// The condition that a process waits on.
    pub fn waits(&self, process: u64) -> Option<Member>
        ensures { result ≡ (state_of self.now).table.waits process }
    {
        self.table.waits(process)
    }

    /// Whether a process was claimed for a JOIN.
    pub fn claimed(&self, process: u64) -> bool
        ensures { result ≡ (state_of self.now).table.claimed process }
    {
        self.table.claimed(process)
    }

    /// How a process is over, where it is.
    pub fn over(&self, process: u64) -> Option<End>
        ensures { option_map end_of result ≡ (state_of self.now).table.over process }
    {
        self.table.over(process)
    }

    /// How many processes there can be.
    pub fn most(&self) -> u64
        ensures { result ≡ (state_of self.now).table.most }
    {
        self.table.most()
    }

    /// How many processes were made.
    pub fn made(&self) -> u64
        ensures { result ≡ (state_of self.now).table.made }
    {
        self.table.made()
    }

    /// A process, where it was made.
    pub fn process(&self, process: u64) -> Option<&Process<'a>>
        ensures { option_map (λ q. process_of q.now) result ≡ (state_of self.now).process process }
    {
        self.processes.get_ref(process)
    }

    /// A stray wake-up: a process resumes that waits on the condition; false, and nothing is done, where it doesn't.
    pub fn stray(&mut self, process: u64, condition: Member) -> bool
        ensures { MatchBool result
            (IsStray (state_of self.old) process condition (state_of self.new))
            ((s : SourceStateOf) → IsStray (state_of self.old) process condition s → ⊥) }
    {
        self.table.stray(process, condition)
    }
}
