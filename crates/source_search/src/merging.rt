ghost use Rattle.std.specs.Prelude.{◌≡◌, ◌<◌, All, IfOk, IfSome, OnOk, length, true};
ghost use Rattle.source_states.specs.States.{state_of};
ghost use Rattle.source_search.specs.Spots.{IsPutAt};

use crate::held_up::is_held_up;
use crate::making::{is_quiet, other_of};
use crate::memo::Outcome;
use crate::packed::Packed;
use crate::parts::Parts;
use crate::spot::Spot;
use program::Program;
use source_states::SourceState;
use std::alloc::{AllocError, Global};

// Puts a part at the place of a process, or behind the last one; false where the process has a number further on.
fn put_part(processes: &mut Vec<u32>, process: u64, part: u32) -> Result<bool, AllocError>
    ensures { IfOk result (λ b. b ≡ true → IsPutAt processes.old.items process part processes.new.items) }
{
    if process == 0 {
        return Ok(false);
    }
    let place = (process - 1) as usize;
    if place > processes.len() {
        return Ok(false);
    }
    if place == processes.len() {
        processes.push(part)?;
        return Ok(true);
    }
    processes[place] = part;
    Ok(true)
}

// What an outcome says of the way to it, in two bytes each.
#[derive(Clone, Copy)]
struct Short {
    // The number of the process that was made; 0 where none was.
    made: u16,
    // The place of the action.
    choice: u16,
    // That of a later one.
    later: u16,
}

// The same in two bytes each; None where one is greater.
fn way_of(number: u64, choice: usize, later: usize) -> Option<Short>
    ensures { IfSome result (λ x. x.made ≡ number) }
{
    let (Ok(made), Ok(choice), Ok(later)) = (
        u16::try_from(number),
        u16::try_from(choice),
        u16::try_from(later),
    ) else {
        return None;
    };
    Some(Short {
        made,
        choice,
        later,
    })
}

// Whether no process looks as if its next action had become calm, where one of this number went on to a state and made
// another, if the other's number isn't 0.
fn are_quiet(state: &SourceState, process: u64, child: u64) -> bool {
    is_quiet(state, process) && (child == 0 || is_quiet(state, child))
}

impl<'a> Parts<'a> {
    ghost use Rattle.program.specs.Trees.{Program as ProgramOf};
    ghost use Rattle.meaning.specs.Runs.{CanMove};
    ghost use Rattle.source_search.specs.Known.{IsChild, IsNumbered};
    ghost use Rattle.source_search.specs.Packed.{IsGrown, IsWithin};
    ghost use Rattle.source_search.specs.Spots.{IsAlone, IsMergedOf, IsMergedTo, alone};

    /// The state in which a process stands at this spot, and there is no other; None where a part isn't there.
    pub fn small(&self, alloc: Global, spot: Spot) -> Result<Option<SourceState<'a>>, AllocError>
        ensures { IfOk result (λ o. IfSome o (λ s. IsAlone self.now spot (state_of s))) }
    {
        let Some(part) = self.processes.get(spot.part as usize) else {
            return Ok(None);
        };
        let Some(table) = self.tables.get(spot.table as usize) else {
            return Ok(None);
        };
        let Some(variables) = self.variables.get(spot.variables as usize) else {
            return Ok(None);
        };
        let process = part.copy(alloc)?;
        let mut state = SourceState::unpeopled(alloc, table.copy()?, variables.copy()?);
        state.place(u64::from(spot.process), process)?;
        Ok(Some(state))
    }

    /// Whether the process of this spot is held up there, so that it can't move. It is told without a copy.
    pub fn is_held_up(&self, spot: Spot) -> bool
        ensures { result ≡ true → (p : ProgramOf) → CanMove p (alone self.now spot) spot.process → ⊥ }
    {
        let Some(part) = self.processes.get(spot.part as usize) else {
            return false;
        };
        let Some(table) = self.tables.get(spot.table as usize) else {
            return false;
        };
        is_held_up(table, u64::from(spot.process), part)
    }

    // The numbers of the processes of a kept state, with those of a state, of which these are all, in place of its own;
    // None where there are too many, or one has a number past the next one.
    fn merge_processes(
        &mut self,
        alloc: Global,
        processes: &[u32],
        state: &SourceState<'a>,
        numbers: &[u64],
    ) -> Result<Option<Vec<u32>>, AllocError>
        ensures grown { OnOk result (IsGrown self.old self.new) }
        ensures merged { All (λ n. n < length self.old.processes.items) processes.now
            → IfOk result (λ o. IfSome o (λ v. IsMergedTo self.old.processes.items self.new.processes.items
            processes.now (state_of state.now).process numbers.now v.items)) }
    {
        let mut parts = Vec::from_slice(alloc, processes)?;
        for number in numbers {
            let Some(process) = state.process(*number) else {
                return Ok(None);
            };
            let Some(part) = self.process_number(alloc, process)? else {
                return Ok(None);
            };
            if !put_part(&mut parts, *number, part)? {
                return Ok(None);
            }
        }
        Ok(Some(parts))
    }

    /// A kept state, with a state's table, variables and processes in place of its own; None where there are too many
    /// parts, or one of the processes has a number past the next one.
    pub fn merge(
        &mut self,
        alloc: Global,
        program: &Program,
        packed: &Packed,
        state: &SourceState<'a>,
    ) -> Result<Option<Packed>, AllocError>
        ensures grown { OnOk result (IsGrown self.old self.new) }
        ensures merged { IsWithin self.old packed.now → IfOk result (λ o. IfSome o
            (λ x. IsMergedOf self.old self.new packed.now (state_of state.now) x)) }
    {
        let all = state.numbers(alloc)?;
        let numbers = all.as_slice();
        let own = packed.processes.as_slice();
        let Some(processes) = self.merge_processes(alloc, own, state, numbers)? else {
            return Ok(None);
        };
        let made = processes.len() as u64;
        let Some(table) = self.table_number(alloc, program, state, made, packed.table)? else {
            return Ok(None);
        };
        let values = state.variables();
        let Some(variables) = self.variables_number(alloc, values, packed.variables)? else {
            return Ok(None);
        };
        Ok(Some(Packed {
            table,
            variables,
            processes,
        }))
    }

    // The number of the part of the process of this number in a state; where that is 0 it is this one.
    fn child_number(
        &mut self,
        alloc: Global,
        state: &SourceState<'a>,
        number: u64,
        part: u32,
    ) -> Result<Option<u32>, AllocError>
        ensures grown { OnOk result (IsGrown self.old self.new) }
        ensures there { IfOk result (λ o. IfSome o
            (λ n. IsChild self.new.processes.items (state_of state.now).process n part number)) }
    {
        if number == 0 {
            return Ok(Some(part));
        }
        let Some(process) = state.process(number) else {
            return Ok(None);
        };
        self.process_number(alloc, process)
    }

    /// A state in which there is the process of this spot, and one that it made, or no other, in numbers, by these
    /// choices; None where there are others, or too many parts.
    pub fn number(
        &mut self,
        alloc: Global,
        program: &Program,
        spot: Spot,
        state: &SourceState<'a>,
        choice: usize,
        later: usize,
    ) -> Result<Option<Outcome>, AllocError>
        ensures grown { OnOk result (IsGrown self.old self.new) }
        ensures numbered { IfOk result (λ o. IfSome o
            (IsNumbered self.new spot.process (state_of state.now))) }
    {
        let all = state.numbers(alloc)?;
        let Some(number) = other_of(all.as_slice(), u64::from(spot.process)) else {
            return Ok(None);
        };
        let Some(process) = state.process(u64::from(spot.process)) else {
            return Ok(None);
        };
        let Some(part) = self.process_number(alloc, process)? else {
            return Ok(None);
        };
        let Some(child) = self.child_number(alloc, state, number, part)? else {
            return Ok(None);
        };
        let Some(table) = self.table_number(alloc, program, state, state.made(), spot.table)? else {
            return Ok(None);
        };
        let values = state.variables();
        let Some(variables) = self.variables_number(alloc, values, spot.variables)? else {
            return Ok(None);
        };
        let Some(way) = way_of(number, choice, later) else {
            return Ok(None);
        };
        Ok(Some(Outcome {
            part,
            table,
            variables,
            child,
            made: way.made,
            choice: way.choice,
            later: way.later,
            quiet: are_quiet(state, u64::from(spot.process), number),
        }))
    }
}
