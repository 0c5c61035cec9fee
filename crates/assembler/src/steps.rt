// The steps of a line: an instruction, with operands that are pushed before it and a local that its answer is put into.

use crate::draft::{Draft, Operand};
use crate::instructions::{has_answer, own_operands, taken_operands};
use crate::line_words::Word;
use crate::numbers::number_of;
use crate::refusal::{AssemblyFault, AssemblyRefusal};
use crate::table::named;
use isa::{Instr, Slot};
use words::{Fault, ProcessWord};

// The words of a step before an arrow, and the local behind it.
fn without_target<'w, 't>(
    words: &'w [Word<'t>],
) -> Result<(&'w [Word<'t>], Option<&'w Word<'t>>), AssemblyRefusal> {
    let Some(at) = words.iter().position(|word| word.is(b"->")) else {
        return Ok((words, None));
    };
    let front = words.get(..at).unwrap_or(words);
    match words.get(at..) {
        Some([_, target]) => Ok((front, Some(target))),
        Some([arrow, ..]) => Err(arrow.refused(AssemblyFault::Operands)),
        _ => Ok((words, None)),
    }
}

// How many operands stand in an instruction itself, of those that are written. None where they are too few, or too many for
// what it takes besides.
fn own_count(kind: Instr, operands: &[Word<'_>]) -> Option<usize> {
    let own = own_operands(kind).min(operands.len());
    let pushed = operands.len().saturating_sub(own);
    match (kind, operands) {
        (Instr::Fork(_, _), [_]) => Some(1),
        (Instr::Fork(_, _), [_, count, ..]) => {
            let wanted = number_of(count.text)?;
            (pushed == 0 || wanted as usize == pushed).then_some(2)
        }
        _ if own < own_operands(kind) || pushed > taken_operands(kind) => None,
        _ => Some(own),
    }
}

// Whether an instruction's own operands stand before those that are pushed: of those that lead to a procedure.
fn leads_first(kind: Instr) -> bool {
    matches!(kind, Instr::Call(_) | Instr::Fork(_, _))
}

// Which word of a thread is written so.
fn own_word(text: &[u8]) -> Option<ProcessWord> {
    match text {
        b"@head" => Some(ProcessWord::Head),
        b"@pending" => Some(ProcessWord::Pending),
        b"@id" => Some(ProcessWord::Id),
        b"@claim" => Some(ProcessWord::Claim),
        b"@result" => Some(ProcessWord::Result),
        b"@outcome" => Some(ProcessWord::Outcome),
        _ => None,
    }
}

// An operand, or 0 where there is none.
fn operand<'t>(operands: &[Word<'t>], index: usize) -> Operand<'t> {
    match operands.get(index) {
        Some(word) => Operand::Word(*word),
        None => Operand::Number(0),
    }
}

impl<'t> Draft<'t> {
    // Pushes an operand.
    fn push(&mut self, word: &Word<'t>) -> Result<(), AssemblyRefusal> {
        if word.is(b"SELF") {
            return self.add_plain(Instr::OwnNumber, 0, word);
        }
        let Some(own) = own_word(word.text) else {
            let value = Operand::Word(*word);
            return self.add(Instr::Push(0), value, Operand::Number(0), word);
        };
        self.add_plain(Instr::OwnNumber, 0, word)?;
        let kind = Instr::ProcessAddress(ProcessWord::Head);
        self.add_plain(kind, own as u32, word)
    }

    // Pushes operands.
    fn push_all(&mut self, words: &[Word<'t>]) -> Result<(), AssemblyRefusal> {
        for word in words {
            self.push(word)?;
        }
        Ok(())
    }

    // Puts the answer of an instruction into a local, or drops it.
    fn put_answer(&mut self, target: &Word<'t>) -> Result<(), AssemblyRefusal> {
        if target.is(b"_") {
            return self.add_plain(Instr::Pop, 0, target);
        }
        let kind = Instr::SetLocal(Slot::Local(0));
        let local = Operand::Word(*target);
        self.add(kind, local, Operand::Number(0), target)
    }

    // Adds an instruction of this kind with its operands.
    fn add_instruction(
        &mut self,
        kind: Instr,
        name: &Word<'t>,
        operands: &[Word<'t>],
    ) -> Result<(), AssemblyRefusal> {
        let Some(count) = own_count(kind, operands) else {
            return Err(name.refused(AssemblyFault::Operands));
        };
        let first = if leads_first(kind) {
            0
        } else {
            operands.len().saturating_sub(count)
        };
        let behind = first.saturating_add(count);
        self.push_all(operands.get(..first).unwrap_or(&[]))?;
        self.push_all(operands.get(behind..).unwrap_or(&[]))?;
        let second = if count > 1 {
            operand(operands, first.saturating_add(1))
        } else {
            Operand::Number(0)
        };
        self.add(kind, operand(operands, first), second, name)
    }

    // Adds a JZ to a place behind a NOT.
    fn jump_unless_zero(
        &mut self,
        name: &Word<'t>,
        operands: &[Word<'t>],
    ) -> Result<(), AssemblyRefusal> {
        let (target, pushed) = match operands {
            [target] => (target, &operands[..0]),
            [_, target] => (target, &operands[..1]),
            _ => return Err(name.refused(AssemblyFault::Operands)),
        };
        self.push_all(pushed)?;
        self.add_plain(Instr::Not, 0, name)?;
        let place = Operand::Word(*target);
        self.add(Instr::JumpIfZero(0), place, Operand::Number(0), name)
    }

    // Adds a fault where an operand is 0.
    fn assert(&mut self, name: &Word<'t>, operands: &[Word<'t>]) -> Result<(), AssemblyRefusal> {
        if operands.len() > 1 {
            return Err(name.refused(AssemblyFault::Operands));
        }
        self.push_all(operands)?;
        self.add_plain(Instr::Not, 0, name)?;
        let behind = self.place().saturating_add(2);
        self.add_plain(Instr::JumpIfZero(0), behind, name)?;
        let kind = Instr::Raise(Fault::AbortStatement);
        self.add_plain(kind, Fault::AbortStatement.number(), name)
    }

    // Adds an instruction by its name.
    fn add_named(
        &mut self,
        name: &Word<'t>,
        operands: &[Word<'t>],
        target: Option<&Word<'t>>,
    ) -> Result<(), AssemblyRefusal> {
        let Some(kind) = named(name.text) else {
            return Err(name.refused(AssemblyFault::Unknown));
        };
        self.add_instruction(kind, name, operands)?;
        match target {
            Some(target) if has_answer(kind) => self.put_answer(target),
            Some(target) => Err(target.refused(AssemblyFault::Operands)),
            None => Ok(()),
        }
    }

    /// Adds the instructions of a step.
    pub fn add_step(&mut self, words: &[Word<'t>]) -> Result<(), AssemblyRefusal> {
        let (front, target) = without_target(words)?;
        let [name, operands @ ..] = front else {
            return match target {
                Some(target) => Err(target.refused(AssemblyFault::Operands)),
                None => Ok(()),
            };
        };
        match (name.text, target) {
            (b"JNZ", None) => self.jump_unless_zero(name, operands),
            (b"ASSERT", None) => self.assert(name, operands),
            (b"JNZ" | b"ASSERT", Some(target)) => Err(target.refused(AssemblyFault::Operands)),
            _ => self.add_named(name, operands, target),
        }
    }
}
