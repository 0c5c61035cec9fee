// The instructions of a text, with what their names stand for.

ghost use Rattle.isa.specs.Spelling.{HasByte};

use crate::draft::{Draft, Drafted, Operand};
use crate::instructions::{made, target_of};
use crate::line_words::Word;
use crate::names::{Layout, Meaning, Names};
use crate::numbers::{is_numeric, number_of};
use crate::refusal::{AssemblyFault, AssemblyRefusal};
use isa::{Instr, Slot};
use std::alloc::Global;
use words::ImageVersion;

/// What names stand for, with their addresses.
#[derive(Clone, Copy)]
pub(crate) struct Scope<'n, 't> {
    /// The names.
    pub names: &'n Names<'t>,
    /// Where locks and words lie.
    pub layout: Layout,
    /// How many instructions there are.
    pub count: u32,
}

// A name without what is added to it, and that.
fn name_and_offset<'t>(word: &Word<'t>) -> Result<(&'t [u8], u32), AssemblyRefusal> {
    let text = word.text;
    let Some(at) = text.iter().position(|byte| *byte == b'+') else {
        return Ok((text, 0));
    };
    let name = text.get(..at).unwrap_or(text);
    let digits = text.get(at.saturating_add(1)..).unwrap_or(&[]);
    match number_of(digits) {
        Some(offset) => Ok((name, offset)),
        None => Err(word.refused(AssemblyFault::Number)),
    }
}

impl<'t> Scope<'_, 't> {
    // The address of the lock word of a lock.
    fn lock_word(&self, text: &[u8]) -> Option<u32> {
        let [name @ .., b'.', b'l', b'o', b'c', b'k'] = text else {
            return None;
        };
        match self.meaning(name)? {
            Meaning::Lock { address } => Some(address.saturating_add(1)),
            _ => None,
        }
    }

    // What a name stands for.
    fn meaning(&self, text: &[u8]) -> Option<Meaning> {
        Some(self.layout.placed(self.names.meaning(text)?))
    }

    // The number that a name stands for.
    fn number(&self, text: &[u8]) -> Option<u32> {
        match self.meaning(text) {
            Some(Meaning::Words { address, .. } | Meaning::Lock { address }) => Some(address),
            Some(Meaning::Constant(number) | Meaning::Label(number)) => Some(number),
            Some(Meaning::Local(_)) => None,
            None => self.lock_word(text),
        }
    }

    // The number that a word writes or stands for.
    fn value(&self, word: &Word<'t>) -> Result<u32, AssemblyRefusal> {
        if is_numeric(word.text) {
            return number_of(word.text).ok_or(word.refused(AssemblyFault::Number));
        }
        let (name, offset) = name_and_offset(word)?;
        match self.number(name) {
            Some(number) => number
                .checked_add(offset)
                .ok_or(word.refused(AssemblyFault::Number)),
            None => Err(word.refused(AssemblyFault::Unknown)),
        }
    }

    // The local that a word names.
    fn local(&self, word: &Word<'t>) -> Option<u32> {
        match self.meaning(word.text)? {
            Meaning::Local(number) => Some(number),
            _ => None,
        }
    }

    // The number of an operand of an instruction of this kind.
    fn operand(&self, kind: Instr, operand: &Operand<'t>) -> Result<u32, AssemblyRefusal> {
        let word = match operand {
            Operand::Number(number) => return Ok(*number),
            Operand::Word(word) => word,
        };
        match (kind, self.local(word)) {
            (Instr::GetLocal(_) | Instr::SetLocal(_), Some(number)) => Ok(number),
            _ => self.value(word),
        }
    }

    // What an instruction is that pushes what a word stands for: of a local, what it holds.
    fn kind_of(&self, drafted: &Drafted<'t>) -> Instr {
        match (drafted.kind, drafted.first) {
            (Instr::Push(_), Operand::Word(word)) if self.local(&word).is_some() => {
                Instr::GetLocal(Slot::Local(0))
            }
            (kind, _) => kind,
        }
    }

    /// The instruction.
    pub fn instruction(&self, drafted: &Drafted<'t>) -> Result<Instr, AssemblyRefusal> {
        let kind = self.kind_of(drafted);
        let first = self.operand(kind, &drafted.first)?;
        let second = self.operand(kind, &drafted.second)?;
        let Some(instr) = made(kind, first, second) else {
            return Err(drafted.word.refused(AssemblyFault::Limit));
        };
        match target_of(instr) {
            Some(place) if place >= self.count => Err(drafted.word.refused(AssemblyFault::Place)),
            _ => Ok(instr),
        }
    }

    /// The place where the first thread begins: that of the first instruction, where no other is declared.
    pub fn start(&self, word: Option<&Word<'t>>) -> Result<u32, AssemblyRefusal> {
        let Some(word) = word else {
            return Ok(0);
        };
        let place = self.value(word)?;
        if place >= self.count {
            return Err(word.refused(AssemblyFault::Start));
        }
        Ok(place)
    }
}

impl<'t> Draft<'t> {
    /// The version, where none is declared the second.
    pub fn image_version(&self) -> ImageVersion
        ensures { HasByte result }
    {
        match self.version {
            Some(declared) => declared.version(),
            None => ImageVersion::Two,
        }
    }

    /// What the names stand for.
    pub fn scope(&self) -> Scope<'_, 't> {
        let mut before: u32 = 0;
        for members in self.monitors.iter() {
            before = before.saturating_add(members.saturating_add(2));
        }
        Scope {
            names: &self.names,
            layout: Layout::new(self.image_version(), before, self.locks),
            count: self.place(),
        }
    }

    /// The members of the monitors: of those without a name, of the locks, and of the one that has all words.
    pub fn all_monitors(&self, alloc: Global) -> Result<Vec<u32>, AssemblyRefusal> {
        let mut monitors = Vec::from_slice(alloc, self.monitors.as_slice())?;
        for _lock in 0..self.locks {
            monitors.push(0)?;
        }
        if self.words > 0 {
            monitors.push(self.words)?;
        }
        Ok(monitors)
    }
}
