// A text that is being read: what is declared in it, and its instructions, whose operands may be names.

ghost use Rattle.isa.specs.Spelling.{HasByte};

use crate::line_words::Word;
use crate::names::Names;
use crate::refusal::{AssemblyFault, AssemblyRefusal};
use isa::{Instr, MOST_INSTRUCTIONS};
use std::alloc::Global;
use words::ImageVersion;

/// A version that a text can declare: one that has a byte.
#[derive(Clone, Copy)]
pub(crate) enum DeclaredVersion {
    /// The first.
    One,
    /// The second.
    Two,
}

impl DeclaredVersion {
    /// The version of an image.
    pub fn version(self) -> ImageVersion
        ensures { HasByte result }
    {
        match self {
            DeclaredVersion::One => ImageVersion::One,
            DeclaredVersion::Two => ImageVersion::Two,
        }
    }
}

/// An operand that stands in an instruction itself.
#[derive(Clone, Copy)]
pub(crate) enum Operand<'t> {
    /// There is none, or it is this number.
    Number(u32),
    /// What a word stands for.
    Word(Word<'t>),
}

/// An instruction whose operands may be names.
#[derive(Clone, Copy)]
pub(crate) struct Drafted<'t> {
    /// An instruction of its kind.
    pub kind: Instr,
    /// Its first operand.
    pub first: Operand<'t>,
    /// Its second operand.
    pub second: Operand<'t>,
    /// The word that it was made of.
    pub word: Word<'t>,
}

/// What has been read of a text.
#[derive(Drop)]
pub(crate) struct Draft<'t> {
    /// The version, where one is declared.
    pub version: Option<DeclaredVersion>,
    /// Where the first thread begins, where that is declared.
    pub start: Option<Word<'t>>,
    /// How many members each monitor without a name has.
    pub monitors: Vec<u32>,
    /// How many locks there are.
    pub locks: u32,
    /// How many words of memory have a name.
    pub words: u32,
    /// How many locals have a name.
    pub locals: u32,
    /// What names stand for.
    pub names: Names<'t>,
    /// The instructions.
    pub code: Vec<Drafted<'t>>,
}

impl<'t> Draft<'t> {
    /// Of no lines.
    pub fn new(alloc: Global) -> Draft<'t> {
        Draft {
            version: None,
            start: None,
            monitors: Vec::new(alloc),
            locks: 0,
            words: 0,
            locals: 0,
            names: Names::new(alloc),
            code: Vec::new(alloc),
        }
    }

    /// The place of the next instruction.
    pub fn place(&self) -> u32 {
        u32::try_from(self.code.len()).unwrap_or(u32::MAX)
    }

    /// Adds an instruction that a word is made of.
    pub fn add(
        &mut self,
        kind: Instr,
        first: Operand<'t>,
        second: Operand<'t>,
        word: &Word<'t>,
    ) -> Result<(), AssemblyRefusal> {
        if self.code.len() >= MOST_INSTRUCTIONS {
            return Err(word.refused(AssemblyFault::Limit));
        }
        self.code.push(Drafted {
            kind,
            first,
            second,
            word: *word,
        })?;
        Ok(())
    }

    /// Adds an instruction with no operand that has to be looked up.
    pub fn add_plain(
        &mut self,
        kind: Instr,
        first: u32,
        word: &Word<'t>,
    ) -> Result<(), AssemblyRefusal> {
        self.add(kind, Operand::Number(first), Operand::Number(0), word)
    }
}
