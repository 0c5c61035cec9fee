ghost use Rattle.std.specs.Prelude.{◌≡◌, ◌<◌, slice_get, IfSome, IfOk, length, OnSome};
ghost use Rattle.std.specs.List.{AllByRecursion};
ghost use Rattle.isa.specs.Instructions.{operands, IsInstruction, LeadsBelow};
ghost use Rattle.isa.specs.Spelling.{AreWords, IsSpelled};
ghost use Rattle.isa.specs.Limits.{most_instructions};
ghost use Rattle.isa.specs.Programs.{Program, IsProgram};

use crate::instr::Instr;
use std::alloc::{AllocError, Global};
use std::marker::Model;
use words::ImageVersion;

/// The code of a program, where it begins, how many member words each of its monitors has, and of which version it is.
/// Contracts see it as a `Program` that has a spelling: within the limits, each operand below 2^32.
#[derive(Drop)]
pub struct Image {
    version: ImageVersion,
    monitors: Vec<u32>,
    start: u32,
    code: Vec<Instr>,
}

impl Model for Image {
    ghost use Rattle.isa.specs.Programs.{Program};
    ghost use Rattle.isa.specs.Spelling.{IsSpelled};

    ghost Value = { Program };

    ghost view = { λ i. record {
      version = i.version;
      monitors = i.monitors.items;
      start = i.start;
      code = i.code.items;
    } };

    ghost invariant = { λ i. IsSpelled (record {
      version = i.version;
      monitors = i.monitors.items;
      start = i.start;
      code = i.code.items;
    }) };
}

// The operands of an instruction are words, as their types say. Nothing is done when it runs.
fn operand_words(instr: Instr)
    ensures { AreWords (operands instr) }
{
    if let Instr::GetLocal(slot) | Instr::SetLocal(slot) = instr {
        slot.number();
    }
}

// The same of each instruction.
fn code_words(code: &[Instr])
    ensures { AllByRecursion (λ i. AreWords (operands i)) code.now }
{
    for instr in code {
        operand_words(*instr);
    }
}

impl Image {
    /// The image of these parts, which are within the limits.
    pub fn new(version: ImageVersion, monitors: Vec<u32>, start: u32, code: Vec<Instr>) -> Image
        requires { IsProgram
            (record { version = version; monitors = monitors.items; start = start; code = code.items }) }
        ensures { result ≡ record { version = version; monitors = monitors.items; start = start; code = code.items } }
    {
        code_words(code.as_slice());
        Image {
            version,
            monitors,
            start,
            code,
        }
    }

    /// The version, which says how many processes there can be and where the words of the monitors begin.
    pub fn version(&self) -> ImageVersion
        ensures value { result ≡ self.now.version }
    {
        self.version
    }

    /// The number of the first instruction of the first process.
    pub fn start(&self) -> u32
        ensures value { result ≡ self.now.start }
        ensures within { IsProgram self.now }
        ensures spelled { IsSpelled self.now }
    {
        self.start
    }

    /// How many member words each monitor has.
    pub fn monitors(&self) -> &[u32]
        ensures value { result.now ≡ self.now.monitors }
        ensures within { IsProgram self.now }
    {
        self.monitors.as_slice()
    }

    /// The instructions.
    pub fn code(&self) -> &[Instr]
        ensures value { result.now ≡ self.now.code }
        ensures within { IsProgram self.now }
    {
        self.code.as_slice()
    }

    /// The instruction at a place, if the place lies in the code. Its operands are within their limits, and the place
    /// that it names, if any, lies in the code too.
    pub fn at(&self, place: u32) -> Option<Instr>
        ensures value { result ≡ slice_get self.now.code place }
        ensures within { OnSome result (place < most_instructions) }
        ensures limits { IfSome result IsInstruction }
        ensures leads { IfSome result (LeadsBelow (length self.now.code)) }
    {
        self.code.get(place as usize).copied()
    }

    /// The same program as an image of another version.
    pub fn as_version(self, version: ImageVersion) -> Image
        ensures { result ≡ record self { version = version } }
    {
        Image { version, ..self }
    }

    /// A copy.
    pub fn copy(&self, alloc: Global) -> Result<Image, AllocError>
        ensures { IfOk result (λ i. i ≡ self.now) }
    {
        Ok(Image {
            version: self.version,
            monitors: Vec::from_slice(alloc, self.monitors.as_slice())?,
            start: self.start,
            code: Vec::from_slice(alloc, self.code.as_slice())?,
        })
    }
}
