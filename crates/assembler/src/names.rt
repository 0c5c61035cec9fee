// What names stand for.

use crate::line_words::Word;
use crate::refusal::{AssemblyFault, AssemblyRefusal};
use indexmap::IndexMap;
use std::alloc::Global;
use words::ImageVersion;

/// What a name of an assembly text stands for.
#[derive(Clone, Copy, PartialEq, Eq, Debug)]
pub enum Meaning {
    /// So many words of memory, from this address on.
    Words {
        /// The address of the first one.
        address: u32,
        /// How many there are, one at least.
        count: u32,
    },
    /// A lock: this is the address of its link word, behind which its lock word stands.
    Lock {
        /// The address of its link word.
        address: u32,
    },
    /// A local of each frame, by its number.
    Local(u32),
    /// A number.
    Constant(u32),
    /// The place of an instruction.
    Label(u32),
}

/// A name of an assembly text.
#[derive(Clone, Copy)]
pub struct Name<'t> {
    /// How it is written.
    pub text: &'t [u8],
    /// What it stands for.
    pub meaning: Meaning,
}

/// The names of a text. Until the last line is read, the words of memory and the locks have their numbers, from 0, in the
/// place of their addresses.
#[derive(Drop)]
pub(crate) struct Names<'t> {
    names: IndexMap<&'t [u8], Meaning>,
}

// Whether a byte can stand in a name.
fn is_of_name(byte: u8) -> bool {
    byte.is_ascii_alphanumeric() || byte == b'_'
}

// Whether a text can be a name: of letters, digits and _, no digit first. SELF and _ have a meaning of their own.
fn is_name(text: &[u8]) -> bool {
    let Some(first) = text.first() else {
        return false;
    };
    if first.is_ascii_digit() || text == b"_".as_slice() || text == b"SELF".as_slice() {
        return false;
    }
    text.iter().all(|byte| is_of_name(*byte))
}

impl<'t> Names<'t> {
    /// No names.
    pub fn new(alloc: Global) -> Names<'t> {
        Names {
            names: IndexMap::new(alloc),
        }
    }

    /// Declares a name, which is written so.
    pub fn declare(
        &mut self,
        text: &'t [u8],
        word: &Word<'t>,
        meaning: Meaning,
    ) -> Result<(), AssemblyRefusal> {
        if !is_name(text) {
            return Err(word.refused(AssemblyFault::Name));
        }
        if self.names.contains_key(text) {
            return Err(word.refused(AssemblyFault::Twice));
        }
        self.names.insert(text, meaning)?;
        Ok(())
    }

    /// What a name stands for.
    pub fn meaning(&self, text: &[u8]) -> Option<Meaning> {
        self.names.get(text).copied()
    }

    /// The names in the order of their declarations, with their addresses.
    pub fn listed(&self, alloc: Global, layout: Layout) -> Result<Vec<Name<'t>>, AssemblyRefusal> {
        let mut listed = Vec::new(alloc);
        for (text, meaning) in self.names.iter() {
            listed.push(Name {
                text: *text,
                meaning: layout.placed(*meaning),
            })?;
        }
        Ok(listed)
    }
}

impl Word<'_> {
    /// The refusal of the word.
    pub fn refused(&self, fault: AssemblyFault) -> AssemblyRefusal {
        AssemblyRefusal {
            fault,
            place: self.place,
        }
    }
}

/// Where locks and words lie.
#[derive(Clone, Copy)]
pub(crate) struct Layout {
    // The link word of the first lock.
    locks: u32,
    // The first word.
    words: u32,
}

impl Layout {
    /// The layout behind monitors that have so many words, of so many locks.
    pub fn new(version: ImageVersion, before: u32, locks: u32) -> Layout {
        let first = version.monitors_base().saturating_add(before);
        Layout {
            locks: first,
            words: first
                .saturating_add(locks.saturating_mul(2))
                .saturating_add(2),
        }
    }

    /// What a name stands for, with its address.
    pub fn placed(self, meaning: Meaning) -> Meaning {
        match meaning {
            Meaning::Words { address, count } => Meaning::Words {
                address: self.words.saturating_add(address),
                count,
            },
            Meaning::Lock { address } => Meaning::Lock {
                address: self.locks.saturating_add(address.saturating_mul(2)),
            },
            other => other,
        }
    }
}
