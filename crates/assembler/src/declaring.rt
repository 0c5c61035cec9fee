// The lines that declare something.

use crate::draft::{DeclaredVersion, Draft};
use crate::line_words::Word;
use crate::names::Meaning;
use crate::numbers::number_of;
use crate::refusal::{AssemblyFault, AssemblyRefusal};
use isa::{MOST_LOCALS, MOST_MEMBER_WORDS, MOST_MONITORS};

// The one word behind the first.
fn only<'w, 't>(first: &Word<'t>, words: &'w [Word<'t>]) -> Result<&'w Word<'t>, AssemblyRefusal> {
    match words {
        [word] => Ok(word),
        _ => Err(first.refused(AssemblyFault::Operands)),
    }
}

// The number that a word writes.
fn number(word: &Word<'_>) -> Result<u32, AssemblyRefusal> {
    number_of(word.text).ok_or(word.refused(AssemblyFault::Number))
}

// The name of words, and how many there are: NAME or NAME[COUNT].
fn name_and_count<'t>(word: &Word<'t>) -> Result<(&'t [u8], u32), AssemblyRefusal> {
    let text = word.text;
    let Some(open) = text.iter().position(|byte| *byte == b'[') else {
        return Ok((text, 1));
    };
    let name = text.get(..open).unwrap_or(text);
    let Some([digits @ .., b']']) = text.get(open.saturating_add(1)..) else {
        return Err(word.refused(AssemblyFault::Number));
    };
    match number_of(digits) {
        Some(count) if count > 0 => Ok((name, count)),
        _ => Err(word.refused(AssemblyFault::Number)),
    }
}

impl<'t> Draft<'t> {
    /// Declares what a line declares that begins so. False where it declares nothing.
    pub fn declare_line(
        &mut self,
        first: &Word<'t>,
        words: &[Word<'t>],
    ) -> Result<bool, AssemblyRefusal> {
        match first.text {
            b"VERSION" => self.declare_version(first, only(first, words)?)?,
            b"START" => self.declare_start(first, only(first, words)?)?,
            b"CONST" => self.declare_constant(first, words)?,
            b"MONITORS" => self.declare_monitors(words)?,
            b"LOCK" => self.declare_locks(words)?,
            b"WORD" => self.declare_words(words)?,
            b"LOCAL" => self.declare_locals(words)?,
            _ => return Ok(false),
        }
        Ok(true)
    }

    fn declare_version(
        &mut self,
        first: &Word<'t>,
        word: &Word<'t>,
    ) -> Result<(), AssemblyRefusal> {
        if self.version.is_some() {
            return Err(first.refused(AssemblyFault::Twice));
        }
        self.version = match number(word)? {
            1 => Some(DeclaredVersion::One),
            2 => Some(DeclaredVersion::Two),
            _ => return Err(word.refused(AssemblyFault::Number)),
        };
        Ok(())
    }

    fn declare_start(&mut self, first: &Word<'t>, word: &Word<'t>) -> Result<(), AssemblyRefusal> {
        if self.start.is_some() {
            return Err(first.refused(AssemblyFault::Twice));
        }
        self.start = Some(*word);
        Ok(())
    }

    fn declare_constant(
        &mut self,
        first: &Word<'t>,
        words: &[Word<'t>],
    ) -> Result<(), AssemblyRefusal> {
        let [name, value] = words else {
            return Err(first.refused(AssemblyFault::Operands));
        };
        let value = number(value)?;
        self.names
            .declare(name.text, name, Meaning::Constant(value))
    }

    // How many members the monitors have that were declared.
    fn member_words(&self) -> u32 {
        let mut sum = self.words;
        for members in self.monitors.iter() {
            sum = sum.saturating_add(*members);
        }
        sum
    }

    // How many monitors were declared: those without a name, a lock each, and one for all words.
    fn monitor_count(&self) -> usize {
        let own = usize::from(self.words > 0);
        self.monitors
            .len()
            .saturating_add(self.locks as usize)
            .saturating_add(own)
    }

    // Tests that an image has so many monitors and members, now that a word has declared more.
    fn test_monitors(&self, word: &Word<'t>) -> Result<(), AssemblyRefusal> {
        if self.monitor_count() > MOST_MONITORS || self.member_words() > MOST_MEMBER_WORDS {
            return Err(word.refused(AssemblyFault::Limit));
        }
        Ok(())
    }

    fn declare_monitors(&mut self, words: &[Word<'t>]) -> Result<(), AssemblyRefusal> {
        for word in words {
            self.monitors.push(number(word)?)?;
            self.test_monitors(word)?;
        }
        Ok(())
    }

    fn declare_locks(&mut self, words: &[Word<'t>]) -> Result<(), AssemblyRefusal> {
        for word in words {
            let meaning = Meaning::Lock {
                address: self.locks,
            };
            self.names.declare(word.text, word, meaning)?;
            self.locks = self.locks.saturating_add(1);
            self.test_monitors(word)?;
        }
        Ok(())
    }

    fn declare_words(&mut self, words: &[Word<'t>]) -> Result<(), AssemblyRefusal> {
        for word in words {
            let (name, count) = name_and_count(word)?;
            let meaning = Meaning::Words {
                address: self.words,
                count,
            };
            self.names.declare(name, word, meaning)?;
            self.words = self.words.saturating_add(count);
            self.test_monitors(word)?;
        }
        Ok(())
    }

    fn declare_locals(&mut self, words: &[Word<'t>]) -> Result<(), AssemblyRefusal> {
        for word in words {
            if self.locals >= MOST_LOCALS {
                return Err(word.refused(AssemblyFault::Limit));
            }
            self.names
                .declare(word.text, word, Meaning::Local(self.locals))?;
            self.locals = self.locals.saturating_add(1);
        }
        Ok(())
    }
}
