// The lines of a text.

use crate::draft::Draft;
use crate::line_words::{Word, words_of};
use crate::names::Meaning;
use crate::numbers::number_of;
use crate::refusal::{AssemblyFault, AssemblyRefusal};
use std::alloc::Global;

impl<'t> Draft<'t> {
    // What follows the place that a line may begin with, which has to be that of the next instruction.
    fn past_place<'w>(&self, words: &'w [Word<'t>]) -> Result<&'w [Word<'t>], AssemblyRefusal> {
        let [first, rest @ ..] = words else {
            return Ok(words);
        };
        let Some(b'0'..=b'9') = first.text.first() else {
            return Ok(words);
        };
        match number_of(first.text) {
            Some(place) if place == self.place() => Ok(rest),
            Some(_) => Err(first.refused(AssemblyFault::Place)),
            None => Err(first.refused(AssemblyFault::Number)),
        }
    }

    // Declares the labels that a line begins with; what follows them.
    fn past_labels<'w>(
        &mut self,
        words: &'w [Word<'t>],
    ) -> Result<&'w [Word<'t>], AssemblyRefusal> {
        let mut rest = words;
        for _turn in 0..words.len() {
            let [name, mark, behind @ ..] = rest else {
                break;
            };
            if !mark.is(b":") {
                break;
            }
            let place = self.place();
            self.names.declare(name.text, name, Meaning::Label(place))?;
            rest = behind;
        }
        Ok(rest)
    }

    // Adds the steps of a line.
    fn add_steps(&mut self, words: &[Word<'t>]) -> Result<(), AssemblyRefusal> {
        for step in words.split(|word| word.is(b";")) {
            self.add_step(step)?;
        }
        Ok(())
    }

    // Adds a line by its words.
    fn add_words(&mut self, words: &[Word<'t>]) -> Result<(), AssemblyRefusal> {
        let words = self.past_place(words)?;
        let words = self.past_labels(words)?;
        let [first, rest @ ..] = words else {
            return Ok(());
        };
        if self.declare_line(first, rest)? {
            return Ok(());
        }
        self.add_steps(words)
    }

    // Adds the line of a number.
    fn add_line(
        &mut self,
        alloc: Global,
        line: &'t [u8],
        number: u32,
    ) -> Result<(), AssemblyRefusal> {
        let words = words_of(alloc, line, number)?;
        self.add_words(words.as_slice())
    }

    /// The draft of a text.
    pub fn of(alloc: Global, text: &'t [u8]) -> Result<Draft<'t>, AssemblyRefusal> {
        let mut draft = Draft::new(alloc);
        let mut number: u32 = 0;
        for line in text.split(|byte| *byte == b'\n') {
            number = number.saturating_add(1);
            draft.add_line(alloc, line, number)?;
        }
        Ok(draft)
    }
}
