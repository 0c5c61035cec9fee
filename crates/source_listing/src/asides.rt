use crate::monitor_words::Words;
use crate::plan::Plan;
use crate::starts::starts_of;
use emit_image::LineStart;
use isa::Instr;
use places::{Places, places_of};
use program::Checked;
use std::alloc::{AllocError, Global};
use text_writer::TextWriter;
use words::ImageVersion;

/// What stands beside the lines of a listing.
#[derive(Drop)]
pub struct Listing {
    /// What stands before the first line.
    pub head: String,
    /// What stands behind each line, and before its line feed.
    pub tails: Vec<String>,
}

// The text, as it stands beside a listing.
#[derive(Drop)]
struct Source<'t> {
    lines: Vec<&'t [u8]>,
}

impl<'t> Source<'t> {
    fn of(alloc: Global, text: &'t [u8]) -> Result<Source<'t>, AllocError> {
        let mut lines = Vec::new(alloc);
        for line in text.split(|byte| *byte == b'\n') {
            lines.push(line)?;
        }
        Ok(Source { lines })
    }

    // Appends a line, with its number.
    fn append(&self, out: &mut TextWriter, number: u32) {
        out.form("-- $: ", &[u64::from(number)]);
        let index = (number as usize).saturating_sub(1);
        for byte in self.lines.get(index).copied().unwrap_or(&[]) {
            append_byte(out, *byte);
        }
    }
}

// Appends a byte of a line.
fn append_byte(out: &mut TextWriter, byte: u8) {
    match byte {
        b'\r' => {}
        b'\t' => out.text(" "),
        other => out.shown(&[other]),
    }
}

// What is still to be written beside the instructions.
#[derive(Drop)]
struct Beside<'m, 't> {
    source: &'m Source<'t>,
    starts: &'m [LineStart],
    numbers: &'m [usize],
    last: u32,
}

impl Beside<'_, '_> {
    // The line that begins at a place, where one does that isn't the last one.
    fn line_at(&mut self, place: usize) -> Option<u32> {
        let mut line = None;
        for _start in 0..self.starts.len() {
            match self.starts {
                [first, rest @ ..] if first.place <= place => {
                    line = Some(first.line);
                    self.starts = rest;
                }
                _ => break,
            }
        }
        if line == Some(self.last) {
            return None;
        }
        if let Some(line) = line {
            self.last = line;
        }
        line
    }

    // Whether what is pushed at a place is a number of the text.
    fn is_number(&mut self, place: usize) -> bool {
        match self.numbers {
            [first, rest @ ..] if *first == place => {
                self.numbers = rest;
                true
            }
            _ => false,
        }
    }

    // Appends what stands behind the line of an instruction: the name of its word, and the next source line.
    fn append_tail(
        &mut self,
        out: &mut TextWriter,
        words: &Words<'_, '_>,
        place: usize,
        instruction: Instr,
    ) {
        let is_number = self.is_number(place);
        match instruction {
            Instr::Push(address) if !is_number => words.append_word(out, address),
            Instr::Index(address, _) => words.append_word(out, address),
            _ => {}
        }
        if let Some(line) = self.line_at(place.saturating_add(1)) {
            out.text("\n");
            self.source.append(out, line)
        }
    }

    // What stands behind the line of an instruction.
    fn tail(
        &mut self,
        alloc: Global,
        words: &Words<'_, '_>,
        place: usize,
        instruction: Instr,
    ) -> Result<String, AllocError> {
        let mut out = TextWriter::new(alloc);
        self.append_tail(&mut out, words, place, instruction);
        out.finish()
    }
}

/// What stands beside the listing of a program's image of this version, whose text this is: before the instructions that a source line
/// became that line, and behind an instruction that has the address of a monitor's word what that is.
///
/// # Errors
///
/// Where memory runs out, and for nothing else.
pub fn listing_of(
    alloc: Global,
    text: &[u8],
    checked: &Checked,
    version: ImageVersion,
    code: &[Instr],
) -> Result<Listing, AllocError> {
    let places = places_of(alloc, text)?;
    listing_by(alloc, text, checked, version, code, &places)
}

// The listing, where the statements stand at these places of the text.
fn listing_by(
    alloc: Global,
    text: &[u8],
    checked: &Checked,
    version: ImageVersion,
    code: &[Instr],
    places: &Places<'_>,
) -> Result<Listing, AllocError> {
    let plan = Plan::of(alloc, checked.program(), version)?;
    let starts = starts_of(alloc, places, &plan)?;
    let numbers = plan.numbers.as_slice();
    listing_with(
        alloc,
        text,
        checked,
        version,
        code,
        starts.as_slice(),
        numbers,
    )
}

// The listing, where the code of lines begins at these places, and these are the numbers of the program's plan.
fn listing_with(
    alloc: Global,
    text: &[u8],
    checked: &Checked,
    version: ImageVersion,
    code: &[Instr],
    starts: &[LineStart],
    numbers: &[usize],
) -> Result<Listing, AllocError> {
    let source = Source::of(alloc, text)?;
    let words = Words::of(alloc, checked.program(), checked.names(), version)?;
    let beside = Beside {
        source: &source,
        starts,
        numbers,
        last: 0,
    };
    listing_beside(alloc, beside, &words, code)
}

// What stands before the first instruction.
fn head_of(alloc: Global, beside: &mut Beside<'_, '_>) -> Result<String, AllocError> {
    let mut head = TextWriter::new(alloc);
    if let Some(line) = beside.line_at(0) {
        beside.source.append(&mut head, line);
        head.text("\n");
    }
    head.finish()
}

// What stands behind each instruction.
fn tails_of(
    alloc: Global,
    beside: &mut Beside<'_, '_>,
    words: &Words<'_, '_>,
    code: &[Instr],
) -> Result<Vec<String>, AllocError> {
    let mut tails = Vec::new(alloc);
    for (place, instruction) in code.iter().enumerate() {
        tails.push(beside.tail(alloc, words, place, *instruction)?)?;
    }
    Ok(tails)
}

fn listing_beside(
    alloc: Global,
    mut beside: Beside<'_, '_>,
    words: &Words<'_, '_>,
    code: &[Instr],
) -> Result<Listing, AllocError> {
    let head = head_of(alloc, &mut beside)?;
    let tails = tails_of(alloc, &mut beside, words, code)?;
    Ok(Listing { head, tails })
}
