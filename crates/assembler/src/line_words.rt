// The words of a line.

use scanner::Place;
use std::alloc::{AllocError, Global};

/// A word, a mark, or what stands between them, with its place in the text.
#[derive(Clone, Copy)]
pub(crate) struct Word<'t> {
    /// Its bytes.
    pub text: &'t [u8],
    /// The place of the first of them.
    pub place: Place,
}

impl Word<'_> {
    /// Whether it is written so.
    pub fn is(&self, text: &[u8]) -> bool {
        self.text == text
    }
}

fn is_blank(byte: u8) -> bool {
    matches!(byte, b' ' | b'\t' | b'\r')
}

// A mark is a word by itself.
fn is_mark(byte: u8) -> bool {
    matches!(byte, b';' | b':')
}

// What follows so many bytes.
fn behind(text: &[u8], count: usize) -> &[u8] {
    text.get(count..).unwrap_or(&[])
}

// How many bytes the word has that a text begins with.
fn length_of(text: &[u8]) -> usize {
    let end = text
        .iter()
        .position(|byte| is_blank(*byte) || is_mark(*byte))
        .unwrap_or(text.len());
    end.max(1)
}

// A text without the blanks and the comment that it begins with.
fn without_blanks(text: &[u8]) -> &[u8] {
    let blanks = text.iter().position(|byte| !is_blank(*byte));
    let rest = behind(text, blanks.unwrap_or(text.len()));
    if rest.starts_with(b"--") { &[] } else { rest }
}

// The place of what is left of a line.
fn place_of(line: &[u8], rest: &[u8], number: u32) -> Place {
    let before = line.len().saturating_sub(rest.len());
    Place {
        line: number,
        column: u32::try_from(before.saturating_add(1)).unwrap_or(u32::MAX),
    }
}

/// The words of the line of this number, up to its comment.
pub(crate) fn words_of<'t>(
    alloc: Global,
    line: &'t [u8],
    number: u32,
) -> Result<Vec<Word<'t>>, AllocError> {
    let mut words = Vec::new(alloc);
    let mut rest = without_blanks(line);
    for _turn in 0..line.len() {
        if rest.is_empty() {
            break;
        }
        let length = length_of(rest);
        words.push(Word {
            text: rest.get(..length).unwrap_or(rest),
            place: place_of(line, rest, number),
        })?;
        rest = without_blanks(behind(rest, length));
    }
    Ok(words)
}
