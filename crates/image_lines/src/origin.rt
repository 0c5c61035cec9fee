use assembler::{Meaning, Name};
use text_writer::TextWriter;

/// Where an image comes from: what its words are called, and where its instructions stand in a text.
#[derive(Clone, Copy)]
pub struct Origin<'a> {
    /// The name of the text's file.
    pub file: &'a str,
    /// The line of each instruction, from 1; none where the text isn't at hand.
    pub lines: &'a [u32],
    /// The names of words and locks; none where they aren't at hand.
    pub names: &'a [Name<'a>],
}

// What the six words of each process are called.
const PROCESS_WORDS: [&str; 6] = ["head", "pending", "id", "claim", "result", "outcome"];

// Writes a name, and which of its words one is, where it has several.
fn write_words(name: &Name, index: u32, count: u32, writer: &mut TextWriter) {
    writer.shown(name.text);
    if count > 1 {
        writer.form("[$]", &[u64::from(index)]);
    }
}

// Writes the name of a word, where this name is; tells whether it is.
fn write_where(name: &Name, word: u32, writer: &mut TextWriter) -> bool {
    match name.meaning {
        Meaning::Words { address, count } => {
            let index = word.wrapping_sub(address);
            if index < count {
                write_words(name, index, count, writer);
            }
            index < count
        }
        Meaning::Lock { address } => {
            let index = word.wrapping_sub(address);
            if index < 2 {
                writer.shown(name.text);
                writer.text(if index == 1 { ".lock" } else { "" });
            }
            index < 2
        }
        _ => false,
    }
}

// Writes what a word is called that has no name of its own, of which this address is the first that belongs to no process.
fn write_address(word: u32, base: u32, writer: &mut TextWriter) {
    if word == 0 || word >= base {
        writer.number(u64::from(word));
        return;
    }
    let before = word - 1;
    writer.text(PROCESS_WORDS[(before % 6) as usize]);
    writer.form("($)", &[u64::from(before / 6 + 1)]);
}

impl<'a> Origin<'a> {
    /// Writes what the word at an address is called, where this address is the first that belongs to no process.
    pub(crate) fn write_word(&self, word: u32, base: u32, writer: &mut TextWriter) {
        for name in self.names {
            if write_where(name, word, writer) {
                return;
            }
        }
        write_address(word, base, writer);
    }

    /// Writes where an instruction stands, behind two blanks, and ends the line; nothing of where a thread is in its exit.
    pub(crate) fn end_line(&self, place: Option<u32>, writer: &mut TextWriter) {
        if let Some(place) = place {
            match self.lines.get(place as usize) {
                Some(line) => {
                    writer.text("  ");
                    writer.text(self.file);
                    writer.form(":$", &[u64::from(*line)]);
                }
                None => writer.form("  place $", &[u64::from(place)]),
            }
        }
        writer.text("\n");
    }
}
