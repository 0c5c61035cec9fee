// Refusals of texts with their hints.

use crate::failure::Failure;
use compiler::check_text;
use refusal_hints::hints_of;
use scanner::{Place, Refusal, RefusalKind};
use std::alloc::Global;

// The kinds of refusals, in the order of their numbers.
const KINDS: [RefusalKind; 12] = [
    RefusalKind::NotAscii,
    RefusalKind::BadToken,
    RefusalKind::Expected,
    RefusalKind::Redeclared,
    RefusalKind::Unknown,
    RefusalKind::TypeMismatch,
    RefusalKind::WrongPlace,
    RefusalKind::DirectReentry,
    RefusalKind::Recursion,
    RefusalKind::Limit,
    RefusalKind::Memory,
    RefusalKind::StrayPiece,
];

/// A text of several lines, as far as it was read.
#[derive(Drop)]
pub struct HintedText {
    text: String,
    is_open: bool,
}

impl HintedText {
    /// That of no lines, outside any text.
    pub fn new(alloc: Global) -> HintedText {
        HintedText {
            text: String::new(alloc),
            is_open: false,
        }
    }

    /// Whether the next line belongs to a text.
    pub fn is_open(&self) -> bool {
        self.is_open
    }

    /// Takes a line: one of the text, or one that ends it, at which the text's refusal is printed with its hints, and
    /// then the line where it says what the next text has.
    pub fn take<R: AllocGlobal + Print>(&mut self, rt: &R, line: &str) -> Result<(), Failure> {
        if !line.starts_with("==") {
            self.text.push_str(line)?;
            self.text.push_str("\n")?;
            return Ok(());
        }
        show(rt, self.text.as_str())?;
        self.text.clear();
        self.is_open = line != "==";
        if self.is_open {
            println!(rt; "{line}")?;
        }
        Ok(())
    }
}

// Prints the refusal of a text with its hints, if it has one. Before the first text there is none.
fn show<R: AllocGlobal + Print>(rt: &R, text: &str) -> Result<(), Failure> {
    let text = text.as_bytes();
    if text.is_empty() {
        return Ok(());
    }
    match check_text(rt.alloc(), text) {
        Ok(()) => Ok(()),
        Err(refusal) => show_hints(rt, text, refusal),
    }
}

// Prints a refusal with its hints.
fn show_hints<R: AllocGlobal + Print>(
    rt: &R,
    text: &[u8],
    refusal: Refusal,
) -> Result<(), Failure> {
    let hints = hints_of(rt.alloc(), "a.mesa", text, &refusal)?;
    println!(rt; "{refusal}")?;
    print!(rt; "{hints}")?;
    Ok(())
}

/// Prints the hints to a refusal of each kind at a place that its text doesn't have.
pub fn show_astray<R: AllocGlobal + Print>(rt: &R) -> Result<(), Failure> {
    println!(rt; "== A refusal of each kind that isn't the text's.")?;
    for kind in KINDS {
        let refusal = Refusal {
            kind,
            place: Place { line: 2, column: 9 },
        };
        show_hints(rt, b"PROGRAM P;\n\x07\n", refusal)?;
    }
    Ok(())
}
