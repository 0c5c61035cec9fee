ghost use Rattle.std.specs.Prelude.{◌≡◌, ◌++◌, IfOk, OnOk, map};
ghost use Rattle.std.specs.String.{string_bytes};
ghost use Rattle.hint_lines.specs.HintLines.{AreHintLines, hint_line, shown};

use std::alloc::{AllocError, Global};

// How a byte is shown.
fn shown_byte(byte: u8) -> u8
    ensures { result ≡ shown byte }
{
    if (b' '..=b'~').contains(&byte) {
        byte
    } else {
        b'?'
    }
}

/// Appends bytes as they are shown: each as itself, or where no terminal shows it as one sign as a question mark.
///
/// # Errors
///
/// Where memory runs out, and for nothing else.
pub fn append_shown(out: &mut String, bytes: &[u8]) -> Result<(), AllocError>
    ensures { OnOk result (string_bytes out.new ≡ string_bytes out.old ++ map shown bytes.now) }
{
    for byte in bytes {
        out.push(char::from(shown_byte(*byte)))?;
    }
    Ok(())
}

// Appends a line that says this.
fn append_line(out: &mut String, said: &[u8]) -> Result<(), AllocError>
    ensures { OnOk result (string_bytes out.new ≡ string_bytes out.old ++ hint_line said.now) }
{
    out.push_str("  ")?;
    append_shown(out, said)?;
    out.push_str("\n")
}

/// The lines of a text, as hints: each with two blanks before it, and its bytes as they are shown.
///
/// # Errors
///
/// Where memory runs out, and for nothing else.
#[tactic(auto, using(crate::proofs::Joined::no_lines, crate::proofs::Joined::one_more))]
pub fn hint_lines(alloc: Global, text: &[u8]) -> Result<String, AllocError>
    ensures { IfOk result (λ s. AreHintLines (string_bytes s)) }
{
    let mut out = String::new(alloc);
    for line in text.split(|byte| *byte == b'\n') {
        append_line(&mut out, line)?;
    }
    Ok(out)
}
