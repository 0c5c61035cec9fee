// A text without white space that says nothing.

ghost use Rattle.std.specs.Prelude.{◌≡◌, ◌++◌, [], OnOk, IfOk};
ghost use Rattle.scanner.specs.Bytes.{is_white};
ghost use Rattle.source_layout.specs.Bare.{bare, bare_from, blanks_after, kept, kept_at_end, stand_after};

use std::alloc::{AllocError, Global};

/// Where a reader of a text stands.
#[derive(Clone, Copy)]
pub enum Stand {
    /// Outside of comments.
    Outside,
    /// Behind a minus outside of comments.
    Minus,
    /// In a comment.
    Inside,
}

// How far a text was read, and what is kept of it.
#[derive(Drop)]
struct Reader {
    stand: Stand,
    // White space in a comment, which belongs to it if more of it follows.
    blanks: Vec<u8>,
    kept: Vec<u8>,
}

/// Whether a byte is white space.
pub(crate) fn is_white(byte: u8) -> bool
    ensures { result ≡ is_white byte }
{
    matches!(byte, b' ' | b'\t' | b'\n' | b'\r')
}

// Where a reader stands behind a byte.
fn stand_after(stand: Stand, byte: u8) -> Stand
    ensures { result ≡ stand_after stand byte }
{
    match stand {
        Stand::Outside if byte == b'-' => Stand::Minus,
        Stand::Minus if byte == b'-' => Stand::Inside,
        Stand::Inside if byte != b'\n' => Stand::Inside,
        _ => Stand::Outside,
    }
}

// Keeps what is to be kept at a byte of a comment.
fn keep_comment(out: &mut Vec<u8>, blanks: &mut Vec<u8>, byte: u8) -> Result<(), AllocError>
    ensures kept { OnOk result (out.new.items
        ≡ out.old.items ++ kept Stand.Inside blanks.old.items byte) }
    ensures blanks { OnOk result (blanks.new.items
        ≡ blanks_after Stand.Inside blanks.old.items byte) }
{
    if byte != b'\n' && is_white(byte) {
        blanks.push(byte)?;
        return Ok(());
    }
    if byte != b'\n' {
        out.extend_from_slice(blanks.as_slice())?;
    }
    blanks.clear();
    out.push(byte)?;
    Ok(())
}

// Keeps what is to be kept at a byte outside of comments.
fn keep_other(out: &mut Vec<u8>, byte: u8) -> Result<(), AllocError>
    ensures { OnOk result (out.new.items ≡ out.old.items ++ kept Stand.Outside [] byte) }
{
    if !is_white(byte) {
        out.push(byte)?;
    }
    Ok(())
}

impl Reader {
    // Reads a byte.
    fn read(&mut self, byte: u8) -> Result<(), AllocError>
        ensures kept { OnOk result (self.new.kept.items
            ≡ self.old.kept.items ++ kept self.old.stand self.old.blanks.items byte) }
        ensures blanks { OnOk result (self.new.blanks.items
            ≡ blanks_after self.old.stand self.old.blanks.items byte) }
        ensures stand { OnOk result (self.new.stand ≡ stand_after self.old.stand byte) }
    {
        let stand = self.stand;
        self.stand = stand_after(stand, byte);
        match stand {
            Stand::Inside => keep_comment(&mut self.kept, &mut self.blanks, byte),
            Stand::Outside | Stand::Minus => {
                self.blanks.clear();
                keep_other(&mut self.kept, byte)
            }
        }
    }

    // Reads a text.
    fn read_all(&mut self, text: &[u8]) -> Result<(), AllocError>
        ensures { OnOk result (self.new.kept.items ++ kept_at_end self.new.stand
            ≡ self.old.kept.items ++ bare_from self.old.stand self.old.blanks.items text.now) }
    {
        for byte in text {
            self.read(*byte)?;
        }
        Ok(())
    }
}

/// What is kept of a text.
pub(crate) fn bare(alloc: Global, text: &[u8]) -> Result<Vec<u8>, AllocError>
    ensures { IfOk result (λ v. v.items ≡ bare text.now) }
{
    let mut reader = Reader {
        stand: Stand::Outside,
        blanks: Vec::new(alloc),
        kept: Vec::new(alloc),
    };
    reader.read_all(text)?;
    if matches!(reader.stand, Stand::Inside) {
        reader.kept.push(b'\n')?;
    }
    Ok(reader.kept)
}
