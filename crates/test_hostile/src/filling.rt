use std::alloc::{AllocError, Global};

/// What stands before the part of a text that is repeated, that part, and what stands behind.
#[derive(Clone, Copy)]
pub struct Parts<'a> {
    /// Before it.
    pub head: &'a [u8],
    /// The part.
    pub unit: &'a [u8],
    /// Behind it.
    pub tail: &'a [u8],
}

/// The text of so many bytes in which the part is repeated as often as it can be. Blanks fill it up.
pub fn text_of(alloc: Global, parts: &Parts, size: usize) -> Result<Vec<u8>, AllocError> {
    let mut text = Vec::with_capacity(alloc, size)?;
    append_lines(&mut text, parts.head)?;
    let end = size.saturating_sub(parts.tail.len());
    let room = end.saturating_sub(text.len());
    let times = room.checked_div(parts.unit.len()).unwrap_or(0);
    append_repeated(&mut text, parts.unit, times)?;
    let blanks = end.saturating_sub(text.len());
    append_repeated(&mut text, b" ", blanks)?;
    append_lines(&mut text, parts.tail)?;
    Ok(text)
}

fn append_repeated(text: &mut Vec<u8>, unit: &[u8], times: usize) -> Result<(), AllocError> {
    for _ in 0..times {
        append_lines(text, unit)?;
    }
    Ok(())
}

// Appends bytes of a row, in which `~` stands for a line feed.
fn append_lines(text: &mut Vec<u8>, bytes: &[u8]) -> Result<(), AllocError> {
    for byte in bytes {
        text.push(if *byte == b'~' { b'\n' } else { *byte })?;
    }
    Ok(())
}
