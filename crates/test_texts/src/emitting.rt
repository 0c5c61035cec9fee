// The C of programs.

use crate::failure::Failure;
use compiler::compile_checked_as;
use emit_image::emit_image;
use isa::Image;
use program::Checked;
use source_listing::line_starts;
use std::alloc::{AllocError, Global};
use std::str;
use words::ImageVersion;

// A text with a line feed for each `|`.
fn with_line_feeds(alloc: Global, text: &str) -> Result<Vec<u8>, AllocError> {
    let mut bytes = Vec::new(alloc);
    for byte in text.as_bytes() {
        bytes.push(if *byte == b'|' { b'\n' } else { *byte })?;
    }
    Ok(bytes)
}

/// Prints the C of a text, in which `|` stands for a line feed.
pub fn show_c<R: AllocGlobal + Print>(rt: &R, text: &str) -> Result<(), Failure> {
    let text = with_line_feeds(rt.alloc(), text)?;
    show_text(rt, text.as_slice())
}

// Prints the C of a text.
fn show_text<R: AllocGlobal + Print>(rt: &R, text: &[u8]) -> Result<(), Failure> {
    let (checked, lowered) = compile_checked_as(rt.alloc(), text, ImageVersion::Linux)?;
    show_image(rt, text, &checked, &lowered.image)
}

// Prints the C of an image, whose text this is.
fn show_image<R: AllocGlobal + Print>(
    rt: &R,
    text: &[u8],
    checked: &Checked,
    image: &Image,
) -> Result<(), Failure> {
    let starts = line_starts(rt.alloc(), text, checked, image.version())?;
    let file = emit_image(rt.alloc(), image, text, starts.as_slice())?;
    let file = str::from_utf8(file.as_slice()).map_err(|_| Failure::Text)?;
    println!(rt; "{file}")?;
    Ok(())
}
