use crate::ends::show_run;
use crate::failure::Failure;
use isa::{Image, decode};
use std::alloc::{AllocError, Global};
use std::str::SplitWhitespace;

/// Prints how the run of an image ends whose bytes stand in a row.
pub fn show_code<R: AllocGlobal + Print>(rt: &R, row: &str) -> Result<(), Failure> {
    let mut words = row.split_whitespace();
    let limit = words.next().ok_or(Failure::Row)?;
    let limit: u32 = limit.parse().map_err(|_| Failure::Row)?;
    let image = image_of(rt.alloc(), words)?;
    show_run(rt, rt.alloc(), &image, limit)
}

// The image that these words say.
fn image_of(alloc: Global, mut words: SplitWhitespace) -> Result<Image, Failure> {
    let times = words.next().ok_or(Failure::Row)?;
    let times: u32 = times.parse().map_err(|_| Failure::Row)?;
    let head = words.next().ok_or(Failure::Row)?;
    let block = words.next().ok_or(Failure::Row)?;
    let tail = words.next().unwrap_or("");
    let mut bytes = Vec::new(alloc);
    append_digits(&mut bytes, head, 1)?;
    append_digits(&mut bytes, block, times)?;
    append_digits(&mut bytes, tail, 1)?;
    Ok(decode(alloc, bytes.as_slice())?)
}

// Appends so many times the bytes that the digits spell.
fn append_digits(bytes: &mut Vec<u8>, digits: &str, times: u32) -> Result<(), Failure> {
    let part = hex::decode(*bytes.allocator(), digits).map_err(|_| Failure::Row)?;
    append_repeated(bytes, part.as_slice(), times)?;
    Ok(())
}

fn append_repeated(bytes: &mut Vec<u8>, part: &[u8], times: u32) -> Result<(), AllocError> {
    for _ in 0..times {
        bytes.extend_from_slice(part)?;
    }
    Ok(())
}
