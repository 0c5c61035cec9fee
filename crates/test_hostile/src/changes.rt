use crate::failure::Failure;
use crate::tries::Tries;
use compiler::compile;
use isa::encode;
use std::alloc::{AllocError, Global};

/// Prints what comes of the image of a text where its bytes end too early, and where one byte of it is changed, in each
/// place and each way. What is an image then is run within a limit of steps.
pub fn show_changes<R: AllocGlobal + Print>(rt: &R, row: &str) -> Result<(), Failure> {
    let (limit, text) = row.split_once(' ').ok_or(Failure::Row)?;
    let limit: u32 = limit.parse().map_err(|_| Failure::Row)?;
    let image = compile(rt.alloc(), text.as_bytes())?;
    let bytes = encode(rt.alloc(), &image)?;
    let bytes = bytes.as_slice();
    let digits = hex::encode(rt.alloc(), bytes)?;
    println!(rt; "  image {digits}")?;
    println!(rt; "  {} proper beginnings", bytes.len())?;
    beginnings(rt.alloc(), bytes, limit)?.show(rt)?;
    println!(rt; "  one of {} bytes changed", bytes.len())?;
    changes(rt.alloc(), bytes, limit)?.show(rt)?;
    Ok(())
}

// What comes of each proper beginning.
fn beginnings(alloc: Global, bytes: &[u8], limit: u32) -> Result<Tries, AllocError> {
    let mut tries = Tries::new();
    for len in 0..bytes.len() {
        tries.take(alloc, &bytes[..len], limit)?;
    }
    Ok(tries)
}

// What comes of the bytes where one of them is changed.
fn changes(alloc: Global, bytes: &[u8], limit: u32) -> Result<Tries, AllocError> {
    let mut tries = Tries::new();
    for place in 0..bytes.len() {
        change_at(alloc, &mut tries, bytes, place, limit)?;
    }
    Ok(tries)
}

// Changes the byte at a place in each way.
fn change_at(
    alloc: Global,
    tries: &mut Tries,
    bytes: &[u8],
    place: usize,
    limit: u32,
) -> Result<(), AllocError> {
    for before in 0..255u8 {
        let changed = changed(alloc, bytes, place, before + 1)?;
        tries.take(alloc, changed.as_slice(), limit)?;
    }
    Ok(())
}

// The bytes where the one at a place has other bits than before, those of `bits`.
fn changed(alloc: Global, bytes: &[u8], place: usize, bits: u8) -> Result<Vec<u8>, AllocError> {
    let mut changed = Vec::from_slice(alloc, bytes)?;
    if let Some(byte) = changed.get_mut(place) {
        *byte ^= bits;
    }
    Ok(changed)
}
