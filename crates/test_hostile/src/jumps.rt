use crate::ends::show_run;
use crate::failure::Failure;
use isa::{Image, decode};
use std::alloc::{AllocError, Global};

// The bytes of an image before the number of its instructions: no monitors, and it starts at the first.
const HEAD: &[u8] = &[b'M', b'F', b'U', b'T', 1, 0, 0];

// The opcode of a jump.
const JUMP: u8 = 0x14;

/// Prints how the run of an image ends that has nothing but jumps, as the row says.
pub fn show_jumps<R: AllocGlobal + Print>(rt: &R, row: &str) -> Result<(), Failure> {
    let mut words = row.split_whitespace();
    let limit = words.next().ok_or(Failure::Row)?;
    let limit: u32 = limit.parse().map_err(|_| Failure::Row)?;
    let count = words.next().ok_or(Failure::Row)?;
    let count: u32 = count.parse().map_err(|_| Failure::Row)?;
    let stride = words.next().ok_or(Failure::Row)?;
    let stride: u32 = stride.parse().map_err(|_| Failure::Row)?;
    let image = image_of(rt.alloc(), count, stride)?;
    show_run(rt, rt.alloc(), &image, limit)
}

// The image of so many jumps, each by the stride.
fn image_of(alloc: Global, count: u32, stride: u32) -> Result<Image, Failure> {
    let mut bytes = Vec::from_slice(alloc, HEAD)?;
    append_number(&mut bytes, count)?;
    append_jumps(&mut bytes, count, stride)?;
    Ok(decode(alloc, bytes.as_slice())?)
}

fn append_jumps(bytes: &mut Vec<u8>, count: u32, stride: u32) -> Result<(), AllocError> {
    for place in 0..count {
        let target = place.saturating_add(stride).checked_rem(count).unwrap_or(0);
        bytes.push(JUMP)?;
        append_number(bytes, target)?;
    }
    Ok(())
}

// Appends a number as images spell it: seven bits to a byte, the lowest first, with 128 added to each but the last.
fn append_number(bytes: &mut Vec<u8>, number: u32) -> Result<(), AllocError> {
    let mut rest = number;
    for _ in 0..4 {
        if rest < 128 {
            break;
        }
        bytes.push((rest % 128) as u8 + 128)?;
        rest /= 128;
    }
    bytes.push((rest % 128) as u8)?;
    Ok(())
}
