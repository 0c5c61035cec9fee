use crate::failure::Failure;
use isa::{DecodeFault, Image, decode, encode, read_back};

/// Prints the parts of the image that the digits spell, as they are read back, and whether it is spelled so.
pub fn show_image(rt: &HostRuntime, digits: &str) -> Result<(), Failure> {
    let bytes = hex::decode(rt.alloc(), digits).map_err(|_| Failure::Row)?;
    let image = decode(rt.alloc(), bytes.as_slice())?;
    let same = encode(rt.alloc(), &image)?.as_slice() == bytes.as_slice();
    let image = read_back(rt.alloc(), &image)?.copy(rt.alloc())?;
    let monitors = image.monitors();
    println!(rt;
        "  monitors {monitors:?}, start {}, spelled so: {same}",
        image.start()
    )?;
    show_code(rt, &image)
}

fn show_code(rt: &HostRuntime, image: &Image) -> Result<(), Failure> {
    for place in 0..image.code().len() as u32 {
        if let Some(instr) = image.at(place) {
            println!(rt; "  {place} {instr}")?;
        }
    }
    Ok(())
}

/// Prints how many beginnings of the bytes are too short, and the fault where a byte more follows them all.
pub fn show_beginnings(rt: &HostRuntime, digits: &str) -> Result<(), Failure> {
    let mut bytes = hex::decode(rt.alloc(), digits).map_err(|_| Failure::Row)?;
    let mut short: usize = 0;
    for len in 0..bytes.len() {
        if decode(rt.alloc(), &bytes[..len]).err() == Some(DecodeFault::Short) {
            short += 1;
        }
    }
    println!(rt; "  {short} of {} are short", bytes.len())?;
    bytes.push(0x17)?;
    decode(rt.alloc(), bytes.as_slice())?;
    Ok(())
}
