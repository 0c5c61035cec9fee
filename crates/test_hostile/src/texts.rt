use crate::failure::Failure;
use crate::filling::{Parts, text_of};
use compiler::{check_text, compile};
use std::alloc::Global;
use std::io;

/// Prints what is said of texts whose parts stand in a row.
pub fn show_texts<R: AllocGlobal + Print>(rt: &R, row: &str) -> Result<(), Failure> {
    let (most, rest) = row.split_once(' ').ok_or(Failure::Row)?;
    let (head, rest) = rest.split_once('|').ok_or(Failure::Row)?;
    let (unit, tail) = rest.split_once('|').ok_or(Failure::Row)?;
    let parts = Parts {
        head: head.as_bytes(),
        unit: unit.as_bytes(),
        tail: tail.as_bytes(),
    };
    show_sizes(rt, &parts, most)
}

/// The same where what is repeated stands alone, in hexadecimal digits.
pub fn show_bytes<R: AllocGlobal + Print>(rt: &R, row: &str) -> Result<(), Failure> {
    let (most, digits) = row.split_once(' ').ok_or(Failure::Row)?;
    let unit = hex::decode(rt.alloc(), digits).map_err(|_| Failure::Row)?;
    let parts = Parts {
        head: b"",
        unit: unit.as_slice(),
        tail: b"",
    };
    show_sizes(rt, &parts, most)
}

// Prints what is said of texts of each size.
fn show_sizes<R: AllocGlobal + Print>(rt: &R, parts: &Parts, most: &str) -> Result<(), Failure> {
    let most: u32 = most.parse().map_err(|_| Failure::Row)?;
    for size in [most / 1024, most / 32, most] {
        let text = text_of(rt.alloc(), parts, size as usize)?;
        print!(rt; "  {size} bytes: ")?;
        show_answer(rt, rt.alloc(), text.as_slice())?;
    }
    Ok(())
}

// Prints the refusal of a text, or what its image is.
fn show_answer<R: Print>(rt: &R, alloc: Global, text: &[u8]) -> io::Result<()> {
    match check_text(alloc, text) {
        Ok(()) => show_compiled(rt, alloc, text),
        Err(refusal) => println!(rt; "{refusal}"),
    }
}

// Prints how many instructions the image of a program has, or why it has none.
fn show_compiled<R: Print>(rt: &R, alloc: Global, text: &[u8]) -> io::Result<()> {
    match compile(alloc, text) {
        Ok(image) => {
            let count = image.code().len();
            println!(rt; "ok, {count} instructions")
        }
        Err(refusal) => println!(rt; "ok, compiled: {refusal}"),
    }
}
