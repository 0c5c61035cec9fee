//! Assembles the texts on standard input, and prints of each the bytes of its image in hexadecimal digits, or its refusal.
//! A line `== NAME` ends a text, and begins the next one, which has this name. The first text has no line.
#![tactic(auto)]

use assembler::assemble;
use isa::encode;
use std::io;

fn main(rt: HostRuntime) -> io::Result<()> {
    let mut text = String::new(rt.alloc());
    for line in rt.lines(rt.alloc()) {
        let line = line?;
        if let Some(name) = line.as_str().strip_prefix("== ") {
            show(&rt, text.as_bytes())?;
            text.clear();
            println!(rt; "{name}")?;
        } else {
            text.push_str(line.as_str())?;
            text.push('\n')?;
        }
    }
    show(&rt, text.as_bytes())
}

// Prints what a text is.
fn show<R: AllocGlobal + Print>(rt: &R, text: &[u8]) -> io::Result<()> {
    match assemble(rt.alloc(), text) {
        Ok(assembled) => {
            let bytes = encode(rt.alloc(), &assembled.image)?;
            let digits = hex::encode(rt.alloc(), bytes.as_slice())?;
            println!(rt; "{digits}")
        }
        Err(refusal) => println!(rt; "{refusal}"),
    }
}
