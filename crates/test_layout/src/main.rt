//! Lays out the source texts on standard input, and prints what becomes of each, or its refusal. A line `== NAME` ends a
//! text, and begins the next one, which has this name. In a text `\r` and `\t` are a carriage return and a tab, and a `\`
//! at the end of a line is no line feed. Where a text that was laid out isn't its own layout, that is said.
#![tactic(auto)]

use source_layout::lay_out;
use std::alloc::AllocError;
use std::io;

fn main(rt: HostRuntime) -> io::Result<()> {
    let mut text = String::new(rt.alloc());
    for line in rt.lines(rt.alloc()) {
        let line = line?;
        if let Some(name) = line.as_str().strip_prefix("== ") {
            show(&rt, text.as_bytes())?;
            text.clear();
            println!(rt; "== {name}")?;
        } else {
            append_line(&mut text, line.as_str())?;
        }
    }
    show(&rt, text.as_bytes())
}

// Appends a line of a text.
fn append_line(text: &mut String, line: &str) -> Result<(), AllocError> {
    let mut escaped = false;
    for sign in line.chars() {
        match sign {
            '\\' if !escaped => {}
            'r' if escaped => text.push('\r')?,
            't' if escaped => text.push('\t')?,
            other => text.push(other)?,
        }
        escaped = sign == '\\' && !escaped;
    }
    if escaped { Ok(()) } else { text.push('\n') }
}

// The bytes of a text, as its rows write them.
fn escaped(text: &mut String, bytes: &[u8]) -> Result<(), AllocError> {
    for byte in bytes {
        match byte {
            b'\r' => text.push_str("\\r")?,
            b'\t' => text.push_str("\\t")?,
            other => text.push(char::from(*other))?,
        }
    }
    Ok(())
}

// Prints what becomes of a text.
fn show<R: AllocGlobal + Print>(rt: &R, text: &[u8]) -> io::Result<()> {
    match lay_out(rt.alloc(), text) {
        Ok(laid) => show_laid(rt, laid.as_slice()),
        Err(refusal) => println!(rt; "{refusal}"),
    }
}

// Prints a text that was laid out, and whether it is its own layout.
fn show_laid<R: AllocGlobal + Print>(rt: &R, laid: &[u8]) -> io::Result<()> {
    let mut shown = String::new(rt.alloc());
    escaped(&mut shown, laid)?;
    print!(rt; "{shown}")?;
    match lay_out(rt.alloc(), laid) {
        Ok(again) if again.as_slice() == laid => Ok(()),
        _ => println!(rt; "laid out again it is another text"),
    }
}
