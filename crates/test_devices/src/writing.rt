use crate::failure::Failure;
use crate::faulty::{Faulty, Wrong};
use devices::{Counted, write_bytes};
use std::io;

/// Writes a text to a writer of which each call in turn goes wrong, and prints what the writer has then.
pub fn show_writes<R: AllocGlobal + Print>(
    rt: &R,
    wrong: Wrong,
    text: &str,
) -> Result<(), Failure> {
    for before in 0..text.len().saturating_add(2) {
        let mut device = Faulty::new(rt.alloc(), b"", Some(before), wrong)?;
        let mut writer = Counted::new(&mut device);
        let outcome = write_bytes(&mut writer, text.as_bytes());
        let failures = writer.failures();
        let answer = if outcome.is_ok() { "written" } else { "failed" };
        print!(rt; "  {before}: {answer}, {failures} failed,")?;
        show_held(rt, &device)?;
        println!(rt)?;
    }
    Ok(())
}

/// Prints what a writer has, each line feed as `/`.
pub fn show_held<R: Print>(rt: &R, device: &Faulty) -> io::Result<()> {
    print!(rt; " has ")?;
    for byte in &device.bytes {
        let letter = if *byte == b'\n' {
            '/'
        } else {
            char::from(*byte)
        };
        print!(rt; "{letter}")?;
    }
    Ok(())
}
