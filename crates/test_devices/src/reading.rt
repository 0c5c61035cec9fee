use crate::failure::Failure;
use crate::faulty::{Faulty, Wrong};
use devices::{Counted, ReadFault, read_source, read_whole};
use std::alloc::Global;

/// How much is read.
#[derive(Clone, Copy)]
pub enum Extent {
    /// As much as of a source.
    Source,
    /// All.
    Whole,
}

impl Extent {
    fn read(self, alloc: Global, reader: &mut Counted<Faulty>) -> Result<Vec<u8>, ReadFault> {
        match self {
            Extent::Source => read_source(alloc, reader),
            Extent::Whole => read_whole(alloc, reader),
        }
    }
}

/// Reads a text from a reader of which each call in turn goes wrong, and prints what comes of it.
pub fn show_reads<R: AllocGlobal + Print>(
    rt: &R,
    extent: Extent,
    wrong: Wrong,
    text: &str,
) -> Result<(), Failure> {
    for before in 0..text.len().saturating_add(2) {
        show_read(rt, extent, wrong, text, before)?;
    }
    Ok(())
}

fn show_read<R: AllocGlobal + Print>(
    rt: &R,
    extent: Extent,
    wrong: Wrong,
    text: &str,
    before: usize,
) -> Result<(), Failure> {
    let device = Faulty::new(rt.alloc(), text.as_bytes(), Some(before), wrong)?;
    let mut reader = Counted::new(device);
    let outcome = extent.read(rt.alloc(), &mut reader);
    let failures = reader.failures();
    match outcome {
        Ok(bytes) => {
            let bytes = String::from_utf8_lossy(rt.alloc(), bytes.as_slice())?;
            println!(rt; "  {before}: read {bytes}, {failures} failed")?;
        }
        Err(fault) => println!(rt; "  {before}: {fault}, {failures} failed")?,
    }
    Ok(())
}
