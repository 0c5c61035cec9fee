use crate::failure::Failure;
use crate::faulty::{Faulty, Wrong};
use crate::writing::show_held;
use devices::{Counted, write_report};
use isa::decode;
use runner::{Report, run_in_order};
use words::OpenGate;

// How many calls there are of both writers at most.
const MOST_CALLS: usize = 8;

/// Runs an image, and writes what that tells to two writers, of which each call in turn goes wrong: of the first, of the
/// second, and of both.
pub fn show_reports<R: AllocGlobal + Print>(
    rt: &R,
    wrong: Wrong,
    said: &str,
) -> Result<(), Failure> {
    let (limit, digits) = said.split_once(' ').ok_or(Failure::Row)?;
    let limit: u32 = limit.parse().map_err(|_| Failure::Row)?;
    let bytes = hex::decode(rt.alloc(), digits).map_err(|_| Failure::Row)?;
    let image = decode(rt.alloc(), bytes.as_slice())?;
    let report = run_in_order(rt.alloc(), &image, limit, &OpenGate)?;
    for before in 0..MOST_CALLS {
        show_report(rt, wrong, &report, Some(before), None)?;
        show_report(rt, wrong, &report, None, Some(before))?;
        show_report(rt, wrong, &report, Some(before), Some(before))?;
    }
    Ok(())
}

fn show_report<R: AllocGlobal + Print>(
    rt: &R,
    wrong: Wrong,
    report: &Report,
    first: Option<usize>,
    second: Option<usize>,
) -> Result<(), Failure> {
    let mut output = Faulty::new(rt.alloc(), b"", first, wrong)?;
    let mut errors = Faulty::new(rt.alloc(), b"", second, wrong)?;
    let told = write_report(
        rt.alloc(),
        report,
        false,
        &mut Counted::new(&mut output),
        &mut Counted::new(&mut errors),
    );
    match told {
        Ok(()) => print!(rt; "  written")?,
        Err(fault) => print!(rt; "  {fault}")?,
    }
    show_held(rt, &output)?;
    show_held(rt, &errors)?;
    println!(rt)?;
    Ok(())
}
