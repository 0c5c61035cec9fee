// Pictures of runs. A picture has to be well-formed XML, whatever its title is, and to have a mark for each action that
// it is to draw.

mod xml;

use crate::failure::Failure;
use crate::pictures::xml::{Found, read_xml};
use chart::{Picture, chart};
use program::Checked;
use runner::Report;
use source_states::Action;
use std::alloc::Global;
use std::{io, str};

// A title with what begins and ends tags, quotes, and signs that XML may not have.
const TITLE: &str = "a<b & c>'d' \"e\" ]]> &amp; \u{1}\t\u{FFFF}\u{E9}\u{1F600}";

// The parts that are drawn: the whole, from an action on, up to one, from one to another, and one that has none.
const PARTS: [(Option<u64>, Option<u64>); 5] = [
    (None, None),
    (Some(3), None),
    (None, Some(5)),
    (Some(2), Some(4)),
    (Some(9), Some(1)),
];

/// Checks the pictures of a run, and prints of how many actions each has a mark, and whether in it a process waits for a
/// monitor.
pub fn show_pictures<R: AllocGlobal + Print>(
    rt: &R,
    checked: &Checked,
    actions: &[Action],
    report: &Report,
) -> Result<(), Failure> {
    for (from, to) in PARTS {
        let picture = Picture {
            checked,
            procedures: &[],
            actions,
            log: &report.log,
            title: TITLE,
            from,
            to,
        };
        show_picture(rt, &picture)?;
    }
    Ok(())
}

// Draws a picture, and prints what it has.
fn show_picture<R: AllocGlobal + Print>(rt: &R, picture: &Picture<'_, '_>) -> Result<(), Failure> {
    let drawn = chart(rt.alloc(), picture)?;
    show_found(rt, read_picture(rt.alloc(), drawn.as_slice())?)?;
    Ok(())
}

// Reads a picture.
fn read_picture(alloc: Global, drawn: &[u8]) -> Result<Found, Failure> {
    let text = str::from_utf8(drawn).map_err(|_| Failure::Text)?;
    read_xml(alloc, text)
}

// Prints what a picture has.
fn show_found<R: Print>(rt: &R, found: Found) -> io::Result<()> {
    let Found { marks, waits } = found;
    if waits {
        println!(rt; "{marks} marks, and waits for a monitor")
    } else {
        println!(rt; "{marks} marks")
    }
}
