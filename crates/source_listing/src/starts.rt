// Where the code of each line of a text begins.

use crate::plan::Plan;
use emit_image::LineStart;
use places::{Places, places_of};
use program::Checked;
use std::alloc::{AllocError, Global};
use words::ImageVersion;

// Adds the line of a token, whose code begins at a place, where it isn't that of the last one.
fn add_start(
    starts: &mut Vec<LineStart>,
    places: &Places<'_>,
    place: usize,
    token: usize,
) -> Result<(), AllocError> {
    let line = places.place(token).line;
    match starts.last() {
        Some(last) if last.line == line => {}
        _ => starts.push(LineStart { place, line })?,
    }
    Ok(())
}

// The lines of the statements that begin before a piece's end; how many statements there were up to there.
fn add_statements(
    starts: &mut Vec<LineStart>,
    places: &Places<'_>,
    plan: &Plan<'_>,
    from: usize,
    end: usize,
) -> Result<usize, AllocError> {
    let mut number = from;
    for place in plan.statements.iter().skip(from) {
        if *place >= end {
            break;
        }
        if let Some(spot) = places.spot(number) {
            add_start(starts, places, *place, spot.token)?;
        }
        number = number.saturating_add(1);
    }
    Ok(number)
}

/// Where the code of each line of a program begins, by rising place.
pub(crate) fn starts_of(
    alloc: Global,
    places: &Places<'_>,
    plan: &Plan<'_>,
) -> Result<Vec<LineStart>, AllocError> {
    let mut starts = Vec::new(alloc);
    let mut number = 0;
    let bounds = plan.pieces.iter().zip(plan.ends.iter());
    for ((start, end), piece) in bounds.zip(places.pieces.iter()) {
        add_start(&mut starts, places, *start, piece.token)?;
        number = add_statements(&mut starts, places, plan, number, *end)?;
        add_start(&mut starts, places, *end, piece.end)?;
    }
    Ok(starts)
}

/// Where in a program's image of this version the code of each line of its text begins, by rising place: of the lines where
/// a statement, a procedure, a RECOVER part or the main part begins, or one of the last three ends. A line that several of
/// these are in, one after another, is there once.
///
/// # Errors
///
/// Where memory runs out, and for nothing else.
pub fn line_starts(
    alloc: Global,
    text: &[u8],
    checked: &Checked,
    version: ImageVersion,
) -> Result<Vec<LineStart>, AllocError> {
    let places = places_of(alloc, text)?;
    starts_by(alloc, checked, version, &places)
}

// The same, where the statements stand at these places of the text.
fn starts_by(
    alloc: Global,
    checked: &Checked,
    version: ImageVersion,
    places: &Places<'_>,
) -> Result<Vec<LineStart>, AllocError> {
    let plan = Plan::of(alloc, checked.program(), version)?;
    starts_of(alloc, places, &plan)
}
