use crate::escaping::write_xml;
use crate::lanes::{steps_of, threads_of};
use crate::sheet::{COLUMN, COLUMNS, LEFT, Sheet, TOP, strip_height};
use crate::styles::{LEGEND, STYLES};
use image_lines::RunLines;
use std::alloc::{AllocError, Global};
use text_writer::TextWriter;

// How wide the picture is: its columns, and who sleeps at the end beside the last of them.
const WIDE: u64 = LEFT + COLUMNS * COLUMN + 520;

// How many strips so many steps take.
fn strips_of(steps: u64) -> u64 {
    (steps / COLUMNS).saturating_add(1)
}

// Writes what the picture begins with: its size, its styles and its title.
fn write_head(title: &str, high: u64, out: &mut TextWriter) {
    out.text("<svg xmlns='http://www.w3.org/2000/svg'");
    let size = [WIDE, high, WIDE, high];
    out.form(" width='$' height='$' viewBox='0 0 $ $'>\n", &size);
    out.text(STYLES);
    out.text("<text class='title' x='12' y='26'>");
    write_xml(title.as_bytes(), out);
    out.text("</text>\n")
}

/// A run of an image as a picture, in SVG: a lane for each thread, and a column for each of its lines. A lane is dashed while
/// its thread sleeps. Arrows lead from who makes or wakes a thread. What comes from outside is marked, and so is what dies
/// or may not be. Each sign tells its line where a viewer shows titles; at the end of a lane it is told who sleeps, and on
/// what.
///
/// # Errors
///
/// Where memory ran out.
pub fn image_chart(alloc: Global, run: &RunLines, title: &str) -> Result<Vec<u8>, AllocError> {
    let marks = run.marks.as_slice();
    let threads = threads_of(marks);
    let mut sheet = Sheet::new(alloc, run.text.as_str(), threads)?;
    let strips = strips_of(steps_of(marks));
    let below = TOP.saturating_add(strips.saturating_mul(strip_height(u64::from(threads))));
    sheet.draw(marks);
    let mut out = TextWriter::new(alloc);
    write_head(title, below.saturating_add(20), &mut out);
    out.append(&sheet.lines);
    out.append(&sheet.signs);
    out.form("<g transform='translate(12,$)'>\n", &[below]);
    out.text(LEGEND);
    out.text("</svg>\n");
    Ok(out.finish()?.into_bytes())
}
