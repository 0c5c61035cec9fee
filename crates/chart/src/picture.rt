ghost use Rattle.std.specs.Prelude.{◌≡◌};
ghost use Rattle.text_writer.specs.Writing.{IsWritten};
ghost use Rattle.chart.specs.Texts.{is_allowed_sign, shown_sign};

use crate::labels::Labels;
use crate::legend::{SAMPLES_WIDE, append_legend};
use crate::palette::{SHAPES, STUCK, STYLES, UNSTUCK};
use crate::shapes::wide;
use crate::sheet::Sheet;
use crate::span::Span;
use monitor_waits::{Attempt, attempts};
use packed_log::PackedLog;
use program::Checked;
use source_states::Action;
use std::alloc::{AllocError, Global};
use text_writer::TextWriter;

// How many signs of a title are shown.
const MOST_SIGNS: usize = 200;

/// What a picture shows.
#[derive(Clone, Copy)]
pub struct Picture<'p, 'n> {
    /// The program.
    pub checked: &'p Checked<'n>,
    /// The names of its pieces by their numbers: procedures, RECOVER parts and the main part. Those that are missing
    /// aren't shown.
    pub procedures: &'p [&'p [u8]],
    /// The actions of the run.
    pub actions: &'p [Action],
    /// The log that these actions explain. It tells who waited for a monitor; where it is empty, only who called an
    /// ENTRY procedure and never got in.
    pub log: &'p PackedLog,
    /// Which run it is, and how it ended.
    pub title: &'p str,
    /// The first action that is drawn, from 1. Without it as many as are drawn, which are 2,000, up to the last one.
    pub from: Option<u64>,
    /// The last action that is drawn. Without it as many as are drawn from the first on, or the last one of the run.
    pub to: Option<u64>,
}

// Whether XML may have a sign.
fn is_allowed(sign: char) -> bool
    ensures { result ≡ is_allowed_sign sign }
{
    matches!(sign, ' '..='\u{FFFD}' | '\u{10000}'..)
}

// Appends a sign, or what XML has for it where it begins or ends a tag or an entity; a question mark where XML may not
// have it.
fn append_sign(out: &mut TextWriter, sign: char)
    ensures { IsWritten out.old out.new (shown_sign sign) }
{
    match sign {
        '<' => out.text("&lt;"),
        '>' => out.text("&gt;"),
        '&' => out.text("&amp;"),
        other => out.sign(if is_allowed(other) { other } else { '?' }),
    }
}

// Appends the first signs of a title, and `..` behind those of a long one.
fn append_signs(out: &mut TextWriter, title: &str) {
    for sign in title.chars().take(MOST_SIGNS) {
        append_sign(out, sign);
    }
    if title.chars().nth(MOST_SIGNS).is_some() {
        out.text("..");
    }
}

// How many signs that appends of a title.
fn signs_of(title: &str) -> u64 {
    match title.chars().count() {
        count if count > MOST_SIGNS => MOST_SIGNS as u64 + 2,
        count => count as u64,
    }
}

// How the numbers of actions and processes are written.
fn counts_form(actions: u64, processes: u64) -> &'static str {
    match (actions, processes) {
        (1, 1) => "$ action of $ process",
        (1, _) => "$ action of $ processes",
        (_, 1) => "$ actions of $ process",
        (_, _) => "$ actions of $ processes",
    }
}

// Appends how many actions and processes the run has, and which actions are drawn.
fn append_counts(out: &mut TextWriter, sheet: &Sheet) {
    let actions = sheet.actions.len() as u64;
    let processes = sheet.rows.len() as u64;
    out.form(counts_form(actions, processes), &[actions, processes]);
    let Span { first, last } = sheet.span;
    if first <= 1 && last == actions {
        return;
    }
    if first > last {
        return out.text(", of which none is drawn");
    }
    out.form(", drawn from $ to $", &[first, last])
}

// Appends the title, and below it what the picture shows of the run.
fn append_title(out: &mut TextWriter, sheet: &Sheet, title: &str) {
    out.text("<text class='title' x='12' y='25'>");
    append_signs(out, title);
    out.text("</text>\n<text class='caption' x='12' y='42'>");
    append_counts(out, sheet);
    out.text("</text>\n")
}

// Appends what a picture begins with.
fn append_head(out: &mut TextWriter, stuck: bool, across: u64, tall: u64) {
    out.form(
        "<svg xmlns='http://www.w3.org/2000/svg' width='$' height='$' viewBox='0 0 $ $'>\n",
        &[across, tall, across, tall],
    );
    out.text(STYLES);
    out.text(if stuck { STUCK } else { UNSTUCK });
    out.text(SHAPES)
}

// Appends what was drawn, this far from the left.
fn append_drawn(out: &mut TextWriter, sheet: &Sheet, left: u64) {
    out.form("<g transform='translate($)'>\n", &[left]);
    out.append(&sheet.lines);
    for level in sheet.bars.iter() {
        out.append(level);
    }
    out.append(&sheet.marks);
    out.text("</g>\n")
}

// How wide the picture is, where its rows begin this far from the left.
fn width(sheet: &Sheet, title: &str, left: u64) -> u64 {
    let words = wide(signs_of(title), 93);
    left.saturating_add(sheet.reach)
        .max(words.saturating_add(12))
        .max(SAMPLES_WIDE)
        .saturating_add(12)
}

// Appends the whole picture. The legend is made beside it, since the picture is as tall as it needs.
fn assemble(out: &mut TextWriter, legend: &mut TextWriter, sheet: &Sheet, title: &str) {
    let left = sheet.left_reach.saturating_add(20);
    let across = width(sheet, title, left);
    let tall = append_legend(legend, sheet.labels, across, sheet.bottom);
    append_head(out, sheet.stuck, across, tall);
    append_title(out, sheet, title);
    append_drawn(out, sheet, left);
    out.append(legend);
    out.text("</svg>\n")
}

// Appends the picture of a run, where these are the attempts that failed.
fn append_picture(out: &mut TextWriter, alloc: Global, picture: &Picture, failed: &[Attempt]) {
    let labels = Labels {
        program: picture.checked.program(),
        names: picture.checked.names(),
        procedures: picture.procedures,
    };
    let count = picture.actions.len() as u64;
    let span = Span::of(picture.from, picture.to, count);
    match Sheet::new(alloc, labels, picture.actions, failed, span) {
        Ok(mut sheet) => append_sheet(out, alloc, &mut sheet, picture),
        Err(_) => out.fail(),
    }
}

// Draws a run, and appends its picture.
fn append_sheet<'c, 'n>(
    out: &mut TextWriter,
    alloc: Global,
    sheet: &mut Sheet<'c, 'n>,
    picture: &Picture<'c, 'n>,
) {
    sheet.draw_run(picture.checked);
    let mut legend = TextWriter::new(alloc);
    assemble(out, &mut legend, sheet, picture.title)
}

/// The picture of a run, as SVG: well-formed XML, whatever the title is. Of actions that aren't a run it shows those
/// before the first that isn't possible.
///
/// At most 2,000 actions are drawn where not both ends of what is drawn are named. Of a name at most 40 letters are
/// shown.
pub fn chart(alloc: Global, picture: &Picture) -> Result<Vec<u8>, AllocError> {
    let failed = attempts(alloc, picture.log.iter(), picture.actions)?;
    let mut out = TextWriter::new(alloc);
    append_picture(&mut out, alloc, picture, failed.as_slice());
    Ok(out.finish()?.into_bytes())
}
