use crate::bar::{Bar, Place};
use crate::labels::Labels;
use crate::layer::{Layer, Trial};
use crate::shapes::{append_text, letters_of, wide};
use source_states::ActionKind;
use std::alloc::{AllocError, Global};
use text_writer::TextWriter;

/// On how many levels bars are drawn; those that stand on more share the last.
pub(crate) const LEVELS: usize = 6;

// How wide a letter of a bar's name or of a note is, in tenths.
const LETTER: u64 = 56;

/// A process in the picture.
#[derive(Drop)]
pub(crate) struct Row {
    /// Its name.
    pub name: String,
    /// The pieces that run in the process, the outermost first.
    pub pieces: Vec<Option<u32>>,
    /// Its last attempt to take a monitor, while that is one that failed.
    pub trial: Option<Trial>,
    /// The last action of the process in the run, where it isn't over at the end.
    pub last: Option<u64>,
    /// What it is doing, from the outermost monitor that it holds.
    pub bars: Vec<Bar>,
    /// The middle of its row in this strip.
    pub middle: u64,
    /// Whether it has a row in this strip.
    pub placed: bool,
    /// Whether it is to have one from this strip's beginning.
    pub shown: bool,
    /// Where the names above its bars end.
    pub names_end: u64,
    /// Where the notes below its bars end.
    pub notes_end: u64,
    /// Whether it was joined, so that it needs no row any more.
    pub gone: bool,
}

/// A place in time: from the first action's left edge, and the action there.
#[derive(Clone, Copy)]
pub(crate) struct Moment {
    /// From the first action's left edge.
    pub left: u64,
    /// The action, from 1.
    pub action: u64,
}

// Where a bar on so many others ends.
fn place(level: usize, middle: u64, moment: Moment) -> Place {
    Place {
        level,
        right: moment.left,
        middle,
        until: moment.action,
    }
}

// Whether a process that begins to wait so at an action waits to the end of the run, where this is its last action in it
// if it isn't over then.
fn is_for_good(layer: Layer, action: u64, last: Option<u64>) -> bool {
    let Some(last) = last else {
        return false;
    };
    match layer {
        Layer::Tried(monitor, _) => monitor.is_none(),
        Layer::Waits(_) | Layer::Resumed(_) | Layer::Enters(_) | Layer::Joins(_) => last <= action,
        _ => false,
    }
}

// Writes a name above a bar, and gives where it ends.
fn write_name(marks: &mut TextWriter, form: &str, place: [u64; 2], name: &[u8]) -> u64 {
    append_text(marks, form, &place, name);
    let long = wide(letters_of(name), LETTER);
    place[0].saturating_add(long).saturating_add(5)
}

// Writes who holds the monitor above the bar of a process that waits for it, and gives where that ends.
fn write_holder(marks: &mut TextWriter, place: [u64; 2], holder: u64) -> u64 {
    let form = "<text class='quiet' x='$' y='$'>held by $</text>\n";
    marks.form(form, &[place[0], place[1], holder]);
    place[0].saturating_add(wide(10, LETTER)).saturating_add(5)
}

impl Row {
    /// The row of a process with this name, which begins with this piece and has this last action.
    pub fn new(
        alloc: Global,
        name: String,
        piece: Option<u32>,
        last: Option<u64>,
    ) -> Result<Row, AllocError> {
        let mut pieces = Vec::new(alloc);
        pieces.push(piece)?;
        Ok(Row {
            name,
            pieces,
            trial: None,
            last,
            bars: Vec::new(alloc),
            middle: 0,
            placed: false,
            shown: false,
            names_end: 0,
            notes_end: 0,
            gone: false,
        })
    }

    /// Begins its row in a strip, at this height, with its name.
    pub fn begin(
        &mut self,
        lines: &mut TextWriter,
        marks: &mut TextWriter,
        labels: Labels,
        middle: u64,
    ) {
        self.placed = true;
        self.middle = middle;
        append_text(
            lines,
            "<text class='process' x='-8' y='$'>",
            &[middle.saturating_add(4)],
            self.name.as_bytes(),
        );
        self.label_from(marks, labels, 0)
    }

    /// Whether it is over, and only waits to be joined.
    pub fn is_over(&self) -> bool {
        matches!(self.bars.as_slice(), [bar] if bar.layer == Layer::IsOver)
    }

    /// Its process did an action, which began this piece, and has so many procedures now: those that returned are gone,
    /// and a RECOVER part has begun. An attempt to take a monitor is over where the action took it.
    pub fn settle(
        &mut self,
        marks: &mut TextWriter,
        kind: &ActionKind,
        piece: Option<u32>,
        depth: usize,
    ) {
        match kind {
            ActionKind::Call => marks.push(&mut self.pieces, piece),
            ActionKind::Enter(_) => self.trial = None,
            ActionKind::Resume(_) => self.trial = None,
            ActionKind::Kill(_, _) => self.trial = None,
            _ => {}
        }
        self.pieces.truncate(depth);
        for _piece in self.pieces.len()..depth {
            marks.push(&mut self.pieces, None);
        }
    }

    /// Where a note of so many letters, round a middle, stands below its bars, behind the notes before it.
    pub fn note_place(&mut self, middle: u64, letters: u64) -> [u64; 2] {
        let wide = wide(letters, LETTER);
        let left = middle.saturating_sub(wide / 2).max(self.notes_end);
        self.notes_end = left.saturating_add(wide).saturating_add(4);
        [left, self.middle.saturating_add(17)]
    }

    // Writes the name of what a bar shows above it, and gives where it ends; of others that is where they begin.
    fn write_label(&self, marks: &mut TextWriter, labels: Labels, bar: Bar) -> u64 {
        let place = [bar.left, self.middle.saturating_sub(11)];
        match bar.layer {
            Layer::Holds(monitor, piece) => {
                let name = labels.piece(piece).unwrap_or(labels.monitor(monitor));
                write_name(marks, "<text x='$' y='$'>", place, name)
            }
            Layer::Waits(condition) => {
                let name = labels.condition(condition);
                write_name(marks, "<text class='condition' x='$' y='$'>", place, name)
            }
            Layer::Tried(_, holder) => write_holder(marks, place, holder),
            _ => self.names_end,
        }
    }

    /// Writes the names of what its bars show above them, from a level on, where it has a row.
    pub fn label_from(&mut self, marks: &mut TextWriter, labels: Labels, first: usize) {
        if !self.placed {
            return;
        }
        for level in first..self.bars.len() {
            if let Some(bar) = self.bars.get(level).copied() {
                if bar.left >= self.names_end {
                    self.names_end = self.write_label(marks, labels, bar);
                }
            }
        }
    }

    // Draws the bar of a level, up to a moment.
    fn draw_level(&self, levels: &mut [TextWriter], labels: Labels, level: usize, moment: Moment) {
        let Some(bar) = self.bars.get(level) else {
            return;
        };
        match levels.get_mut(level.min(LEVELS - 1)) {
            Some(out) => bar.draw(out, labels, place(level, self.middle, moment)),
            None => {}
        }
    }

    /// Draws its bars from a level on, up to a moment, each over those that it stands on, where it has a row.
    pub fn draw_from(
        &self,
        levels: &mut [TextWriter],
        labels: Labels,
        first: usize,
        moment: Moment,
    ) {
        if !self.placed {
            return;
        }
        for level in first..self.bars.len() {
            self.draw_level(levels, labels, level, moment);
        }
    }

    /// How many of its bars go on, from the lowest, where it does this.
    pub fn kept(&self, layers: &[Layer]) -> usize {
        let mut kept: usize = 0;
        for (bar, layer) in self.bars.iter().zip(layers) {
            if bar.layer != *layer {
                break;
            }
            kept = kept.saturating_add(1);
        }
        kept
    }

    /// From a moment on the process does this: bars end but for so many, which are the same, and others begin.
    pub fn change(
        &mut self,
        marks: &mut TextWriter,
        layers: &[Layer],
        kept: usize,
        moment: Moment,
    ) {
        self.bars.truncate(kept);
        for layer in layers.get(kept..).unwrap_or(&[]) {
            let bar = Bar {
                layer: *layer,
                left: moment.left,
                since: moment.action,
                never: is_for_good(*layer, moment.action, self.last),
            };
            marks.push(&mut self.bars, bar);
        }
    }

    /// Ends its row in this strip: its bars go on from the next strip's left edge. How far its words reach.
    pub fn cut(&mut self, levels: &mut [TextWriter], labels: Labels, moment: Moment) -> u64 {
        self.draw_from(levels, labels, 0, moment);
        for bar in self.bars.iter_mut() {
            bar.left = 0;
        }
        let reach = self.names_end.max(self.notes_end);
        self.placed = false;
        self.names_end = 0;
        self.notes_end = 0;
        reach
    }
}
