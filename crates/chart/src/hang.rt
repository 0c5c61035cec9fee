// What the processes wait for at the end of a run: in words, with arrows, and in circles.

use crate::circles::{awaited, circle_from, holder};
use crate::labels::Labels;
use crate::layer::{Layer, uppermost};
use crate::shapes::wide;
use crate::sheet::Sheet;
use source_states::SourceState;
use text_writer::TextWriter;

// How wide a letter of a note is, in tenths.
const LETTER: u64 = 62;

// How far the arrows behind the rows stand from one another.
const LANE: u64 = 10;

// What a process that isn't over does at the end, besides holding monitors; and who keeps it from going on.
fn last_layer(state: &SourceState, number: u64) -> Layer {
    let Some(process) = state.process(number) else {
        return Layer::IsOver;
    };
    match uppermost(state, number, process) {
        None => Layer::Runs,
        Some(Layer::Enters(monitor) | Layer::Resumed(monitor)) => match holder(state, monitor) {
            None => Layer::Enters(monitor),
            Some(other) => Layer::Tried(Some(monitor), other),
        },
        Some(layer) => layer,
    }
}

// How what a process does at the end is written.
fn note_form(stuck: bool) -> &'static str {
    if stuck {
        "<text class='hang' x='$' y='$'>"
    } else {
        "<text class='note' x='$' y='$'>"
    }
}

// Writes what a process does at the end, and gives how many letters that has.
fn append_note(
    out: &mut TextWriter,
    form: &str,
    place: &[u64],
    labels: Labels,
    layer: Layer,
) -> u64 {
    out.form(form, place);
    let before = out.len();
    labels.append_description(out, layer);
    let letters = out.len().saturating_sub(before) as u64;
    out.text("</text>\n");
    letters
}

// Writes a circle of processes, of which this is the first, at a height.
fn append_circle(out: &mut TextWriter, circle: &[u64], first: u64, height: u64) {
    out.form(
        "<text class='hang' x='0' y='$'>a circle: process $ waits for process ",
        &[height, first],
    );
    for process in circle.get(1..).unwrap_or(&[]) {
        out.form("$, which waits for process ", &[*process]);
    }
    out.form("$</text>\n", &[first])
}

impl<'c, 'n> Sheet<'c, 'n> {
    // Writes at this place what a process does at the end.
    fn describe(&mut self, layer: Layer, left: u64, below: u64) {
        let form = note_form(self.stuck);
        let letters = append_note(&mut self.marks, form, &[left, below], self.labels, layer);
        let right = left.saturating_add(wide(letters, LETTER));
        self.reach = self.reach.max(right);
    }

    // Writes behind a process that isn't over what it does at the end.
    fn describe_last(&mut self, state: &SourceState, process: u64, left: u64) {
        match (last_layer(state, process), self.middle(process)) {
            (Layer::IsOver, _) | (_, None) => {}
            (layer, Some(middle)) => self.describe(layer, left, middle.saturating_add(4)),
        }
    }

    // Draws the arrow from a process to the one that it waits for in a lane of its own, where there is another. Whether
    // it did.
    fn draw_awaited(&mut self, state: &SourceState, process: u64, lane: u64) -> bool {
        let other = awaited(state, process).unwrap_or(process);
        let (Some(start), Some(goal)) = (self.middle(process), self.middle(other)) else {
            return false;
        };
        if process == other {
            return false;
        }
        let edge = self.moment(2).left.saturating_add(2);
        let across = edge
            .saturating_add(lane.saturating_mul(LANE))
            .saturating_add(LANE);
        let from = start.saturating_add(4);
        let numbers = [edge, from, across, goal.saturating_sub(4), edge];
        let form = "<path class='awaits' d='M$,$H$V$H$'/>\n";
        self.marks.form(form, &numbers);
        true
    }

    // Draws the arrows from each process to the one that it waits for. In how many lanes.
    fn draw_all_awaited(&mut self, state: &SourceState) -> u64 {
        let mut lanes: u64 = 0;
        for index in 0..self.rows.len() {
            let process = (index as u64).saturating_add(1);
            if self.draw_awaited(state, process, lanes) {
                lanes = lanes.saturating_add(1);
            }
        }
        lanes
    }

    // Writes a circle of processes below the rows.
    fn write_circle(&mut self, circle: &[u64], first: u64) {
        if circle.is_empty() {
            return;
        }
        let letters = (circle.len() as u64).saturating_add(1).saturating_mul(30);
        self.reach = self.reach.max(wide(letters, LETTER));
        self.bottom = self.bottom.saturating_add(16);
        append_circle(&mut self.marks, circle, first, self.bottom)
    }

    // Writes the circle of which a process is the first, if there is one.
    fn write_circle_from(&mut self, state: &SourceState, first: u64) {
        match circle_from(self.alloc, state, first) {
            Ok(circle) => self.write_circle(circle.as_slice(), first),
            Err(_) => self.marks.fail(),
        }
    }

    /// Writes each circle of processes below the rows.
    pub fn write_circles(&mut self, state: &SourceState) {
        for index in 0..self.rows.len() {
            self.write_circle_from(state, (index as u64).saturating_add(1));
        }
    }

    /// Shows behind each process that isn't over what it does at the end, and whom it waits for.
    pub fn draw_last(&mut self, state: &SourceState) {
        let lanes = self.draw_all_awaited(state);
        let edge = self.moment(2).left.saturating_add(8);
        let left = edge.saturating_add(lanes.saturating_mul(LANE));
        for index in 0..self.rows.len() {
            let process = (index as u64).saturating_add(1);
            self.describe_last(state, process, left);
        }
    }
}
