use crate::labels::Labels;
use crate::layer::Layer;
use crate::palette::colour;
use text_writer::TextWriter;

// The class of a colour that no monitor has.
const NO_MONITOR: u64 = 9;

/// The part of a row in which a layer stays as it is.
#[derive(Clone, Copy)]
pub(crate) struct Bar {
    /// What the process is doing.
    pub layer: Layer,
    /// Where the bar begins, from the first action's left edge.
    pub left: u64,
    /// The action with which it began.
    pub since: u64,
    /// Whether the process waits so to the end of the run.
    pub never: bool,
}

/// Where a bar stands, and with which action it ends.
#[derive(Clone, Copy)]
pub(crate) struct Place {
    /// On how many other bars it stands.
    pub level: usize,
    /// Where it ends.
    pub right: u64,
    /// The middle of its row.
    pub middle: u64,
    /// The action with which it ends.
    pub until: u64,
}

// The height of a bar that stands on so many others.
fn height(level: usize) -> u64 {
    match level {
        0 => 16,
        1 => 10,
        2 => 6,
        _ => 4,
    }
}

// The colour of a monitor, where it is known which.
fn colour_of(monitor: Option<u32>) -> u64 {
    match monitor {
        None => NO_MONITOR,
        Some(monitor) => colour(monitor),
    }
}

// The class of a layer, and its monitor's colour.
fn class_of(layer: Layer) -> (&'static str, u64) {
    match layer {
        Layer::Runs => ("runs", NO_MONITOR),
        Layer::Holds(monitor, _) => ("holds", colour(monitor)),
        Layer::Waits(condition) => ("waits", colour(condition.monitor)),
        Layer::Resumed(monitor) => ("resumed", colour(monitor)),
        Layer::Enters(monitor) => ("enters", colour(monitor)),
        Layer::Tried(monitor, _) => ("enters", colour_of(monitor)),
        Layer::Joins(_) => ("joins", NO_MONITOR),
        Layer::Dies => ("dies", NO_MONITOR),
        Layer::IsOver => ("over", NO_MONITOR),
    }
}

impl Bar {
    // What its element's class has beside the layer's.
    fn manner(&self) -> &'static str {
        if self.never { " m$ never'" } else { " m$'" }
    }

    // Appends the beginning of an element, up to its classes.
    fn append_class(&self, out: &mut TextWriter, element: &str) {
        let (class, number) = class_of(self.layer);
        out.text(element);
        out.text(class);
        out.form(self.manner(), &[number])
    }

    // Draws a rectangle.
    fn append_block(&self, out: &mut TextWriter, place: Place) {
        let tall = height(place.level);
        let top = place.middle.saturating_sub(tall / 2);
        let wide = place.right.saturating_sub(self.left);
        self.append_class(out, "<rect class='");
        let numbers = [self.left, top, wide, tall];
        out.form(" x='$' y='$' width='$' height='$'/>", &numbers)
    }

    // Draws a line, on the ground where it stands on another bar.
    fn append_line(&self, out: &mut TextWriter, place: Place) {
        if place.level > 0 {
            let top = place.middle.saturating_sub(4);
            let numbers = [self.left, top, place.right.saturating_sub(self.left)];
            out.form(
                "<rect class='under' x='$' y='$' width='$' height='8'/>",
                &numbers,
            );
        }
        self.append_class(out, "<path class='");
        out.form(" d='M$,$H$'/>", &[self.left, place.middle, place.right])
    }

    /// Draws a bar up to its right edge, with what it is.
    pub fn draw(&self, out: &mut TextWriter, labels: Labels, place: Place) {
        if place.right <= self.left {
            return;
        }
        out.text("<g><title>");
        labels.append_description(out, self.layer);
        out.form(", $ to $</title>", &[self.since, place.until]);
        match self.layer {
            Layer::Holds(_, _) | Layer::Waits(_) => self.append_block(out, place),
            _ => self.append_line(out, place),
        }
        out.text("</g>\n")
    }
}
