use crate::arrows::Arrow;
use crate::frames::resumed_by;
use crate::shapes::{append_clipped, append_text, letters_of, wide};
use crate::sheet::{Sheet, index_of};
use actionlines::append_line;
use itoa::Buffer;
use source_offers::End;
use source_states::{Action, ActionKind, SourceState};
use source_table::Hold;
use text_writer::TextWriter;
use words::Cause;

/// Whether an action takes a monitor that was abandoned.
pub(crate) fn finds_abandoned(state: &SourceState, kind: &ActionKind) -> bool {
    match kind {
        ActionKind::Enter(monitor) | ActionKind::Resume(monitor) => {
            state.hold(*monitor) == Hold::Abandoned
        }
        _ => false,
    }
}

// The dot of an action that ends no process.
fn dot_of(kind: &ActionKind) -> &'static str {
    match kind {
        ActionKind::Notify(_, _) | ActionKind::Broadcast(_, _) => {
            "<circle class='notifies' cx='$' cy='$' r='3'/>"
        }
        ActionKind::Fails(_) | ActionKind::Abandon(_) | ActionKind::Kill(_, _) => {
            "<circle class='fails' cx='$' cy='$' r='3'/>"
        }
        _ => "<circle class='action' cx='$' cy='$' r='2'/>",
    }
}

// How a note of what goes wrong begins.
const FAULT: &str = "<text class='fault' x='$' y='$'>";

// Begins a group with the number and the line of an action as its title.
fn append_title(out: &mut TextWriter, number: u64, line: &[u8]) {
    out.form("<g><title>$: ", &[number]);
    append_clipped(out, line);
    out.text("</title>")
}

impl<'c, 'n> Sheet<'c, 'n> {
    // Where a note of so many letters stands below the bars of a process, behind the notes before it.
    fn note_place(&mut self, process: u64, letters: u64) -> Option<[u64; 2]> {
        let middle = self.moment(1).left;
        match self.rows.get_mut(index_of(process)) {
            None => None,
            Some(row) => Some(row.note_place(middle, letters)),
        }
    }

    // Writes a note below the bars of a process, behind the notes before it.
    fn note(&mut self, process: u64, form: &str, text: &[u8]) {
        match self.note_place(process, letters_of(text)) {
            None => {}
            Some(place) => append_text(&mut self.marks, form, &place, text),
        }
    }

    // Writes that a monitor is abandoned.
    fn note_abandoned(&mut self, process: u64, monitor: u32) {
        let mut text = TextWriter::new(self.alloc);
        text.text("abandons ");
        text.shown(self.labels.monitor(monitor));
        match text.finish() {
            Ok(text) => self.note(process, FAULT, text.as_bytes()),
            Err(_) => self.marks.fail(),
        }
    }

    // Draws a form in the middle of the last action's column.
    fn dot(&mut self, process: u64, form: &str) {
        let left = self.moment(1).left;
        match self.middle(process) {
            None => {}
            Some(middle) => self.marks.form(form, &[left, middle]),
        }
    }

    // Writes why a process aborted.
    fn draw_cause(&mut self, process: u64, cause: Cause) {
        let left = self.moment(1).left.saturating_add(9);
        self.reach = self.reach.max(left.saturating_add(wide(8, 60)));
        let Some(middle) = self.middle(process) else {
            return;
        };
        let below = middle.saturating_add(3);
        self.marks.form(FAULT, &[left, below]);
        match cause {
            Cause::Faulted(fault) => self.marks.form("fault $", &[u64::from(fault.number())]),
            Cause::Killed => self.marks.text("killed"),
        }
        self.marks.text("</text>")
    }

    // Draws the end of a process, and why it aborted.
    fn draw_end(&mut self, process: u64, end: Option<End>) {
        let Some(End::Aborted(cause)) = end else {
            return self.dot(process, "<path class='end' d='M$,$m-4,-4h8v8h-8z'/>");
        };
        self.dot(
            process,
            "<path class='cross' d='M$,$m-5,-5l10,10m0,-10l-10,10'/>",
        );
        self.draw_cause(process, cause)
    }

    // Draws the arrows to resumed processes.
    fn draw_resumed(&mut self, process: u64, resumed: &[u64]) {
        for other in resumed {
            self.draw_arrow(Arrow::Notify, process, *other);
        }
    }

    // Writes a number that is printed.
    fn note_number(&mut self, process: u64, number: i64) {
        let mut buffer = Buffer::new();
        let text = buffer.format(number);
        self.note(process, "<text class='print' x='$' y='$'>", text.as_bytes())
    }

    // Draws what an action says besides its dot.
    fn draw_beside(&mut self, process: u64, kind: &ActionKind) {
        match kind {
            ActionKind::Fork(child) => self.draw_arrow(Arrow::Fork, process, *child),
            ActionKind::Join(child) => self.draw_arrow(Arrow::Join, *child, process),
            ActionKind::Abandon(monitor) => self.note_abandoned(process, *monitor),
            ActionKind::Stray(_) => {
                self.note(process, "<text class='quiet' x='$' y='$'>", b"stray")
            }
            ActionKind::Print(number) => self.note_number(process, *number),
            _ => self.draw_resumed(process, resumed_by(kind)),
        }
    }

    // Draws what an action does.
    fn draw_kind(&mut self, state: &SourceState, action: &Action) {
        let process = action.process;
        self.draw_beside(process, &action.kind);
        match &action.kind {
            ActionKind::Finish => self.draw_end(process, state.over(process)),
            kind => self.dot(process, dot_of(kind)),
        }
    }

    // Begins the marks of an action with its line.
    fn begin_marks(&mut self, action: &Action) {
        let mut line = Vec::new(self.alloc);
        match append_line(&mut line, self.labels.names, action) {
            Ok(()) => append_title(&mut self.marks, self.number, line.as_slice()),
            Err(_) => self.marks.fail(),
        }
    }

    /// Draws the marks of an action, with its line.
    pub fn draw_action(&mut self, state: &SourceState, action: &Action, finds_abandoned: bool) {
        self.begin_marks(action);
        if finds_abandoned {
            self.note(action.process, FAULT, b"was abandoned");
        }
        self.draw_kind(state, action);
        self.marks.text("</g>\n")
    }
}
