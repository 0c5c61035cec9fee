use crate::escaping::write_xml;
use crate::lanes::{Lane, State, behind, lanes_of};
use image_lines::{Doing, Mark};
use machine::ThreadSet;
use std::alloc::{AllocError, Global};
use text_writer::TextWriter;

/// How many steps stand side by side; more stand below them.
pub(crate) const COLUMNS: u64 = 60;

/// The width of a step's column.
pub(crate) const COLUMN: u64 = 18;

/// The left edge of the columns.
pub(crate) const LEFT: u64 = 100;

/// The upper edge of the first strip.
pub(crate) const TOP: u64 = 70;

/// The height of a thread's lane.
pub(crate) const ROW: u64 = 34;

/// What lies between two strips.
pub(crate) const GAP: u64 = 40;

/// A picture while it is drawn, in strips of columns.
#[derive(Drop)]
pub(crate) struct Sheet<'r> {
    /// What lies behind the signs.
    pub lines: TextWriter,
    /// The signs and the words. Where memory runs out elsewhere, it fails too.
    pub signs: TextWriter,
    // The lines of the run.
    text: &'r [u8],
    // The lanes of the threads, that of thread 1 first.
    lanes: Vec<Lane>,
    // How many steps were drawn.
    steps: u64,
    // The middle of the column of the last of them.
    at: u64,
    // The middle of the first lane of this strip.
    top: u64,
}

impl<'r> Sheet<'r> {
    /// An empty picture of a run of so many threads, with these lines.
    pub fn new(alloc: Global, text: &'r str, threads: u32) -> Result<Sheet<'r>, AllocError> {
        let lanes = lanes_of(alloc, threads, LEFT)?;
        Ok(Sheet {
            lines: TextWriter::new(alloc),
            signs: TextWriter::new(alloc),
            text: text.as_bytes(),
            lanes,
            steps: 0,
            at: LEFT,
            top: TOP,
        })
    }

    // The middle of a thread's lane.
    fn middle(&self, thread: u32) -> u64 {
        let before = u64::from(thread).saturating_sub(1);
        self.top.saturating_add(before.saturating_mul(ROW))
    }

    // What a thread does.
    fn state_of(&self, thread: u32) -> State {
        match self.lanes.get((thread as usize).saturating_sub(1)) {
            Some(lane) => lane.state,
            None => State::Absent,
        }
    }

    // Draws what a thread did up to a place.
    fn draw_to(&mut self, thread: u32, lane: Lane, to: u64) {
        let form = match lane.state {
            State::Absent => return,
            State::Runs => "<path class='runs' d='M$,$H$'/>\n",
            State::Sleeps => "<path class='sleeps' d='M$,$H$'/>\n",
        };
        let middle = self.middle(thread);
        self.lines.form(form, &[lane.since, middle, to])
    }

    // From here on a thread does this.
    fn change(&mut self, thread: u32, state: State) {
        let index = (thread as usize).saturating_sub(1);
        let Some(lane) = self.lanes.get(index).copied() else {
            return;
        };
        if lane.state != state {
            self.draw_to(thread, lane, self.at);
            if let Some(kept) = self.lanes.get_mut(index) {
                kept.state = state;
                kept.since = self.at;
            }
        }
    }

    // Draws an arrow from a thread's lane to another's; its two forms are a line, and its head.
    fn arrow(&mut self, line: &str, head: &str, from: u32, to: u32) {
        let begins = self.middle(from);
        let ends = self.middle(to);
        self.lines.form(line, &[self.at, begins, ends]);
        self.signs.form(head, &[self.at, ends])
    }

    // A thread makes another.
    fn fork(&mut self, from: u32, child: u32) {
        if child == 0 {
            return;
        }
        self.change(child, State::Runs);
        let line = "<path class='forks' d='M$,$V$'/>\n";
        self.arrow(
            line,
            "<circle class='to-forks' cx='$' cy='$' r='4'/>\n",
            from,
            child,
        )
    }

    // A thread wakes another.
    fn wake(&mut self, from: u32, woken: u32) {
        self.change(woken, State::Runs);
        let line = "<path class='wakes' d='M$,$V$'/>\n";
        self.arrow(
            line,
            "<circle class='to-wakes' cx='$' cy='$' r='4'/>\n",
            from,
            woken,
        )
    }

    // A thread wakes others.
    fn wake_all(&mut self, from: u32, woken: &ThreadSet) {
        if woken.is_empty() {
            return;
        }
        for before in 0..1000 {
            if woken.contains(before + 1) {
                self.wake(from, before + 1);
            }
        }
    }

    // Draws the sign of a step, which tells its line.
    fn sign(&mut self, mark: &Mark) {
        let form = match mark.doing {
            Doing::End => "<g transform='translate($,$)'><path class='ends' d='M-4,-4h8v8h-8z'/>",
            Doing::Die | Doing::Broken => {
                "<g transform='translate($,$)'><path class='dies' d='M-7,0l7,-7l7,7l-7,7z'/>"
            }
            Doing::Stray | Doing::Kill => {
                "<g transform='translate($,$)'><circle class='outside' r='5'/>"
            }
            _ if mark.woken.is_empty() => {
                "<g transform='translate($,$)'><circle class='step' r='3'/>"
            }
            _ => "<g transform='translate($,$)'><circle class='waker' r='4'/>",
        };
        let middle = self.middle(mark.thread);
        self.signs.form(form, &[self.at, middle]);
        self.signs.text("<title>");
        self.line_of(mark);
        self.signs.text("</title></g>\n")
    }

    // Writes the line of a mark.
    fn line_of(&mut self, mark: &Mark) {
        let text = self.text;
        if let Some(line) = text.get(mark.from..mark.to) {
            write_xml(line.trim_ascii(), &mut self.signs);
        }
    }

    // Draws a step.
    fn step(&mut self, mark: &Mark) {
        let state = behind(self.state_of(mark.thread), mark.doing);
        self.change(mark.thread, state);
        if let Doing::Fork(child) = mark.doing {
            self.fork(mark.thread, child);
        }
        self.wake_all(mark.thread, &mark.woken);
        self.sign(mark)
    }

    // Writes who sleeps at the end of the run, beside its lane.
    fn stay(&mut self, mark: &Mark) {
        let place = [
            self.at.saturating_add(COLUMN),
            self.middle(mark.thread).saturating_add(4),
        ];
        self.signs.form("<text class='stays' x='$' y='$'>", &place);
        self.line_of(mark);
        self.signs.text("</text>\n")
    }

    // Writes the names of the threads before this strip.
    fn name_all(&mut self) {
        for index in 0..self.lanes.len() {
            let number = (index as u64).saturating_add(1);
            let middle = self.top.saturating_add((index as u64).saturating_mul(ROW));
            self.signs.form(
                "<text class='thread' x='$' y='$'>thread $</text>\n",
                &[LEFT - 12, middle.saturating_add(4), number],
            );
        }
    }

    // Draws all lanes up to a place, and begins them anew at the left edge.
    fn cut(&mut self, to: u64) {
        for index in 0..self.lanes.len() {
            let thread = u32::try_from(index).unwrap_or(0).saturating_add(1);
            if let Some(lane) = self.lanes.get(index).copied() {
                self.draw_to(thread, lane, to);
            }
            if let Some(lane) = self.lanes.get_mut(index) {
                lane.since = LEFT;
            }
        }
    }

    // Goes on to the column of the next step, in a new strip where this one is full.
    fn next_column(&mut self) {
        let column = self.steps % COLUMNS;
        if column == 0 {
            self.begin_strip();
        }
        self.steps = self.steps.saturating_add(1);
        self.at = LEFT + COLUMN / 2 + column * COLUMN;
        if self.steps % 10 == 0 {
            let place = [self.at, self.top.saturating_sub(22), self.steps];
            self.signs
                .form("<text class='tick' x='$' y='$'>$</text>\n", &place);
        }
    }

    // Begins a strip, the first one or another below.
    fn begin_strip(&mut self) {
        if self.steps > 0 {
            self.cut(LEFT + COLUMNS * COLUMN);
            self.top = self
                .top
                .saturating_add(strip_height(self.lanes.len() as u64));
        } else {
            self.cut(LEFT);
        }
        self.name_all()
    }

    /// Draws the run.
    pub fn draw(&mut self, marks: &[Mark]) {
        for mark in marks {
            if mark.doing != Doing::Stays {
                self.next_column();
                self.step(mark);
            }
        }
        self.cut(self.at.saturating_add(COLUMN / 2));
        for mark in marks {
            if mark.doing == Doing::Stays {
                self.stay(mark);
            }
        }
    }
}

/// How high a strip of so many threads is, with what lies below it.
pub(crate) fn strip_height(threads: u64) -> u64 {
    threads.saturating_mul(ROW).saturating_add(GAP)
}
