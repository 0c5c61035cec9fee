// The strips of a picture: which processes have a row in one, and its grid.

use crate::frames::resumed_by;
use crate::row::Row;
use crate::shapes::{letters_of, wide};
use crate::sheet::{COLUMN, COLUMNS, Sheet, index_of};
use source_states::{Action, ActionKind};

// The height of a row, and of a strip's numbers above its rows.
const ROW: u64 = 36;

const TICKS: u64 = 18;

// How wide a letter of a row's name is, in tenths.
const LETTER: u64 = 68;

impl<'c, 'n> Sheet<'c, 'n> {
    // Gives a process a row of this strip.
    fn place_row(&mut self, index: usize) {
        let Some(row) = self.rows.get_mut(index) else {
            return;
        };
        let middle = self.bottom.saturating_add(ROW / 2);
        self.bottom = self.bottom.saturating_add(ROW);
        let letters = wide(letters_of(row.name.as_bytes()), LETTER);
        self.left_reach = self.left_reach.max(letters);
        row.begin(&mut self.lines, &mut self.marks, self.labels, middle)
    }

    /// Adds the row of the next process.
    pub fn add_row(&mut self, row: Row) {
        let index = self.rows.len();
        self.marks.push(&mut self.rows, row);
        if self.draws() {
            return self.place_row(index);
        }
    }

    // A process is to have a row from this strip's beginning.
    fn show(&mut self, process: u64) {
        if let Some(row) = self.rows.get_mut(index_of(process)) {
            row.shown = true;
        }
    }

    // So are those to whom an action does something.
    fn show_all(&mut self, processes: &[u64]) {
        for process in processes {
            self.show(*process);
        }
    }

    // So is who does an action, and to whom it does something.
    fn show_action(&mut self, action: &Action) {
        self.show(action.process);
        match &action.kind {
            ActionKind::Join(child) => self.show(*child),
            kind => self.show_all(resumed_by(kind)),
        }
    }

    // So is who does one of so many actions that come next.
    fn show_actions(&mut self, first: u64, count: u64) {
        let actions = self.actions;
        let rest = actions.get(first as usize..).unwrap_or(&[]);
        for action in rest.iter().take(count as usize) {
            self.show_action(action);
        }
    }

    // So is who fails to take a monitor behind fewer than so many actions, and who holds that.
    fn show_attempts(&mut self, count: u64) {
        let attempts = self.attempts;
        for attempt in attempts {
            if attempt.behind as u64 >= count {
                break;
            }
            self.show(attempt.process);
            self.show(attempt.holder);
        }
    }

    // At the end of a run so is each process that isn't over.
    fn show_rest(&mut self) {
        for row in self.rows.iter_mut() {
            row.shown = row.shown || !row.is_over();
        }
    }

    // Chooses who has a row from this strip's beginning, which is behind so many actions.
    fn choose(&mut self, before: u64) {
        let end = before.saturating_add(COLUMNS).min(self.span.last);
        for row in self.rows.iter_mut() {
            row.shown = false;
        }
        self.show_actions(before, end.saturating_sub(before));
        self.show_attempts(end);
        if end == self.actions.len() as u64 {
            self.show_rest();
        }
    }

    // Gives a process that has one a row of this strip.
    fn place_again(&mut self, index: usize) {
        match self.rows.get(index) {
            Some(row) if row.shown && !row.gone => self.place_row(index),
            _ => {}
        }
    }

    // Begins a strip behind so many actions.
    fn begin_strip(&mut self, before: u64) {
        self.lines.form(
            "<text class='axis' x='-8' y='$'>action</text>\n",
            &[self.top.saturating_add(10)],
        );
        self.bottom = self.top.saturating_add(TICKS);
        self.choose(before);
        for index in 0..self.rows.len() {
            self.place_again(index);
        }
    }

    // Draws the line of the grid in a column, with the number of its action.
    fn draw_line(&mut self, column: u64, number: u64) {
        let left = column.saturating_mul(COLUMN).saturating_add(COLUMN / 2);
        let tick = self.top.saturating_add(10);
        let below = tick.saturating_add(4);
        self.lines.form(
            "<text class='tick' x='$' y='$'>$</text><path class='grid' d='M$,$V$'/>\n",
            &[left, tick, number, left, below, self.bottom],
        )
    }

    // Draws the grid of this strip, with the numbers of each tenth action, and of the first one that is drawn.
    fn draw_grid(&mut self) {
        let last = self.column();
        let first = self.number.saturating_sub(last);
        for column in 0..=last {
            let number = first.saturating_add(column);
            if number % 10 == 0 || number == self.span.first {
                self.draw_line(column, number);
            }
        }
    }

    // Ends a process's row in this strip.
    fn cut(&mut self, index: usize) {
        let moment = self.moment(2);
        if let Some(row) = self.rows.get_mut(index) {
            let reach = row.cut(self.bars.as_mut_slice(), self.labels, moment);
            self.reach = self.reach.max(reach);
        }
    }

    /// Ends this strip, if there is one: its bars are drawn up to its right edge.
    pub fn end_strip(&mut self) {
        if !self.draws() {
            return;
        }
        self.reach = self.reach.max(self.moment(2).left);
        for index in 0..self.rows.len() {
            self.cut(index);
        }
        self.draw_grid()
    }

    // Begins the strip of the action behind the last one, below the strip before.
    fn turn(&mut self) {
        let before = self.number;
        if self.draws() {
            self.end_strip();
            self.top = self.bottom.saturating_add(14);
        }
        self.number = before.saturating_add(1);
        self.begin_strip(before)
    }

    /// Goes on to the column of the next action, in a new strip where this one is full.
    pub fn advance(&mut self) {
        let next = self.number.saturating_add(1);
        if self.span.has(next) && next.saturating_sub(self.span.first) % COLUMNS == 0 {
            return self.turn();
        }
        self.number = next;
    }
}
