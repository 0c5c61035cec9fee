use crate::frames::{begun, depth, resumed_by};
use crate::labels::append_row_name;
use crate::marks::finds_abandoned;
use crate::row::Row;
use crate::sheet::{Sheet, index_of};
use program::Checked;
use source_states::{Action, ActionKind, SourceState};
use sourcemeaning::movers;
use std::alloc::{AllocError, Global};
use text_writer::TextWriter;
use words::ImageVersion;

// Where in its column an action changes what its process does.
fn side(kind: &ActionKind) -> u64 {
    match kind {
        ActionKind::Enter(_) | ActionKind::Resume(_) => 0,
        ActionKind::Join(_) | ActionKind::Stray(_) | ActionKind::Finish => 1,
        _ => 2,
    }
}

// Whether a process can do an action.
fn can_move(alloc: Global, checked: &Checked, state: &SourceState) -> Result<bool, AllocError> {
    let movers = movers(alloc, checked, state)?;
    Ok(!movers.is_empty())
}

impl<'c, 'n> Sheet<'c, 'n> {
    // Notes which processes are joined, and the last action of each that isn't over at the end.
    fn look_ahead(&mut self) {
        let actions = self.actions;
        let mut number: u64 = 0;
        self.marks.push(&mut self.lasts, Some(0));
        for action in actions {
            number = number.saturating_add(1);
            self.look_at(action, number);
        }
    }

    // Notes what an action of this number shows of that.
    fn look_at(&mut self, action: &Action, number: u64) {
        match action.kind {
            ActionKind::Join(child) => self.marks.push(&mut self.joined, child),
            ActionKind::Fork(_) => self.marks.push(&mut self.lasts, Some(0)),
            _ => {}
        }
        if let Some(last) = self.lasts.get_mut(index_of(action.process)) {
            *last = match action.kind {
                ActionKind::Finish => None,
                _ => Some(number),
            };
        }
    }

    // The row of a process in which this piece begins.
    fn row_of(
        &self,
        state: &SourceState,
        process: u64,
        piece: Option<u32>,
    ) -> Result<Row, AllocError> {
        let locals = match state.process(process) {
            None => &[],
            Some(made) => made.frame.locals.as_slice(),
        };
        let number = piece.unwrap_or(u32::MAX);
        let mut name = TextWriter::new(self.alloc);
        append_row_name(&mut name, self.labels, process, number, locals);
        Row::new(self.alloc, name.finish()?, piece, self.last_of(process))
    }

    // A process is made, in which this piece begins: its row begins.
    fn begin(&mut self, state: &SourceState, process: u64, piece: Option<u32>) {
        match self.row_of(state, process, piece) {
            Ok(row) => self.add_row(row),
            Err(_) => self.marks.fail(),
        }
        self.follow(state, process, self.moment(1))
    }

    // A process is over: its row ends, where no other joins it.
    fn end(&mut self, process: u64) {
        if self.joined.contains(&process) {
            return;
        }
        self.leave(process, self.moment(1))
    }

    // Draws what an action does to the rows of processes that it resumes.
    fn follow_each(&mut self, state: &SourceState, resumed: &[u64]) {
        let moment = self.moment(1);
        for process in resumed {
            self.follow(state, *process, moment);
        }
    }

    // Draws what an action does to the rows of other processes, and to one that ends.
    fn follow_others(&mut self, state: &SourceState, action: &Action, piece: Option<u32>) {
        match &action.kind {
            ActionKind::Fork(child) => self.begin(state, *child, piece),
            ActionKind::Join(child) => self.leave(*child, self.moment(1)),
            ActionKind::Finish => self.end(action.process),
            kind => self.follow_each(state, resumed_by(kind)),
        }
    }

    // Notes what an action did to the procedures of its process, and whether it took the monitor that it tried to take.
    fn settle(&mut self, state: &SourceState, action: &Action, piece: Option<u32>) {
        match self.rows.get_mut(index_of(action.process)) {
            None => {}
            Some(row) => {
                let depth = depth(state, action.process);
                row.settle(&mut self.marks, &action.kind, piece, depth)
            }
        }
    }

    // Does an action, and draws it; false where it isn't possible.
    fn draw_step(
        &mut self,
        checked: &'c Checked<'n>,
        action: &Action,
        state: &mut SourceState<'c>,
    ) -> bool {
        self.advance();
        self.fail_all(state, self.number, self.moment(0));
        let piece = begun(state, action);
        let abandoned = finds_abandoned(state, &action.kind);
        let is_done = self.is_done(state.advance(self.alloc, checked.program(), action));
        if is_done {
            self.draw_done(state, action, piece, abandoned);
        }
        is_done
    }

    // Whether something is so that memory was wanted for; where that ran out it isn't, and the picture has no end.
    fn is_done(&mut self, done: Result<bool, AllocError>) -> bool {
        match done {
            Ok(done) => done,
            Err(_) => {
                self.marks.fail();
                false
            }
        }
    }

    // Draws an action that was done, which began this piece.
    fn draw_done(
        &mut self,
        state: &SourceState,
        action: &Action,
        piece: Option<u32>,
        abandoned: bool,
    ) {
        self.settle(state, action, piece);
        let moment = self.moment(side(&action.kind));
        self.follow(state, action.process, moment);
        self.follow_others(state, action, piece);
        if self.draws() {
            return self.draw_action(state, action, abandoned);
        }
    }

    // Does actions, and draws them, up to the last that is drawn or the first that isn't possible; false there.
    fn draw_steps(&mut self, checked: &'c Checked<'n>, state: &mut SourceState<'c>) -> bool {
        let actions = self.actions;
        for action in actions.iter().take(self.span.last as usize) {
            if !self.draw_step(checked, action, state) {
                return false;
            }
        }
        true
    }

    // Draws how a run ends.
    fn draw_rest(&mut self, checked: &'c Checked<'n>, state: &SourceState<'c>) {
        self.fail_all(state, u64::MAX, self.moment(2));
        let can_move = self.is_done(can_move(self.alloc, checked, state));
        self.stuck = !can_move && self.is_unfinished();
        self.draw_last(state);
        self.end_strip();
        self.write_circles(state)
    }

    // Whether a process has a row that isn't over.
    fn is_unfinished(&self) -> bool {
        self.rows.iter().any(|row| !row.gone && !row.is_over())
    }

    // Draws the run from its opening state on.
    fn draw_from(&mut self, checked: &'c Checked<'n>, state: &mut SourceState<'c>) {
        let main = checked.program().procedures.len().saturating_sub(1);
        self.begin(state, 1, Some(main as u32));
        let is_run = self.draw_steps(checked, state);
        if !is_run || self.span.last < self.actions.len() as u64 {
            return self.end_strip();
        }
        self.draw_rest(checked, state)
    }

    /// Draws the run, from its first action that is drawn to its last, and what its processes wait for at its end.
    pub fn draw_run(&mut self, checked: &'c Checked<'n>) {
        self.look_ahead();
        match SourceState::opening(self.alloc, checked, ImageVersion::Two) {
            Ok(mut state) => self.draw_from(checked, &mut state),
            Err(_) => self.marks.fail(),
        }
    }
}
