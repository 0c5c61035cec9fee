use crate::level::Level;
use crate::moment::Moment;
use crate::stands::token_at;
use places::Places;
use program::{Checked, Program, Role, Statement};
use source_offers::{End, recover_part};
use source_states::{Action, ActionKind, SourceState};
use std::alloc::{AllocError, Global};
use text_writer::TextWriter;
use words::ImageVersion;

/// The procedures of a process, the innermost last.
#[derive(Drop)]
pub(crate) struct Walker {
    pub levels: Vec<Level>,
}

/// A run that is followed in the text: its state, and beside each process where its procedures stand.
#[derive(Drop)]
pub(crate) struct Follower<'a, 't> {
    pub alloc: Global,
    pub program: &'a Program,
    pub places: &'a Places<'t>,
    pub state: SourceState<'a>,
    // That of process 1 first.
    walkers: Vec<Walker>,
}

// The place of a process's walker.
fn index_of(process: u64) -> usize {
    process.saturating_sub(1) as usize
}

impl<'a, 't> Follower<'a, 't> {
    /// A run that begins. Where memory runs out, now or later, the text that is given fails.
    pub fn opening(
        alloc: Global,
        checked: &'a Checked,
        places: &'a Places<'t>,
    ) -> Result<Follower<'a, 't>, AllocError> {
        Ok(Follower {
            alloc,
            program: checked.program(),
            places,
            state: SourceState::opening(alloc, checked, ImageVersion::Two)?,
            walkers: Vec::new(alloc),
        })
    }

    /// Its first process begins.
    pub fn begin(&mut self, out: &mut TextWriter) {
        let last = self.program.procedures.len().saturating_sub(1);
        self.add_walker(out, u32::try_from(last).unwrap_or(0))
    }

    // A process begins at this piece.
    fn add_walker(&mut self, out: &mut TextWriter, piece: u32) {
        let walker = Walker {
            levels: Vec::new(self.alloc),
        };
        out.push(&mut self.walkers, walker);
        let process = self.walkers.len() as u64;
        self.call(out, process, piece)
    }

    /// The procedures of a process, the innermost last.
    pub fn levels(&self, process: u64) -> &[Level] {
        match self.walkers.get(index_of(process)) {
            Some(walker) => walker.levels.as_slice(),
            None => &[],
        }
    }

    // The innermost procedure of a process.
    fn top(&mut self, process: u64) -> Option<&mut Level> {
        self.walkers.get_mut(index_of(process))?.levels.last_mut()
    }

    // The token at which the procedure of a process stands that called its innermost one.
    fn below(&self, process: u64) -> Option<usize> {
        match self.levels(process) {
            [.., caller, _top] => Some(token_at(self.places, caller)),
            _ => None,
        }
    }

    // What a process is to do next.
    fn moment(&self, process: u64) -> Moment<'a> {
        match self.state.process(process) {
            None => Moment::nowhere(),
            Some(process) => Moment::of(self.program, self.state.variables(), process),
        }
    }

    // The moment before an action of a process, which comes to its next statement where it is one of its own.
    fn come_to(&mut self, out: &mut TextWriter, action: &Action) -> Moment<'a> {
        let mut moment = self.moment(action.process);
        let places = self.places;
        if let Some(level) = self.top(action.process) {
            if moment.is_before && is_own(&action.kind) {
                level.go_on(out, places);
            }
            moment.piece = level.piece;
            moment.standing = level.standing;
        }
        moment.below = self.below(action.process);
        moment
    }

    // A test, of an IF or a WHILE.
    fn test(&mut self, out: &mut TextWriter, process: u64, moment: Moment<'a>) {
        let places = self.places;
        let Some(level) = self.top(process) else {
            return;
        };
        match moment.statement {
            Some(Statement::While { .. }) if moment.value == 0 => {}
            Some(Statement::While { .. }) => level.enter_loop(out, places),
            _ => level.enter_part(out, places, moment.value == 0),
        }
    }

    // A procedure begins above the innermost of a process.
    fn call(&mut self, out: &mut TextWriter, process: u64, piece: u32) {
        let mut level = Level::new(self.alloc, piece);
        level.begin(out, self.places);
        if let Some(walker) = self.walkers.get_mut(index_of(process)) {
            out.push(&mut walker.levels, level)
        }
    }

    // A process joined a child: where that aborted, the ABORTED part comes first.
    fn join(&mut self, out: &mut TextWriter, process: u64, child: u64) {
        let places = self.places;
        if let (Some(End::Aborted(_)), Some(level)) = (self.state.over(child), self.top(process)) {
            level.enter_part(out, places, false)
        }
    }

    // How many procedures a process has.
    fn depth(&self, process: u64) -> usize {
        match self.state.process(process) {
            None => 0,
            Some(process) => process.callers.len().saturating_add(1),
        }
    }

    // The RECOVER part in which a process is.
    fn recovering(&self, process: u64) -> Option<u32> {
        match self.state.process(process)?.frame.role {
            Role::Recover(monitor) => recover_part(self.program, monitor),
            _ => None,
        }
    }

    // The procedures of a process that returned are gone, and the RECOVER part that it begins is there.
    fn settle(&mut self, out: &mut TextWriter, process: u64) {
        let depth = self.depth(process);
        let Some(walker) = self.walkers.get_mut(index_of(process)) else {
            return;
        };
        walker.levels.truncate(depth);
        if walker.levels.len() < depth {
            if let Some(part) = self.recovering(process) {
                self.call(out, process, part)
            }
        }
    }

    // What an action did is done in the text too.
    fn finish(&mut self, out: &mut TextWriter, action: &Action, moment: Moment<'a>) {
        let process = action.process;
        match (&action.kind, moment.statement) {
            (ActionKind::Test, _) => self.test(out, process, moment),
            (ActionKind::Call, Some(Statement::Call { procedure, .. })) => {
                self.call(out, process, *procedure)
            }
            (ActionKind::Fork(_), Some(Statement::Fork { procedure, .. })) => {
                self.add_walker(out, *procedure)
            }
            (ActionKind::Join(child), _) => self.join(out, process, *child),
            _ => {}
        }
        self.settle(out, process)
    }

    /// Does an action; the moment before it, or None where it isn't possible or memory ran out.
    pub fn pass(&mut self, out: &mut TextWriter, action: &Action) -> Option<Moment<'a>> {
        let moment = self.come_to(out, action);
        match self.state.advance(self.alloc, self.program, action) {
            Ok(true) => {
                self.finish(out, action, moment);
                Some(moment)
            }
            Ok(false) => None,
            Err(_) => {
                out.fail();
                None
            }
        }
    }

    /// Does actions, up to the first that isn't possible.
    pub fn pass_all(&mut self, out: &mut TextWriter, actions: &[Action]) {
        for action in actions {
            if self.pass(out, action).is_none() {
                break;
            }
        }
    }
}

// Whether an action is one of its process's own.
fn is_own(kind: &ActionKind) -> bool {
    match kind {
        ActionKind::Stray(_) => false,
        ActionKind::Kill(_, _) => false,
        _ => true,
    }
}
