use crate::labels::Labels;
use crate::layer::{Layer, Layers, Trial, append_layers_of};
use crate::row::{Moment, Row};
use crate::span::Span;
use monitor_waits::Attempt;
use source_states::{Action, SourceState};
use std::alloc::{AllocError, Global};
use text_writer::TextWriter;

/// How many actions stand side by side; more stand below them.
pub(crate) const COLUMNS: u64 = 80;

/// The width of an action's column.
pub(crate) const COLUMN: u64 = 14;

/// The upper edge of the first strip.
pub(crate) const TOP: u64 = 56;

/// A picture while it is drawn, in strips of columns. It counts from the left edge of the first action's column.
#[derive(Drop)]
pub(crate) struct Sheet<'c, 'n> {
    /// What memory comes from.
    pub alloc: Global,
    /// The names that the text gave.
    pub labels: Labels<'c, 'n>,
    /// The actions of the run.
    pub actions: &'c [Action],
    /// Which of them are drawn.
    pub span: Span,
    /// The attempts to take a monitor that failed, which come next.
    pub attempts: &'c [Attempt],
    /// What lies behind the bars.
    pub lines: TextWriter,
    /// The bars, those that stand on others behind them.
    pub bars: Vec<TextWriter>,
    /// What lies before the bars. Where memory runs out elsewhere, it fails too.
    pub marks: TextWriter,
    /// The rows of the processes, the first of process 1.
    pub rows: Vec<Row>,
    /// The processes that others join.
    pub joined: Vec<u64>,
    /// The number of the last action of each process, or 0; None where it is over at the end. That of process 1 first.
    pub lasts: Vec<Option<u64>>,
    /// The number of the last action that was done.
    pub number: u64,
    /// The upper edge of this strip.
    pub top: u64,
    /// The lower edge of this strip's rows.
    pub bottom: u64,
    /// How far the names of rows reach, to the left.
    pub left_reach: u64,
    /// How far words reach, to the right.
    pub reach: u64,
    /// Whether the run got stuck.
    pub stuck: bool,
}

// The place of a process's row.
pub(crate) fn index_of(process: u64) -> usize {
    process.saturating_sub(1) as usize
}

// Where the bars of each level are written.
fn no_bars(alloc: Global) -> Result<Vec<TextWriter>, AllocError> {
    let mut bars = Vec::new(alloc);
    for _level in 0..crate::row::LEVELS {
        bars.push(TextWriter::new(alloc))?;
    }
    Ok(bars)
}

impl<'c, 'n> Sheet<'c, 'n> {
    /// An empty picture of these actions.
    pub fn new(
        alloc: Global,
        labels: Labels<'c, 'n>,
        actions: &'c [Action],
        attempts: &'c [Attempt],
        span: Span,
    ) -> Result<Sheet<'c, 'n>, AllocError> {
        let bars = no_bars(alloc)?;
        Ok(Sheet {
            alloc,
            labels,
            actions,
            span,
            attempts,
            lines: TextWriter::new(alloc),
            bars,
            marks: TextWriter::new(alloc),
            rows: Vec::new(alloc),
            joined: Vec::new(alloc),
            lasts: Vec::new(alloc),
            number: 0,
            top: TOP,
            bottom: TOP,
            left_reach: 60,
            reach: 0,
            stuck: false,
        })
    }

    /// Whether the last action that was done is drawn.
    pub fn draws(&self) -> bool {
        self.span.has(self.number)
    }

    /// In which column of its strip the last action is, from 0.
    pub fn column(&self) -> u64 {
        self.number.saturating_sub(self.span.first) % COLUMNS
    }

    /// A moment in the column of the last action: 0 is its left edge, 1 its middle, and 2 its right edge. Before the
    /// first one that is drawn all moments are at the left edge.
    pub fn moment(&self, half: u64) -> Moment {
        let left = if self.draws() {
            self.column()
                .saturating_mul(COLUMN)
                .saturating_add(half.saturating_mul(COLUMN / 2))
        } else {
            0
        };
        Moment {
            left,
            action: self.number,
        }
    }

    /// The last action of a process in the run, where it isn't over at the end.
    pub fn last_of(&self, process: u64) -> Option<u64> {
        self.lasts.get(index_of(process)).copied().unwrap_or(None)
    }

    // From a moment on a process does this.
    fn change(&mut self, process: u64, layers: &[Layer], moment: Moment) {
        let Some(row) = self.rows.get_mut(index_of(process)) else {
            return;
        };
        let kept = row.kept(layers);
        row.draw_from(self.bars.as_mut_slice(), self.labels, kept, moment);
        row.change(&mut self.marks, layers, kept, moment);
        row.label_from(&mut self.marks, self.labels, kept)
    }

    /// From a moment on a process does what the state says.
    pub fn follow(&mut self, state: &SourceState, process: u64, moment: Moment) {
        let mut layers = Layers::new(self.alloc);
        if let Some(row) = self.rows.get(index_of(process)) {
            let pieces = row.pieces.as_slice();
            append_layers_of(&mut layers, state, process, pieces, row.trial);
        }
        if layers.failed {
            self.marks.fail();
        }
        self.change(process, layers.list.as_slice(), moment)
    }

    /// A process is joined, or is over and never joined: its row ends.
    pub fn leave(&mut self, process: u64, moment: Moment) {
        self.change(process, &[], moment);
        if let Some(row) = self.rows.get_mut(index_of(process)) {
            row.gone = true;
        }
    }

    // A process failed to take a monitor.
    fn fail(&mut self, state: &SourceState, attempt: Attempt, moment: Moment) {
        if let Some(row) = self.rows.get_mut(index_of(attempt.process)) {
            row.trial = Some(Trial {
                monitor: attempt.monitor,
                holder: attempt.holder,
            });
        }
        self.follow(state, attempt.process, moment)
    }

    /// Draws the attempts that come behind fewer than so many actions, at a moment.
    pub fn fail_all(&mut self, state: &SourceState, count: u64, moment: Moment) {
        let attempts = self.attempts;
        for attempt in attempts {
            if attempt.behind as u64 >= count {
                break;
            }
            self.fail(state, *attempt, moment);
            self.attempts = self.attempts.get(1..).unwrap_or(&[]);
        }
    }
}
