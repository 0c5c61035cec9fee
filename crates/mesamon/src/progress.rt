ghost use Rattle.std.specs.Prelude.{◌≡◌};

use source_search::Progress;
use std::io::Write;

/// Tells on a writer how far a search has come: a line for each so many states that it keeps. A line that can't be
/// written is lost, and the search goes on.
#[derive(Drop)]
pub struct ProgressLines<W> {
    writer: W,
    // For how many states there is a line.
    each: usize,
    // How many states are kept where the next line is due.
    due: usize,
}

impl<W> ProgressLines<W> {
    /// Lines on this writer, one for each so many states.
    pub fn new(writer: W, each: usize) -> ProgressLines<W>
        ensures writer { result.writer ≡ writer }
        ensures each { result.each ≡ each }
        ensures due { result.due ≡ each }
    {
        ProgressLines {
            writer,
            each,
            due: each,
        }
    }

    /// The writer itself.
    pub fn into_inner(self) -> W
        ensures { result ≡ self.writer }
    {
        let ProgressLines {
            writer,
            each: _,
            due: _,
        } = self;
        writer
    }
}

impl<W: Write> Progress for ProgressLines<W> {
    fn looked_at(&mut self, kept: usize, looked: usize) {
        if kept < self.due {
            return;
        }
        let ahead = kept.saturating_sub(looked);
        let _told = writeln!(
            self.writer,
            "explore: {kept} states kept, {ahead} yet to be looked at"
        );
        self.due = self.due.saturating_add(self.each);
    }
}
