use machine::ThreadSet;
use std::alloc::Global;
use text_writer::TextWriter;

/// What a step of a run is, beside what its line tells.
#[derive(Clone, Copy, PartialEq, Eq)]
pub enum Doing {
    /// Its thread makes this one; 0 where there is none left.
    Fork(u32),
    /// Its thread goes to sleep.
    Sleep,
    /// Its thread ends by its return.
    End,
    /// Its thread dies of a fault, or of a kill.
    Die,
    /// The thread is woken from outside.
    Stray,
    /// The thread is killed from outside.
    Kill,
    /// It may not be.
    Broken,
    /// Another step of its thread.
    Other,
    /// None: the thread sleeps at the end of the run.
    Stays,
}

/// A line of a run.
#[derive(Clone, Copy)]
pub struct Mark {
    /// The thread that it is about.
    pub thread: u32,
    /// What was done.
    pub doing: Doing,
    /// Whom the step woke.
    pub woken: ThreadSet,
    /// Where the line begins in the text.
    pub from: usize,
    /// Where the next one does.
    pub to: usize,
}

/// The lines of a run of an image.
#[derive(Drop)]
pub struct RunLines {
    /// Their text.
    pub text: String,
    /// A mark for each of them, in their order.
    pub marks: Vec<Mark>,
}

/// Lines while they are written.
#[derive(Drop)]
pub(crate) struct Lines {
    /// Their text. Where memory runs out elsewhere, it fails too.
    pub writer: TextWriter,
    /// A mark for each of them.
    pub marks: Vec<Mark>,
}

impl Lines {
    /// None.
    pub fn new(alloc: Global) -> Lines {
        Lines {
            writer: TextWriter::new(alloc),
            marks: Vec::new(alloc),
        }
    }

    /// Marks the line that was written from a place on, if one was.
    pub fn mark(&mut self, from: usize, thread: u32, doing: Doing, woken: ThreadSet) {
        let to = self.writer.len();
        if from < to {
            let mark = Mark {
                thread,
                doing,
                woken,
                from,
                to,
            };
            self.writer.push(&mut self.marks, mark)
        }
    }
}
