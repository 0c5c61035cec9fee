use crate::escaping::write_json;
use crate::lanes::{Lane, State, behind, lanes_of, threads_of};
use image_lines::{Doing, Mark, RunLines};
use machine::ThreadSet;
use std::alloc::{AllocError, Global};
use text_writer::TextWriter;

const HEAD: &str = "{\"traceEvents\":[\n\
    {\"ph\":\"M\",\"pid\":1,\"name\":\"process_name\",\"args\":{\"name\":\"mesamon\"}}";

const TRACK: &str = ",\n{\"ph\":\"M\",\"pid\":1,\"tid\":$,\
    \"name\":\"thread_name\",\"args\":{\"name\":\"thread $\"}}";

// The records of a trace-event file, while they are written.
#[derive(Drop)]
struct Tape<'r> {
    out: TextWriter,
    // The lines of the run.
    text: &'r [u8],
    // What each thread does, that of thread 1 first.
    lanes: Vec<Lane>,
    // The number of the last step, which is the time of the next record in microseconds.
    time: u64,
    // How many flows began.
    flows: u64,
}

impl<'r> Tape<'r> {
    fn new(alloc: Global, text: &'r str, threads: u32) -> Result<Tape<'r>, AllocError> {
        let lanes = lanes_of(alloc, threads, 0)?;
        Ok(Tape {
            out: TextWriter::new(alloc),
            text: text.as_bytes(),
            lanes,
            time: 0,
            flows: 0,
        })
    }

    // Begins a record on the track of a thread, with a text that says of which kind it is.
    fn begin(&mut self, kind: &str, thread: u32) {
        self.out.text(kind);
        let numbers = [u64::from(thread), self.time];
        self.out.form("\",\"pid\":1,\"tid\":$,\"ts\":$", &numbers)
    }

    // Begins the slice of what a thread does.
    fn open(&mut self, thread: u32, state: State) {
        let name = match state {
            State::Absent => return,
            State::Runs => ",\"name\":\"runs\"}",
            State::Sleeps => ",\"name\":\"sleeps\"}",
        };
        self.begin(",\n{\"ph\":\"B", thread);
        self.out.text(name)
    }

    // Ends it.
    fn close(&mut self, thread: u32, state: State) {
        if state != State::Absent {
            self.begin(",\n{\"ph\":\"E", thread);
            self.out.text("}")
        }
    }

    // What a thread does.
    fn state_of(&self, thread: u32) -> State {
        match self.lanes.get((thread as usize).saturating_sub(1)) {
            Some(lane) => lane.state,
            None => State::Absent,
        }
    }

    // From now on a thread does this.
    fn change(&mut self, thread: u32, state: State) {
        let old = self.state_of(thread);
        if old == state {
            return;
        }
        self.close(thread, old);
        self.open(thread, state);
        if let Some(lane) = self.lanes.get_mut((thread as usize).saturating_sub(1)) {
            lane.state = state;
        }
    }

    // Writes the flow from a thread to one that it makes or wakes, which runs from now on.
    fn flow(&mut self, from: u32, to: u32, name: &str) {
        let number = self.flows.saturating_add(1);
        self.flows = number;
        self.begin(",\n{\"ph\":\"s", from);
        self.out
            .form(",\"id\":$,\"cat\":\"flow\",\"name\":\"", &[number]);
        self.out.text(name);
        self.out.text("\"}");
        self.change(to, State::Runs);
        self.begin(",\n{\"ph\":\"f", to);
        self.out.form(
            ",\"bp\":\"e\",\"id\":$,\"cat\":\"flow\",\"name\":\"",
            &[number],
        );
        self.out.text(name);
        self.out.text("\"}")
    }

    // Writes the flows to those that a thread wakes.
    fn wake_all(&mut self, from: u32, woken: &ThreadSet) {
        if woken.is_empty() {
            return;
        }
        for before in 0..1000 {
            if woken.contains(before + 1) {
                self.flow(from, before + 1, "wake");
            }
        }
    }

    // Writes the line of a step as what happens at one moment.
    fn note(&mut self, mark: &Mark) {
        self.begin(",\n{\"ph\":\"i", mark.thread);
        self.out.text(",\"s\":\"t\",\"name\":\"");
        let text = self.text;
        if let Some(line) = text.get(mark.from..mark.to) {
            write_json(line.trim_ascii(), &mut self.out);
        }
        self.out.text("\"}")
    }

    // Writes a step.
    fn step(&mut self, mark: &Mark) {
        self.time = self.time.saturating_add(1);
        self.note(mark);
        if let Doing::Fork(child) = mark.doing {
            if child > 0 {
                self.flow(mark.thread, child, "fork");
            }
        }
        self.wake_all(mark.thread, &mark.woken);
        let state = behind(self.state_of(mark.thread), mark.doing);
        self.change(mark.thread, state)
    }

    // Names the tracks, and begins that of the first thread.
    fn open_all(&mut self) {
        self.out.text(HEAD);
        for index in 0..self.lanes.len() {
            let number = (index as u64).saturating_add(1);
            self.out.form(TRACK, &[number, number]);
        }
        self.open(1, State::Runs)
    }

    // Ends what each thread does.
    fn close_all(&mut self) {
        self.time = self.time.saturating_add(1);
        for index in 0..self.lanes.len() {
            let thread = u32::try_from(index).unwrap_or(0).saturating_add(1);
            self.change(thread, State::Absent);
        }
        self.out.text("\n]}\n")
    }

    // Writes the run.
    fn write(&mut self, marks: &[Mark]) {
        self.open_all();
        for mark in marks {
            if mark.doing != Doing::Stays {
                self.step(mark);
            }
        }
        self.close_all()
    }
}

/// A run of an image as a trace-event file, as Perfetto and Chrome's tracing read it: a track for each thread, with slices
/// `runs` and `sleeps`, each line of the run as what happens at one moment, and flows from who makes or wakes a thread. The
/// time of a line is its number in microseconds.
///
/// # Errors
///
/// Where memory ran out.
pub fn image_timeline(alloc: Global, run: &RunLines) -> Result<Vec<u8>, AllocError> {
    let marks = run.marks.as_slice();
    let mut tape = Tape::new(alloc, run.text.as_str(), threads_of(marks))?;
    tape.write(marks);
    Ok(tape.out.finish()?.into_bytes())
}
