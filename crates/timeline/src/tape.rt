use crate::slice::Slice;
use crate::texts::{append_condition, append_slice};
use program::{Member, Names};
use std::alloc::Global;
use text_writer::TextWriter;

/// What leads from one process to another.
#[derive(Clone, Copy)]
pub(crate) enum Flow {
    /// A process makes another.
    Fork,
    /// The end of a process lets another go on.
    Join,
    /// A process resumes another.
    Notify,
    /// A process gives up the monitor that another takes next.
    GiveUp,
}

impl Flow {
    // What it is called.
    fn name(self) -> &'static str {
        match self {
            Flow::Fork => "fork",
            Flow::Join => "join",
            Flow::Notify => "notify",
            Flow::GiveUp => "give up",
        }
    }
}

/// The records of a trace-event file, while they are written.
#[derive(Drop)]
pub(crate) struct Tape<'c, 'n> {
    /// What was written. Where memory runs out elsewhere, it fails too.
    pub out: TextWriter,
    /// The names that the text gave.
    pub names: &'c Names<'n>,
    /// The number of the last action, which is the time of the next record in microseconds.
    pub time: u64,
    // How many flows began.
    flows: u64,
}

impl<'c, 'n> Tape<'c, 'n> {
    /// A file without records of a run.
    pub fn new(alloc: Global, names: &'c Names<'n>) -> Tape<'c, 'n> {
        Tape {
            out: TextWriter::new(alloc),
            names,
            time: 0,
            flows: 0,
        }
    }

    /// Begins the file.
    pub fn head(&mut self) {
        self.out.text(HEAD)
    }

    // Begins a record on the track of a process, with a text that says of which kind it is.
    fn begin(&mut self, kind: &str, process: u64) {
        self.out.text(kind);
        let numbers = [process, self.time];
        self.out.form("\",\"pid\":1,\"tid\":$,\"ts\":$", &numbers)
    }

    // Ends a record with the name of a slice.
    fn end(&mut self, slice: Slice) {
        self.out.text(",\"name\":\"");
        append_slice(&mut self.out, self.names, slice);
        self.out.text("\"}")
    }

    /// Names the track of a process.
    pub fn add_track(&mut self, process: u64) {
        self.out.form(TRACK, &[process, process])
    }

    /// Begins a slice.
    pub fn open(&mut self, process: u64, slice: Slice) {
        self.begin(",\n{\"ph\":\"B", process);
        self.end(slice)
    }

    /// Ends a slice.
    pub fn close(&mut self, process: u64, slice: Slice) {
        self.begin(",\n{\"ph\":\"E", process);
        self.end(slice)
    }

    /// Begins what happens at one moment; its name, and `end_instant`, come next.
    pub fn begin_instant(&mut self, process: u64) {
        self.begin(",\n{\"ph\":\"i", process);
        self.out.text(",\"s\":\"t\",\"name\":\"")
    }

    /// Ends what happens at one moment.
    pub fn end_instant(&mut self) {
        self.out.text("\"}")
    }

    /// Tells how many processes wait on a condition.
    pub fn count(&mut self, condition: Member, waiting: u64) {
        let time = self.time;
        self.out
            .form(",\n{\"ph\":\"C\",\"pid\":1,\"ts\":$", &[time]);
        append_condition(&mut self.out, self.names, ",\"name\":\"", condition);
        self.out.form("\",\"args\":{\"waiting\":$}}", &[waiting])
    }

    // Ends a record with the number and the name of a flow.
    fn end_flow(&mut self, flow: Flow, number: u64) {
        self.out
            .form(",\"id\":$,\"cat\":\"flow\",\"name\":\"", &[number]);
        self.out.text(flow.name());
        self.out.text("\"}")
    }

    /// Begins a flow in the innermost slice of a process. Its number, from 1.
    pub fn begin_flow(&mut self, process: u64, flow: Flow) -> u64 {
        let number = self.flows.saturating_add(1);
        self.flows = number;
        self.begin(",\n{\"ph\":\"s", process);
        self.end_flow(flow, number);
        number
    }

    /// Ends the flow of a number, where there is one, in the innermost slice of a process.
    pub fn finish_flow(&mut self, process: u64, flow: Flow, number: Option<u64>) {
        if let Some(number) = number {
            self.begin(",\n{\"ph\":\"f", process);
            self.out.text(",\"bp\":\"e\"");
            self.end_flow(flow, number)
        }
    }

    /// Ends the file.
    pub fn tail(&mut self) {
        self.out.text("\n]}\n")
    }
}

const HEAD: &str = "{\"traceEvents\":[\n\
    {\"ph\":\"M\",\"pid\":1,\"name\":\"process_name\",\"args\":{\"name\":\"mesamon\"}}";

const TRACK: &str = ",\n{\"ph\":\"M\",\"pid\":1,\"tid\":$,\
    \"name\":\"thread_name\",\"args\":{\"name\":\"process $\"}}";
