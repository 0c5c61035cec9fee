ghost use Rattle.std.specs.Prelude.{◌≡◌};
ghost use Rattle.commandline.specs.CommandLine.{version_by};

use words::ImageVersion;

// The most workers that compile a text, as `codegen_workers` has it: this crate stands on none of the compiler.
pub(crate) const MOST_WORKERS: u32 = 64;

/// Who moves the threads of a run, and in which order.
#[derive(Clone, Copy)]
pub enum Order {
    /// A worker for each thread: which goes next is the operating system's choice.
    Workers,
    /// One worker, in a fixed order.
    InOrder,
    /// One worker, in the order that follows from a seed.
    Seed {
        /// The seed.
        seed: u64,
        /// How many entries come to one stray wake, about, where such are wanted.
        strays: Option<u32>,
        /// The most threads that are killed.
        kills: u32,
    },
}

/// How a run goes, and what is kept of it.
#[derive(Clone, Copy)]
pub struct RunOptions<'a> {
    /// The most steps of the machine.
    pub steps: u32,
    /// Who moves its threads.
    pub order: Order,
    /// Whether the log is shown.
    pub trace: bool,
    /// The name of the file that the log is written to, where that is wanted.
    pub log: Option<&'a str>,
}

/// Where a run is drawn, and which of its actions. They count from 1.
#[derive(Clone, Copy)]
pub struct ChartOptions<'a> {
    /// The name of the picture's file.
    pub out: &'a str,
    /// The first action that is drawn, where one is named.
    pub from: Option<u64>,
    /// The last one.
    pub to: Option<u64>,
}

/// What a replay goes by.
#[derive(Clone, Copy)]
pub enum ReplayedBy<'a> {
    /// A schedule.
    Schedule {
        /// The name of the schedule's file.
        schedule: &'a str,
        /// The name of the file that the log is written to, where that is wanted.
        log: Option<&'a str>,
    },
    /// The threads and counts of a log.
    Log {
        /// The name of the log's file.
        log: &'a str,
        /// The most steps that it may have.
        steps: u32,
    },
}

/// Which run is explained.
#[derive(Clone, Copy)]
pub enum ExplainedBy<'a> {
    /// That in a fixed order.
    Order {
        /// The most steps of the machine.
        steps: u32,
    },
    /// That in the order which follows from a seed.
    Seed {
        /// The most steps of the machine.
        steps: u32,
        /// The seed.
        seed: u64,
        /// How many entries come to one stray wake, about, where such are wanted.
        strays: Option<u32>,
        /// The most threads that are killed.
        kills: u32,
    },
    /// That by the schedule in the file of this name.
    Schedule(&'a str),
    /// That of a log.
    Log {
        /// The name of the log's file.
        log: &'a str,
        /// The most steps that it may have.
        steps: u32,
    },
}

/// The files that show what a search over an image found, as far as they are wanted.
#[derive(Clone, Copy)]
pub struct SearchFiles<'a> {
    /// The name of the schedule's file.
    pub schedule: Option<&'a str>,
    /// The name of the picture's file.
    pub chart: Option<&'a str>,
    /// The name of the timeline's file.
    pub timeline: Option<&'a str>,
}

/// In which form an image is given.
#[derive(Clone, Copy)]
pub enum ImageForm {
    /// As an assembly text.
    Assembly,
    /// As its own bytes.
    Image,
}

/// By whose rule the exit of a thread wakes others.
#[derive(Clone, Copy)]
pub enum Exits {
    /// This machine's own rule.
    Machine,
    /// Linux's rule, which wakes fewer. A source text is compiled for it: its locks are given up so that none is missed.
    Linux,
}

impl Exits {
    /// The version of the image that a source text is compiled to.
    pub fn version(self) -> ImageVersion
        ensures { result ≡ version_by self }
    {
        match self {
            Exits::Machine => ImageVersion::Two,
            Exits::Linux => ImageVersion::Linux,
        }
    }
}
