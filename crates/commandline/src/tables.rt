// The commands below `mesamon`, and their arguments.

use crate::arguments::{Argument, Kind, Numbers};
use crate::builder::Subcommand;
use crate::options::MOST_WORKERS;

const FILE: Argument = Argument {
    name: "FILE",
    kind: Kind::Positional,
    help: "The source text",
};

// What a flag beside it may say to be another than a source text.
const ANY_FILE: Argument = Argument {
    name: "FILE",
    kind: Kind::Positional,
    help: "The source text; with a flag the assembly text or the image",
};

const HINTS: Argument = Argument {
    name: "hints",
    kind: Kind::Flag,
    help: "Shows hints behind a refusal, a failure or the end of a run",
};

const TRACE: Argument = Argument {
    name: "trace",
    kind: Kind::Flag,
    help: "Shows each entry of the log on standard error",
};

// The limit of steps of a run.
const STEPS: Argument = Argument {
    name: "steps",
    kind: Kind::Number(Numbers {
        least: 1,
        most: u32::MAX as u64,
        default: Some("1000000"),
    }),
    help: "The most steps of the machine",
};

// The same of a run or a log.
const ANY_STEPS: Argument = Argument {
    name: "steps",
    kind: Kind::Number(Numbers {
        least: 1,
        most: u32::MAX as u64,
        default: Some("1000000"),
    }),
    help: "The most steps of the machine, or that the log may have",
};

// The limit of steps of a log.
const LOG_STEPS: Argument = Argument {
    name: "steps",
    kind: Kind::Number(Numbers {
        least: 1,
        most: u32::MAX as u64,
        default: Some("1000000"),
    }),
    help: "Without SCHEDULE, the most steps that the log may have",
};

const IN_ORDER: Argument = Argument {
    name: "in-order",
    kind: Kind::Flag,
    help: "Goes on one thread, in a fixed order",
};

const SEED: Argument = Argument {
    name: "seed",
    kind: Kind::Number(Numbers {
        least: 0,
        most: u64::MAX,
        default: None,
    }),
    help: "Goes on one thread, in the order that follows from N",
};

// The stray wakes of a run by a seed.
const STRAYS: Argument = Argument {
    name: "strays",
    kind: Kind::Number(Numbers {
        least: 1,
        most: u32::MAX as u64,
        default: None,
    }),
    help: "Beside --seed: makes about one entry in N a stray wake, where a thread sleeps",
};

// How many are killed, and how many where no number stands.
const ANY_KILLS: Kind = Kind::Number(Numbers {
    least: 0,
    most: u32::MAX as u64,
    default: Some("0"),
});

// The kills of a run by a seed.
const KILLS: Argument = Argument {
    name: "kills",
    kind: ANY_KILLS,
    help: "Beside --seed: kills at most N threads, each drawn, where it stands",
};

// Where a timeline is written.
const TIMELINE: Argument = Argument {
    name: "timeline",
    kind: Kind::Valued("OUT"),
    help: "Where its trace events are written, for Perfetto or Chrome's tracing",
};

// Where a page is written.
const PAGE: Argument = Argument {
    name: "page",
    kind: Kind::Valued("OUT"),
    help: "Where the run is written as a page for a browser",
};

// The number of an action.
const ACTION: Kind = Kind::Number(Numbers {
    least: 1,
    most: u64::MAX,
    default: None,
});

// The first action of a picture.
const FROM: Argument = Argument {
    name: "from",
    kind: ACTION,
    help: "Beside --chart: the number of the first action that is drawn",
};

// The last one.
const TO: Argument = Argument {
    name: "to",
    kind: ACTION,
    help: "Beside --chart: the number of the last action that is drawn",
};

const CHECK: Subcommand = Subcommand {
    name: "check",
    about: "Checks a source text",
    arguments: &[FILE, HINTS],
};

const COMPILE: Subcommand = Subcommand {
    name: "compile",
    about: "Writes the image of a source text",
    arguments: &[
        FILE,
        Argument {
            name: "OUT",
            kind: Kind::Positional,
            help: "Where the image is written",
        },
        Argument {
            name: "workers",
            kind: Kind::Number(Numbers {
                least: 1,
                most: MOST_WORKERS as u64,
                default: Some("1"),
            }),
            help: "How many workers make the code",
        },
        Argument {
            name: "image",
            kind: Kind::Number(Numbers {
                least: 1,
                most: 2,
                default: Some("2"),
            }),
            help: "The version of the image: 1 is for 64 processes, 2 for 1000",
        },
        HINTS,
    ],
};

const LIST: Subcommand = Subcommand {
    name: "list",
    about: "Prints the instructions of an image",
    arguments: &[
        Argument {
            name: "IMAGE",
            kind: Kind::Positional,
            help: "The image; with a flag a source text",
        },
        Argument {
            name: "linux",
            kind: Kind::Flag,
            help: "IMAGE is a source text, whose code for Linux's rule of exits is listed",
        },
        Argument {
            name: "source",
            kind: Kind::Valued("FILE"),
            help: "The source text of the image, whose lines stand between the instructions",
        },
        HINTS,
    ],
};

const PLACES: Argument = Argument {
    name: "places",
    kind: Kind::Flag,
    help: "Shows where in the text each action was done, and what it did",
};

// In which form an image is given.
const ASSEMBLY: Argument = Argument {
    name: "assembly",
    kind: Kind::Flag,
    help: "FILE is an assembly text",
};

const IS_IMAGE: Argument = Argument {
    name: "image",
    kind: Kind::Flag,
    help: "FILE is an image",
};

// That a source text is run by Linux's rule of exits.
const LINUX: Argument = Argument {
    name: "linux",
    kind: Kind::Flag,
    help: "Compiles FILE for Linux's rule of exits, and goes by it",
};

// By which rule the exits of an image's threads wake.
const EXITS: Argument = Argument {
    name: "exits",
    kind: Kind::Valued("RULE"),
    help: "Beside --assembly or --image: whose rule of exits holds, machine or linux",
};

// Where a schedule is written.
const SCHEDULE_OUT: Argument = Argument {
    name: "OUT",
    kind: Kind::Positional,
    help: "Where the schedule is written",
};

// Where the log of a run is written.
const RUN_LOG: Argument = Argument {
    name: "log",
    kind: Kind::Valued("OUT"),
    help: "Where the log is written",
};

/// `run`.
pub(crate) const RUN: Subcommand = Subcommand {
    name: "run",
    about: "Runs a source text and prints its output",
    arguments: &[
        FILE, STEPS, IN_ORDER, SEED, STRAYS, KILLS, TRACE, RUN_LOG, PAGE, LINUX, HINTS,
    ],
};

/// `exec`.
pub(crate) const EXEC: Subcommand = Subcommand {
    name: "exec",
    about: "Runs an image and prints its output",
    arguments: &[
        Argument {
            name: "IMAGE",
            kind: Kind::Positional,
            help: "The image; with a flag the assembly text",
        },
        STEPS,
        IN_ORDER,
        SEED,
        STRAYS,
        KILLS,
        TRACE,
        RUN_LOG,
        Argument {
            name: "assembly",
            kind: Kind::Flag,
            help: "IMAGE is an assembly text",
        },
        Argument {
            name: "exits",
            kind: Kind::Valued("RULE"),
            help: "Whose rule of exits holds: machine or linux",
        },
    ],
};

/// `replay`.
pub(crate) const REPLAY: Subcommand = Subcommand {
    name: "replay",
    about: "Runs a source text or an image by a schedule or a log and prints its output",
    arguments: &[
        ANY_FILE,
        Argument {
            name: "SCHEDULE",
            kind: Kind::Optional,
            help: "The threads of its steps",
        },
        LOG_STEPS,
        TRACE,
        Argument {
            name: "log",
            kind: Kind::Valued("LOG"),
            help: "Beside SCHEDULE, where the log is written; without it, the log that is followed",
        },
        PAGE,
        ASSEMBLY,
        IS_IMAGE,
        LINUX,
        EXITS,
        HINTS,
    ],
};

/// `explain`.
pub(crate) const EXPLAIN: Subcommand = Subcommand {
    name: "explain",
    about: "Runs a source text and prints what its processes do",
    arguments: &[
        FILE,
        ANY_STEPS,
        SEED,
        STRAYS,
        KILLS,
        Argument {
            name: "schedule",
            kind: Kind::Valued("SCHEDULE"),
            help: "The threads of its steps",
        },
        Argument {
            name: "log",
            kind: Kind::Valued("LOG"),
            help: "The log of the run",
        },
        Argument {
            name: "actions",
            kind: Kind::Valued("ACTIONS"),
            help: "The actions of the run, a line each",
        },
        Argument {
            name: "chart",
            kind: Kind::Valued("OUT"),
            help: "Where the picture of the run is written",
        },
        FROM,
        TO,
        TIMELINE,
        PAGE,
        PLACES,
        LINUX,
        HINTS,
    ],
};

const EMIT: Subcommand = Subcommand {
    name: "emit",
    about: "Writes a source text as a program in C",
    arguments: &[
        FILE,
        Argument {
            name: "OUT",
            kind: Kind::Positional,
            help: "Where the C file is written",
        },
        HINTS,
    ],
};

/// `explore`.
pub(crate) const EXPLORE: Subcommand = Subcommand {
    name: "explore",
    about: "Searches all runs of a source text or an image for one that gets stuck or aborts",
    arguments: &[
        ANY_FILE,
        Argument {
            name: "states",
            kind: Kind::Number(Numbers {
                least: 1,
                most: u32::MAX as u64,
                default: Some("1000000"),
            }),
            help: "The most states that are kept",
        },
        Argument {
            name: "strays",
            kind: Kind::Flag,
            help: "Searches the runs with stray wakes too",
        },
        Argument {
            name: "kills",
            kind: ANY_KILLS,
            help: "Searches the runs too in which at most N processes are killed",
        },
        Argument {
            name: "ends",
            kind: Kind::Flag,
            help: "Says too whether each run can end",
        },
        Argument {
            name: "chart",
            kind: Kind::Valued("OUT"),
            help: "Where the picture of what is found is written",
        },
        FROM,
        TO,
        TIMELINE,
        PAGE,
        PLACES,
        ASSEMBLY,
        IS_IMAGE,
        Argument {
            name: "schedule",
            kind: Kind::Valued("OUT"),
            help: "Where a schedule of what is found is written",
        },
        Argument {
            name: "actions",
            kind: Kind::Valued("OUT"),
            help: "Where the actions of what is found are written",
        },
        LINUX,
        EXITS,
        HINTS,
    ],
};

const FMT: Subcommand = Subcommand {
    name: "fmt",
    about: "Prints a source text, laid out",
    arguments: &[
        FILE,
        Argument {
            name: "check",
            kind: Kind::Flag,
            help: "Only says whether the text is laid out",
        },
        HINTS,
    ],
};

const ASSEMBLE: Subcommand = Subcommand {
    name: "assemble",
    about: "Writes the image of an assembly text",
    arguments: &[
        FILE,
        Argument {
            name: "OUT",
            kind: Kind::Positional,
            help: "Where the image is written",
        },
        HINTS,
    ],
};

const SCHEDULE: Subcommand = Subcommand {
    name: "schedule",
    about: "Writes the schedule of a log",
    arguments: &[
        Argument {
            name: "LOG",
            kind: Kind::Positional,
            help: "The log",
        },
        SCHEDULE_OUT,
        Argument {
            name: "steps",
            kind: Kind::Number(Numbers {
                least: 1,
                most: u32::MAX as u64,
                default: Some("1000000"),
            }),
            help: "The most steps that the log may have",
        },
        HINTS,
    ],
};

const SHRINK: Subcommand = Subcommand {
    name: "shrink",
    about: "Makes a schedule short by which a source text gets stuck or aborts",
    arguments: &[
        FILE,
        Argument {
            name: "SCHEDULE",
            kind: Kind::Positional,
            help: "The threads of its steps",
        },
        SCHEDULE_OUT,
        LINUX,
        HINTS,
    ],
};

/// The commands below `mesamon`.
pub(crate) const SUBCOMMANDS: &[Subcommand] = &[
    CHECK, COMPILE, LIST, RUN, EXEC, REPLAY, EXPLAIN, EMIT, EXPLORE, ASSEMBLE, FMT, SCHEDULE,
    SHRINK,
];
