ghost use Rattle.std.specs.Prelude.{◌≡◌};
ghost use Rattle.answers.specs.Statuses.{status_code};

/// How a command ended, as the exit status of the program tells.
#[derive(Clone, Copy, PartialEq, Eq, Debug)]
pub enum Status {
    /// It was done, also where processes aborted.
    Done = 0,
    /// The source text was refused.
    Refused = 1,
    /// The words of the command line are not a command, or ask for help.
    Usage = 2,
    /// Not all threads have ended, and none can move.
    Stuck = 3,
    /// The limit of steps was reached.
    Limit = 4,
    /// There was no memory.
    Memory = 5,
    /// A file could not be read or written, a run failed, or output could not be written.
    Failed = 6,
    /// A search found a run in which a process or a thread aborts or is blocked for good, or that can't end any more; or a
    /// text isn't laid out.
    Found = 7,
}

impl Status {
    /// The exit status.
    pub fn code(self) -> u8
        ensures { result ≡ status_code self }
    {
        self as u8
    }
}
