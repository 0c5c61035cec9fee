ghost use Rattle.std.specs.Prelude.{◌≡◌, ℕ};
ghost use Rattle.words.specs.Outcomes.{cause_number, fault_number, outcome_of, outcome_word};

/// What a process does wrong, so that it dies.
#[derive(Clone, Copy, PartialEq, Eq, PartialOrd, Ord, Debug, Hash)]
pub enum Fault {
    /// A result is not from -2147483648 to 2147483647.
    ResultOutOfRange = 1,
    /// A division or a MOD by zero.
    DivisionByZero = 2,
    /// An index that the array doesn't have.
    IndexOutOfRange = 3,
    /// A JOIN of an empty or already claimed handle.
    HandleNotJoinable = 4,
    /// A FORK where no process can be made any more.
    ProcessTableFull = 5,
    /// The ABORT statement.
    AbortStatement = 6,
    /// An abandoned monitor without a RECOVER part.
    AbandonedMonitor = 7,
    /// A JOIN of an aborted process without an ABORTED part.
    JoinedAborted = 8,
}

impl Fault {
    /// Its number, from 1 to 8, which is also what the outcome word then holds.
    pub fn number(self) -> u32
        ensures { result ≡ fault_number self }
    {
        self as u32
    }
}

/// Why a process dies.
#[derive(Clone, Copy, PartialEq, Eq, PartialOrd, Ord, Debug, Hash)]
pub enum Cause {
    /// It faulted.
    Faulted(Fault),
    /// It was killed from outside.
    Killed,
}

impl Cause {
    /// Its number, which is also what the outcome word then holds: from 1 to 8 the fault's, and 9 of a killed process.
    pub fn number(self) -> u32
        ensures { result ≡ cause_number self }
    {
        match self {
            Cause::Faulted(fault) => fault.number(),
            Cause::Killed => 9,
        }
    }
}

/// How a process ended, as its outcome word tells.
#[derive(Clone, Copy, PartialEq, Eq, PartialOrd, Ord, Debug, Hash)]
pub enum Outcome {
    /// The word is 0: not yet.
    Unfinished,
    /// The word is the number of a cause, 1 to 9.
    Aborted(Cause),
    /// The word is 16: by its return.
    Ended,
    /// Any other word, which only an image that this compiler didn't make can store.
    Foreign(u32),
}

/// The word of an outcome that is no foreign one: 16.
pub const ENDED: u32 = 16;

impl Outcome {
    /// The outcome that a word tells.
    pub fn of_word(word: u32) -> Outcome
        ensures { result ≡ outcome_of word }
    {
        match word {
            0 => Outcome::Unfinished,
            1 => Outcome::Aborted(Cause::Faulted(Fault::ResultOutOfRange)),
            2 => Outcome::Aborted(Cause::Faulted(Fault::DivisionByZero)),
            3 => Outcome::Aborted(Cause::Faulted(Fault::IndexOutOfRange)),
            4 => Outcome::Aborted(Cause::Faulted(Fault::HandleNotJoinable)),
            5 => Outcome::Aborted(Cause::Faulted(Fault::ProcessTableFull)),
            6 => Outcome::Aborted(Cause::Faulted(Fault::AbortStatement)),
            7 => Outcome::Aborted(Cause::Faulted(Fault::AbandonedMonitor)),
            8 => Outcome::Aborted(Cause::Faulted(Fault::JoinedAborted)),
            9 => Outcome::Aborted(Cause::Killed),
            ENDED => Outcome::Ended,
            other => Outcome::Foreign(other),
        }
    }

    /// The word that tells the outcome.
    pub fn word(self) -> u32
        ensures { result ≡ outcome_word self }
    {
        match self {
            Outcome::Unfinished => 0,
            Outcome::Aborted(cause) => cause.number(),
            Outcome::Ended => ENDED,
            Outcome::Foreign(word) => word,
        }
    }
}

/// Each word is that of the outcome that it tells.
pub fn outcome_laws()
    ensures { (w : ℕ) → outcome_word (outcome_of w) ≡ w }
{}
