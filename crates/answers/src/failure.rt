ghost use Rattle.std.specs.Prelude.{◌≡◌, Some, None};
ghost use Rattle.std.specs.IoError.{error_kind};
ghost use Rattle.answers.specs.declared.failure.Failure.TheVariants.{Memory as memory};
ghost use Rattle.answers.specs.declared.failure.NoAnswer.TheVariants.{Failed as failed};
ghost use Rattle.answers.specs.Failures.{OfAssembly, OfExplain, OfFault, OfImage, OfIo, OfRefusal};
ghost use Rattle.answers.specs.Failures.{OfFollowing, OfReplay, OfRun, OfSchedule, OfShrink, OfSource, OfSourceLog};

use crate::explained_run::ExplainSourceFault;
use crate::replaying::ReplayFault;
use crate::source_log::SourceLogFault;
use crate::source_run::RunSourceFault;
use action_text::FollowFault;
use assembler::{AssemblyFault, AssemblyRefusal};
use devices::ReadFault;
use isa::DecodeFault;
use runner::{RunFault, ScheduleFault};
use scanner::{Refusal, RefusalKind};
use schedules::ShrinkFault;
use std::alloc::AllocError;
use std::io;
use thiserror::Error;

/// Why a command was not done, where that is no refusal of a source text. It is shown as the line for standard error.
#[derive(Clone, Copy, Debug, Error)]
pub enum Failure<'a> {
    /// A file could not be read.
    #[error("cannot read {name}")]
    Read {
        /// Its name.
        name: &'a str,
        /// Why, where that is known.
        reason: Option<io::ErrorKind>,
    },
    /// A file could not be written.
    #[error("cannot write {name}")]
    Write {
        /// Its name.
        name: &'a str,
        /// Why, where that is known.
        reason: Option<io::ErrorKind>,
    },
    /// The image is not that of the source text of the file of this name.
    #[error("image of another text than {0}")]
    OtherImage(&'a str),
    /// The bytes are no image.
    #[error("{0}")]
    Image(DecodeFault),
    /// An image of the first version was to be run by Linux's rule of exits.
    #[error("image of version 1, by Linux's exits")]
    FirstVersion,
    /// The run failed.
    #[error("{0}")]
    Run(RunFault),
    /// The entry of the schedule that has this number is no number or names a thread that can't move; 0 is for a
    /// schedule of too many bytes.
    #[error("schedule entry {0}")]
    Schedule(u64),
    /// The step that the entry of the schedule of this number is may not be.
    #[error("schedule entry {0}: fault 4")]
    Broken(u64),
    /// The run that the schedule leads to doesn't fail.
    #[error("schedule without a failure")]
    NoFailure,
    /// The line of the log that has this number is the first that is no entry's.
    #[error("log line {0}")]
    LogLine(u64),
    /// The entry of the log that has this number is the first with which it is no log of the program.
    #[error("log entry {0}")]
    LogEntry(u64),
    /// The log has more steps than this, which is the most that it may have.
    #[error("log of more than {0} steps")]
    LogSteps(u32),
    /// The log has more bytes than this, which is the most that one of so many steps may have.
    #[error("log of more than {0} bytes")]
    LogBytes(usize),
    /// The line of the actions that has this number is the first that is no action's.
    #[error("action line {0}")]
    ActionLine(u64),
    /// The action that has this number is the first that can't come next in a run of the program.
    #[error("action {0} is none that can come next")]
    Action(u64),
    /// There was no memory.
    #[error("memory")]
    Memory,
}

impl<'a> Failure<'a> {
    /// The failure of reading a file.
    pub fn of_read(name: &'a str, error: &io::Error) -> Failure<'a>
        ensures { OfIo (error_kind error.now)
            (Failure.Read name.entry (Some (error_kind error.now))) result }
    {
        let kind = error.kind();
        if kind == io::ErrorKind::OutOfMemory {
            Failure::Memory
        } else {
            Failure::Read {
                name,
                reason: Some(kind),
            }
        }
    }

    /// The failure of reading the bytes of a file.
    pub fn of_source(name: &'a str, fault: ReadFault) -> Failure<'a>
        ensures { OfSource fault (Failure.Read name.entry None) result }
    {
        match fault {
            ReadFault::Device => Failure::Read { name, reason: None },
            ReadFault::Memory => Failure::Memory,
        }
    }

    /// The failure of writing a file.
    pub fn of_write(name: &'a str, error: &io::Error) -> Failure<'a>
        ensures { OfIo (error_kind error.now)
            (Failure.Write name.entry (Some (error_kind error.now))) result }
    {
        let kind = error.kind();
        if kind == io::ErrorKind::OutOfMemory {
            Failure::Memory
        } else {
            Failure::Write {
                name,
                reason: Some(kind),
            }
        }
    }
}

impl From<AllocError> for Failure<'_> {
    ghost from_gives = { λ _ f. f ≡ memory };

    fn from(_error: AllocError) -> Self {
        Failure::Memory
    }
}

impl From<DecodeFault> for Failure<'_> {
    ghost from_gives = { OfImage };

    fn from(fault: DecodeFault) -> Self {
        match fault {
            DecodeFault::Memory => Failure::Memory,
            other => Failure::Image(other),
        }
    }
}

impl From<RunFault> for Failure<'_> {
    ghost from_gives = { OfFault };

    fn from(fault: RunFault) -> Self {
        match fault {
            RunFault::Memory => Failure::Memory,
            other => Failure::Run(other),
        }
    }
}

/// Why a job has no answer.
#[derive(Clone, Copy)]
pub enum NoAnswer<'a> {
    /// The source text is refused.
    Refused(Refusal),
    /// The assembly text is refused.
    Unassembled(AssemblyRefusal),
    /// Something failed.
    Failed(Failure<'a>),
}

impl<'a> From<Failure<'a>> for NoAnswer<'a> {
    ghost from_gives = { λ f n. n ≡ failed f };

    fn from(failure: Failure<'a>) -> Self {
        NoAnswer::Failed(failure)
    }
}

impl From<AllocError> for NoAnswer<'_> {
    ghost from_gives = { λ _ n. n ≡ failed memory };

    fn from(_error: AllocError) -> Self {
        NoAnswer::Failed(Failure::Memory)
    }
}

impl From<Refusal> for NoAnswer<'_> {
    ghost from_gives = { OfRefusal };

    fn from(refusal: Refusal) -> Self {
        if refusal.kind == RefusalKind::Memory {
            NoAnswer::Failed(Failure::Memory)
        } else {
            NoAnswer::Refused(refusal)
        }
    }
}

impl From<AssemblyRefusal> for NoAnswer<'_> {
    ghost from_gives = { OfAssembly };

    fn from(refusal: AssemblyRefusal) -> Self {
        if refusal.fault == AssemblyFault::Memory {
            NoAnswer::Failed(Failure::Memory)
        } else {
            NoAnswer::Unassembled(refusal)
        }
    }
}

impl From<RunSourceFault> for NoAnswer<'_> {
    ghost from_gives = { OfRun };

    fn from(fault: RunSourceFault) -> Self {
        match fault {
            RunSourceFault::Refused(refusal) => NoAnswer::from(refusal),
            RunSourceFault::Run(fault) => NoAnswer::Failed(Failure::from(fault)),
        }
    }
}

impl From<ReplayFault> for NoAnswer<'_> {
    ghost from_gives = { OfReplay };

    fn from(fault: ReplayFault) -> Self {
        match fault {
            ReplayFault::Refused(refusal) => NoAnswer::from(refusal),
            ReplayFault::BadEntry(number) => NoAnswer::Failed(Failure::Schedule(number)),
            ReplayFault::Memory => NoAnswer::Failed(Failure::Memory),
        }
    }
}

impl From<ScheduleFault> for NoAnswer<'_> {
    ghost from_gives = { OfSchedule };

    fn from(fault: ScheduleFault) -> Self {
        match fault {
            ScheduleFault::BadEntry(number) => NoAnswer::Failed(Failure::Schedule(number)),
            ScheduleFault::Broken(number) => NoAnswer::Failed(Failure::Broken(number)),
            ScheduleFault::Memory => NoAnswer::Failed(Failure::Memory),
        }
    }
}

impl From<ShrinkFault> for NoAnswer<'_> {
    ghost from_gives = { OfShrink };

    fn from(fault: ShrinkFault) -> Self {
        match fault {
            ShrinkFault::Schedule(fault) => NoAnswer::from(fault),
            ShrinkFault::NoFailure => NoAnswer::Failed(Failure::NoFailure),
            ShrinkFault::Memory => NoAnswer::Failed(Failure::Memory),
        }
    }
}

impl From<ExplainSourceFault> for NoAnswer<'_> {
    ghost from_gives = { OfExplain };

    fn from(fault: ExplainSourceFault) -> Self {
        match fault {
            ExplainSourceFault::Refused(refusal) => NoAnswer::from(refusal),
            ExplainSourceFault::Memory => NoAnswer::Failed(Failure::Memory),
        }
    }
}

impl From<SourceLogFault> for NoAnswer<'_> {
    ghost from_gives = { OfSourceLog };

    fn from(fault: SourceLogFault) -> Self {
        match fault {
            SourceLogFault::Refused(refusal) => NoAnswer::from(refusal),
            SourceLogFault::Line(number) => NoAnswer::Failed(Failure::LogLine(number)),
            SourceLogFault::Entry(number) => NoAnswer::Failed(Failure::LogEntry(number)),
            SourceLogFault::Steps(most) => NoAnswer::Failed(Failure::LogSteps(most)),
            SourceLogFault::Memory => NoAnswer::Failed(Failure::Memory),
        }
    }
}

impl From<FollowFault> for NoAnswer<'_> {
    ghost from_gives = { OfFollowing };

    fn from(fault: FollowFault) -> Self {
        match fault {
            FollowFault::Line(number) => NoAnswer::Failed(Failure::ActionLine(number)),
            FollowFault::Action(number) => NoAnswer::Failed(Failure::Action(number)),
            FollowFault::Memory => NoAnswer::Failed(Failure::Memory),
        }
    }
}
