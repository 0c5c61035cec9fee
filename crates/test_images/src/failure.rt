use isa::DecodeFault;
use machine::StepFault;
use runner::RunFault;
use std::alloc::AllocError;
use std::io;
use thiserror::Error;

/// Why nothing came of a row.
#[derive(Debug, Drop, Error)]
pub enum Failure {
    /// It isn't a name, a limit and hexadecimal digits.
    #[error("no row")]
    Row,
    /// Its bytes are no image.
    #[error("{0:?}")]
    Image(DecodeFault),
    /// Its run was refused.
    #[error("{0}")]
    Run(RunFault),
    /// A step of its schedule was refused.
    #[error("{0:?}")]
    Step(StepFault),
    /// It names an address outside the memory of its image.
    #[error("no word {0}")]
    Address(u32),
    /// There is no memory for it.
    #[error("memory")]
    Memory,
    /// Nothing can be written.
    #[error("{0}")]
    Output(io::Error),
}

impl From<DecodeFault> for Failure {
    fn from(fault: DecodeFault) -> Failure {
        Failure::Image(fault)
    }
}

impl From<RunFault> for Failure {
    fn from(fault: RunFault) -> Failure {
        Failure::Run(fault)
    }
}

impl From<StepFault> for Failure {
    fn from(fault: StepFault) -> Failure {
        Failure::Step(fault)
    }
}

impl From<AllocError> for Failure {
    fn from(_error: AllocError) -> Failure {
        Failure::Memory
    }
}

impl From<io::Error> for Failure {
    fn from(error: io::Error) -> Failure {
        Failure::Output(error)
    }
}
