ghost use Rattle.std.specs.Prelude.{◌≡◌, IfOk, List};
ghost use Rattle.meaning.specs.Processes.{Caller, Frame as FrameIn};
ghost use Rattle.source_offers.specs.Frames.{caller_of, callers_of};
ghost use Rattle.source_offers.specs.Stages.{process_of, standing};

use crate::frame::Frame;
use crate::process::{Process, Stage};
use std::alloc::{AllocError, Global};

impl<'a> Frame<'a> {
    /// Another frame that is the same.
    pub fn copy(&self) -> Result<Frame<'a>, AllocError>
        ensures { IfOk result (λ f. caller_of f ≡ caller_of self.now) }
    {
        Ok(Frame {
            role: self.role,
            locals: self.locals.clone()?,
            rest: self.rest.clone()?,
            into: self.into,
        })
    }
}

// Other frames that are the same.
fn copies<'a>(alloc: Global, frames: &[Frame<'a>]) -> Result<Vec<Frame<'a>>, AllocError>
    ensures { IfOk result (λ v. callers_of v.items ≡ callers_of frames.now) }
{
    let mut copies = Vec::new(alloc);
    for frame in frames {
        copies.push(frame.copy()?)?;
    }
    Ok(copies)
}

impl<'a> Stage<'a> {
    // Another stage that is the same.
    fn copy(&self) -> Result<Stage<'a>, AllocError>
        ensures { IfOk result (λ s. (f : FrameIn) (callers : List Caller)
            → standing s f callers ≡ standing self.now f callers) }
    {
        Ok(match self {
            Stage::Entering(monitor) => Stage::Entering(*monitor),
            Stage::Before(entered) => Stage::Before(*entered),
            Stage::Suspended(condition) => Stage::Suspended(*condition),
            Stage::Joining {
                child,
                into,
                aborted,
            } => Stage::Joining {
                child: *child,
                into: *into,
                aborted: *aborted,
            },
            Stage::Returning(value) => Stage::Returning(*value),
            Stage::Failing(fault, entered) => Stage::Failing(*fault, *entered),
            Stage::Dying(cause, monitors) => Stage::Dying(*cause, monitors.clone()?),
            Stage::Leaving(value) => Stage::Leaving(*value),
            Stage::Over(end) => Stage::Over(*end),
        })
    }
}

impl<'a> Process<'a> {
    /// Another process that stands where this one does.
    pub fn copy(&self, alloc: Global) -> Result<Process<'a>, AllocError>
        ensures { IfOk result (λ q. process_of q ≡ process_of self.now) }
    {
        Ok(Process {
            frame: self.frame.copy()?,
            callers: copies(alloc, self.callers.as_slice())?,
            stage: self.stage.copy()?,
        })
    }
}
