ghost use Rattle.std.specs.Prelude.{◌≡◌, IfOk};
ghost use Rattle.program.specs.Views.{program_of};
ghost use Rattle.meaning.specs.Offers.{offer as offer_by};
ghost use Rattle.source_offers.specs.Stages.{process_of};
ghost use Rattle.source_offers.specs.Stores.{variables_of};
ghost use Rattle.source_offers.specs.NextAction.{offer_of};

use crate::next::before;
use crate::offers::{Effect, Label, Offered, fault};
use crate::process::{End, Process, Stage};
use crate::variables::Variables;
use meaning::abandon_next;
use program::{Program, Statement};
use std::alloc::{AllocError, Global};

/// What a process offers to do next, wherever it stands.
#[derive(Drop)]
pub enum Offer<'a> {
    /// What it does for itself.
    Own(Offered<'a>),
    /// Enters this monitor, where it is free or abandoned.
    Enters(u32),
    /// Takes this monitor again, once it waits no longer.
    Resumes(u32),
    /// Goes on once the child is over.
    Joins {
        /// The child.
        child: u64,
        /// The local that takes the result.
        into: Option<u32>,
        /// What stands behind ABORTED, where there is one.
        aborted: Option<&'a [Statement]>,
    },
}

/// What a process offers to do next.
pub fn next_offer<'a>(
    alloc: Global,
    program: &'a Program,
    variables: &Variables,
    process: &mut Process<'a>,
) -> Result<Offer<'a>, AllocError>
    ensures { IfOk result (λ o. offer_of (program_of program.now) o process.new
        ≡ offer_by (program_of program.now) (variables_of variables.now) (process_of process.old)) }
{
    match &process.stage {
        Stage::Entering(monitor) => Ok(Offer::Enters(*monitor)),
        Stage::Suspended(condition) => Ok(Offer::Resumes(condition.monitor)),
        Stage::Joining {
            child,
            into,
            aborted,
        } => Ok(Offer::Joins {
            child: *child,
            into: *into,
            aborted: *aborted,
        }),
        Stage::Before(_) => Ok(Offer::Own(before(alloc, program, variables, process)?)),
        Stage::Returning(value) => {
            let value = *value;
            process.hand_over(value);
            Ok(Offer::Own(Offered::Does(Label::Returns, Effect::Nothing)))
        }
        Stage::Failing(reason, _) => {
            let reason = *reason;
            Ok(Offer::Own(fault(alloc, process, reason)?))
        }
        Stage::Dying(cause, _) => {
            let end = End::Aborted(*cause);
            let Stage::Dying(_, held) = &mut process.stage else {
                return Ok(Offer::Own(Offered::Rests));
            };
            let Some(monitor) = abandon_next(held) else {
                process.stage = Stage::Over(end);
                return Ok(Offer::Own(Offered::Does(Label::Ends(end), Effect::Nothing)));
            };
            Ok(Offer::Own(Offered::Does(Label::Abandons(monitor), Effect::Nothing)))
        }
        Stage::Leaving(value) => {
            let end = End::Ended(*value);
            process.stage = Stage::Over(end);
            Ok(Offer::Own(Offered::Does(Label::Ends(end), Effect::Nothing)))
        }
        Stage::Over(_) => Ok(Offer::Own(Offered::Rests)),
    }
}
