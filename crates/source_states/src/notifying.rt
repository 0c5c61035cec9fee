ghost use Rattle.std.specs.Prelude.{IfOk};
ghost use Rattle.source_offers.specs.Offered.{offer_with};
ghost use Rattle.source_offers.specs.declared.offers.Offered.TheVariants.{NotifiesAll, NotifiesSome};

use crate::action::ActionKind;
use crate::state::SourceState;
use program::Member;
use source_offers::Process;
use std::alloc::AllocError;

impl<'a> SourceState<'a> {
    ghost use Rattle.source_states.specs.Actions.{kind_of};
    ghost use Rattle.source_states.specs.States.{state_of};
    ghost use Rattle.source_states.specs.Taken.{IsAnswer, IsTakenUp};

    // A NOTIFY.
    pub(crate) fn notify(
        &mut self,
        number: u64,
        kind: &ActionKind,
        condition: Member,
        process: Process<'a>,
    ) -> Result<bool, AllocError>
        ensures { IfOk result (λ b. IsAnswer b
            (IsTakenUp number (kind_of kind.now) (offer_with (NotifiesSome condition) process.entry)
            (state_of self.old)) (state_of self.new)) }
    {
        let ActionKind::Notify(named, resumed) = kind else {
            return Ok(false);
        };
        if *named != condition {
            return Ok(false);
        }
        if !self.table.notify(condition, resumed.as_slice()) {
            return Ok(false);
        }
        self.place(number, process)?;
        Ok(true)
    }

    // A BROADCAST.
    pub(crate) fn broadcast(
        &mut self,
        number: u64,
        kind: &ActionKind,
        condition: Member,
        process: Process<'a>,
    ) -> Result<bool, AllocError>
        ensures { IfOk result (λ b. IsAnswer b
            (IsTakenUp number (kind_of kind.now) (offer_with (NotifiesAll condition) process.entry)
            (state_of self.old)) (state_of self.new)) }
    {
        let ActionKind::Broadcast(named, resumed) = kind else {
            return Ok(false);
        };
        if *named != condition {
            return Ok(false);
        }
        if !self.table.broadcast(condition, resumed.as_slice()) {
            return Ok(false);
        }
        self.place(number, process)?;
        Ok(true)
    }
}
