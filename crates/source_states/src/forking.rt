ghost use Rattle.std.specs.Prelude.{IfOk, Some};
ghost use Rattle.words.specs.Updates.{put};
ghost use Rattle.program.specs.Views.{program_of};
ghost use Rattle.source_offers.specs.NextAction.{offer_of};
ghost use Rattle.source_offers.specs.Offered.{offer_with};
ghost use Rattle.source_offers.specs.declared.offers.Offered.TheVariants.{Claims, Makes};
ghost use Rattle.source_offers.specs.declared.next_action.Offer.TheVariants.{Joins};

use crate::action::ActionKind;
use crate::state::SourceState;
use program::{Program, Statement};
use source_offers::{Process, Stage};
use std::alloc::{AllocError, Global};
use words::Fault;

impl<'a> SourceState<'a> {
    ghost use Rattle.source_states.specs.Actions.{kind_of};
    ghost use Rattle.source_states.specs.States.{state_of};
    ghost use Rattle.source_states.specs.Taken.{IsAnswer, IsTakenUp};

    // A FORK.
    pub(crate) fn fork(
        &mut self,
        alloc: Global,
        number: u64,
        kind: &ActionKind,
        child: Box<Process<'a>>,
        into: u32,
        process: Process<'a>,
    ) -> Result<bool, AllocError>
        ensures { IfOk result (λ b. IsAnswer b
            (IsTakenUp number (kind_of kind.now) (offer_with (Makes child.entry into) process.entry)
            (state_of self.old))
            (state_of self.new)) }
    {
        let Some(made) = self.table.fork() else {
            return self.refuse(alloc, number, kind, Fault::ProcessTableFull, process);
        };
        let ActionKind::Fork(named) = kind else {
            return Ok(false);
        };
        if *named != made {
            return Ok(false);
        }
        let mut process = process;
        process.frame.put(Some(into), made as i64);
        process.go_on(None);
        self.place(made, Box::into_inner(child))?;
        self.place(number, process)?;
        Ok(true)
    }

    // A JOIN that claims its process.
    pub(crate) fn claim(
        &mut self,
        alloc: Global,
        number: u64,
        kind: &ActionKind,
        child: u64,
        into: Option<u32>,
        aborted: Option<&'a [Statement]>,
        process: Process<'a>,
    ) -> Result<bool, AllocError>
        ensures { IfOk result (λ b. IsAnswer b
            (IsTakenUp number (kind_of kind.now)
            (offer_with (Claims child into aborted.entry) process.entry)
            (state_of self.old)) (state_of self.new)) }
    {
        if !self.table.claim(child)? {
            return self.refuse(alloc, number, kind, Fault::HandleNotJoinable, process);
        }
        let ActionKind::Claim(named) = kind else {
            return Ok(false);
        };
        if *named != child {
            return Ok(false);
        }
        let mut process = process;
        process.stage = Stage::Joining {
            child,
            into,
            aborted,
        };
        self.place(number, process)?;
        Ok(true)
    }

    // A process joins the child that it claimed.
    pub(crate) fn join(
        &mut self,
        program: &Program,
        number: u64,
        kind: &ActionKind,
        child: u64,
        into: Option<u32>,
        aborted: Option<&'a [Statement]>,
        process: Process<'a>,
    ) -> Result<bool, AllocError>
        ensures { IfOk result (λ b. IsAnswer b
            (IsTakenUp number (kind_of kind.now)
            (offer_of (program_of program.now) (Joins child into aborted.entry) process.entry)
            (state_of self.old)) (state_of self.new)) }
    {
        let ActionKind::Join(named) = kind else {
            return Ok(false);
        };
        if *named != child {
            return Ok(false);
        }
        let Some(end) = self.table.over(child) else {
            return Ok(false);
        };
        let mut process = process;
        process.join(into, aborted, end)?;
        self.place(number, process)?;
        Ok(true)
    }
}
