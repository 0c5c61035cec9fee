ghost use Rattle.std.specs.Prelude.{◌≡◌, IfOk, MatchOption, Some, map};
ghost use Rattle.std.specs.Ordering.{nat_cmp};
ghost use Rattle.sorted_map.specs.Maps.{get};
ghost use Rattle.program.specs.Trees.{as_version};
ghost use Rattle.program.specs.Views.{program_of};
ghost use Rattle.meaning.specs.Offers.{Does};
ghost use Rattle.meaning.specs.Processes.{Process as ProcessOf};
ghost use Rattle.meaning.specs.Runs.{IsAction, IsRun, IsStep};
ghost use Rattle.meaning.specs.States.{SourceState as SourceStateOf};
ghost use Rattle.source_offers.specs.NextAction.{offer_of};
ghost use Rattle.source_offers.specs.Offered.{effect_of, label_of, offer_with};
ghost use Rattle.source_offers.specs.declared.process.Process.{Process as ProcessIn};
ghost use Rattle.source_states.specs.Actions.{action_of as action_named};
ghost use Rattle.source_states.specs.States.{state_of as state_in};

use crate::action::{Action, ActionKind};
use crate::naming::is_named;
use crate::placing::blank;
use crate::state::SourceState;
use program::{Checked, Program};
use source_offers::{Effect, Label, Offer, Offered, Process, next_offer};
use std::alloc::{AllocError, Global};
use std::mem;
use words::ImageVersion;

impl<'a> SourceState<'a> {
    ghost use Rattle.source_states.specs.Actions.{action_of, kind_of};
    ghost use Rattle.source_states.specs.States.{state_of};
    ghost use Rattle.source_states.specs.Taken.{IsAnswer, IsTakenUp};

    // A process that stands after an action already does it, where the action is named so.
    fn act_alone(
        &mut self,
        number: u64,
        kind: &ActionKind,
        label: Label,
        effect: Effect,
    ) -> Result<bool, AllocError>
        ensures { IfOk result (λ b. (after : ProcessOf)
            → (state_of self.old).process number ≡ Some after
            → IsAnswer b
            (IsTakenUp number (kind_of kind.now) (Does (label_of label) (effect_of effect) after)
            (state_of self.old)) (state_of self.new)) }
    {
        if !is_named(kind, label) {
            return Ok(false);
        }
        self.perform(number, label, effect)?;
        Ok(true)
    }

    // A process that offers something for itself does it.
    fn act_for_itself(
        &mut self,
        alloc: Global,
        number: u64,
        kind: &ActionKind,
        own: Offered<'a>,
        process: Process<'a>,
    ) -> Result<bool, AllocError>
        ensures { IfOk result (λ b. IsAnswer b
            (IsTakenUp number (kind_of kind.now) (offer_with own.entry process.entry)
            (state_of self.old))
            (state_of self.new)) }
    {
        match own {
            Offered::Rests => Ok(false),
            Offered::Does(label, effect) => {
                self.place(number, process)?;
                self.act_alone(number, kind, label, effect)
            }
            Offered::Makes(child, into) => self.fork(alloc, number, kind, child, into, process),
            Offered::Claims {
                child,
                into,
                aborted,
            } => self.claim(alloc, number, kind, child, into, aborted, process),
            Offered::NotifiesSome(condition) => self.notify(number, kind, condition, process),
            Offered::NotifiesAll(condition) => self.broadcast(number, kind, condition, process),
        }
    }

    // A process takes up its offer.
    fn take_up(
        &mut self,
        alloc: Global,
        program: &'a Program,
        number: u64,
        kind: &ActionKind,
        offer: Offer<'a>,
        process: Process<'a>,
    ) -> Result<bool, AllocError>
        ensures { IfOk result (λ b. IsAnswer b
            (IsTakenUp number (kind_of kind.now)
            (offer_of (program_of program.now) offer.entry process.entry)
            (state_of self.old)) (state_of self.new)) }
    {
        match offer {
            Offer::Own(own) => self.act_for_itself(alloc, number, kind, own, process),
            Offer::Enters(monitor) => self.enter(alloc, program, number, kind, monitor, process),
            Offer::Resumes(monitor) => self.resume(alloc, program, number, kind, monitor, process),
            Offer::Joins {
                child,
                into,
                aborted,
            } => self.join(program, number, kind, child, into, aborted, process),
        }
    }

    // A process takes up its offer. It is out of the state meanwhile, and something blank stands in its place, so that no
    // other process is moved.
    fn take_up_outside(
        &mut self,
        alloc: Global,
        program: &'a Program,
        number: u64,
        kind: &ActionKind,
        offer: Offer<'a>,
    ) -> Result<bool, AllocError>
        ensures { IfOk result (λ b. (q : ProcessIn) → get nat_cmp self.old.processes number ≡ Some q
            → IsAnswer b
            (IsTakenUp number (kind_of kind.now) (offer_of (program_of program.now) offer.entry q)
            (state_of self.old)) (state_of self.new)) }
    {
        let Some(place) = self.processes.get_mut(number) else {
            return Ok(false);
        };
        let process = mem::replace(place, blank(alloc));
        self.take_up(alloc, program, number, kind, offer, process)
    }

    // An action of a process's own. Mostly the process stays where it is in the state, since moving it takes time.
    fn act(
        &mut self,
        alloc: Global,
        program: &'a Program,
        action: &Action,
    ) -> Result<bool, AllocError>
        ensures { IfOk result (λ b. IsAnswer b
            (IsAction (program_of program.now) (state_of self.old) (action_of action.now))
            (state_of self.new)) }
    {
        let number = action.process;
        let Some(process) = self.processes.get_mut(number) else {
            return Ok(false);
        };
        let offer = next_offer(alloc, program, &self.variables, process)?;
        if let Offer::Own(Offered::Does(label, effect)) = offer {
            return self.act_alone(number, &action.kind, label, effect);
        }
        self.take_up_outside(alloc, program, number, &action.kind, offer)
    }

    /// Does an action; false where it isn't possible, and then nothing is known of the state.
    pub fn advance(
        &mut self,
        alloc: Global,
        program: &'a Program,
        action: &Action,
    ) -> Result<bool, AllocError>
        ensures { IfOk result (λ b. IsAnswer b
            (IsStep (program_of program.now) (state_of self.old) (action_of action.now))
            (state_of self.new)) }
    {
        match &action.kind {
            ActionKind::Stray(condition) => Ok(self.stray(action.process, *condition)),
            ActionKind::Kill(resumed, last) => {
                let resumed = resumed.as_slice();
                self.kill(alloc, program, action.process, resumed, *last)
            }
            _ => self.act(alloc, program, action),
        }
    }

    /// The state to which an action leads; None where the action isn't possible.
    pub fn step(
        self,
        alloc: Global,
        checked: &'a Checked,
        action: &Action,
    ) -> Result<Option<SourceState<'a>>, AllocError>
        ensures { IfOk result (λ o. MatchOption o
            ((s : SourceStateOf)
            → IsStep (program_of checked.now.tree) (state_of self.entry) (action_of action.now) s
            → ⊥)
            (λ s. IsStep (program_of checked.now.tree) (state_of self.entry) (action_of action.now)
            (state_of s))) }
    {
        let mut state = self;
        if !state.advance(alloc, checked.program(), action)? {
            return Ok(None);
        }
        Ok(Some(state))
    }
}

/// The state at the end of a run of the program whose image is of this version, which says how many processes there can
/// be; None where the actions aren't such a run.
pub fn accepts_as<'a>(
    alloc: Global,
    checked: &'a Checked,
    version: ImageVersion,
    actions: &[Action],
) -> Result<Option<SourceState<'a>>, AllocError>
    ensures { let p = as_version version (program_of checked.now.tree) in IfOk result
        (λ o. MatchOption o ((s : SourceStateOf) → IsRun p (map action_named actions.now) s → ⊥)
        (λ s. IsRun p (map action_named actions.now) (state_in s))) }
{
    let mut state = SourceState::opening(alloc, checked, version)?;
    for action in actions {
        if !state.advance(alloc, checked.program(), action)? {
            return Ok(None);
        }
    }
    Ok(Some(state))
}

/// The state at the end of a run; None where the actions aren't a run of the program, whose image is of the second
/// version.
pub fn accepts<'a>(
    alloc: Global,
    checked: &'a Checked,
    actions: &[Action],
) -> Result<Option<SourceState<'a>>, AllocError>
    ensures { IfOk result (λ o. MatchOption o
        ((s : SourceStateOf) → IsRun (program_of checked.now.tree) (map action_named actions.now) s
        → ⊥)
        (λ s. IsRun (program_of checked.now.tree) (map action_named actions.now) (state_in s))) }
{
    accepts_as(alloc, checked, ImageVersion::Two, actions)
}
