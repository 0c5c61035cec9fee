ghost use Rattle.std.specs.Prelude.{[], ◌≡◌, ◌<◌, ◌≤◌, ◌^◌, IfOk, Some, None, option_map, true, false, OnOk, length};
ghost use Rattle.words.specs.Limits.{most_threads};
ghost use Rattle.machine.specs.States.{state_of as machine_state};
ghost use Rattle.machine.specs.Views.{address_of, concrete};
ghost use Rattle.program.specs.Names.{said_by};
ghost use Rattle.program.specs.Trees.{as_version};
ghost use Rattle.program.specs.declared.kinds.Member.{Member as MemberOf};
ghost use Rattle.lowering.specs.Layout.{layout_of};
ghost use Rattle.proof_commutation.specs.Deferring.{is_internal};
ghost use Rattle.meaning.specs.Labels.{Label, kind_of as name_of};
ghost use Rattle.source_states.specs.Actions.{kind_of};
ghost use Rattle.source_states.specs.States.{state_of};
ghost use Rattle.proof_simulation.specs.Ordering.{Resumes, act, awake_waiters};
ghost use Rattle.proof_simulation.specs.Progress.{opening_progress};
ghost use Rattle.proof_simulation.specs.Tracking.{CanTake};
ghost use Rattle.log_simulation.specs.Choosing.{resumed_only};
ghost use Rattle.log_simulation.specs.Going.{Follows, FollowsKill, FollowsStray, Matches, CatchesUp, Takes};
ghost use Rattle.log_simulation.specs.Going.{TakesInternal, followed};
ghost use Rattle.proof_simulation.specs.Kills.{killed_last, killed_resumed};
ghost use Rattle.proof_simulation.specs.Next.{offer_of_process};
ghost use Rattle.proof_simulation.specs.Strays.{stray_condition};
ghost use Rattle.log_simulation.specs.Requests.{visible_step};
ghost use Rattle.log_simulation.specs.Shown.{shown};
ghost use Rattle.log_simulation.specs.Waiting.{is_awake};

use crate::choosing::{is_condition, notified, visible_action};
use crate::requests::{is_visible, linked_monitor, owns_pending, pending_word};
use layout::Layout;
use locals::NextStep;
use machine::Machine;
use piece_machine::PieceMachine;
use program::{Checked, Member};
use source_offers::Offer;
use source_states::{Action, ActionKind, SourceState};
use std::alloc::{AllocError, Global};
use words::Addr;

// Where thread `t` sleeps, or has committed to.
fn sleeps_at(machine: &PieceMachine, t: u32) -> Option<Addr>
    ensures { address_of result ≡ (shown machine.now).asleep t }
{
    match machine.machine().asleep(t) {
        Some(word) => Some(word),
        None => machine.committed(t),
    }
}

/// A run of the source that follows a run of the machine: where it led, and its actions.
#[derive(Drop)]
pub struct Follower<'a> {
    alloc: Global,
    checked: &'a Checked<'a>,
    layout: Layout,
    state: SourceState<'a>,
    actions: Vec<Action>,
}

impl<'a> Follower<'a> {
    /// At the opening states of both, with the layout of the program for an image of its version.
    pub fn new(
        alloc: Global,
        checked: &'a Checked<'a>,
        layout: Layout,
    ) -> Result<Follower<'a>, AllocError>
        ensures opens { let p = as_version layout.version (said_by checked.now) in
            IfOk result (λ f. Matches f (opening_progress p)) }
        ensures kept { IfOk result (λ f. (f.checked.now ≡ checked.now) × (f.layout ≡ layout)) }
    {
        let state = SourceState::opening(alloc, checked, layout.version())?;
        Ok(Follower {
            alloc,
            checked,
            layout,
            state,
            actions: Vec::new(alloc),
        })
    }

    /// The actions, in order.
    pub fn into_actions(self) -> Vec<Action>
        ensures { result.items ≡ self.entry.actions.items }
    {
        self.actions
    }

    /// Whether the step of thread `t` that comes to this, with this value in its event, is a visible action of its
    /// process. It is asked before the step.
    pub fn is_visible(&self, machine: &Machine, t: u32, step: NextStep, value: u32) -> bool
        ensures { let p = followed self.now in self.now.layout ≡ layout_of p → 0 < t → t ≤ most_threads
            → length machine.now.words < 2 ^ 32
            → result ≡ visible_step p (machine_state (concrete machine.now)).word t step value }
    {
        let monitors = self.checked.program().monitors.len() as u32;
        let version = self.layout.version();
        is_visible(version, &self.layout, monitors, machine, t, step, value)
    }

    /// The monitor that process `t` abandons last if it is killed now: the one that its thread is just taking or giving
    /// up, if the thread owns it.
    pub fn killed_last(&self, machine: &Machine, t: u32) -> Option<u32>
        ensures { let p = followed self.now in self.now.layout ≡ layout_of p
            → 0 < t → t ≤ most_threads → length machine.now.words < 2 ^ 32
            → result ≡ killed_last p (machine_state (concrete machine.now)).word t }
    {
        if !owns_pending(machine, t) {
            return None;
        }
        let monitors = self.checked.program().monitors.len() as u32;
        linked_monitor(&self.layout, monitors, pending_word(machine, t))
    }

    // Takes an action, if it is possible; else nothing is known of the state.
    fn take(&mut self, t: u32, kind: ActionKind) -> Result<bool, AllocError>
        ensures takes { IfOk result (λ b. Takes self.old (act t (kind_of kind)) b self.new) }
        ensures kept { OnOk result ((self.new.checked ≡ self.old.checked)
            × (self.new.layout ≡ self.old.layout)) }
    {
        let action = Action {
            process: u64::from(t),
            kind,
        };
        let is_possible = self
            .state
            .advance(self.alloc, self.checked.program(), &action)?;
        if is_possible {
            self.actions.push(action)?;
        }
        Ok(is_possible)
    }

    // Takes the internal action that a process can take next; false where it can take none.
    fn take_internal(&mut self, t: u32) -> Result<bool, AllocError>
        ensures takes { IfOk result (λ b. TakesInternal self.old t b self.new) }
        ensures kept { OnOk result ((self.new.checked ≡ self.old.checked)
            × (self.new.layout ≡ self.old.layout)) }
    {
        let process = u64::from(t);
        let program = self.checked.program();
        let Some(kind) = self.state.take_internal(self.alloc, program, process)? else {
            return Ok(false);
        };
        self.actions.push(Action { process, kind })?;
        Ok(true)
    }

    /// Takes so many internal actions of a process. False where one isn't there.
    pub fn catch_up(&mut self, t: u32, count: u32) -> Result<bool, AllocError>
        ensures catches_up { IfOk result (λ b. CatchesUp self.old t count b self.new) }
        ensures kept { OnOk result ((self.new.checked ≡ self.old.checked)
            × (self.new.layout ≡ self.old.layout)) }
    {
        for _ in 0..count {
            if !self.take_internal(t)? {
                return Ok(false);
            }
        }
        Ok(true)
    }

    // Whether a process waits on a condition, and its thread doesn't sleep on this word.
    fn has_waited(&self, machine: &PieceMachine, condition: Member, word: Addr, t: u32) -> bool
        ensures { result ≡ is_awake word.0 (shown machine.now)
            (state_of self.now.state).table condition t }
    {
        self.state.waits(u64::from(t)) == Some(condition) && sleeps_at(machine, t) != Some(word)
    }

    // Who waits on a condition, and doesn't sleep on its word.
    fn waiters(&self, machine: &PieceMachine, condition: Member) -> Result<Vec<u64>, AllocError>
        ensures { let p = followed self.now in IfOk result (λ v. self.now.layout ≡ layout_of p
            → v.items ≡ awake_waiters p (shown machine.now) (state_of self.now.state).table condition) }
    {
        let word = Addr(self.layout.address(condition));
        let mut waiters = Vec::new(self.alloc);
        for before in 0..machine.machine().threads() {
            let t = before + 1;
            if self.has_waited(machine, condition, word, t) {
                waiters.push(u64::from(t))?;
            }
        }
        Ok(waiters)
    }

    // Whom a process with this offer resumes, where it notifies or broadcasts a condition.
    fn resumed(&self, machine: &PieceMachine, offer: &Offer) -> Result<Vec<u64>, AllocError>
        ensures some { let p = followed self.now in IfOk result (λ v. self.now.layout ≡ layout_of p
            → (c : MemberOf) → resumed_only offer.now ≡ Some c
            → v.items ≡ awake_waiters p (shown machine.now) (state_of self.now.state).table c) }
        ensures none { IfOk result (λ v. resumed_only offer.now ≡ None → v.items ≡ []) }
    {
        match notified(offer) {
            Some(condition) => self.waiters(machine, condition),
            None => Ok(Vec::new(self.alloc)),
        }
    }

    // The visible action that a process takes next, where it can take one.
    fn next_visible(&self, machine: &PieceMachine, t: u32) -> Result<Option<ActionKind>, AllocError>
        ensures { let p = followed self.now in let a = state_of self.now.state in
            IfOk result (λ o. (label : Label) → self.now.layout ≡ layout_of p → CanTake p a t label
            → is_internal label ≡ false → Resumes p (shown machine.now) a.table label
            → option_map kind_of o ≡ Some (name_of label)) }
    {
        let Some((offer, _)) = self.state.offered(self.alloc, self.checked, u64::from(t))? else {
            return Ok(None);
        };
        let resumed = self.resumed(machine, &offer)?;
        Ok(visible_action(&offer, &self.state, resumed))
    }

    /// Follows a step of thread `t` to this machine, which is a visible action: first come so many internal actions of
    /// its process, and then that. False where one isn't there, or isn't possible.
    pub fn follow(&mut self, machine: &PieceMachine, t: u32, count: u32) -> Result<bool, AllocError>
        ensures follows { let s = shown machine.now in
            IfOk result (λ b. Follows self.old s t count b self.new) }
        ensures kept { OnOk result ((self.new.checked ≡ self.old.checked)
            × (self.new.layout ≡ self.old.layout)) }
    {
        if !self.catch_up(t, count)? {
            return Ok(false);
        }
        match self.next_visible(machine, t)? {
            Some(kind) => self.take(t, kind),
            None => Ok(false),
        }
    }

    /// The condition that process `t` waits on, if its word has this address.
    pub fn stray_condition(&self, t: u32, address: u32) -> Option<Member>
        ensures { let p = followed self.now in self.now.layout ≡ layout_of p
            → result ≡ stray_condition p address ((state_of self.now.state).table.waits t) }
    {
        let condition = self.state.waits(u64::from(t))?;
        if is_condition(self.checked.program(), condition)
            && self.layout.address(condition) == address
        {
            Some(condition)
        } else {
            None
        }
    }

    /// Follows a wake of process `t` from outside, which waits on this condition: first come so many internal actions
    /// of it, and then it waits no longer. False where one isn't there, or that isn't possible.
    pub fn follow_stray(
        &mut self,
        t: u32,
        condition: Member,
        count: u32,
    ) -> Result<bool, AllocError>
        ensures follows { IfOk result (λ b. FollowsStray self.old t condition count b self.new) }
        ensures kept { OnOk result ((self.new.checked ≡ self.old.checked)
            × (self.new.layout ≡ self.old.layout)) }
    {
        if !self.catch_up(t, count)? {
            return Ok(false);
        }
        self.take(t, ActionKind::Stray(condition))
    }

    // Whom process `t` has resumed that is killed now, if its thread has raised the number of a condition's word.
    fn killed_resumed(
        &self,
        machine: &PieceMachine,
        t: u32,
        raised: bool,
    ) -> Result<Vec<u64>, AllocError>
        ensures { let p = followed self.now in let a = state_of self.now.state in
            IfOk result (λ v. self.now.layout ≡ layout_of p
            → v.items ≡ killed_resumed p (shown machine.now) a.table raised
            (offer_of_process p a.variable (a.process t))) }
    {
        if !raised {
            return Ok(Vec::new(self.alloc));
        }
        match self.state.offered(self.alloc, self.checked, u64::from(t))? {
            Some((offer, _)) => self.resumed(machine, &offer),
            None => Ok(Vec::new(self.alloc)),
        }
    }

    /// Follows a kill of process `t` that led to this machine, where its thread has raised the number of a condition's
    /// word or hasn't, and this monitor comes last: first come so many internal actions of it, and then the kill. False
    /// where one isn't there, or that isn't possible.
    pub fn follow_kill(
        &mut self,
        machine: &PieceMachine,
        t: u32,
        count: u32,
        raised: bool,
        last: Option<u32>,
    ) -> Result<bool, AllocError>
        ensures follows { let s = shown machine.now in
            IfOk result (λ b. FollowsKill self.old s t count raised last b self.new) }
        ensures kept { OnOk result ((self.new.checked ≡ self.old.checked)
            × (self.new.layout ≡ self.old.layout)) }
    {
        if !self.catch_up(t, count)? {
            return Ok(false);
        }
        let resumed = self.killed_resumed(machine, t, raised)?;
        self.take(t, ActionKind::Kill(resumed, last))
    }
}
