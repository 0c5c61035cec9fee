ghost use Rattle.std.specs.Prelude.{[], ◌≡◌, ◌+◌, ◌<◌, ◌≤◌, ◌^◌, ◌||◌, Bool, true, false, IfOk, List, MatchBool, None};
ghost use Rattle.std.specs.Prelude.{OnOk, Option, Some, length, map, ℕ};
ghost use Rattle.words.specs.Limits.{most_threads};
ghost use Rattle.words.specs.Updates.{put};
ghost use Rattle.lowering.specs.Layout.{layout_of};
ghost use Rattle.lowering.specs.Pieces.{code_of, marks_of};
ghost use Rattle.proof_commutation.specs.Deferring.{IsBehind};
ghost use Rattle.proof_thread.specs.Deferrals.{deferred_by_mark, mark_of};
ghost use Rattle.locals.specs.Looks.{look};
ghost use Rattle.locals.specs.Requests.{next_step_of};
ghost use Rattle.locals.specs.Steps.{local_after, local_step};
ghost use Rattle.locals.specs.Threads.{Thread};
ghost use Rattle.machine.specs.FrontRuns.{EventStep};
ghost use Rattle.machine.specs.States.{state_of as machine_state};
ghost use Rattle.machine.specs.Views.{concrete};
ghost use Rattle.piece_machine.specs.PieceViews.{parts};
ghost use Rattle.runner.specs.Logs.{opening};
ghost use Rattle.meaning.specs.Labels.{Kind};
ghost use Rattle.meaning.specs.States.{SourceState};
ghost use Rattle.proof_simulation.specs.Explaining.{IsDue};
ghost use Rattle.proof_simulation.specs.Kills.{killed_last};
ghost use Rattle.proof_simulation.specs.Progress.{Progress};
ghost use Rattle.proof_simulation.specs.Deferred.{deferred_then};
ghost use Rattle.proof_simulation.specs.Strays.{stray_condition};
ghost use Rattle.program.specs.Names.{said_by};
ghost use Rattle.program.specs.Trees.{Program, as_version};
ghost use Rattle.program.specs.declared.kinds.Member.{Member};
ghost use Rattle.program.specs.WellFormed.{WellFormed};
ghost use Rattle.source_states.specs.Actions.{action_of};
ghost use Rattle.log_simulation.specs.Entries.{is_visible, progress_locally, progress_shared, progress_strayed};
ghost use Rattle.log_simulation.specs.Going.{IsKillDue, IsStrayDue, Matches, progress_left};
ghost use Rattle.log_simulation.specs.Explanations.{IsExplanationOf};
ghost use Rattle.log_simulation.specs.Recording.{Counts, IsAlong, IsOf, RecordsUnlessLong, progress_rest};
ghost use Rattle.log_simulation.specs.Deferred.{CountsDeferred, Raises, deferral_of};
ghost use Rattle.log_simulation.specs.Shown.{shown};

use crate::deferral::{Deferral, at_mark, at_step, mark_at};
use crate::deferred::Deferred;
use crate::follower::Follower;
use crate::requests::is_raise;
use isa::Image;
use layout::Layout;
use locals::{Local, NextStep};
use lowering::Mark;
use machine::{Entry, Machine};
use piece_machine::PieceMachine;
use program::Checked;
use source_states::Action;
use std::alloc::{AllocError, Global};
use words::MOST_THREADS;

/// The source behind a log, as far as it was walked. It is kept as long as the log has fewer than 2^32 steps.
#[derive(Drop)]
pub struct Recorder<'a> {
    marks: Vec<Mark>,
    follower: Follower<'a>,
    // What is deferred of each process until its next visible action, by its number.
    deferred: Vec<Deferred>,
    // Of each thread, by its number, whether it has raised the number of a condition's word, and not yet woken who
    // slept on it.
    raised: Vec<bool>,
    // How many steps the log has so far, while they are counted.
    steps: u32,
    is_whole: bool,
}

// Nothing is deferred of any process.
fn nothing(alloc: Global) -> Result<Vec<Deferred>, AllocError>
    ensures { IfOk result (λ v. (length v.items ≡ most_threads + 1)
        × CountsDeferred v.items (λ t. [])) }
{
    let mut deferred = Vec::new(alloc);
    for _ in 0..=MOST_THREADS {
        deferred.push(Deferred::none())?;
    }
    Ok(deferred)
}

// No thread has raised a number.
fn none_raised(alloc: Global) -> Result<Vec<bool>, AllocError>
    ensures { IfOk result (λ v. (length v.items ≡ most_threads + 1) × Raises v.items (λ t. false)) }
{
    let mut raised = Vec::new(alloc);
    for _ in 0..=MOST_THREADS {
        raised.push(false)?;
    }
    Ok(raised)
}

impl<'a> Recorder<'a> {
    /// At the beginning of a log, with the program's layout and the marks of its code.
    pub fn new(
        alloc: Global,
        checked: &'a Checked<'a>,
        layout: Layout,
        marks: Vec<Mark>,
    ) -> Result<Recorder<'a>, AllocError>
        requires layout { layout ≡ layout_of (as_version layout.version (said_by checked.now)) }
        requires marks { marks.items ≡ marks_of (as_version layout.version (said_by checked.now)) }
        ensures { let p = as_version layout.version (said_by checked.now) in
            IfOk result (λ r. IsAlong p [] (opening (code_of p)) r) }
    {
        Ok(Recorder {
            marks,
            follower: Follower::new(alloc, checked, layout)?,
            deferred: nothing(alloc)?,
            raised: none_raised(alloc)?,
            steps: 0,
            is_whole: true,
        })
    }

    /// Whether the log has had fewer than 2^32 steps.
    pub fn is_whole(&self) -> bool
        ensures { result ≡ self.now.is_whole }
    {
        self.is_whole
    }

    // So many more steps.
    fn count(&mut self, steps: u32)
        ensures kept { self.new ≡ record self.old { steps = self.new.steps; is_whole = self.new.is_whole } }
        ensures counts { Counts steps self.old self.new }
    {
        if steps > u32::MAX - self.steps {
            self.is_whole = false;
        } else {
            self.steps += steps;
        }
    }

    // What a step of a process adds is deferred.
    fn delay(&mut self, t: u32, deferral: Deferral)
        ensures kept { self.new ≡ record self.old { deferred = self.new.deferred } }
        ensures places { length self.new.deferred.items ≡ length self.old.deferred.items }
        ensures defers { (f : ℕ → List Kind) (o : Option Kind)
            → CountsDeferred self.old.deferred.items f → deferral ≡ deferral_of o
            → length (f t) + 1 < 2 ^ 32
            → CountsDeferred self.new.deferred.items (put f t (deferred_then o (f t))) }
    {
        if deferral == Deferral::Nothing {
            return;
        }
        if let Some(deferred) = self.deferred.get_mut(t as usize) {
            *deferred = deferred.behind(deferral);
        }
    }

    // No action of a process is deferred any more; how many were.
    fn take_deferred(&mut self, t: u32) -> u32
        ensures kept { self.new ≡ record self.old { deferred = self.new.deferred } }
        ensures places { length self.new.deferred.items ≡ length self.old.deferred.items }
        ensures defers { (f : ℕ → List Kind) → CountsDeferred self.old.deferred.items f
            → t < length self.old.deferred.items
            → (result ≡ length (f t)) × CountsDeferred self.new.deferred.items (put f t []) }
    {
        match self.deferred.get_mut(t as usize) {
            Some(deferred) => std::mem::replace(deferred, Deferred::none()).count,
            None => 0,
        }
    }

    // A thread raises the number of a condition's word, if it does.
    fn raise(&mut self, t: u32, raises: bool)
        ensures kept { self.new ≡ record self.old { raised = self.new.raised } }
        ensures bits { length self.new.raised.items ≡ length self.old.raised.items }
        ensures raises { (f : ℕ → Bool) → Raises self.old.raised.items f
            → Raises self.new.raised.items (put f t (raises || f t)) }
    {
        if !raises {
            return;
        }
        if let Some(raised) = self.raised.get_mut(t as usize) {
            *raised = true;
        }
    }

    // A thread has woken who slept on the word whose number it has raised, or dies; whether it had raised one.
    fn lower(&mut self, t: u32) -> bool
        ensures kept { self.new ≡ record self.old { raised = self.new.raised } }
        ensures bits { length self.new.raised.items ≡ length self.old.raised.items }
        ensures raises { (f : ℕ → Bool) → Raises self.old.raised.items f
            → t < length self.old.raised.items
            → (result ≡ f t) × Raises self.new.raised.items (put f t false) }
    {
        match self.raised.get_mut(t as usize) {
            Some(raised) => std::mem::replace(raised, false),
            None => false,
        }
    }

    // Takes a local step of a thread.
    fn take_step(&mut self, image: &Image, here: &mut Local, t: u32) -> bool
        ensures step { MatchBool result (local_step image.now t here.old ≡ Some here.new)
            (local_step image.now t here.old ≡ None) }
        ensures kept { self.new ≡ record self.old { deferred = self.new.deferred } }
        ensures places { length self.new.deferred.items ≡ length self.old.deferred.items }
        ensures defers { (f : ℕ → List Kind) → CountsDeferred self.old.deferred.items f
            → length (f t) + 1 < 2 ^ 32
            → CountsDeferred self.new.deferred.items
            (put f t (deferred_then (deferred_by_mark (mark_of self.old.marks.items here.old))
            (f t))) }
    {
        let deferral = at_mark(mark_at(self.marks.as_slice(), here));
        self.delay(t, deferral);
        here.take_step(image, t)
    }

    /// Takes the local steps of an entry, from its thread's state on; false where the thread takes fewer.
    pub fn take_steps(&mut self, image: &Image, here: &mut Local, entry: &Entry) -> bool
        ensures goes { MatchBool result
            (local_after image.now entry.now.thread entry.now.local here.old ≡ Some here.new)
            (local_after image.now entry.now.thread entry.now.local here.old ≡ None) }
        ensures told { result ≡ true → (p : Program) (n : ℕ) (g : Progress) → image.now ≡ code_of p
            → IsOf p self.old
            → RecordsUnlessLong n g self.old
            → IsOf p self.new × RecordsUnlessLong (n + entry.now.local)
            (progress_locally p entry.now.thread entry.now.local here.old g) self.new }
    {
        self.count(entry.local);
        for _ in 0..entry.local {
            if !self.take_step(image, here, entry.thread) {
                return false;
            }
        }
        true
    }

    /// Whether the shared step of thread `t` that comes to this, with this value in its event, is a visible action of
    /// its process. It is asked before the step.
    pub fn is_visible(&self, machine: &Machine, t: u32, step: NextStep, value: u32) -> bool
        ensures { (p : Program) (here : Thread) → IsOf p self.now
            → 0 < t → t ≤ most_threads → length machine.now.words < 2 ^ 32
            → step ≡ next_step_of (look (code_of p) t here)
            → result ≡ is_visible p (machine_state (concrete machine.now)).word t
            (look (code_of p) t here) value }
    {
        self.follower.is_visible(machine, t, step, value)
    }

    /// Takes in the shared step of thread `t`, which stood here before it, came to this with this value in its event,
    /// was visible or not, and led to this machine.
    pub fn take_shared_step(
        &mut self,
        machine: &PieceMachine,
        t: u32,
        here: &Local,
        step: NextStep,
        value: u32,
        visible: bool,
    ) -> Result<(), AllocError>
        ensures { OnOk result ((p : Program) (n : ℕ) (word : ℕ → ℕ) (g : Progress)
            → step ≡ next_step_of (look (code_of p) t here.now)
            → visible ≡ is_visible p word t (look (code_of p) t here.now) value
            → IsOf p self.old
            → t ≤ most_threads → RecordsUnlessLong n g self.old
            → (is_visible p word t (look (code_of p) t here.now) value ≡ true → n + 1 < 2 ^ 32
            → IsDue p (shown machine.now) t g)
            → IsOf p self.new
            × RecordsUnlessLong (n + 1)
            (progress_shared p t here.now word value (shown machine.now) g) self.new) }
    {
        self.count(1);
        if !self.is_whole {
            return Ok(());
        }
        if visible {
            self.lower(t);
            let count = self.take_deferred(t);
            self.is_whole = self.follower.follow(machine, t, count)?;
        } else {
            self.raise(t, is_raise(step));
            let mark = mark_at(self.marks.as_slice(), here);
            self.delay(t, at_step(mark, step, value));
        }
        Ok(())
    }

    /// Takes in a wake of thread `t` from outside, which slept at this address. It is an action where its process waits
    /// on the condition of that word.
    pub fn take_stray(&mut self, t: u32, address: u32) -> Result<(), AllocError>
        ensures { OnOk result ((p : Program) (n : ℕ) (g : Progress) → IsOf p self.old
            → t ≤ most_threads → RecordsUnlessLong n g self.old
            → (n + 1 < 2 ^ 32 → (c : Member)
            → stray_condition p address (g.source.table.waits t) ≡ Some c → IsStrayDue p t c g)
            → IsOf p self.new × RecordsUnlessLong (n + 1) (progress_strayed p t address g) self.new) }
    {
        self.count(1);
        if !self.is_whole {
            return Ok(());
        }
        let Some(condition) = self.follower.stray_condition(t, address) else {
            return Ok(());
        };
        let count = self.take_deferred(t);
        self.is_whole = self.follower.follow_stray(t, condition, count)?;
        Ok(())
    }

    /// The monitor that process `t` abandons last if it is killed now.
    pub fn killed_last(&self, machine: &Machine, t: u32) -> Option<u32>
        ensures { (p : Program) → IsOf p self.now → 0 < t → t ≤ most_threads
            → length machine.now.words < 2 ^ 32
            → result ≡ killed_last p (machine_state (concrete machine.now)).word t }
    {
        self.follower.killed_last(machine, t)
    }

    /// Takes in a kill of thread `t` that led to this machine, and by which the thread begins to die; this monitor comes
    /// last of those that its process abandons.
    pub fn take_kill(
        &mut self,
        machine: &PieceMachine,
        t: u32,
        last: Option<u32>,
    ) -> Result<(), AllocError>
        ensures { let s = shown machine.now in
            OnOk result ((p : Program) (n : ℕ) (g : Progress) → IsOf p self.old
            → t ≤ most_threads → RecordsUnlessLong n g self.old
            → (n + 1 < 2 ^ 32 → IsKillDue p s t last g)
            → IsOf p self.new × RecordsUnlessLong (n + 1) (progress_left p s t last g) self.new) }
    {
        self.count(1);
        if !self.is_whole {
            return Ok(());
        }
        let raised = self.lower(t);
        let count = self.take_deferred(t);
        self.is_whole = self.follower.follow_kill(machine, t, count, raised, last)?;
        Ok(())
    }

    /// Takes in a step that is nothing in the source.
    pub fn take_nothing(&mut self)
        ensures { (p : Program) (n : ℕ) (g : Progress) → IsOf p self.old → RecordsUnlessLong n g self.old
            → IsOf p self.new × RecordsUnlessLong (n + 1) g self.new }
    {
        self.count(1);
    }

    // The deferred actions are taken, by rising process. Each is possible, in a legal log of fewer than 2^32 steps.
    fn take_rest(&mut self, made: u32) -> Result<(), AllocError>
        ensures { OnOk result ((p : Program) (g : Progress) (ahead : SourceState) → IsOf p self.old
            → made ≤ most_threads → Matches self.old.follower g
            → CountsDeferred self.old.deferred.items g.deferred
            → IsBehind p g.deferred g.source ahead
            → Matches self.new.follower (progress_rest p made g)) }
    {
        for before in 0..made {
            let t = before + 1;
            let count = self.take_deferred(t);
            if !self.follower.catch_up(t, count)? {
                return Ok(());
            }
        }
        Ok(())
    }

    /// All actions of the log, where it led to this machine; those that are deferred come last, by rising process.
    pub fn finish(self, machine: &PieceMachine) -> Result<Vec<Action>, AllocError>
        ensures { IfOk result (λ actions. (p : Program) (events : List EventStep) → WellFormed p
            → IsAlong p events (parts machine.now) self.entry → self.entry.is_whole ≡ true
            → IsExplanationOf p events (parts machine.now) (map action_of actions.items)) }
    {
        let mut recorder = self;
        recorder.take_rest(machine.machine().threads())?;
        Ok(recorder.follower.into_actions())
    }
}
