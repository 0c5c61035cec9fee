ghost use Rattle.std.specs.Prelude.{◌≡◌, ℕ};
ghost use Rattle.locals.specs.Threads.{Exits};
ghost use Rattle.image_states.specs.Nexts.{RunsOn};

use isa::Image;
use locals::{Local, NextStep};
use robustexit::ExitPhase;
use std::mem;

/// How many local steps a thread is taken on at once, at most.
pub const MOST_AT_ONCE: u32 = 4096;

/// Room for the local states that are tried, which a search has once.
#[derive(Drop)]
pub struct Scratch {
    // The local state of the thread whose step is looked at.
    pub(crate) here: Local,
    // The same further on.
    pub(crate) ahead: Local,
    // One that doesn't run its code where the one that is looked at does, and does where that one doesn't.
    other: Local,
    // One that was killed.
    pub(crate) killed: Local,
}

impl Scratch {
    /// Room for them.
    pub fn new() -> Scratch {
        Scratch {
            here: Local::exiting(ExitPhase::Ended),
            ahead: Local::exiting(ExitPhase::Ended),
            other: Local::exiting(ExitPhase::Ended),
            killed: Local::exiting(ExitPhase::Ended),
        }
    }

    /// The local state that is looked at is this one. Where one of the two runs its code and the one before doesn't, another
    /// takes the place of that: to make a running one anew takes more time than any step.
    pub fn look_at(&mut self, local: &Local)
        ensures { self.new.here ≡ local.now }
    {
        if self.here.is_dying() != local.is_dying() {
            mem::swap(&mut self.here, &mut self.other);
        }
        self.here.copy_from(local);
    }

    // It is in this phase of its exit.
    fn enter_phase(&mut self, phase: ExitPhase)
        ensures { self.new.here ≡ Exits phase }
    {
        if !self.here.is_dying() {
            mem::swap(&mut self.here, &mut self.other);
        }
        self.here.enter_phase(phase);
    }

    // It is this one, of thread `t`. One in its exit is made by its phase: a copy of one that doesn't run its code takes more
    // time.
    pub(crate) fn look_at_thread(&mut self, image: &Image, t: u32, local: &Local)
        ensures { self.new.here ≡ local.now }
    {
        if !local.is_dying() {
            self.look_at(local);
            return;
        }
        match local.next_step(image, t) {
            NextStep::Exit(phase) => self.enter_phase(phase),
            _ => self.look_at(local),
        }
    }

    /// The local state that is looked at.
    pub fn here(&self) -> &Local
        ensures { result.now ≡ self.now.here }
    {
        &self.here
    }

    /// Takes it on by local steps of thread `t`, by none of which it begins to die.
    pub fn run_on(&mut self, image: &Image, t: u32)
        ensures { (count : ℕ) × RunsOn image.now t count self.old.here self.new.here }
    {
        if self.here.is_dying() {
            return;
        }
        self.ahead.copy_from(&self.here);
        let count = self.ahead.run(image, t, MOST_AT_ONCE);
        if count == 0 {
            return;
        }
        let dies = self.ahead.is_dying();
        if dies {
            self.here.run(image, t, count - 1);
        } else {
            self.here.copy_from(&self.ahead);
        }
    }
}
