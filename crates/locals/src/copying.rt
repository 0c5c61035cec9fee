//! How an activation begins, is copied and is compared. Locals that aren't in use are looked at by none of that.
ghost use Rattle.std.specs.Prelude.{◌≡◌, ◌≢◌, ◌≤◌, MatchBool, length, reverse};
ghost use Rattle.isa.specs.Limits.{most_locals};
ghost use Rattle.locals.specs.Limits.{most_operands};
ghost use Rattle.locals.specs.Threads.{opening_thread};
ghost use Rattle.locals.specs.Uses.{AreBlank, IsBlank};
ghost use Rattle.locals.specs.Views.{running};

use crate::activation::{Activation, MOST_CALLERS, MOST_OPERANDS};
use crate::frame::{FEW, Frame, Locals, copy_frames, same_frames};
use crate::stack::Stack;

impl Activation {
    /// The start of a procedure, with its arguments from the lowest operand up.
    pub fn start(place: u32, arguments: &[u32]) -> Activation
        requires { length arguments.now ≤ most_operands }
        ensures { running result ≡ opening_thread place (reverse arguments.now) }
    {
        Activation {
            place,
            operands: Stack::of(arguments),
            locals: Locals::fresh(),
            callers: Stack::new(),
            used: 0,
        }
    }

    /// A copy.
    pub fn copy(&self) -> Activation
        ensures { result ≡ self.now }
    {
        Activation {
            place: self.place,
            operands: self.operands.copy(),
            locals: self.locals,
            callers: self.callers.copy(),
            used: self.used,
        }
    }

    // How many locals may be in use of either.
    fn used_with(&self, other: &Activation) -> usize
        ensures within { result ≤ most_locals }
        ensures locals { IsBlank result self.now.locals × IsBlank result other.now.locals }
        ensures callers { AreBlank result self.now.callers × AreBlank result other.now.callers }
    {
        self.used.max(other.used)
    }

    /// Becomes a copy of another, in its place. Most have few operands and as many frames as before: that takes no call.
    #[inline(always)]
    pub fn copy_from(&mut self, other: &Activation)
        ensures { self.new ≡ other.now }
    {
        if self.operands.is_few()
            && other.operands.is_few()
            && self.callers.len() == other.callers.len()
            && self.used_with(other) <= FEW
        {
            self.copy_few(other);
        } else {
            self.copy_any(other);
        }
    }

    // The same of such a one.
    #[inline(always)]
    fn copy_few(&mut self, other: &Activation)
        requires operands { (length self.old.operands ≤ 2) × (length other.now.operands ≤ 2) }
        requires callers { length self.old.callers ≡ length other.now.callers }
        ensures { self.new ≡ other.now }
    {
        let used = self.used_with(other);
        self.place = other.place;
        self.operands.copy_few(&other.operands);
        self.locals.copy_from(&other.locals, used);
        copy_as_many(&mut self.callers, &other.callers, used);
        self.used = other.used;
    }

    // The same of any other.
    #[inline(never)]
    fn copy_any(&mut self, other: &Activation)
        ensures { self.new ≡ other.now }
    {
        let used = self.used_with(other);
        self.place = other.place;
        self.operands.copy_from(&other.operands);
        self.locals.copy_from(&other.locals, used);
        copy_callers(&mut self.callers, &other.callers, used);
        self.used = other.used;
    }

    /// Whether it is the same thread as the other.
    pub fn equals(&self, other: &Activation) -> bool
        ensures { MatchBool result (running self.now ≡ running other.now) (running self.now ≢ running other.now) }
    {
        let used = self.used_with(other);
        self.place == other.place
            && same_operands(&self.operands, &other.operands)
            && self.locals.equals(&other.locals, used)
            && same_callers(&self.callers, &other.callers, used)
    }
}

fn same_operands(a: &Stack<u32, MOST_OPERANDS>, b: &Stack<u32, MOST_OPERANDS>) -> bool
    ensures { MatchBool result (a.now ≡ b.now) (a.now ≢ b.now) }
{
    a.as_slice() == b.as_slice()
}

fn same_callers(a: &Stack<Frame, MOST_CALLERS>, b: &Stack<Frame, MOST_CALLERS>, used: usize) -> bool
    requires within { used ≤ most_locals }
    requires blank { AreBlank used a.now × AreBlank used b.now }
    ensures { MatchBool result (a.now ≡ b.now) (a.now ≢ b.now) }
{
    same_frames(a.as_slice(), b.as_slice(), used)
}

// Where there are as many frames, they are written over where they are in use alone.
fn copy_callers(to: &mut Stack<Frame, MOST_CALLERS>, from: &Stack<Frame, MOST_CALLERS>, used: usize)
    requires within { used ≤ most_locals }
    requires blank { AreBlank used to.old × AreBlank used from.now }
    ensures { to.new ≡ from.now }
{
    if to.len() == from.len() {
        copy_as_many(to, from, used);
    } else {
        to.copy_from(from);
    }
}

#[inline(always)]
fn copy_as_many(to: &mut Stack<Frame, MOST_CALLERS>, from: &Stack<Frame, MOST_CALLERS>, used: usize)
    requires same { length to.old ≡ length from.now }
    requires within { used ≤ most_locals }
    requires blank { AreBlank used to.old × AreBlank used from.now }
    ensures { to.new ≡ from.now }
{
    copy_frames(to.items.as_mut_slice(), from.as_slice(), used);
}
