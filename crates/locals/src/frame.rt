ghost use Rattle.std.specs.Prelude.{◌≡◌, ◌≢◌, ◌<◌, ◌≤◌, ◌-◌, ◌∷◌, MatchBool, length, slice_set, take};
ghost use Rattle.locals.specs.Limits.{most_callers};
ghost use Rattle.isa.specs.Limits.{most_locals};
ghost use Rattle.locals.specs.Threads.{fresh, local_at};
ghost use Rattle.locals.specs.Uses.{AreBlank, IsBlank};

use crate::activation::MOST_CALLERS;
use crate::stack::Stack;
use isa::Slot;

/// As many locals are copied without a call where no more are in use.
pub const FEW: usize = 8;

/// How many locals a frame has, besides the one of the templates.
pub const LOCALS: usize = isa::MOST_LOCALS as usize;

/// The locals of a frame.
#[derive(Clone, Copy)]
pub struct Locals {
    /// The procedure's own.
    pub values: [u32; LOCALS],
    /// The one that the code templates keep for themselves.
    pub scratch: u32,
}

impl Locals {
    /// Those of a new frame, which are 0.
    pub fn fresh() -> Locals
        ensures { result ≡ fresh }
    {
        Locals {
            values: [0; LOCALS],
            scratch: 0,
        }
    }

    /// What a local holds, and 0 for one past the last.
    pub fn get(&self, slot: Slot) -> u32
        ensures { result ≡ local_at self.now slot }
    {
        match slot {
            Slot::Local(i) if (i as usize) < LOCALS => self.values[i as usize],
            Slot::Local(_) => 0,
            Slot::Template => self.scratch,
        }
    }

    /// Become those of a new frame, in their place. None from this number on is in use.
    pub fn clear(&mut self, used: usize)
        requires within { used ≤ most_locals }
        requires blank { IsBlank used self.old }
        ensures { self.new ≡ fresh }
    {
        // So many at once take no call.
        if used <= FEW {
            self.clear_first(FEW);
        } else {
            self.clear_many(used);
        }
    }

    // The same of any number.
    #[inline(never)]
    fn clear_many(&mut self, used: usize)
        requires within { used ≤ most_locals }
        requires blank { IsBlank used self.old }
        ensures { self.new ≡ fresh }
    {
        self.clear_first(used);
    }

    #[inline(always)]
    fn clear_first(&mut self, used: usize)
        requires within { used ≤ most_locals }
        requires blank { IsBlank used self.old }
        ensures { self.new ≡ fresh }
    {
        let mut i = 0;
        while i < used {
            self.values[i] = 0;
            i += 1;
        }
        self.scratch = 0;
    }

    /// Become a copy of others, in their place. None from this number on is in use.
    #[inline(always)]
    pub fn copy_from(&mut self, other: &Locals, used: usize)
        requires within { used ≤ most_locals }
        requires blank { IsBlank used self.old × IsBlank used other.now }
        ensures { self.new ≡ other.now }
    {
        if used <= FEW {
            self.copy_few(other);
        } else {
            self.copy_many(other, used);
        }
    }

    // The same where there are few.
    #[inline(always)]
    fn copy_few(&mut self, other: &Locals)
        requires { IsBlank 8 self.old × IsBlank 8 other.now }
        ensures { self.new ≡ other.now }
    {
        self.values[..FEW].copy_from_slice(&other.values[..FEW]);
        self.scratch = other.scratch;
    }

    // The same of any number.
    #[inline(never)]
    fn copy_many(&mut self, other: &Locals, used: usize)
        requires within { used ≤ most_locals }
        requires blank { IsBlank used self.old × IsBlank used other.now }
        ensures { self.new ≡ other.now }
    {
        self.values[..used].copy_from_slice(&other.values[..used]);
        self.scratch = other.scratch;
    }

    /// Whether they are the same as others. None from this number on is in use.
    pub fn equals(&self, other: &Locals, used: usize) -> bool
        requires within { used ≤ most_locals }
        requires blank { IsBlank used self.now × IsBlank used other.now }
        ensures { MatchBool result (self.now ≡ other.now) (self.now ≢ other.now) }
    {
        self.scratch == other.scratch && self.has_used(other, used)
    }

    // Whether so many locals are those of the other. They are few mostly, and a slice's comparison is a call.
    fn has_used(&self, other: &Locals, used: usize) -> bool
        requires within { used ≤ most_locals }
        ensures { MatchBool result (take used self.now.values ≡ take used other.now.values)
            (take used self.now.values ≢ take used other.now.values) }
    {
        let mut i = 0;
        while i < used {
            if self.values[i] != other.values[i] {
                return false;
            }
            i += 1;
        }
        true
    }
}

impl Default for Locals {
    fn default() -> Locals {
        Locals::fresh()
    }
}

/// Where a call returns to, and the caller's locals.
#[derive(Clone, Copy, Default)]
pub struct Frame {
    /// The place of the instruction after the call.
    pub back: u32,
    /// The locals of the caller.
    pub locals: Locals,
}

impl Frame {
    // Becomes this one, in its place. No local from this number on is in use.
    #[inline(always)]
    fn fill(&mut self, back: u32, locals: &Locals, used: usize)
        requires within { used ≤ most_locals }
        requires blank { IsBlank used self.old.locals × IsBlank used locals.now }
        ensures { self.new ≡ record { back = back; locals = locals.now } }
    {
        self.back = back;
        self.locals.copy_from(locals, used);
    }

    /// Becomes a copy of another, in its place. No local from this number on is in use.
    pub fn copy_from(&mut self, other: &Frame, used: usize)
        requires within { used ≤ most_locals }
        requires blank { IsBlank used self.old.locals × IsBlank used other.now.locals }
        ensures { self.new ≡ other.now }
    {
        self.back = other.back;
        self.locals.copy_from(&other.locals, used);
    }
}

/// Puts a frame on top of others, where there is room for it. No local from this number on is in use. The frame is filled in
/// its place: one that is made elsewhere is copied whole, and twice.
pub fn keep_frame(frames: &mut Stack<Frame, MOST_CALLERS>, back: u32, locals: &Locals, used: usize)
    requires room { length frames.old < most_callers }
    requires within { used ≤ most_locals }
    requires blank { AreBlank used frames.old × IsBlank used locals.now }
    ensures { frames.new ≡ record { back = back; locals = locals.now } ∷ frames.old }
{
    frames.push(Frame {
        back: 0,
        locals: Locals::fresh(),
    });
    fill_last(frames.items.as_mut_slice(), back, locals, used);
}

// Makes the last of frames this one, in its place: only what is in use is copied.
#[inline(always)]
fn fill_last(frames: &mut [Frame], back: u32, locals: &Locals, used: usize)
    requires some { 0 < length frames.old }
    requires within { used ≤ most_locals }
    requires blank { AreBlank used frames.old × IsBlank used locals.now }
    ensures { frames.new ≡ slice_set frames.old (length frames.old - 1) (record { back = back; locals = locals.now }) }
{
    let last = frames.len() - 1;
    frames[last].fill(back, locals, used);
}

/// Makes frames copies of others, as many, in their place. No local from this number on is in use.
pub fn copy_frames(to: &mut [Frame], from: &[Frame], used: usize)
    requires same { length to.old ≡ length from.now }
    requires within { used ≤ most_locals }
    requires blank { AreBlank used to.old × AreBlank used from.now }
    ensures { to.new ≡ from.now }
{
    let mut i = 0;
    while i < from.len() {
        to[i].copy_from(&from[i], used);
        i += 1;
    }
}

/// Whether frames are the same as others. No local from this number on is in use.
pub fn same_frames(a: &[Frame], b: &[Frame], used: usize) -> bool
    requires within { used ≤ most_locals }
    requires blank { AreBlank used a.now × AreBlank used b.now }
    ensures { MatchBool result (a.now ≡ b.now) (a.now ≢ b.now) }
{
    if a.len() != b.len() {
        return false;
    }
    let mut i = 0;
    while i < a.len() {
        if a[i].back != b[i].back || !a[i].locals.equals(&b[i].locals, used) {
            return false;
        }
        i += 1;
    }
    true
}
