ghost use Rattle.locals.specs.Uses.{IsWithin};

use crate::frame::{Frame, Locals};
use crate::stack::Stack;

/// The most operands of a thread.
pub const MOST_OPERANDS: usize = 512;

/// The most frames below a thread's first one.
pub const MOST_CALLERS: usize = 15;

/// A thread that runs its code.
#[derive(Drop)]
pub struct Activation {
    /// The place of the next instruction.
    pub place: u32,
    /// The operands.
    pub operands: Stack<u32, MOST_OPERANDS>,
    /// The locals of its frame.
    pub locals: Locals,
    /// The frames that its frame returns to, the innermost on top.
    pub callers: Stack<Frame, MOST_CALLERS>,
    /// How many of the locals of its frames may be in use: the words of the others are 0, so that nobody has to look at
    /// them.
    pub used: usize,
    ghost within: { IsWithin used locals callers },
}
