ghost use Rattle.std.specs.Prelude.{◌≡◌, ◌++◌, ◌∷◌, [], Contains, OnOk};
ghost use Rattle.image_states.specs.Packed.{IsPrefix};

use crate::packed::Packed;
use std::alloc::AllocError;

/// By which kind of step a state comes.
#[derive(Clone, Copy)]
pub enum Doing {
    /// A step of the thread's own.
    Own,
    /// A wake of the thread that nobody called for.
    Stray,
    /// A kill, by which the thread begins to die.
    Kill,
}

/// A state that may come next. Whom the step woke or moved is seen of the places of both states.
#[derive(Drop)]
pub struct Next {
    /// The state. Behind the step, its thread and the one that it made were taken on by local steps, as many as
    /// `MOST_AT_ONCE` at most, by none of which they begin to die.
    pub state: Packed,
    /// The thread whose step led there, from 1.
    pub thread: u32,
    /// What step it was.
    pub doing: Doing,
}

// The state comes next by a step of this kind, of this thread.
pub(crate) fn push_next(
    found: &mut Vec<Next>,
    state: Packed,
    thread: u32,
    doing: Doing,
) -> Result<(), AllocError>
    ensures longer { OnOk result (IsPrefix found.old.items found.new.items) }
    ensures last { OnOk result (found.new.items
        ≡ found.old.items ++ (record { state = state; thread = thread; doing = doing }) ∷ []) }
    ensures there { OnOk result (Contains found.new.items
        (record { state = state; thread = thread; doing = doing })) }
{
    found.push(Next {
        state,
        thread,
        doing,
    })?;
    Ok(())
}
