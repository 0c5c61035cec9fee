use robustexit::ExitPhase;
use words::Fault;

/// What came of the next step of a thread, taken where it is a local one. Its one number has room in a register beside
/// its kind; with a fault in it, it would go through memory at each step.
#[derive(Clone, Copy)]
pub enum Progress {
    /// The step was taken, and the next instruction is at this place. It isn't in the activation yet.
    Went(u32),
    /// The step was taken, the next instruction is the one behind it, and this word is the top operand. It isn't among
    /// the activation's operands yet.
    Holds(u32),
    /// The step was taken, and failed. The fault stands beside it.
    Failed,
    /// The next step is no local one, so none was taken.
    Stayed,
}

/// What becomes of a thread that runs its code, once its request is answered.
#[derive(Clone, Copy)]
pub enum Answered {
    /// It goes on, or stays as it is where it makes no request.
    GoesOn,
    /// It fails.
    Fails(Fault),
    /// It has returned from its last frame.
    Leaves(ExitPhase),
}
