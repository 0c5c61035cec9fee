use isa::Instr;
use program::Member;

/// The source action that stands at an instruction. Those at once are placed where the instruction is run; those later
/// touch what belongs to the process alone, and are placed before its next one that is placed at once.
#[derive(Clone, Copy, PartialEq, Eq, Debug)]
pub enum Mark {
    /// None.
    Plain,
    /// The process enters this monitor, where the compare-and-swap answers what it expects.
    Enter(u32),
    /// The process resumes in this monitor, where the compare-and-swap answers what it expects.
    Resume(u32),
    /// The process exits this monitor.
    Exit(u32),
    /// The process waits on this condition.
    Wait(Member),
    /// The process notifies this condition.
    Notify(Member),
    /// The process broadcasts this condition.
    Broadcast(Member),
    /// A member, or an element of one, is assigned.
    AssignMember,
    /// A number is printed.
    Print,
    /// A process is forked.
    Fork,
    /// A process is claimed, where the claim word was 0.
    Claim,
    /// A process is joined, where its id word is 0.
    Join,
    /// A local is assigned, later.
    AssignLocal,
    /// The test of an IF or a WHILE is done, later.
    Test,
    /// A procedure is called, later.
    Call,
    /// A procedure returns, later.
    Return,
    /// A forked procedure returns in the last frame, later. In another frame no action stands here.
    LastReturn,
}

/// An instruction, and the source action that stands at it.
#[derive(Clone, Copy, PartialEq, Eq, Debug)]
pub struct Marked {
    /// The instruction.
    pub instruction: Instr,
    /// The action.
    pub mark: Mark,
}
