use program::Member;
use words::Fault;

/// An action of a process, as it is named: by all that determines what it leads to. `action_of` makes it an action of
/// the meaning.
#[derive(Drop)]
pub struct Action {
    /// The process, from 1.
    pub process: u64,
    /// What it does.
    pub kind: ActionKind,
}

/// What a process does in one action.
#[derive(Drop)]
pub enum ActionKind {
    /// Assigns a value to a variable or a local.
    Assign,
    /// Tests the condition of an IF or a WHILE.
    Test,
    /// Calls a procedure.
    Call,
    /// Hands a result to its caller.
    Return,
    /// Prints this number.
    Print(i64),
    /// Makes this process.
    Fork(u64),
    /// Claims this process for a JOIN.
    Claim(u64),
    /// Joins this process, which is over.
    Join(u64),
    /// Faults, and begins to die.
    Fails(Fault),
    /// Enters this monitor.
    Enter(u32),
    /// Gives up this monitor at the end of an ENTRY procedure.
    Exit(u32),
    /// Gives up the monitor of this condition, and waits on it.
    Wait(Member),
    /// Takes this monitor again after a WAIT.
    Resume(u32),
    /// Notifies this condition, and resumes these processes.
    Notify(Member, Vec<u64>),
    /// Broadcasts this condition, and resumes these processes.
    Broadcast(Member, Vec<u64>),
    /// Gives up this monitor, dying.
    Abandon(u32),
    /// Is over.
    Finish,
    /// Resumes though nobody notified this condition.
    Stray(Member),
    /// Dies where it stands; with the processes that it resumes, and the monitor that it abandons last, where that
    /// isn't its outermost.
    Kill(Vec<u64>, Option<u32>),
}
