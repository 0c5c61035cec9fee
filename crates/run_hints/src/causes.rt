use words::{Cause, Fault};

/// What a process did that aborted so.
pub(crate) fn deed(cause: Cause) -> &'static str {
    match cause {
        Cause::Faulted(fault) => fault_deed(fault),
        Cause::Killed => "was killed",
    }
}

// What a process did that met this fault.
fn fault_deed(fault: Fault) -> &'static str {
    match fault {
        Fault::ResultOutOfRange => "got a result out of range",
        Fault::DivisionByZero => "divided by zero",
        Fault::IndexOutOfRange => "used an index out of range",
        Fault::HandleNotJoinable => "joined a handle that can't be joined",
        Fault::ProcessTableFull => "forked where no process was left",
        Fault::AbortStatement => "came to ABORT",
        Fault::AbandonedMonitor => "entered an abandoned monitor without a RECOVER part",
        Fault::JoinedAborted => "joined an aborted process without an ABORTED part",
    }
}

/// What a fault is.
pub(crate) fn fault_name(fault: Fault) -> &'static str {
    match fault {
        Fault::ResultOutOfRange => "a result out of range",
        Fault::DivisionByZero => "a division by zero",
        Fault::IndexOutOfRange => "an index out of range",
        Fault::HandleNotJoinable => "a handle that can't be joined",
        Fault::ProcessTableFull => "no process left",
        Fault::AbortStatement => "ABORT",
        Fault::AbandonedMonitor => "an abandoned monitor without a RECOVER part",
        Fault::JoinedAborted => "an aborted process, and no ABORTED part",
    }
}
