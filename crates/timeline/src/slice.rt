use program::{Member, Role};
use source_offers::{Frame, Process, Stage};
use source_states::SourceState;
use std::alloc::Global;

/// What a process is doing, as a slice of its track. Later slices lie within earlier ones.
#[derive(Clone, Copy, PartialEq, Eq)]
pub(crate) enum Slice {
    /// Runs a procedure of this role.
    Runs(Role),
    /// Holds this monitor.
    Holds(u32),
    /// Waits on this condition.
    Waits(Member),
    /// Was resumed, and hasn't taken this monitor again.
    Resumed(u32),
    /// Called an ENTRY procedure of this monitor, and hasn't entered.
    Enters(u32),
    /// Waits for the end of this process.
    Joins(u64),
    /// Is dying.
    Dies,
}

/// What a process is doing, the outermost slice first. Where memory runs out it tells so.
#[derive(Drop)]
pub(crate) struct Slices {
    /// The slices, as far as memory sufficed.
    pub list: Vec<Slice>,
    /// Whether memory ran out.
    pub failed: bool,
}

impl Slices {
    /// None of them.
    pub fn new(alloc: Global) -> Slices {
        Slices {
            list: Vec::new(alloc),
            failed: false,
        }
    }

    // Appends a slice within those that stand there.
    fn push(&mut self, slice: Slice) {
        if self.list.push(slice).is_err() {
            self.failed = true;
        }
    }
}

// The role of a process's outermost procedure.
fn outermost(process: &Process) -> Role {
    match process.callers.as_slice() {
        [] => process.frame.role,
        [first, ..] => first.role,
    }
}

// Appends the monitor that a procedure holds, where it is an ENTRY procedure.
fn append_hold(slices: &mut Slices, role: Role) {
    match role {
        Role::Entry(monitor) => slices.push(Slice::Holds(monitor)),
        _ => {}
    }
}

// Appends procedures that wait for one that they called, the outermost first.
fn append_callers(slices: &mut Slices, callers: &[Frame]) {
    for caller in callers {
        slices.push(Slice::Runs(caller.role));
        append_hold(slices, caller.role);
    }
}

// Appends the monitors that a dying process holds, of these, from the last on.
fn append_left(slices: &mut Slices, monitors: &[u32]) {
    for monitor in monitors.iter().rev() {
        slices.push(Slice::Holds(*monitor));
    }
}

// How many slices lie outside of the one that holds a monitor.
fn outside(slices: &[Slice], monitor: u32) -> usize {
    for (place, slice) in slices.iter().enumerate() {
        if *slice == Slice::Holds(monitor) {
            return place;
        }
    }
    slices.len()
}

// Appends the wait of a process on a condition, in place of its holding the monitor and of what it does within.
fn append_wait(slices: &mut Slices, state: &SourceState, number: u64, condition: Member) {
    let kept = outside(slices.list.as_slice(), condition.monitor);
    slices.list.truncate(kept);
    match state.waits(number) {
        Some(_) => slices.push(Slice::Waits(condition)),
        None => slices.push(Slice::Resumed(condition.monitor)),
    }
}

// Appends what a process is doing that stands in a procedure.
fn append_running(slices: &mut Slices, state: &SourceState, number: u64, process: &Process) {
    let role = process.frame.role;
    append_callers(slices, process.callers.as_slice());
    slices.push(Slice::Runs(role));
    match &process.stage {
        Stage::Entering(monitor) => slices.push(Slice::Enters(*monitor)),
        Stage::Returning(_) => {}
        Stage::Suspended(condition) => append_wait(slices, state, number, *condition),
        Stage::Joining { child, .. } => {
            append_hold(slices, role);
            slices.push(Slice::Joins(*child))
        }
        _ => append_hold(slices, role),
    }
}

// Appends what a process is doing.
fn append_slices(slices: &mut Slices, state: &SourceState, number: u64, process: &Process) {
    match &process.stage {
        Stage::Over(_) => {}
        Stage::Leaving(_) => slices.push(Slice::Runs(outermost(process))),
        Stage::Dying(_, left) => {
            slices.push(Slice::Runs(outermost(process)));
            append_left(slices, left.as_slice());
            slices.push(Slice::Dies)
        }
        _ => append_running(slices, state, number, process),
    }
}

/// Appends what a process of this number is doing, if there is one, the outermost slice first.
pub(crate) fn append_slices_of(slices: &mut Slices, state: &SourceState, number: u64) {
    match state.process(number) {
        Some(process) => append_slices(slices, state, number, process),
        None => {}
    }
}
