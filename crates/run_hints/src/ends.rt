use crate::asserted::append_test_before;
use crate::causes::deed;
use crate::circles::append_circles;
use crate::follower::Follower;
use crate::names::{append_condition, append_monitor};
use crate::stands::append_stand;
use places::places_of;
use program::{Checked, Member, Names};
use source_offers::{End, Stage};
use source_states::Action;
use source_table::Hold;
use std::alloc::{AllocError, Global};
use text_writer::TextWriter;
use words::{Cause, Fault};

// Appends who holds a monitor.
fn append_holder(out: &mut TextWriter, follower: &Follower<'_, '_>, monitor: u32) {
    match follower.state.hold(monitor) {
        Hold::Free => out.text(", which is free,"),
        Hold::Abandoned => out.text(", which is abandoned,"),
        Hold::HeldBy(process) => { out.form(", which process $ holds,", &[process]) }
    }
}

// Appends what a process does that waits on a condition, or was notified there.
fn append_suspended(
    out: &mut TextWriter,
    follower: &Follower<'_, '_>,
    names: &Names<'_>,
    process: u64,
    condition: Member,
) {
    if follower.state.waits(process).is_some() {
        out.text(" waits on ");
        return append_condition(out, names, condition);
    }
    out.text(" resumes ");
    append_monitor(out, names, condition.monitor);
    append_holder(out, follower, condition.monitor)
}

// Appends what a process did that aborted of this cause.
fn append_cause(out: &mut TextWriter, follower: &Follower<'_, '_>, process: u64, cause: Cause) {
    out.text(" ");
    out.text(deed(cause));
    if cause == Cause::Faulted(Fault::AbortStatement) {
        append_test_before(out, follower, process)
    }
}

// Appends what a process does at this stage.
fn append_deed(
    out: &mut TextWriter,
    follower: &Follower<'_, '_>,
    names: &Names<'_>,
    process: u64,
    stage: &Stage<'_>,
) {
    match stage {
        Stage::Entering(monitor) => {
            out.text(" enters ");
            append_monitor(out, names, *monitor);
            append_holder(out, follower, *monitor)
        }
        Stage::Suspended(condition) => append_suspended(out, follower, names, process, *condition),
        Stage::Joining { child, .. } => { out.form(" joins process $", &[*child]) }
        Stage::Over(End::Aborted(cause)) => append_cause(out, follower, process, *cause),
        Stage::Over(End::Ended(_)) => out.text(" has ended"),
        Stage::Dying(cause, _) => {
            append_cause(out, follower, process, *cause);
            out.text(", and is dying,")
        }
        _ => out.text(" goes on"),
    }
}

/// Appends the line of what a process does, and where.
pub(crate) fn append_process(
    out: &mut TextWriter,
    file: &str,
    follower: &Follower<'_, '_>,
    names: &Names<'_>,
    process: u64,
) {
    let Some(found) = follower.state.process(process) else {
        return;
    };
    out.form("  process $", &[process]);
    append_deed(out, follower, names, process, &found.stage);
    match found.stage {
        Stage::Over(End::Ended(_)) => {}
        Stage::Leaving(_) => {}
        _ => append_stand(out, file, follower, process),
    }
    out.text("\n")
}

// Whether a process is told of: it isn't over, or it aborted.
fn is_told(follower: &Follower<'_, '_>, process: u64) -> bool {
    !matches!(follower.state.over(process), Some(End::Ended(_)))
}

// Appends the lines of the processes that are told of, by rising number, and of circles.
fn append_all(
    alloc: Global,
    out: &mut TextWriter,
    file: &str,
    follower: &Follower<'_, '_>,
    names: &Names<'_>,
) {
    for index in 0..follower.state.made() {
        let process = index.saturating_add(1);
        if is_told(follower, process) {
            append_process(out, file, follower, names, process);
        }
    }
    append_circles(alloc, out, &follower.state)
}

/// The hints to the end of a run of a program, whose text this is: a line for each process that isn't over or that
/// aborted, with what it does or did and where, and one for each circle of processes that wait for one another.
///
/// # Errors
///
/// Where memory runs out, and for nothing else.
pub fn end_hints(
    alloc: Global,
    file: &str,
    text: &[u8],
    checked: &Checked,
    actions: &[Action],
) -> Result<String, AllocError> {
    let places = places_of(alloc, text)?;
    let mut out = TextWriter::new(alloc);
    match Follower::opening(alloc, checked, &places) {
        Ok(mut follower) => {
            append_hints(
                alloc,
                &mut out,
                file,
                &mut follower,
                checked.names(),
                actions,
            )
        }
        Err(_) => out.fail(),
    }
    out.finish()
}

// Follows actions, and appends the hints to their end.
fn append_hints(
    alloc: Global,
    out: &mut TextWriter,
    file: &str,
    follower: &mut Follower<'_, '_>,
    names: &Names<'_>,
    actions: &[Action],
) {
    follower.begin(out);
    follower.pass_all(out, actions);
    append_all(alloc, out, file, follower, names)
}
