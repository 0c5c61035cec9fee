// What an action changes, as the page has it.

use crate::json::write_comma;
use program::Member;
use source_offers::{End, Place, Stage};
use source_states::{Action, ActionKind, SourceState};
use source_table::Hold;
use text_writer::TextWriter;

// What a process does, with the word for it and up to two numbers.
fn write_doing(out: &mut TextWriter, word: &str, numbers: &[u64]) {
    out.text(",\"");
    out.text(word);
    out.text("\"");
    for number in numbers {
        out.text(",");
        out.number(*number);
    }
}

// Writes that a process waits on a condition, or was resumed there.
fn write_suspended(out: &mut TextWriter, condition: Member, waits: bool) {
    let monitor = u64::from(condition.monitor);
    if waits {
        write_doing(out, "waits", &[monitor, u64::from(condition.number)]);
    } else {
        write_doing(out, "resumes", &[monitor]);
    }
}

// Writes what a process does that stands so.
fn write_stage(out: &mut TextWriter, stage: &Stage<'_>, waits: bool) {
    match stage {
        Stage::Entering(monitor) => write_doing(out, "enters", &[u64::from(*monitor)]),
        Stage::Suspended(condition) => write_suspended(out, *condition, waits),
        Stage::Joining { child, .. } => write_doing(out, "joins", &[*child]),
        Stage::Dying(_, _) => write_doing(out, "dies", &[]),
        Stage::Over(End::Ended(_)) => write_doing(out, "ended", &[]),
        Stage::Over(End::Aborted(_)) => write_doing(out, "aborted", &[]),
        _ => write_doing(out, "runs", &[]),
    }
}

// Writes the number of a process, how many procedures run in it, and what it does.
fn write_process(out: &mut TextWriter, state: &SourceState<'_>, number: u64) {
    let Some(process) = state.process(number) else {
        return;
    };
    out.text("[");
    out.number(number);
    out.text(",");
    out.number((process.callers.len() as u64).saturating_add(1));
    write_stage(out, &process.stage, state.waits(number).is_some());
    out.text("]");
}

// Writes what these processes do, behind others.
fn write_more(out: &mut TextWriter, state: &SourceState<'_>, numbers: &[u64]) {
    for number in numbers {
        out.text(",");
        write_process(out, state, *number);
    }
}

// Writes what each process does that an action is about.
fn write_processes(out: &mut TextWriter, state: &SourceState<'_>, action: &Action) {
    out.text(",\"now\":[");
    write_process(out, state, action.process);
    match &action.kind {
        ActionKind::Fork(child) => write_more(out, state, &[*child]),
        ActionKind::Notify(_, resumed) => write_more(out, state, resumed.as_slice()),
        ActionKind::Broadcast(_, resumed) => write_more(out, state, resumed.as_slice()),
        ActionKind::Kill(resumed, _) => write_more(out, state, resumed.as_slice()),
        _ => {}
    }
    out.text("]");
}

// Writes whom an action resumes.
fn write_resumed(out: &mut TextWriter, resumed: &[u64]) {
    out.text(",\"wakes\":[");
    for (index, number) in resumed.iter().enumerate() {
        write_comma(out, index);
        out.number(*number);
    }
    out.text("]");
}

// Writes whom an action resumes, where it can resume anybody.
fn write_wakes(out: &mut TextWriter, action: &Action) {
    match &action.kind {
        ActionKind::Notify(_, resumed) => write_resumed(out, resumed.as_slice()),
        ActionKind::Broadcast(_, resumed) => write_resumed(out, resumed.as_slice()),
        ActionKind::Kill(resumed, _) => write_resumed(out, resumed.as_slice()),
        _ => {}
    }
}

// The monitor that an action takes or gives up.
fn monitor_of(kind: &ActionKind) -> Option<u32> {
    match kind {
        ActionKind::Enter(monitor) => Some(*monitor),
        ActionKind::Exit(monitor) => Some(*monitor),
        ActionKind::Resume(monitor) => Some(*monitor),
        ActionKind::Abandon(monitor) => Some(*monitor),
        ActionKind::Wait(condition) => Some(condition.monitor),
        _ => None,
    }
}

// Writes who holds the monitor that an action takes or gives up: 0 is nobody, and -1 one that died in it.
fn write_hold(out: &mut TextWriter, state: &SourceState<'_>, action: &Action) {
    let Some(monitor) = monitor_of(&action.kind) else {
        return;
    };
    out.text(",\"holds\":[");
    out.number(u64::from(monitor));
    out.text(",");
    match state.hold(monitor) {
        Hold::Free => out.text("0"),
        Hold::Abandoned => out.text("-1"),
        Hold::HeldBy(process) => out.number(process),
    }
    out.text("]");
}

/// Writes what an action changed of processes and monitors, that led to a state.
pub(crate) fn write_changes(out: &mut TextWriter, state: &SourceState<'_>, action: &Action) {
    write_wakes(out, action);
    write_hold(out, state, action);
    write_processes(out, state, action);
}

// The first variable of one list of those that aren't 0 that has another value in a second one.
fn first_change(known: &[(Place, i64)], values: &[(Place, i64)]) -> Option<(Place, i64)> {
    for (before, after) in known.iter().zip(values) {
        if before.0 != after.0 {
            return Some(if after.0 < before.0 {
                *after
            } else {
                (before.0, 0)
            });
        }
        if before.1 != after.1 {
            return Some(*after);
        }
    }
    match (known.get(values.len()), values.get(known.len())) {
        (Some(before), _) => Some((before.0, 0)),
        (None, Some(after)) => Some(*after),
        (None, None) => None,
    }
}

/// Writes the variable that an assignment changed, where it did: its monitor, its member, its index and its value. The
/// values before it are known, and then those behind it.
pub(crate) fn write_assigned(
    out: &mut TextWriter,
    known: &mut Vec<(Place, i64)>,
    values: &[(Place, i64)],
) {
    let Some((place, value)) = first_change(known.as_slice(), values) else {
        return;
    };
    out.text(",\"set\":[");
    out.number(u64::from(place.monitor));
    out.text(",");
    out.number(u64::from(place.member));
    out.text(",");
    out.number(u64::from(place.index));
    out.text(",");
    out.signed(value);
    out.text("]");
    known.clear();
    if known.extend_from_slice(values).is_err() {
        out.fail();
    }
}
