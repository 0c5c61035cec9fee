use crate::changes::{write_assigned, write_changes};
use crate::data::PagedRun;
use crate::json::write_bytes;
use actionlines::append_line;
use program::Checked;
use run_hints::asides_of;
use source_offers::Place;
use source_states::{Action, ActionKind, SourceState};
use sourcemeaning::can_move;
use std::alloc::Global;
use text_writer::TextWriter;
use words::ImageVersion;

// What is used again for each action.
#[derive(Drop)]
struct Scratch {
    // The line of the action.
    line: Vec<u8>,
    // The variables that aren't 0.
    values: Vec<(Place, i64)>,
}

// Where the first of these bytes is that is this one, or their end.
fn place_of(bytes: &[u8], wanted: u8) -> usize {
    for (index, byte) in bytes.iter().enumerate() {
        if *byte == wanted {
            return index;
        }
    }
    bytes.len()
}

// Writes the line of an action, as `explain` prints it.
fn write_line(out: &mut TextWriter, checked: &Checked<'_>, action: &Action, line: &mut Vec<u8>) {
    line.clear();
    if append_line(line, checked.names(), action).is_err() {
        out.fail();
    }
    let end = place_of(line.as_slice(), b'\n');
    out.text(",\n{\"text\":");
    write_bytes(out, line.as_slice().get(..end).unwrap_or(&[]));
}

// Writes the line of the source at which an action was done, and what it did there. They stand behind the file's name.
fn write_place(out: &mut TextWriter, aside: &str, file: &str) {
    let from = file.len().saturating_add(3);
    let rest = aside.as_bytes().get(from..).unwrap_or(&[]);
    if rest.is_empty() {
        return;
    }
    let blank = place_of(rest, b' ');
    out.text(",\"line\":");
    out.shown(rest.get(..blank).unwrap_or(&[]));
    let more = rest.get(blank.saturating_add(1)..).unwrap_or(&[]);
    if !more.is_empty() {
        out.text(",\"more\":");
        write_bytes(out, more);
    }
}

// Writes an action that led to a state.
fn write_action(
    out: &mut TextWriter,
    run: &PagedRun<'_, '_>,
    state: &SourceState<'_>,
    action: &Action,
    aside: &str,
    scratch: &mut Scratch,
) {
    write_line(out, run.checked, action, &mut scratch.line);
    out.text(",\"process\":");
    out.number(action.process);
    write_place(out, aside, run.file);
    write_changes(out, state, action);
    if matches!(action.kind, ActionKind::Assign) {
        write_assigned(out, &mut scratch.values, state.variables().entries());
    }
    out.text("}");
}

// Writes the actions from a state on, up to the first that isn't possible.
fn write_from<'p>(
    alloc: Global,
    out: &mut TextWriter,
    run: &PagedRun<'p, '_>,
    asides: &[String],
    state: &mut SourceState<'p>,
    scratch: &mut Scratch,
) {
    let program = run.checked.program();
    for (action, aside) in run.actions.iter().zip(asides) {
        match state.advance(alloc, program, action) {
            Ok(true) => write_action(out, run, state, action, aside.as_str(), scratch),
            Ok(false) => return,
            Err(_) => return out.fail(),
        }
    }
}

// Whether processes have not ended, and none of them can move.
fn is_stuck(checked: &Checked<'_>, state: &SourceState<'_>) -> bool {
    let mut rests = false;
    for index in 0..state.made() {
        let number = index.saturating_add(1);
        if can_move(state, checked, number) {
            return false;
        }
        rests = rests || state.over(number).is_none();
    }
    rests
}

// Writes the actions from a state on, and whether no process can move at their end.
fn write_run<'p>(
    alloc: Global,
    out: &mut TextWriter,
    run: &PagedRun<'p, '_>,
    asides: &[String],
    state: &mut SourceState<'p>,
) {
    let mut scratch = Scratch {
        line: Vec::new(alloc),
        values: Vec::new(alloc),
    };
    write_from(alloc, out, run, asides, state, &mut scratch);
    out.text("\n],\n\"stuck\":");
    out.text(if is_stuck(run.checked, state) {
        "true"
    } else {
        "false"
    });
}

// Writes the run from its opening state on.
fn write_whole(alloc: Global, out: &mut TextWriter, run: &PagedRun<'_, '_>, asides: &[String]) {
    match SourceState::opening(alloc, run.checked, ImageVersion::Two) {
        Ok(mut state) => write_run(alloc, out, run, asides, &mut state),
        Err(_) => out.fail(),
    }
}

/// Writes the actions of a run, with what each of them changes, and whether the run is stuck.
pub(crate) fn write_actions(alloc: Global, out: &mut TextWriter, run: &PagedRun<'_, '_>) {
    out.text(",\n\"actions\":[null");
    match asides_of(alloc, run.file, run.text, run.checked, run.actions) {
        Ok(asides) => write_whole(alloc, out, run, asides.as_slice()),
        Err(_) => out.fail(),
    }
}
