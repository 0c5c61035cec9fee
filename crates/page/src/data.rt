use crate::control_script::CONTROLS;
use crate::json::{write_bytes, write_comma, write_text};
use crate::lane_script::LANES;
use crate::list_script::LISTS;
use crate::markup::{BODY, HEAD, TAIL};
use crate::model_script::MODEL;
use crate::panel_script::PANELS;
use crate::steps::write_actions;
use crate::styles::STYLES;
use monitor_waits::{Attempt, attempts};
use packed_log::PackedLog;
use places::{Piece, places_of};
use program::{Checked, MemberType, MonitorNames, ValueType};
use source_states::Action;
use std::alloc::{AllocError, Global};
use text_writer::TextWriter;

/// A run as a page shows it.
#[derive(Clone, Copy)]
pub struct PagedRun<'p, 'n> {
    /// The name of the source text's file.
    pub file: &'p str,
    /// The bytes of the text.
    pub text: &'p [u8],
    /// Its program.
    pub checked: &'p Checked<'n>,
    /// The actions of the run.
    pub actions: &'p [Action],
    /// The log that these actions explain. It tells who waited for a monitor; where it is empty, only who called an
    /// ENTRY procedure and never got in.
    pub log: &'p PackedLog,
    /// Which run it is, and how it ended.
    pub title: &'p str,
}

// What the source calls a type.
fn word_of(kind: MemberType) -> &'static str {
    match kind {
        MemberType::Variable(ValueType::Integer) => "INTEGER",
        MemberType::Variable(ValueType::Boolean) => "BOOLEAN",
        MemberType::Variable(ValueType::Process) => "PROCESS",
        MemberType::Condition => "CONDITION",
        MemberType::Array(_) => "ARRAY",
    }
}

// How many values a member has.
fn count_of(kind: MemberType) -> u64 {
    match kind {
        MemberType::Variable(_) => 1,
        MemberType::Condition => 0,
        MemberType::Array(count) => u64::from(count),
    }
}

// Writes a member of a monitor: its name, its type, and how many values it has.
fn write_member(out: &mut TextWriter, name: &[u8], kind: MemberType) {
    out.text("[");
    write_bytes(out, name);
    out.text(",\"");
    out.text(word_of(kind));
    out.text("\",");
    out.number(count_of(kind));
    out.text("]");
}

// Writes a monitor of these members.
fn write_monitor(out: &mut TextWriter, names: &MonitorNames<'_>, kinds: &[MemberType]) {
    out.text("{\"name\":");
    write_bytes(out, names.name);
    out.text(",\"members\":[");
    for (index, (name, kind)) in names.members.iter().zip(kinds).enumerate() {
        write_comma(out, index);
        write_member(out, *name, *kind);
    }
    out.text("]}");
}

// Writes the monitors.
fn write_monitors(out: &mut TextWriter, checked: &Checked<'_>) {
    let monitors = checked.program().monitors.as_slice();
    out.text(",\n\"monitors\":[");
    for (index, (names, monitor)) in checked.names().monitors.iter().zip(monitors).enumerate() {
        write_comma(out, index);
        write_monitor(out, names, monitor.members.as_slice());
    }
    out.text("]");
}

// Writes the name of a piece, with its monitor's before it, and the line of its name.
fn write_piece(out: &mut TextWriter, piece: &Piece<'_>, line: u64) {
    out.text("{\"monitor\":");
    write_bytes(out, piece.monitor.unwrap_or(&[]));
    out.text(",\"name\":");
    write_bytes(out, piece.name);
    out.text(",\"line\":");
    out.number(line);
    out.text("}");
}

// Writes the procedures, RECOVER parts and the main part.
fn write_pieces(alloc: Global, out: &mut TextWriter, text: &[u8]) {
    let Ok(places) = places_of(alloc, text) else {
        return out.fail();
    };
    out.text(",\n\"pieces\":[");
    for (index, piece) in places.pieces.iter().enumerate() {
        write_comma(out, index);
        write_piece(out, piece, u64::from(places.place(piece.token).line));
    }
    out.text("]");
}

// Writes a failed attempt to take a monitor; -1 is one that is not known.
fn write_attempt(out: &mut TextWriter, attempt: &Attempt) {
    out.text("[");
    out.number(attempt.behind as u64);
    out.text(",");
    out.number(attempt.process);
    out.text(",");
    out.number(attempt.holder);
    out.text(",");
    match attempt.monitor {
        Some(monitor) => out.number(u64::from(monitor)),
        None => out.text("-1"),
    }
    out.text("]");
}

// Writes the failed attempts to take a monitor.
fn write_attempts(alloc: Global, out: &mut TextWriter, run: &PagedRun<'_, '_>) {
    let Ok(attempts) = attempts(alloc, run.log.iter(), run.actions) else {
        return out.fail();
    };
    out.text(",\n\"attempts\":[");
    for (index, attempt) in attempts.iter().enumerate() {
        write_comma(out, index);
        write_attempt(out, attempt);
    }
    out.text("]");
}

// Writes the run, as JSON.
fn write_data(alloc: Global, out: &mut TextWriter, run: &PagedRun<'_, '_>) {
    out.text("{\"mesamon\":\"page 1\",\n\"title\":");
    write_text(out, run.title);
    out.text(",\n\"file\":");
    write_text(out, run.file);
    out.text(",\n\"source\":");
    write_bytes(out, run.text);
    write_pieces(alloc, out, run.text);
    write_monitors(out, run.checked);
    write_actions(alloc, out, run);
    write_attempts(alloc, out, run);
    out.text("}\n");
}

// Writes texts as they are.
fn write_parts(out: &mut TextWriter, parts: &[&str]) {
    for part in parts {
        out.text(part);
    }
}

/// The page of a run: HTML with its styles and its script within, that asks for nothing from elsewhere. Of actions that
/// aren't a run it shows those before the first that isn't possible. `docs/pictures.md` says what its JSON has.
///
/// # Errors
///
/// Where memory runs out, and for nothing else.
pub fn page(alloc: Global, run: &PagedRun<'_, '_>) -> Result<String, AllocError> {
    let mut out = TextWriter::new(alloc);
    write_parts(&mut out, &[HEAD, STYLES, BODY]);
    write_data(alloc, &mut out, run);
    write_parts(&mut out, &[MODEL, LISTS, LANES, PANELS, CONTROLS, TAIL]);
    out.finish()
}
