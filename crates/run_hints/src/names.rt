// The names of things. They have letters and digits alone, but for that of the file, of which a byte that a terminal
// doesn't show as one sign is shown as a question mark.

use places::{Piece, Places};
use program::{Member, Names};
use text_writer::TextWriter;

/// Appends `FILE:LINE` of a token.
pub(crate) fn append_place(out: &mut TextWriter, file: &str, places: &Places<'_>, token: usize) {
    out.shown(file.as_bytes());
    out.form(":$", &[u64::from(places.place(token).line)])
}

// Appends the name of a piece, with its monitor's before it.
fn append_piece_name(out: &mut TextWriter, piece: &Piece<'_>) {
    if let Some(monitor) = piece.monitor {
        out.shown(monitor);
        out.text(".");
    }
    out.shown(piece.name)
}

/// Appends the name of a piece of this number.
pub(crate) fn append_piece(out: &mut TextWriter, places: &Places<'_>, number: u32) {
    match places.piece(number) {
        Some(piece) => append_piece_name(out, &piece),
        None => {}
    }
}

/// Appends the name of a monitor.
pub(crate) fn append_monitor(out: &mut TextWriter, names: &Names<'_>, monitor: u32) {
    match names.monitors.get(monitor as usize) {
        Some(naming) => out.shown(naming.name),
        None => {}
    }
}

/// Appends the name of a member of a monitor.
pub(crate) fn append_member(out: &mut TextWriter, names: &Names<'_>, member: Member) {
    let Some(naming) = names.monitors.get(member.monitor as usize) else {
        return;
    };
    match naming.members.get(member.number as usize) {
        Some(name) => out.shown(name),
        None => {}
    }
}

/// Appends the name of a condition, with its monitor's before it.
pub(crate) fn append_condition(out: &mut TextWriter, names: &Names<'_>, condition: Member) {
    append_monitor(out, names, condition.monitor);
    out.text(".");
    append_member(out, names, condition)
}
