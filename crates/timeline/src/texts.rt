// Names are written as they are: they have only letters and digits, so nothing in them needs escaping.

use crate::slice::Slice;
use program::{Member, Names, Role};
use text_writer::TextWriter;

/// Appends a text, and the name of a monitor.
pub(crate) fn append_monitor(out: &mut TextWriter, names: &Names, text: &str, monitor: u32) {
    out.text(text);
    match names.monitors.get(monitor as usize) {
        None => {}
        Some(naming) => out.shown(naming.name),
    }
}

/// Appends a text, and the name of a condition, with its monitor's before it.
pub(crate) fn append_condition(out: &mut TextWriter, names: &Names, text: &str, condition: Member) {
    append_monitor(out, names, text, condition.monitor);
    out.text(".");
    let Some(naming) = names.monitors.get(condition.monitor as usize) else {
        return;
    };
    match naming.members.get(condition.number as usize) {
        None => {}
        Some(name) => out.shown(name),
    }
}

// Appends what a procedure of a role is.
fn append_role(out: &mut TextWriter, names: &Names, role: Role) {
    match role {
        Role::Entry(monitor) => append_monitor(out, names, "ENTRY ", monitor),
        Role::Internal(monitor) => append_monitor(out, names, "INTERNAL ", monitor),
        Role::Recover(monitor) => append_monitor(out, names, "RECOVER ", monitor),
        Role::External => out.text("PROCEDURE"),
        Role::Main => out.text("MAIN"),
    }
}

/// Appends what a slice is called.
pub(crate) fn append_slice(out: &mut TextWriter, names: &Names, slice: Slice) {
    match slice {
        Slice::Runs(role) => append_role(out, names, role),
        Slice::Holds(monitor) => append_monitor(out, names, "holds ", monitor),
        Slice::Waits(condition) => append_condition(out, names, "waits on ", condition),
        Slice::Resumed(monitor) => append_monitor(out, names, "resumed, waits for ", monitor),
        Slice::Enters(monitor) => append_monitor(out, names, "waits for ", monitor),
        Slice::Joins(child) => out.form("waits for process $", &[child]),
        Slice::Dies => out.text("dies"),
    }
}
