use crate::layer::Layer;
use crate::shapes::append_clipped;
use program::{Member, Names, Procedure, Program, Role, ValueType};
use text_writer::TextWriter;

/// The names of a program's things.
#[derive(Clone, Copy)]
pub(crate) struct Labels<'c, 'n> {
    /// The program.
    pub program: &'c Program,
    /// The names of its monitors and their members.
    pub names: &'c Names<'n>,
    /// The names of its pieces, by their numbers.
    pub procedures: &'c [&'c [u8]],
}

impl<'c, 'n> Labels<'c, 'n> {
    /// The name of a monitor.
    pub fn monitor(&self, monitor: u32) -> &'c [u8] {
        match self.names.monitors.get(monitor as usize) {
            None => b"",
            Some(naming) => naming.name,
        }
    }

    /// The name of a condition, without its monitor's.
    pub fn condition(&self, condition: Member) -> &'c [u8] {
        let Some(naming) = self.names.monitors.get(condition.monitor as usize) else {
            return b"";
        };
        match naming.members.get(condition.number as usize) {
            None => b"",
            Some(name) => *name,
        }
    }

    /// The name of a piece, where it is known.
    pub fn piece(&self, piece: Option<u32>) -> Option<&'c [u8]> {
        self.procedures.get(piece? as usize).copied()
    }

    // Appends a text, and the name of a monitor.
    fn append_monitor(&self, out: &mut TextWriter, text: &str, monitor: u32) {
        out.text(text);
        append_clipped(out, self.monitor(monitor))
    }

    // Appends that a process holds a monitor, and in which procedure.
    fn append_hold(&self, out: &mut TextWriter, monitor: u32, piece: Option<u32>) {
        self.append_monitor(out, "holds ", monitor);
        match self.piece(piece) {
            None => {}
            Some(name) => {
                out.text(", in ");
                append_clipped(out, name)
            }
        }
    }

    // Appends that a process waits on a condition.
    fn append_wait(&self, out: &mut TextWriter, condition: Member) {
        self.append_monitor(out, "waits on ", condition.monitor);
        out.text(".");
        append_clipped(out, self.condition(condition))
    }

    // Appends that a process waits for a monitor, where it is known which, and who holds that.
    fn append_trial(&self, out: &mut TextWriter, monitor: Option<u32>, holder: u64) {
        match monitor {
            None => out.text("waits for a monitor"),
            Some(monitor) => self.append_monitor(out, "waits for ", monitor),
        }
        out.form(", held by $", &[holder])
    }

    /// Appends what a process is doing, in words.
    pub fn append_description(&self, out: &mut TextWriter, layer: Layer) {
        match layer {
            Layer::Runs => out.text("runs"),
            Layer::Holds(monitor, piece) => self.append_hold(out, monitor, piece),
            Layer::Waits(condition) => self.append_wait(out, condition),
            Layer::Resumed(monitor) => self.append_monitor(out, "resumed, waits for ", monitor),
            Layer::Enters(monitor) => self.append_monitor(out, "waits for ", monitor),
            Layer::Tried(monitor, holder) => self.append_trial(out, monitor, holder),
            Layer::Joins(child) => out.form("waits for process $", &[child]),
            Layer::Dies => out.text("is dying"),
            Layer::IsOver => out.text("is over"),
        }
    }
}

// Appends a value, as the text would write it.
fn append_value(out: &mut TextWriter, kind: ValueType, value: i64) {
    match kind {
        ValueType::Boolean if value == 0 => out.text("FALSE"),
        ValueType::Boolean => out.text("TRUE"),
        ValueType::Process => out.form("process $", &[value.unsigned_abs()]),
        ValueType::Integer => out.signed(value),
    }
}

// Appends an argument, behind what parts it from the one before.
fn append_argument(out: &mut TextWriter, is_first: bool, kind: ValueType, value: i64) {
    if !is_first {
        out.text(", ");
    }
    append_value(out, kind, value)
}

// Appends the arguments with which a procedure of these parameters began.
fn append_arguments(out: &mut TextWriter, parameters: &[ValueType], locals: &[i64]) {
    out.text("(");
    let mut is_first = true;
    for (kind, value) in parameters.iter().zip(locals) {
        append_argument(out, is_first, *kind, *value);
        is_first = false;
    }
    out.text(")")
}

// Appends the monitor of an ENTRY procedure, before its name.
fn append_owner(out: &mut TextWriter, labels: Labels, role: Role) {
    match role {
        Role::Entry(monitor) => {
            out.shown(labels.monitor(monitor));
            out.text(".")
        }
        _ => {}
    }
}

// Appends a procedure of this name, with its monitor, and with its arguments, the first of these locals.
fn append_procedure(
    out: &mut TextWriter,
    labels: Labels,
    procedure: &Procedure,
    name: &[u8],
    locals: &[i64],
) {
    append_owner(out, labels, procedure.role);
    out.shown(name);
    match procedure.role {
        Role::Main => {}
        _ => append_arguments(out, procedure.parameters.as_slice(), locals),
    }
}

/// Appends the name of a process's row: its number, its procedure, where that is known, and the arguments of that, which
/// are the first of these locals.
pub(crate) fn append_row_name(
    out: &mut TextWriter,
    labels: Labels,
    number: u64,
    piece: u32,
    locals: &[i64],
) {
    out.form("$", &[number]);
    let (Some(name), Some(procedure)) = (
        labels.piece(Some(piece)),
        labels.program.procedures.get(piece as usize),
    ) else {
        return;
    };
    out.text(" ");
    append_procedure(out, labels, procedure, name, locals)
}
