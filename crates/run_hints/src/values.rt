// Values, as the text writes them.

use crate::follower::Follower;
use crate::names::append_piece;
use program::{Member, MemberType, Program, ValueType};
use text_writer::TextWriter;

/// Appends a value of a type.
pub(crate) fn append_typed(out: &mut TextWriter, kind: Option<ValueType>, value: i64) {
    match kind {
        Some(ValueType::Boolean) => out.text(if value == 0 { "FALSE" } else { "TRUE" }),
        Some(ValueType::Process) => {
            out.text("process ");
            out.signed(value)
        }
        _ => out.signed(value),
    }
}

/// The type of a member of a monitor that is a variable or an array.
pub(crate) fn member_type(program: &Program, member: Member) -> Option<ValueType> {
    let monitor = program.monitors.get(member.monitor as usize)?;
    match monitor.members.get(member.number as usize) {
        Some(MemberType::Variable(kind)) => Some(*kind),
        _ => None,
    }
}

/// The type of the result of a piece.
pub(crate) fn result_of(program: &Program, piece: u32) -> Option<ValueType> {
    program.procedures.get(piece as usize)?.result
}

// The type of a local of a piece.
fn local_type(program: &Program, piece: u32, slot: u32) -> Option<ValueType> {
    let procedure = program.procedures.get(piece as usize)?;
    let slot = slot as usize;
    match procedure.parameters.get(slot) {
        Some(kind) => Some(*kind),
        None => {
            let behind = slot.saturating_sub(procedure.parameters.len());
            procedure.locals.get(behind).copied()
        }
    }
}

/// Appends the value of a local.
pub(crate) fn append_value(
    out: &mut TextWriter,
    program: &Program,
    piece: u32,
    slot: u32,
    value: i64,
) {
    append_typed(out, local_type(program, piece, slot), value)
}

/// Appends the name of a local.
pub(crate) fn append_local(
    out: &mut TextWriter,
    follower: &Follower<'_, '_>,
    piece: u32,
    slot: u32,
) {
    out.shown(follower.places.local(piece, slot))
}

/// Appends the name of a piece, with the arguments that its locals begin with, where it has parameters.
pub(crate) fn append_callee(
    out: &mut TextWriter,
    follower: &Follower<'_, '_>,
    piece: u32,
    locals: &[i64],
) {
    append_piece(out, follower.places, piece);
    let Some(procedure) = follower.program.procedures.get(piece as usize) else {
        return;
    };
    for (number, (kind, value)) in procedure.parameters.iter().zip(locals).enumerate() {
        out.text(if number == 0 { "(" } else { ", " });
        append_typed(out, Some(*kind), *value);
    }
    out.text(if procedure.parameters.is_empty() {
        ""
    } else {
        ")"
    })
}
