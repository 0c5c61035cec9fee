// What helps with a text that the grammar takes, and the rules of names, types and places don't.

use crate::chains::append_chain;
use crate::declarations::{Declaration, declarations_of};
use crate::names::{append_found, append_redeclared, append_unknown};
use crate::places::wrong_place_slip;
use crate::spot::Spot;
use crate::types::append_type;
use scanner::{RefusalKind, Token};
use std::alloc::Global;
use text_writer::TextWriter;

const REENTRY: &str =
    "it is an ENTRY procedure of the same monitor, and would wait for the lock that its caller holds: let both call an INTERNAL PROCEDURE";

const RECURSION: &str =
    "calls lead from this procedure back to it: use a loop, or an array as a stack";

// Appends what helps with a procedure that would wait for its caller.
fn append_reentry(
    alloc: Global,
    out: &mut TextWriter,
    declarations: &[Declaration<'_>],
    spot: &Spot<'_, '_>,
) {
    append_found(alloc, out, declarations, spot);
    out.line(REENTRY)
}

// Appends what helps with a procedure to which calls lead back.
fn append_recursion(
    alloc: Global,
    out: &mut TextWriter,
    declarations: &[Declaration<'_>],
    tokens: &[Token],
    spot: &Spot<'_, '_>,
) {
    out.line(RECURSION);
    append_chain(alloc, out, declarations, tokens, spot)
}

// Appends what helps with a refusal of a text that declares this.
fn append_by_kind(
    alloc: Global,
    out: &mut TextWriter,
    declarations: &[Declaration<'_>],
    tokens: &[Token],
    kind: RefusalKind,
    spot: &Spot<'_, '_>,
) {
    match kind {
        RefusalKind::Unknown => append_unknown(alloc, out, declarations, spot),
        RefusalKind::Redeclared => append_redeclared(alloc, out, declarations, spot),
        RefusalKind::TypeMismatch => append_type(alloc, out, declarations, tokens, spot),
        RefusalKind::WrongPlace => out.line(wrong_place_slip(spot)),
        RefusalKind::DirectReentry => append_reentry(alloc, out, declarations, spot),
        RefusalKind::Recursion => append_recursion(alloc, out, declarations, tokens, spot),
        _ => {}
    }
}

/// Appends what helps with such a refusal.
pub(crate) fn append_checked(
    alloc: Global,
    out: &mut TextWriter,
    tokens: &[Token],
    kind: RefusalKind,
    spot: &Spot<'_, '_>,
) {
    match declarations_of(alloc, tokens) {
        Ok(found) => append_by_kind(alloc, out, found.as_slice(), tokens, kind, spot),
        Err(_) => out.fail(),
    }
}
