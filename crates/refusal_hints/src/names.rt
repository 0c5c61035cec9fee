// What helps with a name that isn't declared, or that is declared twice.

use crate::declarations::{Declaration, Sort};
use crate::lexeme::{Lexeme, append_keyword};
use crate::scopes::Scope;
use crate::sought::{Sought, Wanted, sought_at};
use crate::spot::Spot;
use scanner::{Keyword, Place};
use std::alloc::Global;
use text_writer::TextWriter;

// Appends what a name is declared as.
fn append_sort(alloc: Global, out: &mut TextWriter, sort: Sort) {
    match sort {
        Sort::Monitor(_) => out.text("a monitor"),
        Sort::Procedure(_) => out.text("a procedure"),
        Sort::Variable(word) => append_keyword(alloc, out, word),
    }
}

/// Appends where and as what a name is declared.
pub(crate) fn append_declaration(
    alloc: Global,
    out: &mut TextWriter,
    declaration: &Declaration<'_>,
) {
    out.shown(declaration.name.text);
    let place = declaration.name.place;
    let numbers = [u64::from(place.line), u64::from(place.column)];
    out.form(" is declared at $:$ as ", &numbers);
    append_sort(alloc, out, declaration.sort);
    out.text("\n")
}

// Appends such a declaration behind a label, if there is one.
fn append_labelled(
    alloc: Global,
    out: &mut TextWriter,
    label: &str,
    found: Option<&Declaration<'_>>,
) {
    let Some(declaration) = found else {
        return;
    };
    out.text(label);
    append_declaration(alloc, out, declaration)
}

// What is said of a variable behind INTO that isn't found.
const LOCALS_ALONE: &str =
    "INTO takes a variable of the procedure itself: CALL f() INTO x; and then n := x;";

// What isn't found.
fn absence(wanted: Wanted) -> &'static str {
    match wanted {
        Wanted::Variable => "no variable in reach is called ",
        Wanted::Monitor => "no monitor is called ",
        Wanted::Procedure => "no procedure in reach is called ",
        Wanted::ProcedureOf => "the monitor has no procedure that is called ",
    }
}

// The first declaration of a name.
fn first_of<'d, 'a>(
    declarations: &'d [Declaration<'a>],
    name: &[u8],
) -> Option<&'d Declaration<'a>> {
    for declaration in declarations {
        if declaration.name.text == name {
            return Some(declaration);
        }
    }
    None
}

// Appends what a name may be meant to be: one within reach that is like it, and one that is written so out of reach.
fn append_meant(
    alloc: Global,
    out: &mut TextWriter,
    declarations: &[Declaration<'_>],
    sought: Sought,
    name: &[u8],
) {
    match sought.find_alike(alloc, declarations, name) {
        Ok(alike) => append_labelled(alloc, out, "like it: ", alike),
        Err(_) => out.fail(),
    }
    append_labelled(alloc, out, "out of reach: ", first_of(declarations, name))
}

// Appends that a name isn't found.
fn append_absence(out: &mut TextWriter, wanted: Wanted, name: &[u8]) {
    out.text(absence(wanted));
    out.shown(name);
    out.text("\n")
}

/// Appends what helps with a name that isn't found.
pub(crate) fn append_unknown(
    alloc: Global,
    out: &mut TextWriter,
    declarations: &[Declaration<'_>],
    spot: &Spot<'_, '_>,
) {
    let name = spot.token(0).text;
    let sought = sought_at(declarations, spot);
    append_absence(out, sought.wanted, name);
    if spot.back(1) == Lexeme::Word(Keyword::Into) {
        out.line(LOCALS_ALONE);
    }
    append_meant(alloc, out, declarations, sought, name)
}

/// The declaration whose name stands at a place.
pub(crate) fn declared_at<'d, 'a>(
    declarations: &'d [Declaration<'a>],
    place: Place,
) -> Option<&'d Declaration<'a>> {
    for declaration in declarations {
        let at = declaration.name.place;
        if at == place {
            return Some(declaration);
        }
    }
    None
}

// Appends the first declaration of a name in a scope.
fn append_first_of_scope(
    alloc: Global,
    out: &mut TextWriter,
    declarations: &[Declaration<'_>],
    scope: Scope,
    name: &[u8],
) {
    for declaration in declarations {
        let other = declaration.scope;
        if other == scope && declaration.name.text == name {
            return append_declaration(alloc, out, declaration);
        }
    }
}

/// Appends where the name at a place is declared for the first time in its scope.
pub(crate) fn append_redeclared(
    alloc: Global,
    out: &mut TextWriter,
    declarations: &[Declaration<'_>],
    spot: &Spot<'_, '_>,
) {
    let token = spot.token(0);
    match declared_at(declarations, token.place) {
        Some(here) => append_first_of_scope(alloc, out, declarations, here.scope, token.text),
        None => {}
    }
}

/// Appends where and as what the name at a place is declared, if one stands there that is found.
pub(crate) fn append_found(
    alloc: Global,
    out: &mut TextWriter,
    declarations: &[Declaration<'_>],
    spot: &Spot<'_, '_>,
) {
    let sought = sought_at(declarations, spot);
    match sought.find(declarations, spot.token(0).text) {
        Some(found) => append_declaration(alloc, out, found),
        None => {}
    }
}
