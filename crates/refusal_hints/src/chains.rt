// The chain of calls by which a procedure comes back to itself.

use crate::declarations::{Declaration, Sort};
use crate::names::declared_at;
use crate::scopes::{Scope, Walk};
use crate::sought::{Sought, Wanted, monitor_of};
use crate::spot::Spot;
use scanner::{Keyword, Kind, Sign, Token};
use std::alloc::Global;
use text_writer::TextWriter;

// How many calls are looked at, so that a long text takes little time, and how many of a chain are told.
const MOST_CALLS: usize = 1000;

const MOST_TOLD: usize = 16;

// A call: in which body it stands, the body of the procedure that it calls, and that procedure's name there.
#[derive(Clone, Copy)]
struct Call<'t, 'a> {
    caller: u32,
    called: u32,
    name: &'t Token<'a>,
}

// A call by which a procedure is reached, and the link that goes on from there; the last one has none.
#[derive(Clone, Copy)]
struct Link<'t, 'a> {
    call: Call<'t, 'a>,
    next: Option<usize>,
}

// The body of a procedure, or 0.
fn body_of(sort: Sort) -> u32 {
    match sort {
        Sort::Procedure(body) => body,
        _ => 0,
    }
}

// The body of the procedure that is called by this name there, or 0.
fn body_called(declarations: &[Declaration<'_>], sought: Sought, name: &[u8]) -> u32 {
    match sought.find(declarations, name) {
        Some(found) => body_of(found.sort),
        None => 0,
    }
}

// The call in a body of what this name finds.
fn call_to<'t, 'a>(
    declarations: &[Declaration<'_>],
    caller: u32,
    sought: Sought,
    name: &'t Token<'a>,
) -> Call<'t, 'a> {
    Call {
        caller,
        called: body_called(declarations, sought, name.text),
        name,
    }
}

// The call behind the word CALL, in this scope.
fn call_at<'t, 'a>(
    declarations: &[Declaration<'_>],
    scope: Scope,
    name: &'t Token<'a>,
    behind: Kind,
    last: &'t Token<'a>,
) -> Call<'t, 'a> {
    if behind != Kind::Sign(Sign::Dot) {
        let wanted = Wanted::Procedure;
        return call_to(declarations, scope.body, Sought { wanted, scope }, name);
    }
    let wanted = Wanted::ProcedureOf;
    let monitor = Scope {
        monitor: monitor_of(declarations, name.text),
        body: 0,
    };
    let sought = Sought {
        wanted,
        scope: monitor,
    };
    call_to(declarations, scope.body, sought, last)
}

// Adds the call that begins with four tokens, where one does, in the scope that a walk comes to there.
fn add_call<'t, 'a>(
    out: &mut TextWriter,
    calls: &mut Vec<Call<'t, 'a>>,
    declarations: &[Declaration<'_>],
    walk: &mut Walk,
    four: &'t [Token<'a>],
) {
    let [before, name, behind, last] = four else {
        return;
    };
    walk.pass(before.kind);
    if before.kind != Kind::Keyword(Keyword::Call) || calls.len() >= MOST_CALLS {
        return;
    }
    out.push(
        calls,
        call_at(declarations, walk.scope, name, behind.kind, last),
    )
}

// Adds the calls of a text.
fn add_calls<'t, 'a>(
    out: &mut TextWriter,
    calls: &mut Vec<Call<'t, 'a>>,
    declarations: &[Declaration<'_>],
    tokens: &'t [Token<'a>],
) {
    let mut walk = Walk::new();
    for four in tokens.windows(4) {
        add_call(out, calls, declarations, &mut walk, four);
    }
}

// Whether a body has a link.
fn is_linked(links: &[Link<'_, '_>], body: u32) -> bool {
    for link in links {
        if link.call.caller == body {
            return true;
        }
    }
    false
}

// Adds a link for each body that calls this one and has none yet.
fn link_callers<'t, 'a>(
    out: &mut TextWriter,
    links: &mut Vec<Link<'t, 'a>>,
    calls: &[Call<'t, 'a>],
    called: u32,
    next: Option<usize>,
) {
    for call in calls {
        if call.called == called && !is_linked(links.as_slice(), call.caller) {
            out.push(links, Link { call: *call, next });
        }
    }
}

// Adds links from the callers of a body back and back, up to one that stands in that body, and says which that is.
fn link_back<'t, 'a>(
    out: &mut TextWriter,
    links: &mut Vec<Link<'t, 'a>>,
    calls: &[Call<'t, 'a>],
    body: u32,
) -> Option<usize> {
    link_callers(out, links, calls, body, None);
    for index in 0..calls.len() {
        let caller = links.get(index)?.call.caller;
        if caller == body {
            return Some(index);
        }
        link_callers(out, links, calls, caller, Some(index));
    }
    None
}

// Appends where the procedure of this name is called.
fn append_call(out: &mut TextWriter, name: &Token<'_>) {
    out.shown(name.text);
    let place = [u64::from(name.place.line), u64::from(name.place.column)];
    out.form(" is called at $:$\n", &place)
}

// Appends the chain that begins with a link.
fn append_links(out: &mut TextWriter, links: &[Link<'_, '_>], first: usize) {
    let mut at = first;
    for _ in 0..MOST_TOLD {
        let Some(link) = links.get(at) else {
            return;
        };
        append_call(out, link.call.name);
        let Some(next) = link.next else {
            return;
        };
        at = next;
    }
}

// Appends the calls that lead from a body back to it.
fn append_calls_back(alloc: Global, out: &mut TextWriter, calls: &[Call<'_, '_>], body: u32) {
    let mut links = Vec::new(alloc);
    if let Some(first) = link_back(out, &mut links, calls, body) {
        append_links(out, links.as_slice(), first)
    }
}

/// Appends the calls, in their order, that lead from the procedure whose declared name stands at a place back to it.
pub(crate) fn append_chain(
    alloc: Global,
    out: &mut TextWriter,
    declarations: &[Declaration<'_>],
    tokens: &[Token],
    spot: &Spot<'_, '_>,
) {
    let token = spot.token(0);
    let Some(declared) = declared_at(declarations, token.place) else {
        return;
    };
    let mut calls = Vec::new(alloc);
    add_calls(out, &mut calls, declarations, tokens);
    append_calls_back(alloc, out, calls.as_slice(), body_of(declared.sort))
}
