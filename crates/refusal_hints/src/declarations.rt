// What a text declares, found by its tokens alone.

use crate::scopes::{Scope, Walk};
use scanner::{Keyword, Kind, Sign, Token};
use std::alloc::{AllocError, Global};

/// What a name is declared as.
#[derive(Clone, Copy)]
pub(crate) enum Sort {
    /// With its number.
    Monitor(u32),
    /// With the number of its body.
    Procedure(u32),
    /// A variable or a parameter, with the word that its type begins with.
    Variable(Keyword),
}

/// A declaration: the name, what it is declared as, and the scope that it is declared in.
#[derive(Clone, Copy)]
pub(crate) struct Declaration<'a> {
    pub(crate) name: Token<'a>,
    pub(crate) sort: Sort,
    pub(crate) scope: Scope,
}

// What the name behind `before` is declared as, where `behind` and `last` stand behind it; and in which scope, where the
// walk has passed `before`.
fn sort_of(walk: &Walk, before: Kind, behind: Kind, last: Kind) -> Option<(Sort, Scope)> {
    match (before, behind, last) {
        (Kind::Keyword(Keyword::Monitor), _, _) => Some((
            Sort::Monitor(walk.scope.monitor),
            Scope {
                monitor: 0,
                body: 0,
            },
        )),
        (Kind::Keyword(Keyword::Procedure), _, _) => Some((
            Sort::Procedure(walk.scope.body),
            Scope {
                monitor: walk.scope.monitor,
                body: 0,
            },
        )),
        (_, Kind::Sign(Sign::Colon), Kind::Keyword(word)) => {
            Some((Sort::Variable(word), walk.scope))
        }
        _ => None,
    }
}

// Adds the declaration whose name is the second of four tokens, where one is, in the scope that a walk comes to there.
fn add_declaration<'a>(
    found: &mut Vec<Declaration<'a>>,
    walk: &mut Walk,
    four: &[Token<'a>],
) -> Result<(), AllocError> {
    let [before, name, behind, last] = four else {
        return Ok(());
    };
    walk.pass(before.kind);
    if name.kind != Kind::Name {
        return Ok(());
    }
    let name = *name;
    if let Some((sort, scope)) = sort_of(walk, before.kind, behind.kind, last.kind) {
        found.push(Declaration { name, sort, scope })?;
    }
    Ok(())
}

/// The declarations of a text, in its order.
pub(crate) fn declarations_of<'a>(
    alloc: Global,
    tokens: &[Token<'a>],
) -> Result<Vec<Declaration<'a>>, AllocError> {
    let mut found = Vec::new(alloc);
    let mut walk = Walk::new();
    for four in tokens.windows(4) {
        add_declaration(&mut found, &mut walk, four)?;
    }
    Ok(found)
}
