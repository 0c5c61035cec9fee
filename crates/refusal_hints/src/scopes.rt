// Where a token stands: in which monitor, and in which body. Found by the keywords alone, as every text that the parser
// took has them.

use scanner::{Keyword, Kind, Token};

/// In which monitor something stands, and in the body of which procedure, RECOVER part or MAIN. Both count from 1 in the
/// text's order, and 0 is none.
#[derive(Clone, Copy, PartialEq, Eq)]
pub(crate) struct Scope {
    pub(crate) monitor: u32,
    pub(crate) body: u32,
}

/// How far a walk over a text's tokens has come.
#[derive(Clone, Copy)]
pub(crate) struct Walk {
    /// Where it stands.
    pub(crate) scope: Scope,
    /// Whether the body there is that of a RECOVER part.
    pub(crate) recovers: bool,
    monitors: u32,
    bodies: u32,
    // How many ABORTED parts are open.
    aborted: u32,
}

impl Walk {
    /// A walk before the first token.
    pub(crate) fn new() -> Walk {
        Walk {
            scope: Scope {
                monitor: 0,
                body: 0,
            },
            recovers: false,
            monitors: 0,
            bodies: 0,
            aborted: 0,
        }
    }

    /// Passes a token.
    pub(crate) fn pass(&mut self, kind: Kind) {
        match kind {
            Kind::Keyword(Keyword::Monitor) => self.open_monitor(),
            Kind::Keyword(Keyword::Procedure | Keyword::Main) => self.open_body(false),
            Kind::Keyword(Keyword::Recover) => self.open_body(true),
            Kind::Keyword(Keyword::Aborted) => self.aborted = self.aborted.saturating_add(1),
            Kind::Keyword(Keyword::End) => self.close(),
            _ => {}
        }
    }

    fn open_monitor(&mut self) {
        self.monitors = self.monitors.saturating_add(1);
        self.scope = Scope {
            monitor: self.monitors,
            body: 0,
        };
    }

    fn open_body(&mut self, recovers: bool) {
        self.bodies = self.bodies.saturating_add(1);
        self.scope.body = self.bodies;
        self.recovers = recovers;
        self.aborted = 0;
    }

    // Closes what an END ends: an ABORTED part, a body or a monitor.
    fn close(&mut self) {
        if self.aborted > 0 {
            self.aborted = self.aborted.saturating_sub(1);
        } else if self.scope.body > 0 {
            self.scope.body = 0;
            self.recovers = false;
        } else {
            self.scope.monitor = 0;
        }
    }
}

/// The walk that has passed these tokens.
pub(crate) fn walk_over(tokens: &[Token]) -> Walk {
    let mut walk = Walk::new();
    for token in tokens {
        walk.pass(token.kind);
    }
    walk
}
