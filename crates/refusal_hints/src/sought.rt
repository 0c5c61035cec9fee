// What a name is looked for as, and which declarations it finds.

use crate::declarations::{Declaration, Sort};
use crate::lexeme::Lexeme;
use crate::scopes::{Scope, walk_over};
use crate::spot::Spot;
use scanner::{Keyword, Sign};
use std::alloc::{AllocError, Global};
use strsim::generic_levenshtein;

/// What a name is looked for as.
#[derive(Clone, Copy, PartialEq, Eq)]
pub(crate) enum Wanted {
    Variable,
    Monitor,
    Procedure,
    /// A procedure behind a monitor's name and a dot.
    ProcedureOf,
}

/// What a name is looked for as, and where.
#[derive(Clone, Copy)]
pub(crate) struct Sought {
    pub(crate) wanted: Wanted,
    pub(crate) scope: Scope,
}

// What the name at a place is looked for as.
fn wanted_at(spot: &Spot<'_, '_>) -> Wanted {
    match (spot.back(1), spot.ahead(1)) {
        (Lexeme::Mark(Sign::Dot), _) => Wanted::ProcedureOf,
        (Lexeme::Word(Keyword::Call | Keyword::Fork), Lexeme::Mark(Sign::Dot)) => Wanted::Monitor,
        (Lexeme::Word(Keyword::Call | Keyword::Fork), _) => Wanted::Procedure,
        _ => Wanted::Variable,
    }
}

/// The number of the monitor of this name, or 0.
pub(crate) fn monitor_of(declarations: &[Declaration<'_>], name: &[u8]) -> u32 {
    for declaration in declarations {
        if let Sort::Monitor(number) = declaration.sort {
            if declaration.name.text == name {
                return number;
            }
        }
    }
    0
}

/// What the name at a place is looked for as, and where.
pub(crate) fn sought_at(declarations: &[Declaration<'_>], spot: &Spot<'_, '_>) -> Sought {
    let wanted = wanted_at(spot);
    let scope = match wanted {
        Wanted::ProcedureOf => Scope {
            monitor: monitor_of(declarations, spot.token_back(2).text),
            body: 0,
        },
        _ => walk_over(spot.before).scope,
    };
    Sought { wanted, scope }
}

impl Sought {
    // Whether a declaration is of the sort that is looked for.
    fn wants(self, sort: Sort) -> bool {
        match sort {
            Sort::Monitor(_) => self.wanted == Wanted::Monitor,
            Sort::Procedure(_) => matches!(self.wanted, Wanted::Procedure | Wanted::ProcedureOf),
            Sort::Variable(_) => self.wanted == Wanted::Variable,
        }
    }

    // How near the scope of a declaration is: 0 is out of reach, and the highest is found first.
    fn nearness(self, scope: Scope) -> u8 {
        if scope.body != 0 {
            return if scope == self.scope { 3 } else { 0 };
        }
        if scope.monitor != 0 {
            return if scope.monitor == self.scope.monitor {
                2
            } else {
                0
            };
        }
        if self.wanted == Wanted::ProcedureOf {
            0
        } else {
            1
        }
    }

    // Whether a declaration is within reach, and of the sort that is looked for.
    fn reaches(self, declaration: &Declaration<'_>) -> bool {
        self.nearness(declaration.scope) > 0 && self.wants(declaration.sort)
    }

    /// The declaration that a name finds, of whichever sort.
    pub(crate) fn find<'d, 'a>(
        self,
        declarations: &'d [Declaration<'a>],
        name: &[u8],
    ) -> Option<&'d Declaration<'a>> {
        let mut found = None;
        let mut nearest = 0;
        for declaration in declarations {
            let nearness = self.nearness(declaration.scope);
            if nearness > nearest && declaration.name.text == name {
                nearest = nearness;
                found = Some(declaration);
            }
        }
        found
    }

    /// The declaration within reach whose name is the most like this one, if one is like it.
    pub(crate) fn find_alike<'d, 'a>(
        self,
        alloc: Global,
        declarations: &'d [Declaration<'a>],
        name: &[u8],
    ) -> Result<Option<&'d Declaration<'a>>, AllocError> {
        let mut found = None;
        let mut least = most_edits(name).saturating_add(1);
        for declaration in declarations {
            if self.reaches(declaration) {
                let edits = edits_between(alloc, name, declaration.name.text)?;
                if edits < least {
                    least = edits;
                    found = Some(declaration);
                }
            }
        }
        Ok(found)
    }
}

// Names that are longer are not compared, so that a comparison takes little time.
const LONGEST: usize = 32;

// How many letters of a name may differ for it to be alike.
fn most_edits(name: &[u8]) -> usize {
    (name.len() / 2).min(3)
}

// How many letters lead from one name to another: none where they differ by capitals alone.
fn edits_between(alloc: Global, from: &[u8], to: &[u8]) -> Result<usize, AllocError> {
    if from.eq_ignore_ascii_case(to) {
        return Ok(0);
    }
    if from.len() > LONGEST || to.len() > LONGEST {
        return Ok(usize::MAX);
    }
    generic_levenshtein(alloc, from, to)
}
