// What the grammar expects, as the machine of crate `grammar` has it.

use crate::lexeme::Lexeme;
use scanner::{Keyword, Sign};
use std::alloc::AllocError;

/// What a text may go on with: one lexeme, or a part that begins with one of several.
#[derive(Clone, Copy)]
pub(crate) enum Symbol {
    Word(Keyword),
    Mark(Sign),
    Name,
    Number,
    Factor,
    Expression,
    /// An index in brackets, if there is one.
    Index,
    /// What may follow a factor, a term, a sum, a relation, a conjunction.
    Multipliers,
    Summands,
    Comparison,
    Relations,
    Conjunctions,
    Arguments,
    MoreArguments,
    /// A dot and a name, if there is a dot.
    DottedName,
    Into,
    /// An expression, if one begins.
    Value,
    Statements,
    Else,
    Aborted,
    LocalType,
    MemberType,
    ResultType,
    /// A colon and the type of a result, if there is a colon.
    Returns,
    Locals,
    Members,
    Parameters,
    MoreParameters,
    Procedures,
    MonitorProcedures,
    Recover,
    Monitors,
}

impl Symbol {
    /// Whether it may be left out.
    pub(crate) fn is_optional(self) -> bool {
        !matches!(
            self,
            Symbol::Word(_)
                | Symbol::Mark(_)
                | Symbol::Name
                | Symbol::Number
                | Symbol::Factor
                | Symbol::Expression
                | Symbol::LocalType
                | Symbol::MemberType
                | Symbol::ResultType
        )
    }

    /// Whether it begins as a factor does.
    pub(crate) fn begins_as_factor(self) -> bool {
        matches!(
            self,
            Symbol::Factor | Symbol::Expression | Symbol::Arguments | Symbol::Value
        )
    }

    // The lexeme that it is, if it is one.
    fn lexeme(self) -> Option<Lexeme> {
        match self {
            Symbol::Word(word) => Some(Lexeme::Word(word)),
            Symbol::Mark(sign) => Some(Lexeme::Mark(sign)),
            Symbol::Name => Some(Lexeme::Name),
            Symbol::Number => Some(Lexeme::Number),
            _ => None,
        }
    }

    /// Whether it may begin with a lexeme.
    pub(crate) fn accepts(self, lexeme: Lexeme) -> bool {
        self.lexeme() == Some(lexeme) || self.firsts().contains(&lexeme)
    }

    /// Appends the lexemes that it may begin with.
    pub(crate) fn append_firsts(self, found: &mut Vec<Lexeme>) -> Result<(), AllocError> {
        if let Some(lexeme) = self.lexeme() {
            found.push(lexeme)?;
        }
        found.extend_from_slice(self.firsts())
    }
}
