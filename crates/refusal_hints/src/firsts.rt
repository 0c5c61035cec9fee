// With which lexemes each part of the grammar may begin.

use crate::lexeme::Lexeme;
use crate::symbol::Symbol;
use scanner::{Keyword, Sign};

// What a factor begins with.
const FACTOR: &[Lexeme] = &[
    Lexeme::Name,
    Lexeme::Number,
    Lexeme::Mark(Sign::OpenParen),
    Lexeme::Mark(Sign::Minus),
    Lexeme::Word(Keyword::Not),
    Lexeme::Word(Keyword::True),
    Lexeme::Word(Keyword::False),
];

// What a statement begins with.
const STATEMENT: &[Lexeme] = &[
    Lexeme::Name,
    Lexeme::Word(Keyword::If),
    Lexeme::Word(Keyword::While),
    Lexeme::Word(Keyword::Call),
    Lexeme::Word(Keyword::Print),
    Lexeme::Word(Keyword::Return),
    Lexeme::Word(Keyword::Fork),
    Lexeme::Word(Keyword::Join),
    Lexeme::Word(Keyword::Wait),
    Lexeme::Word(Keyword::Notify),
    Lexeme::Word(Keyword::Broadcast),
    Lexeme::Word(Keyword::Abort),
];

// What a comparison begins with.
const COMPARISON: &[Lexeme] = &[
    Lexeme::Mark(Sign::Equal),
    Lexeme::Mark(Sign::NotEqual),
    Lexeme::Mark(Sign::Less),
    Lexeme::Mark(Sign::LessEqual),
    Lexeme::Mark(Sign::Greater),
    Lexeme::Mark(Sign::GreaterEqual),
];

impl Symbol {
    /// The lexemes that a part may begin with. What is one lexeme alone is no part.
    pub(crate) fn firsts(self) -> &'static [Lexeme] {
        match self {
            Symbol::Word(_) | Symbol::Mark(_) | Symbol::Name | Symbol::Number => &[],
            Symbol::Statements => STATEMENT,
            Symbol::Else => &[Lexeme::Word(Keyword::Else)],
            Symbol::Aborted => &[Lexeme::Word(Keyword::Aborted)],
            Symbol::Into => &[Lexeme::Word(Keyword::Into)],
            other => other.expression_firsts(),
        }
    }

    fn expression_firsts(self) -> &'static [Lexeme] {
        match self {
            Symbol::Factor | Symbol::Expression | Symbol::Arguments | Symbol::Value => FACTOR,
            Symbol::Index => &[Lexeme::Mark(Sign::OpenBracket)],
            Symbol::Multipliers => &[
                Lexeme::Mark(Sign::Times),
                Lexeme::Mark(Sign::Divide),
                Lexeme::Word(Keyword::Mod),
            ],
            Symbol::Summands => &[Lexeme::Mark(Sign::Plus), Lexeme::Mark(Sign::Minus)],
            Symbol::Comparison => COMPARISON,
            Symbol::Relations => &[Lexeme::Word(Keyword::And)],
            Symbol::Conjunctions => &[Lexeme::Word(Keyword::Or)],
            Symbol::MoreArguments => &[Lexeme::Mark(Sign::Comma)],
            Symbol::DottedName => &[Lexeme::Mark(Sign::Dot)],
            other => other.declaration_firsts(),
        }
    }

    fn declaration_firsts(self) -> &'static [Lexeme] {
        match self {
            Symbol::LocalType => &[
                Lexeme::Word(Keyword::Integer),
                Lexeme::Word(Keyword::Boolean),
                Lexeme::Word(Keyword::Process),
            ],
            Symbol::MemberType => &[
                Lexeme::Word(Keyword::Integer),
                Lexeme::Word(Keyword::Boolean),
                Lexeme::Word(Keyword::Process),
                Lexeme::Word(Keyword::Condition),
                Lexeme::Word(Keyword::Array),
            ],
            Symbol::ResultType => &[
                Lexeme::Word(Keyword::Integer),
                Lexeme::Word(Keyword::Boolean),
            ],
            Symbol::Returns => &[Lexeme::Mark(Sign::Colon)],
            Symbol::Locals | Symbol::Members => &[Lexeme::Word(Keyword::Var)],
            Symbol::Parameters => &[Lexeme::Name],
            Symbol::MoreParameters => &[Lexeme::Mark(Sign::Comma)],
            other => other.outer_firsts(),
        }
    }

    fn outer_firsts(self) -> &'static [Lexeme] {
        match self {
            Symbol::Procedures => &[Lexeme::Word(Keyword::Procedure)],
            Symbol::MonitorProcedures => &[
                Lexeme::Word(Keyword::Entry),
                Lexeme::Word(Keyword::Internal),
            ],
            Symbol::Recover => &[Lexeme::Word(Keyword::Recover)],
            Symbol::Monitors => &[Lexeme::Word(Keyword::Monitor)],
            _ => &[],
        }
    }
}
