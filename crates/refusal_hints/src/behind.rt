// What is expected behind the lexeme that a part of the grammar begins with. Where a factor begins, what the factor goes
// on with comes before that.

use crate::lexeme::Lexeme;
use crate::symbol::Symbol;
use scanner::{Keyword, Sign};

const SEMICOLON: Symbol = Symbol::Mark(Sign::Semicolon);

const COLON: Symbol = Symbol::Mark(Sign::Colon);

const OPEN: Symbol = Symbol::Mark(Sign::OpenParen);

const CLOSE: Symbol = Symbol::Mark(Sign::CloseParen);

const END: Symbol = Symbol::Word(Keyword::End);

/// What a whole text is.
pub(crate) const UNIT: &[Symbol] = &[
    Symbol::Word(Keyword::Program),
    Symbol::Name,
    SEMICOLON,
    Symbol::Monitors,
    Symbol::Procedures,
    Symbol::Word(Keyword::Main),
    Symbol::Locals,
    Symbol::Statements,
    END,
    Symbol::Mark(Sign::Dot),
];

/// What a factor goes on with.
pub(crate) fn behind_factor(first: Lexeme) -> &'static [Symbol] {
    match first {
        Lexeme::Name => &[Symbol::Index],
        Lexeme::Mark(Sign::OpenParen) => &[Symbol::Expression, CLOSE],
        Lexeme::Mark(Sign::Minus) | Lexeme::Word(Keyword::Not) => &[Symbol::Factor],
        _ => &[],
    }
}

impl Symbol {
    /// What is expected behind the lexeme that it begins with.
    pub(crate) fn behind(self, first: Lexeme) -> &'static [Symbol] {
        match self {
            Symbol::Word(_) | Symbol::Mark(_) | Symbol::Name | Symbol::Number | Symbol::Factor =>
                &[],
            Symbol::Statements => behind_statement(first),
            Symbol::Else => &[Symbol::Statements],
            Symbol::Aborted => &[Symbol::Statements, END],
            Symbol::Into | Symbol::DottedName => &[Symbol::Name],
            Symbol::Index => &[Symbol::Expression, Symbol::Mark(Sign::CloseBracket)],
            Symbol::MoreArguments => &[Symbol::Expression, Symbol::MoreArguments],
            other => other.behind_operand(first),
        }
    }

    fn behind_operand(self, first: Lexeme) -> &'static [Symbol] {
        match self {
            Symbol::Multipliers => &[Symbol::Factor, Symbol::Multipliers],
            Symbol::Summands => &[Symbol::Factor, Symbol::Multipliers, Symbol::Summands],
            Symbol::Comparison => &[Symbol::Factor, Symbol::Multipliers, Symbol::Summands],
            Symbol::Relations => &[
                Symbol::Factor,
                Symbol::Multipliers,
                Symbol::Summands,
                Symbol::Comparison,
                Symbol::Relations,
            ],
            Symbol::Conjunctions => &[Symbol::Expression],
            Symbol::Expression | Symbol::Value => &[
                Symbol::Multipliers,
                Symbol::Summands,
                Symbol::Comparison,
                Symbol::Relations,
                Symbol::Conjunctions,
            ],
            Symbol::Arguments => &[
                Symbol::Multipliers,
                Symbol::Summands,
                Symbol::Comparison,
                Symbol::Relations,
                Symbol::Conjunctions,
                Symbol::MoreArguments,
            ],
            other => other.behind_declaration(first),
        }
    }

    fn behind_declaration(self, first: Lexeme) -> &'static [Symbol] {
        match (self, first) {
            (Symbol::MemberType, Lexeme::Word(Keyword::Array)) => &[
                Symbol::Number,
                Symbol::Word(Keyword::Of),
                Symbol::Word(Keyword::Integer),
            ],
            (Symbol::Returns, _) => &[Symbol::ResultType],
            (Symbol::Locals, _) => &[
                Symbol::Name,
                COLON,
                Symbol::LocalType,
                SEMICOLON,
                Symbol::Locals,
            ],
            (Symbol::Members, _) => &[
                Symbol::Name,
                COLON,
                Symbol::MemberType,
                SEMICOLON,
                Symbol::Members,
            ],
            (Symbol::Parameters, _) => &[COLON, Symbol::LocalType, Symbol::MoreParameters],
            (Symbol::MoreParameters, _) => &[
                Symbol::Name,
                COLON,
                Symbol::LocalType,
                Symbol::MoreParameters,
            ],
            (other, _) => other.behind_heading(),
        }
    }

    fn behind_heading(self) -> &'static [Symbol] {
        match self {
            Symbol::Procedures => PROCEDURE,
            Symbol::MonitorProcedures => MONITOR_PROCEDURE,
            Symbol::Recover => &[Symbol::Locals, Symbol::Statements, END, SEMICOLON],
            Symbol::Monitors => &[
                Symbol::Name,
                SEMICOLON,
                Symbol::Members,
                Symbol::MonitorProcedures,
                Symbol::Recover,
                END,
                SEMICOLON,
                Symbol::Monitors,
            ],
            _ => &[],
        }
    }
}

// What stands behind the word PROCEDURE, outside a monitor.
const PROCEDURE: &[Symbol] = &[
    Symbol::Name,
    OPEN,
    Symbol::Parameters,
    CLOSE,
    Symbol::Returns,
    SEMICOLON,
    Symbol::Locals,
    Symbol::Statements,
    END,
    SEMICOLON,
    Symbol::Procedures,
];

// What stands behind the word ENTRY or INTERNAL.
const MONITOR_PROCEDURE: &[Symbol] = &[
    Symbol::Word(Keyword::Procedure),
    Symbol::Name,
    OPEN,
    Symbol::Parameters,
    CLOSE,
    Symbol::Returns,
    SEMICOLON,
    Symbol::Locals,
    Symbol::Statements,
    END,
    SEMICOLON,
    Symbol::MonitorProcedures,
];

// What stands behind the first lexeme of a statement, up to the next statement.
fn behind_statement(first: Lexeme) -> &'static [Symbol] {
    match first {
        Lexeme::Name => &[
            Symbol::Index,
            Symbol::Mark(Sign::Assign),
            Symbol::Expression,
            SEMICOLON,
            Symbol::Statements,
        ],
        Lexeme::Word(Keyword::If) => IF,
        Lexeme::Word(Keyword::While) => WHILE,
        Lexeme::Word(Keyword::Call) => CALL,
        Lexeme::Word(Keyword::Fork) => FORK,
        Lexeme::Word(Keyword::Join) => JOIN,
        Lexeme::Word(Keyword::Return) => &[Symbol::Value, SEMICOLON, Symbol::Statements],
        Lexeme::Word(Keyword::Wait | Keyword::Notify | Keyword::Broadcast) => {
            &[Symbol::Name, SEMICOLON, Symbol::Statements]
        }
        Lexeme::Word(Keyword::Print) => &[Symbol::Expression, SEMICOLON, Symbol::Statements],
        Lexeme::Word(Keyword::Abort) => &[SEMICOLON, Symbol::Statements],
        _ => &[],
    }
}

const IF: &[Symbol] = &[
    Symbol::Expression,
    Symbol::Word(Keyword::Then),
    Symbol::Statements,
    Symbol::Else,
    Symbol::Word(Keyword::Endif),
    SEMICOLON,
    Symbol::Statements,
];

const WHILE: &[Symbol] = &[
    Symbol::Expression,
    Symbol::Word(Keyword::Do),
    Symbol::Statements,
    Symbol::Word(Keyword::Endloop),
    SEMICOLON,
    Symbol::Statements,
];

const CALL: &[Symbol] = &[
    Symbol::Name,
    Symbol::DottedName,
    OPEN,
    Symbol::Arguments,
    CLOSE,
    Symbol::Into,
    SEMICOLON,
    Symbol::Statements,
];

const FORK: &[Symbol] = &[
    Symbol::Name,
    Symbol::DottedName,
    OPEN,
    Symbol::Arguments,
    CLOSE,
    Symbol::Word(Keyword::Into),
    Symbol::Name,
    SEMICOLON,
    Symbol::Statements,
];

const JOIN: &[Symbol] = &[
    Symbol::Expression,
    Symbol::Into,
    Symbol::Aborted,
    SEMICOLON,
    Symbol::Statements,
];
