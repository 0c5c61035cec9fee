// The type of the expression that begins at a place, by its tokens.

use crate::declarations::{Declaration, Sort};
use crate::lexeme::Lexeme;
use crate::operators::{LOOSEST, Operator, ends_operand, operator_of};
use crate::sought::{Sought, Wanted};
use scanner::{Keyword, Sign, Token};

/// What a walk over the operators of an expression has found.
#[derive(Clone, Copy)]
pub(crate) struct Judged {
    /// The type of what was passed, where it is known.
    pub(crate) held: Option<Keyword>,
    /// The operator that doesn't take it.
    pub(crate) refusing: Option<Operator>,
    // What is as loose as this is no part of the expression.
    bound: u8,
    loosest: u8,
    // How many parentheses and brackets are open.
    depth: usize,
    is_behind_operand: bool,
    is_over: bool,
}

// Whether an operator takes no operand of a type.
fn refuses(operator: Operator, held: Keyword) -> bool {
    match operator.takes {
        Some(takes) => held != takes,
        None => held == Keyword::Process,
    }
}

impl Judged {
    // Passes an operator.
    fn pass_operator(&mut self, operator: Operator) {
        self.is_behind_operand = false;
        if operator.looseness >= self.bound {
            self.is_over = true;
        } else if operator.looseness >= self.loosest {
            self.combine(operator);
        }
    }

    // Passes an operator that has all that was passed as its operand.
    fn combine(&mut self, operator: Operator) {
        if self.held.is_some_and(|held| refuses(operator, held)) {
            self.refusing = Some(operator);
            self.is_over = true;
            return;
        }
        self.held = Some(operator.gives);
        self.loosest = operator.looseness;
    }

    // Passes what is no operand and no parenthesis. A sign before an operand says nothing.
    fn pass_sign(&mut self, lexeme: Lexeme) {
        match operator_of(lexeme) {
            Some(operator) if self.is_behind_operand => self.pass_operator(operator),
            Some(_) => {}
            None => self.is_over = lexeme != Lexeme::Word(Keyword::Not),
        }
    }

    // Passes the end of a parenthesis or a bracket.
    fn close(&mut self) {
        self.is_over = self.depth == 0;
        self.is_behind_operand = true;
        self.depth = self.depth.saturating_sub(1);
    }

    // Passes a token.
    fn pass(&mut self, lexeme: Lexeme) {
        match lexeme {
            Lexeme::Mark(Sign::OpenParen | Sign::OpenBracket) => {
                self.depth = self.depth.saturating_add(1);
            }
            Lexeme::Mark(Sign::CloseParen | Sign::CloseBracket) => self.close(),
            _ if self.depth > 0 => {}
            other if ends_operand(other) => self.is_behind_operand = true,
            other => self.pass_sign(other),
        }
    }
}

/// Goes over the operators of the expression that begins with these tokens, up to one that is as loose as a bound, or
/// that doesn't take what stands before it. The first operand has this type, where it is known.
pub(crate) fn judge(tokens: &[Token<'_>], held: Option<Keyword>, bound: u8) -> Judged {
    let mut judged = Judged {
        held,
        refusing: None,
        bound,
        loosest: 0,
        depth: 0,
        is_behind_operand: false,
        is_over: false,
    };
    for token in tokens {
        if !judged.is_over {
            judged.pass(Lexeme::of(token.kind));
        }
    }
    judged
}

/// The type of the variable of this name, or of its elements.
pub(crate) fn type_of_name(
    declarations: &[Declaration<'_>],
    sought: Sought,
    name: &[u8],
) -> Option<Keyword> {
    let sought = Sought {
        wanted: Wanted::Variable,
        scope: sought.scope,
    };
    match sought.find(declarations, name)?.sort {
        Sort::Variable(Keyword::Array) => Some(Keyword::Integer),
        Sort::Variable(word) => Some(word),
        _ => None,
    }
}

// The type of a factor that begins with this token, and with no parenthesis.
fn type_of_token(
    declarations: &[Declaration<'_>],
    sought: Sought,
    token: &Token<'_>,
) -> Option<Keyword> {
    match Lexeme::of(token.kind) {
        Lexeme::Number | Lexeme::Mark(Sign::Minus) => Some(Keyword::Integer),
        Lexeme::Word(Keyword::True | Keyword::False | Keyword::Not) => Some(Keyword::Boolean),
        Lexeme::Name => type_of_name(declarations, sought, token.text),
        _ => None,
    }
}

/// The type of the factor that begins with these tokens: of one in parentheses that of the expression within.
pub(crate) fn type_of_factor(
    declarations: &[Declaration<'_>],
    sought: Sought,
    tokens: &[Token<'_>],
) -> Option<Keyword> {
    let mut rest = tokens;
    for _parenthesis in tokens {
        let [first, inner @ ..] = rest else {
            return None;
        };
        if Lexeme::of(first.kind) != Lexeme::Mark(Sign::OpenParen) {
            return type_of_token(declarations, sought, first);
        }
        let within = judge(inner, None, LOOSEST).held;
        if within.is_some() {
            return within;
        }
        rest = inner;
    }
    None
}
