// The type that is wanted at a place, by what stands before it.

use crate::declarations::{Declaration, Sort};
use crate::expression_types::type_of_name;
use crate::headers::{Header, header_of};
use crate::lexeme::Lexeme;
use crate::sought::{Sought, sought_at};
use crate::spot::Spot;
use scanner::{Keyword, Kind, Sign, Token};

/// The head of the procedure whose name stands at a place, if one stands there.
pub(crate) fn header_here<'t, 'a>(
    declarations: &[Declaration<'_>],
    tokens: &'t [Token<'a>],
    spot: &Spot<'_, '_>,
) -> Option<Header<'t, 'a>> {
    let sought = sought_at(declarations, spot);
    match sought.find(declarations, spot.token(0).text) {
        Some(found) => header_of(tokens, found),
        None => None,
    }
}

// The head of the procedure whose name is the token at this index.
fn header_at<'t, 'a>(
    declarations: &[Declaration<'_>],
    tokens: &'t [Token<'a>],
    index: usize,
) -> Option<Header<'t, 'a>> {
    let Some((before, from)) = tokens.split_at_checked(index) else {
        return None;
    };
    let name = Spot {
        before,
        from,
        accepted: &[],
    };
    header_here(declarations, tokens, &name)
}

// How far a walk back from a place has come.
#[derive(Clone, Copy)]
struct WayBack {
    // How many parentheses it has to pass that open those which it passed.
    depth: usize,
    // How many commas it passed outside of them.
    commas: usize,
    // Whether it came to the parenthesis that is open.
    is_open: bool,
    // Whether it came to the end of another statement.
    is_over: bool,
}

impl WayBack {
    // Passes a sign.
    fn pass(&mut self, sign: Sign) {
        match sign {
            Sign::CloseParen => self.depth = self.depth.saturating_add(1),
            Sign::OpenParen if self.depth == 0 => self.is_open = true,
            Sign::OpenParen => self.depth = self.depth.saturating_sub(1),
            Sign::Comma if self.depth == 0 => self.commas = self.commas.saturating_add(1),
            Sign::Semicolon => self.is_over = true,
            _ => {}
        }
    }
}

// The index of the parenthesis that is open behind these tokens, and how many commas stand behind it.
fn open_parenthesis(before: &[Token<'_>]) -> Option<(usize, usize)> {
    let mut index = before.len();
    let mut way = WayBack {
        depth: 0,
        commas: 0,
        is_open: false,
        is_over: false,
    };
    for token in before.iter().rev() {
        index = index.saturating_sub(1);
        if let Kind::Sign(sign) = token.kind {
            way.pass(sign);
        }
        if way.is_open || way.is_over {
            break;
        }
    }
    if way.is_open {
        Some((index, way.commas))
    } else {
        None
    }
}

// The type of the parameter that a place is the argument for.
fn wanted_as_argument(
    declarations: &[Declaration<'_>],
    tokens: &[Token<'_>],
    spot: &Spot<'_, '_>,
) -> Option<Keyword> {
    let Some((index, commas)) = open_parenthesis(spot.before) else {
        return None;
    };
    match header_at(declarations, tokens, index.saturating_sub(1)) {
        Some(header) => header.parameter(commas),
        None => None,
    }
}

// The result of the procedure that a CALL at an index calls.
fn result_of_call(
    declarations: &[Declaration<'_>],
    tokens: &[Token<'_>],
    call: usize,
) -> Option<Keyword> {
    let name = match tokens.get(call.saturating_add(2)) {
        Some(token) if token.kind == Kind::Sign(Sign::Dot) => call.saturating_add(3),
        _ => call.saturating_add(1),
    };
    match header_at(declarations, tokens, name) {
        Some(header) => header.result,
        None => None,
    }
}

// The type of the variable that is wanted behind INTO.
fn wanted_behind_into(
    declarations: &[Declaration<'_>],
    tokens: &[Token<'_>],
    spot: &Spot<'_, '_>,
) -> Option<Keyword> {
    let mut index = spot.before.len();
    for token in spot.before.iter().rev() {
        index = index.saturating_sub(1);
        match token.kind {
            Kind::Keyword(Keyword::Fork) => return Some(Keyword::Process),
            Kind::Keyword(Keyword::Join) => return Some(Keyword::Integer),
            Kind::Keyword(Keyword::Call) => return result_of_call(declarations, tokens, index),
            _ => {}
        }
    }
    None
}

// The type of the result of a declared procedure.
fn result_of(tokens: &[Token<'_>], declaration: &Declaration<'_>) -> Option<Keyword> {
    match header_of(tokens, declaration) {
        Some(header) => header.result,
        None => None,
    }
}

// The type of the result of the procedure with this body.
fn wanted_of_body(
    declarations: &[Declaration<'_>],
    tokens: &[Token<'_>],
    body: u32,
) -> Option<Keyword> {
    for declaration in declarations {
        match declaration.sort {
            Sort::Procedure(number) if number == body => return result_of(tokens, declaration),
            _ => {}
        }
    }
    None
}

// The type of what is assigned to.
fn wanted_by_target(
    declarations: &[Declaration<'_>],
    sought: Sought,
    spot: &Spot<'_, '_>,
) -> Option<Keyword> {
    match spot.back(2) {
        Lexeme::Name => type_of_name(declarations, sought, spot.token_back(2).text),
        _ => Some(Keyword::Integer),
    }
}

/// The type that is wanted at a place, where what stands before it tells.
pub(crate) fn wanted_at(
    declarations: &[Declaration<'_>],
    tokens: &[Token<'_>],
    sought: Sought,
    spot: &Spot<'_, '_>,
) -> Option<Keyword> {
    match spot.back(1) {
        Lexeme::Word(Keyword::If | Keyword::While) => Some(Keyword::Boolean),
        Lexeme::Word(Keyword::Print) | Lexeme::Mark(Sign::OpenBracket) => Some(Keyword::Integer),
        Lexeme::Word(Keyword::Join) => Some(Keyword::Process),
        Lexeme::Word(Keyword::Return) => wanted_of_body(declarations, tokens, sought.scope.body),
        Lexeme::Word(Keyword::Into) => wanted_behind_into(declarations, tokens, spot),
        Lexeme::Mark(Sign::Assign) => wanted_by_target(declarations, sought, spot),
        Lexeme::Mark(Sign::OpenParen | Sign::Comma) => {
            wanted_as_argument(declarations, tokens, spot)
        }
        _ => None,
    }
}
