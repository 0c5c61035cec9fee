// What helps where a sign stands that can't.

use crate::lexeme::Lexeme;
use crate::slip_texts::{
    CALL, CALL_IN_EXPRESSION, COMMENT, EQUAL, FOREIGN_MEMBER, INCREMENT, LAST_END, NO_VALUE,
    ONE_COMPARISON, PLAIN_ARRAY, UNEQUAL,
};
use crate::spot::Spot;
use scanner::{Keyword, Sign};

/// What is said of a sign.
pub(crate) fn sign_slip(sign: Sign, spot: &Spot<'_, '_>) -> Option<&'static str> {
    match sign {
        Sign::Equal => equal_slip(spot),
        Sign::Assign => assign_slip(spot),
        Sign::OpenParen => paren_slip(spot),
        Sign::Dot => dot_slip(spot),
        Sign::Comma => comma_slip(spot),
        Sign::Colon => colon_slip(spot),
        Sign::OpenBracket => bracket_slip(spot),
        Sign::Plus | Sign::Minus => increment_slip(spot),
        Sign::Times | Sign::Divide => comment_slip(sign, spot).or(increment_slip(spot)),
        Sign::NotEqual if !spot.is_behind_operand() => Some(COMMENT),
        Sign::NotEqual | Sign::Less | Sign::LessEqual | Sign::Greater | Sign::GreaterEqual => {
            comparison_slip(sign, spot)
        }
        Sign::CloseParen if spot.is_behind_operand() => Some("there is no ( to this )"),
        Sign::Semicolon | Sign::CloseParen | Sign::CloseBracket => None,
    }
}

// A declaration with a value.
fn value_slip(spot: &Spot<'_, '_>) -> Option<&'static str> {
    match spot.back(1) {
        Lexeme::Word(Keyword::Integer | Keyword::Boolean | Keyword::Process) => Some(NO_VALUE),
        _ => None,
    }
}

fn equal_slip(spot: &Spot<'_, '_>) -> Option<&'static str> {
    if spot.takes_sign(Sign::Assign) {
        return Some("an assignment is written with :=");
    }
    if spot.back(1) == Lexeme::Mark(Sign::Equal) {
        return Some(EQUAL);
    }
    value_slip(spot).or(comparison_slip(Sign::Equal, spot))
}

fn assign_slip(spot: &Spot<'_, '_>) -> Option<&'static str> {
    if spot.is_behind_operand() {
        return Some(EQUAL);
    }
    if spot.takes_sign(Sign::OpenParen) {
        return Some(CALL);
    }
    value_slip(spot)
}

fn paren_slip(spot: &Spot<'_, '_>) -> Option<&'static str> {
    if spot.ahead(1) == Lexeme::Mark(Sign::Times) {
        return Some(COMMENT);
    }
    match spot.back(1) {
        Lexeme::Word(Keyword::Wait | Keyword::Notify | Keyword::Broadcast) => {
            Some("WAIT, NOTIFY and BROADCAST take a name alone, without parentheses")
        }
        Lexeme::Word(Keyword::Array) => Some(PLAIN_ARRAY),
        Lexeme::Name if spot.takes_sign(Sign::Assign) => Some(CALL),
        Lexeme::Name if spot.is_behind_operand() => Some(CALL_IN_EXPRESSION),
        _ => None,
    }
}

fn dot_slip(spot: &Spot<'_, '_>) -> Option<&'static str> {
    let calls = spot.ahead(2) == Lexeme::Mark(Sign::OpenParen);
    match (spot.back(1), spot.back(2)) {
        (Lexeme::Number, _) => Some("there are no fractions"),
        (Lexeme::Name, Lexeme::Word(Keyword::Wait | Keyword::Notify | Keyword::Broadcast)) => {
            Some(FOREIGN_MEMBER)
        }
        (Lexeme::Name, _) if spot.takes_sign(Sign::Assign) => {
            Some(if calls { CALL } else { FOREIGN_MEMBER })
        }
        (Lexeme::Name, _) if spot.is_behind_operand() => Some(if calls {
            CALL_IN_EXPRESSION
        } else {
            FOREIGN_MEMBER
        }),
        (Lexeme::Word(Keyword::End), _) => Some(LAST_END),
        _ => None,
    }
}

fn comma_slip(spot: &Spot<'_, '_>) -> Option<&'static str> {
    if spot.back(2) == Lexeme::Word(Keyword::Var) {
        return Some("each variable has a VAR of its own: VAR x: INTEGER; VAR y: INTEGER;");
    }
    if spot.takes_sign(Sign::Colon) {
        return Some("each parameter has a type of its own: x: INTEGER, y: INTEGER");
    }
    if spot.is_behind_operand() {
        return Some("a comma stands between arguments and between parameters alone");
    }
    None
}

fn colon_slip(spot: &Spot<'_, '_>) -> Option<&'static str> {
    if !spot.takes_sign(Sign::Assign) {
        return None;
    }
    if spot.ahead(1) == Lexeme::Mark(Sign::Equal) {
        return Some("the sign := has no blank in it");
    }
    Some("a declaration begins with VAR: VAR x: INTEGER;")
}

fn bracket_slip(spot: &Spot<'_, '_>) -> Option<&'static str> {
    match spot.back(1) {
        Lexeme::Word(Keyword::Array) => Some(PLAIN_ARRAY),
        Lexeme::Mark(Sign::CloseBracket) => Some("an array has one index"),
        _ => None,
    }
}

fn increment_slip(spot: &Spot<'_, '_>) -> Option<&'static str> {
    if spot.takes_sign(Sign::Assign) || spot.back(1) == Lexeme::Mark(Sign::Plus) {
        return Some(INCREMENT);
    }
    None
}

fn comment_slip(sign: Sign, spot: &Spot<'_, '_>) -> Option<&'static str> {
    match (spot.back(1), sign, spot.ahead(1)) {
        (Lexeme::Mark(Sign::Divide), _, _)
        | (Lexeme::Mark(Sign::OpenParen), Sign::Times, _)
        | (_, Sign::Divide, Lexeme::Mark(Sign::Divide | Sign::Times)) => Some(COMMENT),
        _ => None,
    }
}

fn comparison_slip(sign: Sign, spot: &Spot<'_, '_>) -> Option<&'static str> {
    match (spot.back(1), sign) {
        (Lexeme::Mark(Sign::Less), Sign::Greater) => Some(UNEQUAL),
        (Lexeme::Mark(Sign::Equal), Sign::Less | Sign::Greater) => {
            Some("<= and >= have their = last")
        }
        _ if spot.is_behind_operand() => Some(ONE_COMPARISON),
        _ => None,
    }
}
