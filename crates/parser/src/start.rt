// Which statement a token begins.

ghost use Rattle.syntax.specs.Lexeme.{lexeme_of};
ghost use Rattle.parser.specs.Starts.{Begins};

use scanner::{Keyword, Kind, Place, Token};
use syntax::Name;

/// The first token of a statement: the name that is assigned to, or a keyword with its place.
#[derive(Clone, Copy)]
pub enum StatementStart<'a> {
    Assign(Name<'a>),
    If(Place),
    While(Place),
    Call(Place),
    Fork(Place),
    Join(Place),
    Return(Place),
    Wait(Place),
    Notify(Place),
    Broadcast(Place),
    Print(Place),
    Abort(Place),
}

/// Which statement a token begins, if it begins one.
pub fn start_of(token: Token<'_>) -> Option<StatementStart<'_>>
    ensures { Begins result (lexeme_of token.entry) }
{
    let place = token.place;
    let start = match token.kind {
        Kind::Name => StatementStart::Assign(Name {
            text: token.text,
            place,
        }),
        Kind::Keyword(Keyword::If) => StatementStart::If(place),
        Kind::Keyword(Keyword::While) => StatementStart::While(place),
        Kind::Keyword(Keyword::Call) => StatementStart::Call(place),
        Kind::Keyword(Keyword::Fork) => StatementStart::Fork(place),
        Kind::Keyword(Keyword::Join) => StatementStart::Join(place),
        Kind::Keyword(Keyword::Return) => StatementStart::Return(place),
        Kind::Keyword(Keyword::Wait) => StatementStart::Wait(place),
        Kind::Keyword(Keyword::Notify) => StatementStart::Notify(place),
        Kind::Keyword(Keyword::Broadcast) => StatementStart::Broadcast(place),
        Kind::Keyword(Keyword::Print) => StatementStart::Print(place),
        Kind::Keyword(Keyword::Abort) => StatementStart::Abort(place),
        _ => return None,
    };
    Some(start)
}
