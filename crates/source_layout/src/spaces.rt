// What stands between tokens, by what they are.

use scanner::{Keyword, Kind, Sign};

// Whether a sign stands right behind what is before it.
fn hugs(sign: Sign) -> bool {
    matches!(
        sign,
        Sign::Semicolon
            | Sign::Comma
            | Sign::Colon
            | Sign::Dot
            | Sign::CloseParen
            | Sign::OpenBracket
            | Sign::CloseBracket
    )
}

/// Whether a blank stands between two tokens of one line.
pub(crate) fn stand_apart(before: Kind, next: Kind) -> bool {
    match (before, next) {
        (_, Kind::Sign(sign)) if hugs(sign) => false,
        (Kind::Name, Kind::Sign(Sign::OpenParen)) => false,
        (Kind::Sign(Sign::Dot | Sign::OpenParen | Sign::OpenBracket), _) => false,
        _ => true,
    }
}

/// Whether a long line may end between two tokens: where a blank stands between them, but not before a type.
pub(crate) fn may_part(before: Kind, next: Kind) -> bool {
    stand_apart(before, next) && before != Kind::Sign(Sign::Colon)
}

/// Whether statements or declarations begin behind a token, one level deeper.
pub(crate) fn opens(kind: Kind) -> bool {
    matches!(
        kind,
        Kind::Keyword(
            Keyword::Then
                | Keyword::Else
                | Keyword::Do
                | Keyword::Aborted
                | Keyword::Recover
                | Keyword::Main
        )
    )
}

/// Whether a token begins the head of a MONITOR or a PROCEDURE, whose semicolon opens its body.
pub(crate) fn begins_head(kind: Kind) -> bool {
    matches!(kind, Kind::Keyword(Keyword::Monitor | Keyword::Procedure))
}

/// Whether statements or declarations end before a token.
pub(crate) fn closes(kind: Kind) -> bool {
    matches!(
        kind,
        Kind::Keyword(Keyword::End | Keyword::Else | Keyword::Endif | Keyword::Endloop)
    )
}

/// Whether a line ends behind a token, which stands behind another one. The dot of the last END ends a line, and that
/// of a name doesn't.
pub(crate) fn ends_line(before: Kind, kind: Kind) -> bool {
    match kind {
        Kind::Sign(Sign::Semicolon) => true,
        Kind::Sign(Sign::Dot) => before == Kind::Keyword(Keyword::End),
        _ => opens(kind),
    }
}
