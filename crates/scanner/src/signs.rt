ghost use Rattle.std.specs.Prelude.{◌≡◌, ◌≢◌, ◌&&◌, ◌==◌, [], ◌∷◌, MatchOption, slice_index, if◌then◌else◌};
ghost use Rattle.scanner.specs.Faults.{BeginsNoToken};
ghost use Rattle.scanner.specs.Lexemes.{sign_text};
ghost use Rattle.scanner.specs.Steps.{front_of, can_grow, SignFirst};
ghost use Rattle.scanner.specs.declared.token.Sign.{Sign as Mark};

use crate::front::Front;
use crate::token::Sign;

// The longest sign with a first byte, where `equal` says whether `=` stands behind that.
fn sign_of(first: u8, equal: bool) -> Option<Sign>
    ensures { MatchOption result ((s : Mark) → slice_index (sign_text s) 0 ≢ first)
        (λ s. sign_text s ≡ first ∷ (if can_grow first && equal then 61 ∷ [] else [])) }
{
    let sign = match (first, equal) {
        (b':', true) => Sign::Assign,
        (b':', false) => Sign::Colon,
        (b';', _) => Sign::Semicolon,
        (b',', _) => Sign::Comma,
        (b'.', _) => Sign::Dot,
        (b'(', _) => Sign::OpenParen,
        (b')', _) => Sign::CloseParen,
        (b'[', _) => Sign::OpenBracket,
        (b']', _) => Sign::CloseBracket,
        (b'=', _) => Sign::Equal,
        (b'#', _) => Sign::NotEqual,
        (b'<', true) => Sign::LessEqual,
        (b'<', false) => Sign::Less,
        (b'>', true) => Sign::GreaterEqual,
        (b'>', false) => Sign::Greater,
        (b'+', _) => Sign::Plus,
        (b'-', _) => Sign::Minus,
        (b'*', _) => Sign::Times,
        (b'/', _) => Sign::Divide,
        _ => return None,
    };
    Some(sign)
}

fn has_equal_second(bytes: &[u8]) -> bool
    ensures { result ≡ (slice_index bytes.now 1 == 61) }
{
    matches!(bytes, [_, b'=', ..])
}

/// The longest sign that stands first.
pub fn sign_at(bytes: &[u8]) -> Option<Sign>
    requires { front_of bytes.now ≡ Front.Other }
    ensures { MatchOption result (BeginsNoToken bytes.now)
        (λ s. SignFirst (sign_text s) bytes.now) }
{
    match bytes {
        [first, ..] => sign_of(*first, has_equal_second(bytes)),
        [] => None,
    }
}

impl Sign {
    // How the sign is written.
    pub(crate) fn text(self) -> &'static [u8]
        ensures { result.now ≡ sign_text self }
    {
        match self {
            Sign::Assign => b":=",
            Sign::Colon => b":",
            Sign::Semicolon => b";",
            Sign::Comma => b",",
            Sign::Dot => b".",
            Sign::OpenParen => b"(",
            Sign::CloseParen => b")",
            Sign::OpenBracket => b"[",
            Sign::CloseBracket => b"]",
            Sign::Equal => b"=",
            Sign::NotEqual => b"#",
            Sign::Less => b"<",
            Sign::LessEqual => b"<=",
            Sign::Greater => b">",
            Sign::GreaterEqual => b">=",
            Sign::Plus => b"+",
            Sign::Minus => b"-",
            Sign::Times => b"*",
            Sign::Divide => b"/",
        }
    }
}
