ghost use Rattle.std.specs.Prelude.{◌≡◌, ◌⊎◌, List, IfOk, IfErr, MatchResult};
ghost use Rattle.scanner.specs.Faults.{IsFault};
ghost use Rattle.scanner.specs.Refusals.{out_of_memory};
ghost use Rattle.scanner.specs.Tokens.{TokenView, IsTokens, views};

use crate::refusal::{Refusal, RefusalKind};
use crate::source::Source;
use crate::token::{Kind, Place, Token};
use std::alloc::Global;

/// The most bytes that a text may have.
pub const MOST_BYTES: usize = 1 << 20;

/// The tokens of a text, of which the last is its end. They borrow the text.
///
/// White space and comments stand between tokens. A comment goes from `--` to the end of its line. A token is the
/// longest that stands at its place.
///
/// # Errors
///
/// - `Limit` at 1:1 for a text of more than `MOST_BYTES`, whatever its bytes are.
/// - `NotAscii` at a byte past 127, also in a comment.
/// - `BadToken` at a byte of ASCII that begins no token, and at the first digit of a number past 2147483647.
/// - `Memory` at 1:1 where memory runs out.
///
/// Of several faults of a text the first is given.
pub fn scan<'a>(alloc: Global, text: &'a [u8]) -> Result<Vec<Token<'a>>, Refusal>
    ensures tokens { IfOk result (λ v. IsTokens text.now (views v.items)) }
    // A text that has tokens is refused for memory alone.
    ensures only { (ts : List TokenView) → IsTokens text.now ts
        → MatchResult result (λ v. views v.items ≡ ts) (λ e. e ≡ out_of_memory) }
    ensures fault { IfErr result (λ e. (e ≡ out_of_memory) ⊎ IsFault text.now e) }
{
    if text.len() > MOST_BYTES {
        return Err(Refusal {
            kind: RefusalKind::Limit,
            place: Place::START,
        });
    }
    let mut source = Source::new(text);
    let mut tokens = Vec::new(alloc);
    while let Some(token) = source.next_token()? {
        tokens.push(token)?;
    }
    tokens.push(Token {
        kind: Kind::End,
        text: &[],
        place: source.place,
    })?;
    Ok(tokens)
}
