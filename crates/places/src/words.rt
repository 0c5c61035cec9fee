// The words of a text, as they stand there.

use crate::places::Places;
use scanner::{Keyword, Kind, Sign, Token};
use std::alloc::AllocError;

// How many tokens of a long expression are shown.
const MOST_SHOWN: usize = 24;

// Whether a token ends what stands behind the keyword of a statement.
fn is_end(token: &Token<'_>) -> bool {
    matches!(
        token.kind,
        Kind::Keyword(Keyword::Then | Keyword::Do | Keyword::Aborted)
            | Kind::Sign(Sign::Semicolon | Sign::Assign)
            | Kind::End
    )
}

// Whether something stands between a token and the one behind it.
fn is_apart(token: &Token<'_>, next: &Token<'_>) -> bool {
    let column = (token.place.column as usize).saturating_add(token.text.len());
    token.place.line != next.place.line || column != next.place.column as usize
}

// Appends bytes of a token, which has ASCII alone.
fn append_token(out: &mut String, token: &Token<'_>) -> Result<(), AllocError> {
    for byte in token.text {
        out.push(char::from(*byte))?;
    }
    Ok(())
}

impl Places<'_> {
    /// Appends the words from a token on, up to the end of the expression or target that begins there: of a long one
    /// the first, and `..`. Comments and line ends between them are shown as blanks.
    pub fn append_words(&self, out: &mut String, from: usize) -> Result<(), AllocError> {
        let mut last: Option<&Token<'_>> = None;
        for token in self.tokens.iter().skip(from).take(MOST_SHOWN) {
            if is_end(token) {
                return Ok(());
            }
            if let Some(last) = last {
                if is_apart(last, token) {
                    out.push(' ')?;
                }
            }
            append_token(out, token)?;
            last = Some(token);
        }
        out.push_str(" ..")
    }
}
