ghost use Rattle.std.specs.Prelude.{◌≡◌, ◌≢◌, ◌++◌, ◌∷◌, MatchBool, MatchOption, List, ℕ};
ghost use Rattle.assembler.specs.Cuts.{AtByte, NoByte};

use memchr::memchr;

/// A text in two parts.
#[derive(Clone, Copy, Drop)]
pub(crate) struct Halves<'a> {
    /// What stands before the place.
    pub front: &'a [u8],
    /// What stands from it on.
    pub rest: &'a [u8],
}

/// What stands before the first such byte of a text, and the text from it on; the whole text and nothing, where it has
/// none.
pub(crate) fn cut(text: &[u8], byte: u8) -> Halves<'_>
    ensures whole { text.now ≡ result.front.now ++ result.rest.now }
    ensures front { NoByte byte result.front.now }
    ensures rest { AtByte byte result.rest.now }
{
    match memchr(byte, text) {
        Some(place) => {
            let parts = text.split_at(place);
            Halves {
                front: parts.0,
                rest: parts.1,
            }
        }
        None => Halves {
            front: text,
            rest: &[],
        },
    }
}

/// What follows this byte at the front of a text; None where it isn't there.
pub(crate) fn past_byte(text: &[u8], byte: u8) -> Option<&[u8]>
    ensures { MatchOption result ((rest : List ℕ) → text.now ≢ byte ∷ rest)
        (λ rest. text.now ≡ byte ∷ rest.now) }
{
    let Some((first, rest)) = text.split_first() else {
        return None;
    };
    if *first == byte { Some(rest) } else { None }
}

/// What follows this word at the front of a text; None where it isn't there.
pub(crate) fn past_word<'a>(text: &'a [u8], word: &[u8]) -> Option<&'a [u8]>
    ensures { MatchOption result ((rest : List ℕ) → text.now ≢ word.now ++ rest)
        (λ rest. text.now ≡ word.now ++ rest.now) }
{
    let size = word.len();
    if text.len() < size {
        return None;
    }
    let parts = text.split_at(size);
    if are_same(parts.0, word) {
        Some(parts.1)
    } else {
        None
    }
}

// Whether two texts are the same.
fn are_same(a: &[u8], b: &[u8]) -> bool
    ensures { MatchBool result (a.now ≡ b.now) (a.now ≢ b.now) }
{
    a == b
}
