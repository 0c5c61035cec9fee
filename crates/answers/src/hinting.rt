ghost use Rattle.std.specs.Prelude.{◌≡◌, ◌++◌, ◌⊎◌, MatchResult, string_bytes};
ghost use Rattle.answers.specs.Hinting.{HasHinted};

use crate::failure::NoAnswer;
use commandline::Exits;
use refusal_hints::hints_of;
use std::alloc::{AllocError, Global};

/// A source text, or an image or an assembly text: by whose rule the exits of its threads wake, and whether hints stand
/// behind what is told of it.
#[derive(Clone, Copy)]
pub struct SourceText<'a> {
    /// The name of its file.
    pub file: &'a str,
    /// Its bytes.
    pub bytes: &'a [u8],
    /// By whose rule the exits of its threads wake.
    pub exits: Exits,
    /// Whether hints are wanted.
    pub hints: bool,
}

/// Appends a text, where there is memory for it.
pub(crate) fn push_told(told: &mut String, more: &str)
    ensures { (string_bytes told.new ≡ string_bytes told.old ++ more.now)
        ⊎ (string_bytes told.new ≡ string_bytes told.old) }
{
    let _appended = told.push_str(more);
}

/// Appends hints, where there was memory for them, and is for more.
pub(crate) fn append_told(told: &mut String, hints: Result<String, AllocError>)
    ensures { MatchResult hints (λ s. (string_bytes told.new ≡ string_bytes told.old ++ string_bytes s)
        ⊎ (string_bytes told.new ≡ string_bytes told.old))
        (λ _. string_bytes told.new ≡ string_bytes told.old) }
{
    match hints {
        Ok(hints) => push_told(told, hints.as_str()),
        Err(_) => {}
    }
}

/// Appends the hints to the refusal of a text, where it was refused and they are wanted: lines that each begin with two
/// blanks. Nothing is appended where there is no memory for them.
pub fn tell_refused(alloc: Global, told: &mut String, text: &SourceText<'_>, left: NoAnswer<'_>)
    ensures { HasHinted text.now.hints (string_bytes told.old) (string_bytes told.new) }
{
    let NoAnswer::Refused(refusal) = left else {
        return;
    };
    if !text.hints {
        return;
    }
    append_told(told, hints_of(alloc, text.file, text.bytes, &refusal));
}
