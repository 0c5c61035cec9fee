ghost use Rattle.std.specs.Prelude.{◌≡◌, ◌≢◌, ◌<◌, ◌++◌, ◌∷◌, MatchBool, MatchOption, List, ℕ, drop};
ghost use Rattle.machine.specs.declared.event.EventName.{EventName as Name};
ghost use Rattle.log_text.specs.Cuts.{AtByte, NoByte};
ghost use Rattle.log_text.specs.LogLines.{name_text};
ghost use Rattle.log_text.specs.Places.{place_of};

use crate::writing::name_of;
use machine::EventName;
use memchr::memchr;

// How many names of steps there are.
const NAMES: u32 = 23;

/// A text in two parts.
#[derive(Clone, Copy, Drop)]
pub struct Halves<'a> {
    /// What stands before the place.
    pub front: &'a [u8],
    /// What stands from it on.
    pub rest: &'a [u8],
}

/// What stands before the first such byte of a text, and the text from it on; the whole text and nothing, where it has
/// none.
pub fn cut(text: &[u8], byte: u8) -> Halves<'_>
    ensures whole { text.now ≡ result.front.now ++ result.rest.now }
    ensures front { NoByte byte result.front.now }
    ensures rest { AtByte byte result.rest.now }
{
    match memchr(byte, text) {
        Some(place) => {
            let parts = text.split_at(place);
            Halves {
                front: parts.0,
                rest: parts.1,
            }
        }
        None => Halves {
            front: text,
            rest: &[],
        },
    }
}

/// A text without its first byte.
pub fn past_first(text: &[u8]) -> &[u8]
    ensures { result.now ≡ drop 1 text.now }
{
    match text.split_first() {
        Some((_, rest)) => rest,
        None => text,
    }
}

/// What follows this byte at the front of a text; None where it isn't there.
pub fn past_byte(text: &[u8], byte: u8) -> Option<&[u8]>
    ensures { MatchOption result ((rest : List ℕ) → text.now ≢ byte ∷ rest)
        (λ rest. text.now ≡ byte ∷ rest.now) }
{
    let Some((first, rest)) = text.split_first() else {
        return None;
    };
    if *first == byte { Some(rest) } else { None }
}

/// What follows this word at the front of a text; None where it isn't there.
pub fn past_word<'a>(text: &'a [u8], word: &[u8]) -> Option<&'a [u8]>
    ensures { MatchOption result ((rest : List ℕ) → text.now ≢ word.now ++ rest)
        (λ rest. text.now ≡ word.now ++ rest.now) }
{
    let size = word.len();
    if text.len() < size {
        return None;
    }
    let parts = text.split_at(size);
    if are_same(parts.0, word) {
        Some(parts.1)
    } else {
        None
    }
}

/// Whether two texts are the same.
pub fn are_same(a: &[u8], b: &[u8]) -> bool
    ensures { MatchBool result (a.now ≡ b.now) (a.now ≢ b.now) }
{
    a == b
}

/// The step that a log calls so; TURN is Local. None where it calls none so.
pub fn name_called(text: &[u8]) -> Option<EventName>
    ensures { MatchOption result ((name : Name) → text.now ≢ name_text name)
        (λ name. text.now ≡ name_text name) }
{
    for place in 0..NAMES {
        let name = name_at(place);
        if is_called(name, text) {
            return Some(name);
        }
    }
    None
}

// The names of steps in the order in which they are tried.
fn name_at(place: u32) -> EventName
    requires { place < 23 }
    ensures { place_of result ≡ place }
{
    match place {
        0 => EventName::Load,
        1 => EventName::Store,
        2 => EventName::Swap,
        3 => EventName::CompareSwap,
        4 => EventName::FetchOr,
        5 => EventName::FetchAdd,
        6 => EventName::Fork,
        7 => EventName::Print,
        8 => EventName::Wait,
        9 => EventName::Wake,
        10 => EventName::Requeue,
        11 => EventName::Ret,
        12 => EventName::RetValue,
        13 => EventName::Die,
        14 => EventName::Entry,
        15 => EventName::Pending,
        16 => EventName::Clear,
        17 => EventName::Last,
        18 => EventName::Stray,
        19 => EventName::Kill,
        20 => EventName::FutexLock,
        21 => EventName::FutexCompare,
        _ => EventName::Local,
    }
}

fn is_called(name: EventName, text: &[u8]) -> bool
    ensures { MatchBool result (text.now ≡ name_text name) (text.now ≢ name_text name) }
{
    are_same(text, name_of(name).as_bytes())
}
