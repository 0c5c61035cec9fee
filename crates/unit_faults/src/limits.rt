// More of something than is allowed.

ghost use Rattle.std.specs.Prelude.{◌≡◌, ◌<◌, map};
ghost use Rattle.scanner.specs.declared.refusal.RefusalKind.TheVariants.{Limit};
ghost use Rattle.syntax.specs.View.{name_of, member_of};
ghost use Rattle.types.specs.Judgement.{IsPast, is_size, kind_words};
ghost use Rattle.unit_faults.specs.Collected.{Collects, OfKind};
ghost use Rattle.unit_faults.specs.Members.{IsPastWordsOf, IsNoSizeIn, IsNoSizeOf};

use crate::least::note_where;
use scanner::{Refusal, RefusalKind};
use syntax::{Member, MemberType, Name};

/// The least fault, where at most so many of these names are allowed: each further one is past the `Limit`.
pub fn past(most: usize, names: &[Name<'_>], least: Option<Refusal>) -> Option<Refusal>
    ensures { Collects (OfKind Limit (IsPast most (map name_of names.now))) least result }
{
    let mut least = least;
    for i in most..names.len() {
        least = note_where(true, RefusalKind::Limit, names[i].place, least);
    }
    least
}

// The most words of the members of all monitors, and elements of an array.
const MOST_MEMBER_WORDS: u32 = 1024;

const MOST_ELEMENTS: u32 = 1024;

// Whether an array may have so many elements.
fn is_size(elements: u32) -> bool
    ensures { result ≡ is_size elements }
{
    0 < elements && elements <= MOST_ELEMENTS
}

// The words of a member. An array of a size that isn't allowed has one.
fn kind_words(kind: MemberType) -> u32
    ensures words { result ≡ kind_words kind }
    ensures positive { 0 < result }
{
    match kind {
        MemberType::Array(number) if is_size(number.value) => number.value,
        _ => 1,
    }
}

/// The least fault, where these are the members of all monitors: each one whose words are past the limit of words.
pub fn past_words(members: &[Member<'_>], least: Option<Refusal>) -> Option<Refusal>
    ensures { Collects (OfKind Limit (IsPastWordsOf (map member_of members.now))) least result }
{
    let mut left = MOST_MEMBER_WORDS;
    let mut least = least;
    for member in members {
        let words = kind_words(member.kind);
        least = note_where(left < words, RefusalKind::Limit, member.name.place, least);
        left = left.saturating_sub(words);
    }
    least
}

// The least fault, where there is a member of this type.
fn size(kind: MemberType, least: Option<Refusal>) -> Option<Refusal>
    ensures { Collects (OfKind Limit (IsNoSizeIn kind)) least result }
{
    match kind {
        MemberType::Array(number) => note_where(
            !is_size(number.value),
            RefusalKind::Limit,
            number.place,
            least,
        ),
        _ => least,
    }
}

/// The least fault, where these are the members of all monitors: each number that is no size of an array.
pub fn sizes(members: &[Member<'_>], least: Option<Refusal>) -> Option<Refusal>
    ensures { Collects (OfKind Limit (IsNoSizeOf (map member_of members.now))) least result }
{
    let mut least = least;
    for member in members {
        least = size(member.kind, least);
    }
    least
}
