// Which limit is passed at a place.

use crate::declarations::{Declaration, Sort, declarations_of};
use crate::lexeme::Lexeme;
use crate::names::declared_at;
use crate::scopes::{Walk, walk_over};
use crate::spot::Spot;
use scanner::{Keyword, Kind, MOST_BYTES, Place, Token};
use std::alloc::Global;
use text_writer::TextWriter;

// How many words the variables of all monitors may have (docs/language.md, "Limits").
const MOST_MEMBER_WORDS: usize = 1024;

const CHAIN: &str = "a chain of calls has at most 15 procedures, the first one counted";

const PROCEDURE: &str =
    "a program has at most 512 procedures, and a chain of calls at most 15, the first one counted";

const MEMBER: &str =
    "the variables of all monitors have at most 1024 words, one for each element of an array, and at most 256 of them are conditions";

const LOCAL: &str = "parameters and variables of a procedure together are at most 64";

const PARAMETER: &str =
    "a procedure has at most 16 parameters, and with its variables together at most 64";

const NESTING: &str =
    "at most 64 nestings are open at once: IF, WHILE, ABORTED, ( in expressions, [ and - or NOT before a factor open one";

// The limit that a declared name is past.
fn limit_of_name(spot: &Spot<'_, '_>) -> &'static str {
    let scope = walk_over(spot.before).scope;
    match spot.back(1) {
        Lexeme::Word(Keyword::Monitor) => "a program has at most 64 monitors",
        Lexeme::Word(Keyword::Procedure) => PROCEDURE,
        Lexeme::Word(Keyword::Var) if scope.body == 0 => MEMBER,
        Lexeme::Word(Keyword::Var) => LOCAL,
        _ => PARAMETER,
    }
}

// Whether a declaration counts among those that one is counted with: monitors, procedures, conditions, or what a body has
// as parameters and variables.
fn counts_with(here: &Declaration<'_>, other: &Declaration<'_>) -> bool {
    match (here.sort, other.sort) {
        (Sort::Monitor(_), Sort::Monitor(_)) | (Sort::Procedure(_), Sort::Procedure(_)) => true,
        (Sort::Variable(_), Sort::Variable(_)) if here.scope.body > 0 => here.scope == other.scope,
        (Sort::Variable(_), Sort::Variable(word)) => {
            other.scope.body == 0 && word == Keyword::Condition
        }
        _ => false,
    }
}

// How many there may be of those that it is counted with, and what they are called. Of parameters alone there may be 16,
// and of them and variables more.
fn most_of(here: &Declaration<'_>) -> (usize, &'static str) {
    match here.sort {
        Sort::Monitor(_) => (64, "monitors"),
        Sort::Procedure(_) => (512, "procedures"),
        Sort::Variable(_) if here.scope.body == 0 => (256, "conditions"),
        Sort::Variable(_) => (16, "parameters and variables"),
    }
}

// How many of those that it is counted with stand up to a declaration.
fn count_to(declarations: &[Declaration<'_>], here: &Declaration<'_>) -> usize {
    let last = here.name.place;
    let mut count: usize = 0;
    for declaration in declarations {
        if counts_with(here, declaration) {
            count = count.saturating_add(1);
        }
        let at = declaration.name.place;
        if at == last {
            break;
        }
    }
    count
}

// Appends which of the names that it is counted with a declared one is.
fn append_count(out: &mut TextWriter, declarations: &[Declaration<'_>], here: &Declaration<'_>) {
    let (most, what) = most_of(here);
    let count = count_to(declarations, here);
    if count <= most {
        return;
    }
    out.form("this is number $ of the ", &[count as u64]);
    out.line(what)
}

// How many words a variable has whose type begins with these two tokens.
fn words_of(first: Kind, second: Kind) -> usize {
    match (first, second) {
        (Kind::Keyword(Keyword::Array), Kind::Number(size)) => size as usize,
        _ => 1,
    }
}

// How many words the variables of all monitors have, up to the one whose name stands at a place.
fn member_words_to(tokens: &[Token<'_>], place: Place) -> usize {
    let mut walk = Walk::new();
    let mut words: usize = 0;
    for five in tokens.windows(5) {
        let [before, name, _, first, second] = five else {
            continue;
        };
        walk.pass(before.kind);
        if before.kind == Kind::Keyword(Keyword::Var) && walk.scope.body == 0 {
            words = words.saturating_add(words_of(first.kind, second.kind));
        }
        let at = name.place;
        if at == place {
            break;
        }
    }
    words
}

// Appends how many words the variables of monitors have up to a declared one, where it is one of them and they have too
// many.
fn append_words(out: &mut TextWriter, tokens: &[Token<'_>], here: &Declaration<'_>) {
    match here.sort {
        Sort::Variable(_) if here.scope.body == 0 => {}
        _ => return,
    }
    let words = member_words_to(tokens, here.name.place);
    if words > MOST_MEMBER_WORDS {
        out.form("up to this one they have $\n", &[words as u64])
    }
}

// Appends which of the names that it is counted with stands at a place, where it is a declared one.
fn append_name(
    out: &mut TextWriter,
    declarations: &[Declaration<'_>],
    tokens: &[Token<'_>],
    place: Place,
) {
    let Some(here) = declared_at(declarations, place) else {
        return;
    };
    append_count(out, declarations, here);
    append_words(out, tokens, here)
}

/// Appends which limit is passed at a place of a text, and of declared names which of them stands there.
pub(crate) fn append_limit(
    alloc: Global,
    out: &mut TextWriter,
    text: &[u8],
    tokens: &[Token],
    spot: &Spot<'_, '_>,
    place: Place,
) {
    out.line(limit_at(text, place, spot));
    match declarations_of(alloc, tokens) {
        Ok(found) => append_name(out, found.as_slice(), tokens, place),
        Err(_) => out.fail(),
    }
}

// The limit that is passed at a place of a text.
fn limit_at(text: &[u8], place: Place, spot: &Spot<'_, '_>) -> &'static str {
    if text.len() > MOST_BYTES {
        return "a text has at most 1048576 bytes";
    }
    if place == Place::START {
        return "the code of a program has at most 65536 instructions";
    }
    match spot.here() {
        Lexeme::Number => "an array has 1 to 1024 elements",
        Lexeme::Word(Keyword::Main) => CHAIN,
        Lexeme::Name => limit_of_name(spot),
        _ => NESTING,
    }
}
