// The test by which a program asserts something: `IF test THEN ABORT; ENDIF;`.

use crate::follower::Follower;
use crate::level::Standing;
use places::Places;
use scanner::{Keyword, Kind};
use text_writer::TextWriter;

// Whether a token is the keyword IF.
fn is_if(places: &Places<'_>, token: usize) -> bool {
    match places.tokens.get(token) {
        Some(found) => matches!(found.kind, Kind::Keyword(Keyword::If)),
        None => false,
    }
}

// The first token of the test behind whose THEN a statement is the first. Statements are numbered as they begin, so that
// IF is the one before.
fn test_before(places: &Places<'_>, spot: usize) -> Option<usize> {
    let number = spot.checked_sub(1)?;
    let before = places.spot(number)?;
    if before.part != Some(spot) || !is_if(places, before.token) {
        return None;
    }
    before.token.checked_add(1)
}

// The first token of the test behind whose THEN a process stands.
fn test_of(follower: &Follower<'_, '_>, process: u64) -> Option<usize> {
    let top = follower.levels(process).last()?;
    match top.standing {
        Standing::At(spot) => test_before(follower.places, spot),
        _ => None,
    }
}

/// Appends the test that a process came through to its ABORT, where it stands just before.
pub(crate) fn append_test_before(out: &mut TextWriter, follower: &Follower<'_, '_>, process: u64) {
    let Some(from) = test_of(follower, process) else {
        return;
    };
    let mut words = String::new(follower.alloc);
    out.text(" where ");
    match follower.places.append_words(&mut words, from) {
        Ok(()) => out.text(words.as_str()),
        Err(_) => out.fail(),
    }
}
