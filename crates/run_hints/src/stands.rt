// Where a process stands in the text.

use crate::follower::Follower;
use crate::level::{Level, Standing};
use crate::names::{append_piece, append_place};
use places::Places;
use source_offers::Stage;
use text_writer::TextWriter;

/// The token at which a piece stands so.
pub(crate) fn token_of(places: &Places<'_>, piece: u32, standing: Standing) -> usize {
    let Some(found) = places.piece(piece) else {
        return 0;
    };
    match standing {
        Standing::Begins => found.token,
        Standing::Ends => found.end,
        Standing::At(spot) => match places.spot(spot) {
            Some(spot) => spot.token,
            None => found.token,
        },
    }
}

/// The token at which a procedure stands.
pub(crate) fn token_at(places: &Places<'_>, level: &Level) -> usize {
    token_of(places, level.piece, level.standing)
}

// Appends where the innermost of these procedures stands, and where it was called.
fn append_levels(out: &mut TextWriter, file: &str, places: &Places<'_>, levels: &[Level]) {
    let [below @ .., top] = levels else {
        return;
    };
    out.text(" at ");
    append_place(out, file, places, token_at(places, top));
    out.text(", in ");
    append_piece(out, places, top.piece);
    let [.., caller] = below else {
        return;
    };
    out.text(" called at ");
    append_place(out, file, places, token_at(places, caller))
}

// The procedures without one that hasn't entered its monitor, where another one called it.
fn entered<'l>(levels: &'l [Level], is_entering: bool) -> &'l [Level] {
    match levels {
        [below @ .., _top] if is_entering && !below.is_empty() => below,
        whole => whole,
    }
}

/// Appends where a process stands, and where the procedure that it is in was called.
pub(crate) fn append_stand(
    out: &mut TextWriter,
    file: &str,
    follower: &Follower<'_, '_>,
    process: u64,
) {
    let is_entering = match follower.state.process(process) {
        Some(found) => matches!(found.stage, Stage::Entering(_)),
        None => false,
    };
    let levels = entered(follower.levels(process), is_entering);
    append_levels(out, file, follower.places, levels)
}
