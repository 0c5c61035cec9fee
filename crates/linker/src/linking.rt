ghost use Rattle.std.specs.Prelude.{◌≡◌, ◌-◌, length, map, slice_index, MatchResult};
ghost use Rattle.isa.specs.Programs.{IsProgram};
ghost use Rattle.codegen.specs.Generated.{piece_of};
ghost use Rattle.linker.specs.Failures.{FailsWhere, RefusesLinking, stray};
ghost use Rattle.linker.specs.Linked.{Links, image_of};

use crate::limits::are_few;
use crate::order::are_numbered;
use crate::pieces::{link_pieces, places, refuse_long, total};
use codegen::CodePiece;
use isa::Image;
use layout::Layout;
use scanner::{Place, Refusal, RefusalKind};
use std::alloc::Global;

// The refusal of pieces that don't have each number once.
pub(crate) fn refuse_stray() -> Refusal
    ensures { result ≡ stray }
{
    Refusal {
        kind: RefusalKind::StrayPiece,
        place: Place::START,
    }
}

// The last place, 0 where there is none.
fn last_of(places: &[u32]) -> u32
    ensures { result ≡ slice_index places.now (length places.now - 1) }
{
    match places.last() {
        Some(place) => *place,
        None => 0,
    }
}

// The image of pieces in the order of their numbers.
fn link_sorted(alloc: Global, layout: &Layout, pieces: &[CodePiece]) -> Result<Image, Refusal>
    ensures { let made = image_of layout.now (map piece_of pieces.now) in
        MatchResult result (λ i. i ≡ made) (λ e. FailsWhere (IsProgram made → ⊥) e) }
{
    let total = total(pieces)?;
    let starts = places(alloc, pieces)?;
    let start = last_of(starts.as_slice());
    if start >= total {
        return Err(refuse_long());
    }
    let monitors = layout.words(alloc)?;
    if !are_few(monitors.as_slice()) {
        return Err(refuse_long());
    }
    let code = link_pieces(alloc, pieces, starts.as_slice(), total)?;
    Ok(Image::new(layout.version(), monitors, start, code))
}

/// The image of pieces, which may come in any order: one behind the other by rising number, jumps led to places in
/// their pieces, calls and forks to where pieces begin. It begins where the last piece begins, and is of the layout's
/// version.
///
/// `StrayPiece` at 1:1 where a number is missing, doubled or foreign, `Limit` at 1:1 where the image wouldn't be
/// within the limits.
pub fn link(alloc: Global, layout: &Layout, pieces: Vec<CodePiece>) -> Result<Image, Refusal>
    ensures { MatchResult result (λ i. Links layout.now pieces.items i)
        (λ e. RefusesLinking layout.now pieces.items e) }
{
    let mut sorted = pieces;
    sorted.sort_unstable_by_key(|piece| piece.number);
    if !are_numbered(sorted.as_slice(), layout.pieces()) {
        return Err(refuse_stray());
    }
    link_sorted(alloc, layout, sorted.as_slice())
}
