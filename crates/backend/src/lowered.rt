ghost use Rattle.std.specs.Prelude.{◌≡◌, ◌≤◌, map, MatchResult};
ghost use Rattle.isa.specs.Programs.{IsProgram};
ghost use Rattle.program.specs.Names.{said_by};
ghost use Rattle.program.specs.Trees.{as_version};
ghost use Rattle.program.specs.WellFormed.{WellFormed};
ghost use Rattle.lowering.specs.Layout.{layout_of};
ghost use Rattle.lowering.specs.Pieces.{code_of};
ghost use Rattle.codegen.specs.Generated.{piece_of, unlinked_pieces};
ghost use Rattle.codegen_workers.specs.Limits.{most_workers};
ghost use Rattle.backend.specs.Lowered.{IsLowered};
ghost use Rattle.backend.specs.Refusals.{CodeFits, RefusesCode};

use crate::marking::collect_marks;
use codegen::{CodePiece, generate};
use codegen_workers::generate_with;
use isa::{Image, MOST_INSTRUCTIONS};
use layout::{Layout, place_as};
use linker::link;
use lowering::{Mark, Marked};
use program::Checked;
use scanner::Refusal;
use std::alloc::{AllocError, Global};
use std::sync::Wait;
use std::thread::Threads;
use words::{Gate, ImageVersion};

// Room for the code of the pieces, and for that of the image, which takes half as much.
const ROOM: usize = MOST_INSTRUCTIONS + MOST_INSTRUCTIONS / 2;

/// What a checked program is lowered to.
#[derive(Drop)]
pub struct Lowered {
    /// Its image.
    pub image: Image,
    /// Where the words of its monitors lie.
    pub layout: Layout,
    /// The source action that stands at each place of its code.
    pub marks: Vec<Mark>,
}

// Asks for as much memory as the code of an image may take, and gives it back. The C library's allocator gets its memory from
// the system as it's asked for, and keeps it: so it gets it at once, and not for each piece. Where there isn't so much,
// nothing is lost.
fn make_room(alloc: Global) {
    let room: Result<Vec<Marked>, AllocError> = Vec::with_capacity(alloc, ROOM);
    drop(room);
}

// A checked program is well formed. Nothing is done when it runs.
fn checked_is_well_formed(checked: &Checked)
    ensures { WellFormed (said_by checked.now) }
{
    checked.program();
}

// An image is within its limits. Nothing is done when it runs.
fn image_is_within_limits(image: &Image)
    ensures { IsProgram image.now }
{
    image.code();
}

// The image of a checked program with this layout and these pieces, of the layout's version.
fn assemble_image(
    alloc: Global,
    checked: &Checked,
    layout: &Layout,
    pieces: Vec<CodePiece>,
) -> Result<Image, Refusal>
    requires layout { layout.now
        ≡ layout_of (as_version layout.now.version (said_by checked.now)) }
    requires pieces { map piece_of pieces.items
        ≡ unlinked_pieces (as_version layout.now.version (said_by checked.now)) }
    ensures { let p = as_version layout.now.version (said_by checked.now) in
        MatchResult result (λ image. (image ≡ code_of p) × CodeFits p) (λ e. RefusesCode p e) }
{
    checked_is_well_formed(checked);
    let image = link(alloc, layout, pieces)?;
    image_is_within_limits(&image);
    Ok(image)
}

// What a checked program with this layout and these pieces is lowered to, for an image of the layout's version.
fn assemble(
    alloc: Global,
    checked: &Checked,
    layout: Layout,
    pieces: Vec<CodePiece>,
) -> Result<Lowered, Refusal>
    requires layout { layout ≡ layout_of (as_version layout.version (said_by checked.now)) }
    requires pieces { map piece_of pieces.items
        ≡ unlinked_pieces (as_version layout.version (said_by checked.now)) }
    ensures { let p = as_version layout.version (said_by checked.now) in
        MatchResult result (λ lowered. IsLowered p lowered) (λ e. RefusesCode p e) }
{
    let marks = collect_marks(alloc, pieces.as_slice())?;
    let image = assemble_image(alloc, checked, &layout, pieces)?;
    Ok(Lowered {
        image,
        layout,
        marks,
    })
}

/// Lowers a checked program for an image of this version: its memory is laid out, the code of each of its pieces made,
/// and the pieces linked.
///
/// `Limit` at 1:1 where its code has more than 65,536 instructions, and there alone. `Memory` may come at any point.
pub fn lower(alloc: Global, checked: &Checked, version: ImageVersion) -> Result<Lowered, Refusal>
    ensures { let p = as_version version (said_by checked.now) in
        MatchResult result (λ lowered. IsLowered p lowered) (λ e. RefusesCode p e) }
{
    make_room(alloc);
    let layout = place_as(alloc, checked, version)?;
    let pieces = generate(alloc, checked, &layout)?;
    assemble(alloc, checked, layout, pieces)
}

/// The image of a checked program as `lower` makes it, without what else `lower` tells of it.
///
/// The refusals are those of `lower`.
pub fn lower_image(
    alloc: Global,
    checked: &Checked,
    version: ImageVersion,
) -> Result<Image, Refusal>
    ensures { let p = as_version version (said_by checked.now) in
        MatchResult result (λ image. (image ≡ code_of p) × CodeFits p) (λ e. RefusesCode p e) }
{
    make_room(alloc);
    let layout = place_as(alloc, checked, version)?;
    let pieces = generate(alloc, checked, &layout)?;
    assemble_image(alloc, checked, &layout, pieces)
}

/// The image of a checked program as `lower` makes it, with the code of its pieces made by this many workers, from 1 to 64
/// (`codegen_workers::generate_with`).
///
/// The refusals are those of `lower`; `Memory` comes also where a worker can't be started.
pub fn lower_image_with<R: Threads + Wait + Sync, G: Gate>(
    rt: &R,
    alloc: Global,
    checked: &Checked,
    version: ImageVersion,
    workers: u32,
    gate: &G,
) -> Result<Image, Refusal>
    requires { (1 ≤ workers) × (workers ≤ most_workers) }
    ensures { let p = as_version version (said_by checked.now) in
        MatchResult result (λ image. (image ≡ code_of p) × CodeFits p) (λ e. RefusesCode p e) }
{
    make_room(alloc);
    let layout = place_as(alloc, checked, version)?;
    let pieces = generate_with(rt, alloc, checked, &layout, workers, gate)?;
    assemble_image(alloc, checked, &layout, pieces)
}
