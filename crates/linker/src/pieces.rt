ghost use Rattle.std.specs.Prelude.{◌≡◌, ◌<◌, ◌≤◌, ◌+◌, ◌++◌, true, false, map, slice_index, MatchResult};
ghost use Rattle.scanner.specs.Refusals.{out_of_memory};
ghost use Rattle.isa.specs.Limits.{most_instructions};
ghost use Rattle.lowering.specs.Marks.{instructions};
ghost use Rattle.lowering.specs.Linking.{linked_code};
ghost use Rattle.codegen.specs.Generated.{piece_of};
ghost use Rattle.codegen.specs.Failures.{too_long};
ghost use Rattle.linker.specs.Failures.{FailsWhere};
ghost use Rattle.linker.specs.Linked.{all_fit, code_from, length_of, places_from};

use crate::instruction::link_instruction;
use codegen::CodePiece;
use isa::{Instr, MOST_INSTRUCTIONS};
use lowering::Marked;
use scanner::{Place, Refusal, RefusalKind};
use std::alloc::Global;

// The refusal of code that isn't within the limits of an image.
pub(crate) fn refuse_long() -> Refusal
    ensures { result ≡ too_long }
{
    Refusal {
        kind: RefusalKind::Limit,
        place: Place::START,
    }
}

// How many instructions pieces have, which aren't too many.
pub(crate) fn total(pieces: &[CodePiece]) -> Result<u32, Refusal>
    ensures { MatchResult result (λ n. (n ≡ length_of (map piece_of pieces.now))
        × (n ≤ most_instructions))
        (λ e. (e ≡ too_long) × (most_instructions < length_of (map piece_of pieces.now))) }
{
    let mut total = 0;
    for piece in pieces {
        if piece.code.len() > MOST_INSTRUCTIONS - total {
            return Err(refuse_long());
        }
        total += piece.code.len();
    }
    Ok(total as u32)
}

// Where pieces begin, which aren't too long.
pub(crate) fn places(alloc: Global, pieces: &[CodePiece]) -> Result<Vec<u32>, Refusal>
    requires { length_of (map piece_of pieces.now) ≤ most_instructions }
    ensures { MatchResult result (λ v. v.items ≡ places_from 0 (map piece_of pieces.now))
        (λ e. e ≡ out_of_memory) }
{
    let mut places = Vec::with_capacity(alloc, pieces.len())?;
    let mut place = 0;
    for piece in pieces {
        places.push(place)?;
        place += piece.code.len() as u32;
    }
    Ok(places)
}

// One piece is linked behind the code before it.
fn link_piece(
    code: &[Marked],
    base: u32,
    starts: &[u32],
    total: u32,
    image: &mut Vec<Instr>,
) -> Result<(), Refusal>
    ensures { let made = instructions (linked_code (slice_index starts.now) base code.now) in
        MatchResult result (λ _. (image.new.items ≡ image.old.items ++ made)
        × (all_fit total made ≡ true))
        (λ e. FailsWhere (all_fit total made ≡ false) e) }
{
    image.reserve(code.len())?;
    for marked in code {
        let Some(instruction) = link_instruction(marked.instruction, base, starts, total) else {
            return Err(refuse_long());
        };
        image.push_reserved(instruction);
    }
    Ok(())
}

// All pieces are linked, one behind the other.
pub(crate) fn link_pieces(
    alloc: Global,
    pieces: &[CodePiece],
    starts: &[u32],
    total: u32,
) -> Result<Vec<Instr>, Refusal>
    requires is { total ≡ length_of (map piece_of pieces.now) }
    requires short { total ≤ most_instructions }
    ensures { let made = instructions
        (code_from (slice_index starts.now) 0 (map piece_of pieces.now)) in
        MatchResult result (λ v. (v.items ≡ made) × (all_fit total made ≡ true))
        (λ e. FailsWhere (all_fit total made ≡ false) e) }
{
    let mut image = Vec::with_capacity(alloc, total as usize)?;
    let mut base = 0;
    for piece in pieces {
        link_piece(piece.code.as_slice(), base, starts, total, &mut image)?;
        base += piece.code.len() as u32;
    }
    Ok(image)
}
