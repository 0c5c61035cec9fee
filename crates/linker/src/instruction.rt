ghost use Rattle.std.specs.Prelude.{◌≡◌, ◌+◌, ◌<◌, ◌≤◌, true, false, slice_index, MatchOption};
ghost use Rattle.lowering.specs.Linking.{linked_instruction};
ghost use Rattle.linker.specs.Linked.{fits};

use isa::{Instr, MOST_ARGUMENTS, MOST_LOCALS, Slot};

// A place behind another, which lies in code of this length.
fn moved(base: u32, place: u32, total: u32) -> Option<u32>
    ensures { MatchOption result (total ≤ base + place) (λ p. (p ≡ base + place) × (p < total)) }
{
    let moved = base.checked_add(place)?;
    if moved < total { Some(moved) } else { None }
}

// The place where a piece begins, which lies in code of this length.
fn begin(starts: &[u32], piece: u32, total: u32) -> Option<u32>
    ensures { MatchOption result (total ≤ slice_index starts.now piece)
        (λ p. (p ≡ slice_index starts.now piece) × (p < total)) }
{
    let place = match starts.get(piece as usize) {
        Some(place) => *place,
        None => 0,
    };
    if place < total { Some(place) } else { None }
}

// An instruction of a piece where it is linked, if it is within the limits of an image.
pub(crate) fn link_instruction(
    instruction: Instr,
    base: u32,
    starts: &[u32],
    total: u32,
) -> Option<Instr>
    ensures { let made = linked_instruction (slice_index starts.now) base instruction in
        MatchOption result (fits total made ≡ false) (λ i. (i ≡ made) × (fits total made ≡ true)) }
{
    match instruction {
        Instr::Jump(place) => Some(Instr::Jump(moved(base, place, total)?)),
        Instr::JumpIfZero(place) => Some(Instr::JumpIfZero(moved(base, place, total)?)),
        Instr::Call(piece) => Some(Instr::Call(begin(starts, piece, total)?)),
        Instr::Fork(_, arguments) if arguments > MOST_ARGUMENTS => None,
        Instr::Fork(piece, arguments) => {
            Some(Instr::Fork(begin(starts, piece, total)?, arguments))
        }
        Instr::GetLocal(Slot::Local(n)) | Instr::SetLocal(Slot::Local(n)) if n >= MOST_LOCALS =>
            None,
        _ => Some(instruction),
    }
}
