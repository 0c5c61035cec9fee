ghost use Rattle.std.specs.Prelude.{◌≡◌, ◌++◌, IfOk, OnOk, map};
ghost use Rattle.program.specs.Trees.{Program};
ghost use Rattle.lowering.specs.Pieces as pieces_of;
ghost use Rattle.codegen.specs.Generated.{piece_of, unlinked_pieces};

use codegen::CodePiece;
use lowering::{Mark, Marked};
use std::alloc::{AllocError, Global};

// The marks of one piece's code.
fn append_marks(code: &[Marked], marks: &mut Vec<Mark>) -> Result<(), AllocError>
    ensures { OnOk result (marks.new.items ≡ marks.old.items ++ map (λ i. i.mark) code.now) }
{
    for marked in code {
        marks.push(marked.mark)?;
    }
    Ok(())
}

/// The source action that stands at each place of a program's code, of its pieces in order.
pub(crate) fn collect_marks(alloc: Global, pieces: &[CodePiece]) -> Result<Vec<Mark>, AllocError>
    ensures { IfOk result (λ marks. (p : Program) → map piece_of pieces.now ≡ unlinked_pieces p
        → marks.items ≡ pieces_of.marks_of p) }
{
    let mut marks = Vec::new(alloc);
    for piece in pieces {
        append_marks(piece.code.as_slice(), &mut marks)?;
    }
    Ok(marks)
}
