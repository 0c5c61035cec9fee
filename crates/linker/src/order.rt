ghost use Rattle.std.specs.Prelude.{◌≡◌, map};
ghost use Rattle.codegen.specs.Generated.{piece_of};
ghost use Rattle.linker.specs.Linked.{are_from};

use codegen::CodePiece;

// The pieces have all numbers below the count, rising by one.
pub(crate) fn are_numbered(pieces: &[CodePiece], count: usize) -> bool
    ensures { result ≡ are_from 0 count (map piece_of pieces.now) }
{
    let mut expected = 0;
    for piece in pieces {
        if piece.number != expected {
            return false;
        }
        expected += 1;
    }
    expected == count
}
