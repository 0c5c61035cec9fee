ghost use Rattle.std.specs.Prelude.{◌≡◌, List, length, map, true, IsPermutation};
ghost use Rattle.isa.specs.Programs.{Program as Image};
ghost use Rattle.program.specs.Trees.{Program};
ghost use Rattle.lowering.specs.Layout.{layout_of};
ghost use Rattle.lowering.specs.Pieces.{code_of};
ghost use Rattle.codegen.specs.declared.code_piece.CodePiece.{CodePiece};
ghost use Rattle.codegen.specs.Generated.{piece_of, unlinked_pieces};
ghost use Rattle.linker.specs.Failures.{IsStray};
ghost use Rattle.linker.specs.Linked.{Links, are_from};

/// The pieces of a program have the numbers below their count, each once, and however they come, the image that links
/// them is the program's.
pub fn program_laws()
    ensures numbered { (p : Program) → are_from 0 (length p.procedures) (unlinked_pieces p) ≡ true }
    ensures linked { (p : Program) (pieces : List CodePiece) (image : Image)
        → IsPermutation (unlinked_pieces p) (map piece_of pieces) → Links (layout_of p) pieces image
        → image ≡ code_of p }
    ensures known { (p : Program) (pieces : List CodePiece)
        → IsPermutation (unlinked_pieces p) (map piece_of pieces)
        → IsStray (length p.procedures) pieces → ⊥ }
{}
