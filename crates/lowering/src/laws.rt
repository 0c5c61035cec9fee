ghost use Rattle.std.specs.Prelude.{◌≡◌, ◌<◌, ℕ, Some, slice_get};
ghost use Rattle.program.specs.Trees.{Program, Procedure};
ghost use Rattle.lowering.specs.Cells.{Cell, IsCell, address};
ghost use Rattle.lowering.specs.Pieces.{marked_code, piece_code, start_of, unlinked_code};
ghost use Rattle.lowering.specs.Rebasing.{StandsFrom};
ghost use Rattle.lowering.specs.Linking.{linked_code};

/// No two words of a program have one address, and none has the address 0.
pub fn cell_laws()
    ensures apart { (p : Program) (c d : Cell) → IsCell p c → IsCell p d → address p c ≡ address p d
        → c ≡ d }
    ensures above { (p : Program) (c : Cell) → IsCell p c → 0 < address p c }
{}

/// The code of a program has each procedure's code at the place where that piece begins, and its calls lead there.
pub fn piece_laws()
    ensures { (p : Program) (n : ℕ) (q : Procedure) → slice_get p.procedures n ≡ Some q
        → StandsFrom (marked_code p) (start_of p n) (piece_code p (start_of p) q (start_of p n)) }
{}

/// A procedure's code that is linked, at a place and with the places where pieces begin, is its code at that place.
pub fn link_laws()
    ensures { (p : Program) (starts : ℕ → ℕ) (q : Procedure) (place : ℕ)
        → linked_code starts place (unlinked_code p q) ≡ piece_code p starts q place }
{}
